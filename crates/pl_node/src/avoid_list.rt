ghost use Rattle.std.specs.Prelude.{◌≡◌, ◌↔◌, ◌&&◌, ℕ, not, [], IfOk, IsTrue, None, OnErr, OnOk, Some, option_map, unwrap_or};
ghost use Rattle.std.specs.BTreeSet.{insert_key};
ghost use Rattle.std.specs.Ordering.{is_eq};
ghost use Rattle.std.specs.List.{list_any};
ghost use Rattle.pl_frame.specs.declared.address.SwitchId.{SwitchId};
ghost use Rattle.pl_node.specs.AvoidLists.{avoided_cmp, is_for};
ghost use Rattle.pl_node.specs.AvoidRows.{is_listed};
ghost use Rattle.pl_node.specs.Hidden.{hidden_at, shown};

use crate::Memory;
use crate::avoid_bits::{AvoidBits, shown_entries};
use crate::hidden::{Hidden, are_alike, hidden_at};
use pl_frame::SwitchId;
use pl_lists::Rising;
use std::alloc::Global;
use std::marker::Model;
use std::rc::Rc;

/// The neighbours above a switch through which a pod and position cannot be reached: contracts see the list
/// of them, each an id, a pod and a position, rising. Copies share its rows, and so do lists that leave out
/// different things of the same rows.
#[derive(Debug, Drop)]
pub struct AvoidList {
    alloc: Global,
    rows: Option<Rc<AvoidBits>>,
    hidden: Option<Hidden>,
}

impl Model for AvoidList {
    ghost use Rattle.std.specs.Prelude.{List, ℕ, [], unwrap_or};
    ghost use Rattle.std.specs.Option.{option_map};
    ghost use Rattle.pl_frame.specs.declared.address.SwitchId.{SwitchId};
    ghost use Rattle.pl_node.specs.Hidden.{shown};

    ghost Value = { List (SwitchId × ℕ × ℕ) };

    ghost view = { λ list. shown list.hidden (unwrap_or (option_map (λ rc. rc.value) list.rows) []) };
}

impl AvoidList {
    #[tactic(auto, unfolding(crate::specs::Hidden::shown))]
    pub fn new(alloc: Global) -> AvoidList
        ensures { result ≡ [] }
    {
        AvoidList {
            alloc,
            rows: None,
            hidden: None,
        }
    }

    /// The list that was made in rows.
    pub fn of(alloc: Global, rows: AvoidBits) -> Result<AvoidList, Memory>
        ensures { IfOk result (λ list. list ≡ rows) }
    {
        if rows.is_bare() {
            return Ok(AvoidList::new(alloc));
        }
        let rows = Rc::new(alloc, rows)?;
        Ok(AvoidList {
            alloc,
            rows: Some(rows),
            hidden: None,
        })
    }

    /// Whether an entry is there.
    pub fn contains(&self, entry: &(SwitchId, u16, u8)) -> bool
        ensures { result ≡ list_any (λ x. is_eq (avoided_cmp entry.now x)) self.now }
    {
        if hidden_at(self.hidden, entry.1, entry.2) {
            return false;
        }
        let none = AvoidBits::new(self.alloc);
        rows_or(&self.rows, &none).contains(entry)
    }

    /// Whether some entry is for a pod and a position.
    pub fn has_address(&self, pod: u16, position: u8) -> bool
        ensures { result ≡ list_any (is_for pod position) self.now }
    {
        if hidden_at(self.hidden, pod, position) {
            return false;
        }
        let none = AvoidBits::new(self.alloc);
        rows_or(&self.rows, &none).has_address(pod, position)
    }

    /// Puts an entry where it goes, unless it is there already.
    pub fn insert(&mut self, entry: (SwitchId, u16, u8)) -> Result<(), Memory>
        ensures ok { OnOk result (self.new ≡ insert_key avoided_cmp self.old entry) }
        ensures err { OnErr result (self.new ≡ self.old) }
    {
        *self = self.with(entry)?;
        Ok(())
    }

    // The list with one more entry.
    fn with(&self, entry: (SwitchId, u16, u8)) -> Result<AvoidList, Memory>
        ensures { IfOk result (λ list. list ≡ insert_key avoided_cmp self.now entry) }
    {
        let mut rows = self.bits()?;
        rows.insert(entry)?;
        let list = AvoidList::of(self.alloc, rows)?;
        Ok(list)
    }

    // Rows of its own, of which nothing is hidden.
    fn bits(&self) -> Result<AvoidBits, Memory>
        ensures { IfOk result (λ bits. bits ≡ self.now) }
    {
        let none = AvoidBits::new(self.alloc);
        let bits = rows_or(&self.rows, &none).shown(self.alloc, self.hidden)?;
        Ok(bits)
    }

    /// The list without the entries for a pod, or for one position of it. It shares the rows where nothing
    /// was left out before.
    pub fn hiding(&self, hidden: Hidden) -> Result<AvoidList, Memory>
        ensures { IfOk result (λ list. list ≡ shown (Some hidden) self.now) }
    {
        let rows = self.shown_rows()?;
        Ok(AvoidList {
            alloc: self.alloc,
            rows,
            hidden: Some(hidden),
        })
    }

    // Rows of which nothing is hidden, for the same list.
    fn shown_rows(&self) -> Result<Option<Rc<AvoidBits>>, Memory>
        ensures { IfOk result (λ rows. unwrap_or (option_map (λ rc. rc.value) rows) [] ≡ self.now) }
    {
        match self.hidden {
            None => {
                let rows = shared_rows(&self.rows)?;
                Ok(rows)
            }
            Some(_) => {
                let rows = Rc::new(self.alloc, self.bits()?)?;
                Ok(Some(rows))
            }
        }
    }

    /// Those of its entries that another list has not.
    pub fn without(&self, other: &AvoidList) -> Result<Rising<(SwitchId, u16, u8)>, Memory>
        ensures { IfOk result (λ list. (x : SwitchId × ℕ × ℕ) →
            is_listed x list ≡ (is_listed x self.now && not (is_listed x other.now))) }
    {
        if are_alike(self.hidden, other.hidden) {
            let list = rows_without(self.alloc, &self.rows, &other.rows)?;
            let left = left_shown(self.alloc, list, self.hidden)?;
            return Ok(left);
        }
        let own = self.bits()?;
        let others = other.bits()?;
        let rest = own.without(&others)?;
        Ok(rest)
    }

    /// All its entries, in order.
    pub fn entries(&self) -> Result<Rising<(SwitchId, u16, u8)>, Memory>
        ensures { IfOk result (λ list. list ≡ self.now) }
    {
        let none = AvoidBits::new(self.alloc);
        let list = rows_or(&self.rows, &none).entries()?;
        let left = left_shown(self.alloc, list, self.hidden)?;
        Ok(left)
    }

    /// Whether another list is the same.
    pub fn is(&self, other: &AvoidList) -> bool
        ensures { IsTrue result ↔ (self.now ≡ other.now) }
    {
        let none = AvoidBits::new(self.alloc);
        let own = rows_or(&self.rows, &none);
        let others = rows_or(&other.rows, &none);
        if are_alike(self.hidden, other.hidden) {
            return own.is_but(self.hidden, others);
        }
        own.is_shown_as(self.hidden, others, other.hidden)
    }

    /// Whether there are no entries.
    pub fn is_empty(&self) -> bool
        ensures { IsTrue result ↔ (self.now ≡ []) }
    {
        let none = AvoidBits::new(self.alloc);
        rows_or(&self.rows, &none).is_but(self.hidden, &none)
    }

    /// The same list, whose rows both then share.
    pub fn copied(&self, alloc: Global) -> Result<AvoidList, Memory>
        ensures { IfOk result (λ copy. copy ≡ self.now) }
    {
        let rows = shared_rows(&self.rows)?;
        Ok(AvoidList {
            alloc,
            rows,
            hidden: self.hidden,
        })
    }
}

// The rows, or these, which are of nothing.
fn rows_or<'a>(rows: &'a Option<Rc<AvoidBits>>, none: &'a AvoidBits) -> &'a AvoidBits
    requires { none.now ≡ [] }
    ensures { result.now ≡ unwrap_or (option_map (λ rc. rc.value) rows.now) [] }
{
    match rows {
        Some(rows) => rows.as_ref(),
        None => none,
    }
}

fn shared_rows(rows: &Option<Rc<AvoidBits>>) -> Result<Option<Rc<AvoidBits>>, Memory>
    ensures { IfOk result (λ shared. unwrap_or (option_map (λ rc. rc.value) shared) [] ≡ unwrap_or (option_map (λ rc. rc.value) rows.now) []) }
{
    match rows {
        Some(rows) => Ok(Some(rows.clone()?)),
        None => Ok(None),
    }
}

// What some rows have and others have not.
fn rows_without(
    alloc: Global,
    rows: &Option<Rc<AvoidBits>>,
    others: &Option<Rc<AvoidBits>>,
) -> Result<Rising<(SwitchId, u16, u8)>, Memory>
    ensures { IfOk result (λ list. (x : SwitchId × ℕ × ℕ) →
        is_listed x list ≡ (is_listed x (unwrap_or (option_map (λ rc. rc.value) rows.now) []) && not (is_listed x (unwrap_or (option_map (λ rc. rc.value) others.now) [])))) }
{
    let none = AvoidBits::new(alloc);
    let list = rows_or(rows, &none).without(rows_or(others, &none))?;
    Ok(list)
}

// The entries that are not hidden.
fn left_shown(
    alloc: Global,
    list: Rising<(SwitchId, u16, u8)>,
    hidden: Option<Hidden>,
) -> Result<Rising<(SwitchId, u16, u8)>, Memory>
    ensures each { IfOk result (λ left. (x : SwitchId × ℕ × ℕ) → is_listed x left ≡ (is_listed x list && not (hidden_at hidden x.1 x.2))) }
    ensures whole { IfOk result (λ left. left ≡ shown hidden list) }
{
    match hidden {
        None => Ok(list),
        Some(_) => {
            let left = shown_entries(alloc, list.as_slice(), hidden)?;
            let _in_order = left.as_slice();
            Ok(left)
        }
    }
}
