ghost use Rattle.std.specs.Prelude.{◌≡◌, ◌↔◌, ◌+◌, ◌-◌, ◌*◌, ◌&&◌, ◌<◌, ◌≤◌, ℕ, List, min, not, [], IfOk, IsTrue, OnErr, OnOk, fold, if◌then◌else◌};
ghost use Rattle.std.specs.BTreeSet.{insert_key};
ghost use Rattle.std.specs.Ordering.{is_eq};
ghost use Rattle.std.specs.List.{list_any, range_with_len};
ghost use Rattle.std.specs.List.Sorted.{IsStrictlySortedBy};
ghost use Rattle.pl_frame.specs.declared.address.SwitchId.{SwitchId};
ghost use Rattle.pl_node.specs.AvoidLists.{avoided_cmp, is_for};
ghost use Rattle.pl_node.specs.Hidden.{hidden_at, shown};
ghost use Rattle.pl_node.specs.AvoidRows.{AreApart, AreListed, AreSameBeyond, Gains, entries_of, is_listed, listed_in, stands_for};

use crate::Memory;
use crate::avoid_row::{AvoidRow, NUMBERS, put, rows_have, some_has};
use crate::avoid_within::{are_apart, are_within};
use crate::hidden::{Hidden, hidden_at};
use pl_frame::SwitchId;
use pl_lists::Rising;
use std::alloc::Global;
use std::marker::Model;

/// An avoid list that is being made: contracts see the list. It is kept in rows of bits, one for each neighbour
/// above, and beside them stands what has no bit.
#[derive(Debug, Drop)]
pub struct AvoidBits {
    alloc: Global,
    rows: Vec<AvoidRow>,
    others: Rising<(SwitchId, u16, u8)>,
}

impl Model for AvoidBits {
    ghost use Rattle.std.specs.Prelude.{List, ℕ};
    ghost use Rattle.pl_frame.specs.declared.address.SwitchId.{SwitchId};

    ghost Value = { List (SwitchId × ℕ × ℕ) };

    ghost use Rattle.pl_node.specs.AvoidRows.{listed_in};

    ghost view = { λ list. listed_in list.rows.items list.others };
}

impl AvoidBits {
    #[tactic(auto, unfolding(crate::specs::AvoidRows::listed_in))]
    pub fn new(alloc: Global) -> AvoidBits
        ensures { result ≡ [] }
    {
        AvoidBits {
            alloc,
            rows: Vec::new(alloc),
            others: Rising::new(alloc),
        }
    }

    /// Whether an entry is there.
    pub(crate) fn contains(&self, entry: &(SwitchId, u16, u8)) -> bool
        ensures { result ≡ list_any (λ x. is_eq (avoided_cmp entry.now x)) self.now }
    {
        has_entry(self.rows.as_slice(), &self.others, *entry)
    }

    /// Whether some entry is for a pod and a position.
    pub(crate) fn has_address(&self, pod: u16, position: u8) -> bool
        ensures { result ≡ list_any (is_for pod position) self.now }
    {
        has_address(self.rows.as_slice(), self.others.as_slice(), pod, position)
    }

    /// Puts an entry where it goes, unless it is there already.
    pub fn insert(&mut self, entry: (SwitchId, u16, u8)) -> Result<(), Memory>
        ensures ok { OnOk result (self.new ≡ insert_key avoided_cmp self.old entry) }
        ensures err { OnErr result (self.new ≡ self.old) }
    {
        put_entry(&mut self.rows, &mut self.others, entry)
    }

    /// Puts in what the bits of a row stand for.
    pub fn insert_row(&mut self, row: AvoidRow) -> Result<(), Memory>
        ensures ok { OnOk result (self.new ≡ fold (insert_key avoided_cmp) self.old (entries_of row)) }
        ensures err { OnErr result (self.new ≡ self.old) }
        ensures rising { IsStrictlySortedBy avoided_cmp self.old }
    {
        put_row(&mut self.rows, self.others.as_slice(), row)
    }

    /// Those of its entries that another list has not.
    pub(crate) fn without(&self, other: &AvoidBits) -> Result<Rising<(SwitchId, u16, u8)>, Memory>
        ensures { IfOk result (λ list. (x : SwitchId × ℕ × ℕ) →
            is_listed x list ≡ (is_listed x self.now && not (is_listed x other.now))) }
    {
        let list = left_over(
            self.alloc,
            self.rows.as_slice(),
            self.others.as_slice(),
            other,
        )?;
        Ok(list)
    }

    /// All its entries, in order.
    pub(crate) fn entries(&self) -> Result<Rising<(SwitchId, u16, u8)>, Memory>
        ensures { IfOk result (λ list. list ≡ self.now) }
    {
        let none = AvoidBits::new(self.alloc);
        let list = self.without(&none)?;
        let _in_order = list.as_slice();
        Ok(list)
    }

    /// Whether another list is the same.
    pub(crate) fn is(&self, other: &AvoidBits) -> bool
        ensures { IsTrue result ↔ (self.now ≡ other.now) }
    {
        self.is_but(None, other)
    }

    /// Whether another list is the same apart from what is hidden.
    pub(crate) fn is_but(&self, hidden: Option<Hidden>, other: &AvoidBits) -> bool
        ensures { IsTrue result ↔ (shown hidden self.now ≡ shown hidden other.now) }
    {
        self.has_same_rows(other) || self.has_same_shown(hidden, other)
    }

    // Whether another list is kept in the same rows, with nothing beside them.
    fn has_same_rows(&self, other: &AvoidBits) -> bool
        ensures { IsTrue result → self.now ≡ other.now }
    {
        are_same_rows(
            self.rows.as_slice(),
            &self.others,
            other.rows.as_slice(),
            &other.others,
        )
    }

    fn has_same_shown(&self, hidden: Option<Hidden>, other: &AvoidBits) -> bool
        ensures { IsTrue result ↔ (shown hidden self.now ≡ shown hidden other.now) }
    {
        self.is_within(hidden, other) && other.is_within(hidden, self)
    }

    /// Whether what is not hidden here is what is not hidden of another list.
    pub(crate) fn is_shown_as(
        &self,
        hidden: Option<Hidden>,
        other: &AvoidBits,
        also: Option<Hidden>,
    ) -> bool
        ensures { IsTrue result ↔ (shown hidden self.now ≡ shown also other.now) }
    {
        self.is_in_shown(hidden, other, also) && other.is_in_shown(also, self, hidden)
    }

    // Whether another list shows all that is shown here.
    fn is_in_shown(&self, hidden: Option<Hidden>, other: &AvoidBits, also: Option<Hidden>) -> bool
        ensures within { IsTrue result ↔ AreListed (λ x. is_listed x (shown hidden self.now)) (shown also other.now) }
        ensures rising { IsStrictlySortedBy avoided_cmp self.now }
    {
        self.is_within(hidden, other) && self.is_apart(hidden, also)
    }

    // Whether nothing is shown here that is hidden there.
    fn is_apart(&self, hidden: Option<Hidden>, also: Option<Hidden>) -> bool
        ensures { IsTrue result ↔ AreApart (λ x. is_listed x (shown hidden self.now)) also }
    {
        are_apart(self.rows.as_slice(), self.others.as_slice(), hidden, also)
    }

    /// What is not hidden, as a list of its own.
    pub(crate) fn shown(&self, alloc: Global, hidden: Option<Hidden>) -> Result<AvoidBits, Memory>
        ensures { IfOk result (λ list. list ≡ shown hidden self.now) }
    {
        let rows = shown_rows(alloc, self.rows.as_slice(), hidden)?;
        let others = shown_entries(alloc, self.others.as_slice(), hidden)?;
        Ok(AvoidBits {
            alloc,
            rows,
            others,
        })
    }

    /// Whether there are no entries.
    pub(crate) fn is_empty(&self) -> bool
        ensures { IsTrue result ↔ (self.now ≡ []) }
    {
        self.is(&AvoidBits::new(self.alloc))
    }

    // Whether another list has all its entries that are not hidden.
    fn is_within(&self, hidden: Option<Hidden>, other: &AvoidBits) -> bool
        ensures within { IsTrue result ↔ AreListed (λ x. is_listed x (shown hidden self.now)) other.now }
        ensures rising { IsStrictlySortedBy avoided_cmp self.now }
    {
        are_within(self.rows.as_slice(), self.others.as_slice(), hidden, other)
    }

    /// Whether a row stands among the rows.
    pub(crate) fn has_row(&self, row: &AvoidRow) -> bool
        ensures { IsTrue result → AreListed (λ x. is_listed x (entries_of row.now)) self.now }
    {
        has_row(self.rows.as_slice(), row)
    }

    /// A row without the bits that stand in the row of its neighbour here.
    pub(crate) fn beyond(&self, row: &AvoidRow) -> AvoidRow
        ensures { AreSameBeyond result row.now self.now }
    {
        beyond(self.rows.as_slice(), self.others.as_slice(), row)
    }

    /// Whether nothing was put in.
    pub(crate) fn is_bare(&self) -> bool
        ensures { IsTrue result → self.now ≡ [] }
    {
        are_bare(self.rows.as_slice(), &self.others)
    }

    /// A list of its own with the same entries.
    pub(crate) fn copied(&self, alloc: Global) -> Result<AvoidBits, Memory>
        ensures { IfOk result (λ copy. copy ≡ self.now) }
    {
        let rows = Vec::from_slice(alloc, self.rows.as_slice())?;
        let others = self.others.copied(alloc)?;
        Ok(AvoidBits {
            alloc,
            rows,
            others,
        })
    }
}

fn has_entry(
    rows: &[AvoidRow],
    others: &Rising<(SwitchId, u16, u8)>,
    entry: (SwitchId, u16, u8),
) -> bool
    ensures { result ≡ is_listed entry (listed_in rows.now others.now) }
{
    rows_have(rows, entry) || others.contains(&entry)
}

fn has_address(rows: &[AvoidRow], others: &[(SwitchId, u16, u8)], pod: u16, position: u8) -> bool
    ensures { result ≡ list_any (is_for pod position) (listed_in rows.now others.now) }
{
    some_has(rows, AvoidRow::number_of(pod, position)) || some_for(others, pod, position)
}

fn some_for(entries: &[(SwitchId, u16, u8)], pod: u16, position: u8) -> bool
    ensures { result ≡ list_any (is_for pod position) entries.now }
{
    entries.iter().any(|x| x.1 == pod && x.2 == position)
}

fn put_entry(
    rows: &mut Vec<AvoidRow>,
    others: &mut Rising<(SwitchId, u16, u8)>,
    entry: (SwitchId, u16, u8),
) -> Result<(), Memory>
    ensures ok { OnOk result (listed_in rows.new.items others.new ≡ insert_key avoided_cmp (listed_in rows.old.items others.old) entry) }
    ensures err { OnErr result (listed_in rows.new.items others.new ≡ listed_in rows.old.items others.old) }
{
    match AvoidRow::number_of(entry.1, entry.2) {
        Some(number) => put(rows, entry.0, number),
        None => others.insert(entry),
    }
}

// One more row, unless it has no bit.
fn put_row(
    rows: &mut Vec<AvoidRow>,
    others: &[(SwitchId, u16, u8)],
    row: AvoidRow,
) -> Result<(), Memory>
    ensures ok { OnOk result (listed_in rows.new.items others.now ≡ fold (insert_key avoided_cmp) (listed_in rows.old.items others.now) (entries_of row)) }
    ensures err { OnErr result (rows.new.items ≡ rows.old.items) }
    ensures rising { IsStrictlySortedBy avoided_cmp (listed_in rows.old.items others.now) }
{
    if is_blank(&row) {
        return Ok(());
    }
    rows.push(row)?;
    Ok(())
}

fn is_blank(row: &AvoidRow) -> bool
    ensures { IsTrue result → entries_of row.now ≡ [] }
{
    let blank = AvoidRow::of(row.neighbour);
    is_same_row(row, &blank)
}

// What the rows and the entries beside them have that another list has not.
fn left_over(
    alloc: Global,
    rows: &[AvoidRow],
    others: &[(SwitchId, u16, u8)],
    other: &AvoidBits,
) -> Result<Rising<(SwitchId, u16, u8)>, Memory>
    ensures { IfOk result (λ list. (x : SwitchId × ℕ × ℕ) →
        is_listed x list ≡ (is_listed x (listed_in rows.now others.now) && not (is_listed x other.now))) }
{
    let mut list = Rising::new(alloc);
    add_rows(&mut list, rows, other)?;
    add_others(&mut list, others, other)?;
    Ok(list)
}

fn add_rows(
    list: &mut Rising<(SwitchId, u16, u8)>,
    rows: &[AvoidRow],
    other: &AvoidBits,
) -> Result<(), Memory>
    ensures { OnOk result (Gains list.old list.new other.now (λ x. list_any (λ row. is_listed x (entries_of row)) rows.now)) }
{
    for row in rows {
        add_row(list, row, other)?;
    }
    Ok(())
}

fn add_row(
    list: &mut Rising<(SwitchId, u16, u8)>,
    row: &AvoidRow,
    other: &AvoidBits,
) -> Result<(), Memory>
    ensures { OnOk result (Gains list.old list.new other.now (λ x. is_listed x (entries_of row.now))) }
{
    if other.has_row(row) {
        return Ok(());
    }
    add_beyond(list, row, other)
}

// The same by the bits beyond those of the other list.
fn add_beyond(
    list: &mut Rising<(SwitchId, u16, u8)>,
    row: &AvoidRow,
    other: &AvoidBits,
) -> Result<(), Memory>
    ensures { OnOk result (Gains list.old list.new other.now (λ x. is_listed x (entries_of row.now))) }
{
    add_numbers(list, &other.beyond(row), other)
}

fn add_numbers(
    list: &mut Rising<(SwitchId, u16, u8)>,
    row: &AvoidRow,
    other: &AvoidBits,
) -> Result<(), Memory>
    ensures { OnOk result (Gains list.old list.new other.now (λ x. is_listed x (entries_of row.now))) }
{
    for word in 0..5 {
        add_word(list, row, word, other)?;
    }
    Ok(())
}

// The same by one word of the bits, unless none is set there.
fn add_word(
    list: &mut Rising<(SwitchId, u16, u8)>,
    row: &AvoidRow,
    word: usize,
    other: &AvoidBits,
) -> Result<(), Memory>
    requires { word < 5 }
    ensures { OnOk result (Gains list.old list.new other.now
        (λ x. list_any (stands_for row.now x) (range_with_len (word * 64) (min (word * 64 + 64) 288 - word * 64)))) }
{
    if row.is_clear(word) {
        return Ok(());
    }
    add_range(list, row, word * 64, (word * 64 + 64).min(NUMBERS), other)
}

fn add_range(
    list: &mut Rising<(SwitchId, u16, u8)>,
    row: &AvoidRow,
    from: usize,
    end: usize,
    other: &AvoidBits,
) -> Result<(), Memory>
    requires order { from ≤ end }
    requires within { end ≤ 288 }
    ensures { OnOk result (Gains list.old list.new other.now (λ x. list_any (stands_for row.now x) (range_with_len from (end - from)))) }
{
    for number in from..end {
        add_number(list, row, number, other)?;
    }
    Ok(())
}

fn add_number(
    list: &mut Rising<(SwitchId, u16, u8)>,
    row: &AvoidRow,
    number: usize,
    other: &AvoidBits,
) -> Result<(), Memory>
    requires { number < 288 }
    ensures { OnOk result (Gains list.old list.new other.now (λ x. stands_for row.now x number)) }
{
    if !row.has(number) {
        return Ok(());
    }
    add_unless(list, row.entry(number), other)
}

fn add_others(
    list: &mut Rising<(SwitchId, u16, u8)>,
    others: &[(SwitchId, u16, u8)],
    other: &AvoidBits,
) -> Result<(), Memory>
    ensures { OnOk result (Gains list.old list.new other.now (λ x. is_listed x others.now)) }
{
    for entry in others {
        add_unless(list, *entry, other)?;
    }
    Ok(())
}

// Puts an entry in, unless the other list has it.
fn add_unless(
    list: &mut Rising<(SwitchId, u16, u8)>,
    entry: (SwitchId, u16, u8),
    other: &AvoidBits,
) -> Result<(), Memory>
    ensures { OnOk result (Gains list.old list.new other.now (λ x. is_eq (avoided_cmp x entry))) }
{
    if other.contains(&entry) {
        return Ok(());
    }
    list.insert(entry)
}

fn has_row(rows: &[AvoidRow], row: &AvoidRow) -> bool
    ensures { IsTrue result → (others : List (SwitchId × ℕ × ℕ)) → AreListed (λ x. is_listed x (entries_of row.now)) (listed_in rows.now others) }
{
    for one in rows {
        if is_same_row(one, row) {
            return true;
        }
    }
    false
}

// A row without the bits that stand in the row of its neighbour among these.
fn beyond(rows: &[AvoidRow], others: &[(SwitchId, u16, u8)], row: &AvoidRow) -> AvoidRow
    ensures { AreSameBeyond result row.now (listed_in rows.now others.now) }
{
    for one in rows {
        if is_beside(one, row) {
            return row.without(one);
        }
    }
    *row
}

// Whether two rows are of one neighbour.
fn is_beside(a: &AvoidRow, b: &AvoidRow) -> bool
    ensures { IsTrue result → a.now.neighbour ≡ b.now.neighbour }
{
    a.neighbour == b.neighbour
}

fn are_same_rows(
    rows: &[AvoidRow],
    others: &Rising<(SwitchId, u16, u8)>,
    more: &[AvoidRow],
    other: &Rising<(SwitchId, u16, u8)>,
) -> bool
    ensures { IsTrue result → listed_in rows.now others.now ≡ listed_in more.now other.now }
{
    others.is_empty() && other.is_empty() && are_equal(rows, more)
}

fn are_equal(a: &[AvoidRow], b: &[AvoidRow]) -> bool
    ensures { IsTrue result → a.now ≡ b.now }
{
    a == b
}

// Whether there is neither a row nor an entry beside the rows.
fn are_bare(rows: &[AvoidRow], others: &Rising<(SwitchId, u16, u8)>) -> bool
    ensures { IsTrue result → listed_in rows.now others.now ≡ [] }
{
    others.is_empty() && has_none(rows)
}

fn has_none(rows: &[AvoidRow]) -> bool
    ensures { IsTrue result → rows.now ≡ [] }
{
    rows.is_empty()
}

fn is_same_row(a: &AvoidRow, b: &AvoidRow) -> bool
    ensures { IsTrue result → a.now ≡ b.now }
{
    a == b
}

// The rows without what is hidden.
fn shown_rows(
    alloc: Global,
    rows: &[AvoidRow],
    hidden: Option<Hidden>,
) -> Result<Vec<AvoidRow>, Memory>
    ensures { IfOk result (λ left. (x : SwitchId × ℕ × ℕ) → list_any (λ row. is_listed x (entries_of row)) left.items
        ≡ (list_any (λ row. is_listed x (entries_of row)) rows.now && not (hidden_at hidden x.1 x.2))) }
{
    let mut left = Vec::with_capacity(alloc, rows.len())?;
    for row in rows {
        left.push(row.shown(hidden))?;
    }
    Ok(left)
}

/// The entries of a list that are not hidden.
pub(crate) fn shown_entries(
    alloc: Global,
    entries: &[(SwitchId, u16, u8)],
    hidden: Option<Hidden>,
) -> Result<Rising<(SwitchId, u16, u8)>, Memory>
    ensures { IfOk result (λ left. (x : SwitchId × ℕ × ℕ) → is_listed x left ≡ (is_listed x entries.now && not (hidden_at hidden x.1 x.2))) }
{
    let mut left = Rising::new(alloc);
    for entry in entries {
        add_shown(&mut left, *entry, hidden)?;
    }
    Ok(left)
}

fn add_shown(
    left: &mut Rising<(SwitchId, u16, u8)>,
    entry: (SwitchId, u16, u8),
    hidden: Option<Hidden>,
) -> Result<(), Memory>
    ensures { OnOk result (left.new ≡ (if hidden_at hidden entry.1 entry.2 then left.old else insert_key avoided_cmp left.old entry)) }
{
    if hidden_at(hidden, entry.1, entry.2) {
        return Ok(());
    }
    left.insert(entry)
}
