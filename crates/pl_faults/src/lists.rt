ghost use Rattle.std.specs.Prelude.{◌≡◌, [], IfOk, OnOk, None, Some, fold, if◌then◌else◌, unwrap_or};
ghost use Rattle.std.specs.BTreeMap.{is_at};
ghost use Rattle.std.specs.Option.{option_copied};
ghost use Rattle.std.specs.List.Sorted.{IsStrictlySortedBy};
ghost use Rattle.std.specs.Map.{keys_of};
ghost use Rattle.pl_frame.specs.declared.address.SwitchId.{SwitchId};
ghost use Rattle.pl_node.specs.ManagerViews.{id_cmp, value_at};
ghost use Rattle.pl_manager_rule.specs.ManagerRule.{same_avoid_list};
ghost use Rattle.pl_faults.specs.Kept.{with_differing, with_note};

use pl_frame::SwitchId;
use pl_node::{AvoidList, Memory, SwitchList};
use std::alloc::Global;
use std::collections::BTreeMap;

/// Lists of switches.
pub(crate) type Lists = BTreeMap<SwitchId, AvoidList>;

/// Puts in a list, and takes out the one before, an empty one where there was none.
pub(crate) fn replace(
    lists: &mut Lists,
    alloc: Global,
    switch: SwitchId,
    list: AvoidList,
) -> Result<AvoidList, Memory>
    ensures old { IfOk result (λ old. old ≡ unwrap_or (value_at id_cmp lists.old.entries switch) []) }
    ensures now { OnOk result ((t : SwitchId) → value_at id_cmp lists.new.entries t ≡ (if is_at (id_cmp switch) t then Some list else value_at id_cmp lists.old.entries t)) }
{
    match lists.insert(switch, list)? {
        Some(old) => Ok(old),
        None => Ok(AvoidList::new(alloc)),
    }
}

/// Notes a list, unless one is noted.
pub(crate) fn note(before: &mut Lists, switch: SwitchId, old: AvoidList) -> Result<(), Memory>
    ensures { OnOk result ((t : SwitchId) → value_at id_cmp before.new.entries t ≡ with_note (value_at id_cmp before.old.entries t) (is_at (id_cmp switch) t) old) }
{
    if before.contains_key(&switch) {
        return Ok(());
    }
    before.insert(switch, old)?;
    Ok(())
}

/// The switches whose list is another than was noted, by rising id.
pub(crate) fn differing(alloc: Global, lists: &Lists, before: &Lists) -> Result<SwitchList, Memory>
    ensures list { IfOk result (λ list. list ≡ fold (with_differing lists.now.entries) [] before.now.entries) }
    ensures rising { IsStrictlySortedBy id_cmp (keys_of before.now.entries) }
{
    let mut list = SwitchList::new(alloc);
    for (switch, old) in before.iter() {
        add_differing(&mut list, lists, *switch, old)?;
    }
    Ok(list)
}

fn add_differing(
    list: &mut SwitchList,
    lists: &Lists,
    switch: SwitchId,
    old: &AvoidList,
) -> Result<(), Memory>
    ensures { OnOk result (list.new ≡ with_differing lists.now.entries list.old (switch, old.now)) }
{
    if !is_list_of(lists, switch, old) {
        list.insert(switch)?;
    }
    Ok(())
}

// Whether the list of a switch is this one.
fn is_list_of(lists: &Lists, switch: SwitchId, list: &AvoidList) -> bool
    ensures { result ≡ same_avoid_list list.now (unwrap_or (value_at id_cmp lists.now.entries switch) []) }
{
    match lists.get(&switch) {
        Some(other) => is_same(list, other),
        None => is_none(list),
    }
}

fn is_same(a: &AvoidList, b: &AvoidList) -> bool
    ensures { result ≡ same_avoid_list a.now b.now }
{
    a.is(b)
}

fn is_none(list: &AvoidList) -> bool
    ensures { result ≡ same_avoid_list list.now [] }
{
    list.is_empty()
}

/// The list of a switch, if it has one.
pub(crate) fn list_in(lists: &Lists, switch: SwitchId) -> Option<&AvoidList>
    ensures { option_copied result ≡ value_at id_cmp lists.now.entries switch }
{
    lists.get(&switch)
}

/// A copy of it, an empty one where it has none.
pub(crate) fn copy_in(alloc: Global, lists: &Lists, switch: SwitchId) -> Result<AvoidList, Memory>
    ensures { IfOk result (λ copy. copy ≡ unwrap_or (value_at id_cmp lists.now.entries switch) []) }
{
    match lists.get(&switch) {
        Some(list) => list.copied(alloc),
        None => Ok(AvoidList::new(alloc)),
    }
}
