ghost use Rattle.std.specs.Prelude.{◌≡◌, IfNone, IfSome, IsTrue, Some, false, slice_get};
ghost use Rattle.std.specs.List.{list_any};
ghost use Rattle.std.specs.List.Sorted.{IsStrictlySortedBy};
ghost use Rattle.pl_layouts.specs.Equality.{same_switch};
ghost use Rattle.pl_node.specs.ManagerViews.{id_cmp};

use pl_frame::SwitchId;
use std::cmp::Ordering;

/// Where a switch stands in a list that rises. It is looked for at `near` first.
pub(crate) fn position(list: &[SwitchId], near: usize, switch: SwitchId) -> Option<usize>
    requires { IsStrictlySortedBy id_cmp list.now }
    ensures some { IfSome result (λ at. slice_get list.now at ≡ Some switch) }
    ensures none { IfNone result (list_any (same_switch switch) list.now ≡ false) }
{
    if stands_at(list, near, switch) {
        return Some(near);
    }
    if ends_below(list, switch) {
        return None;
    }
    search(list, switch)
}

fn stands_at(list: &[SwitchId], at: usize, switch: SwitchId) -> bool
    ensures { IsTrue result → slice_get list.now at ≡ Some switch }
{
    match list.get(at) {
        Some(found) => *found == switch,
        None => false,
    }
}

// Whether each switch of a list that rises comes before this one, by the last of them.
fn ends_below(list: &[SwitchId], switch: SwitchId) -> bool
    requires { IsStrictlySortedBy id_cmp list.now }
    ensures { IsTrue result → list_any (same_switch switch) list.now ≡ false }
{
    match list.last() {
        Some(last) => last.cmp(&switch) == Ordering::Less,
        None => true,
    }
}

fn search(list: &[SwitchId], switch: SwitchId) -> Option<usize>
    requires { IsStrictlySortedBy id_cmp list.now }
    ensures some { IfSome result (λ at. slice_get list.now at ≡ Some switch) }
    ensures none { IfNone result (list_any (same_switch switch) list.now ≡ false) }
{
    match list.binary_search(&switch) {
        Ok(at) => Some(at),
        Err(_) => None,
    }
}
