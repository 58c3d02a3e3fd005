ghost use Rattle.std.specs.Prelude.{◌≡◌, ◌≤◌, IfErr, IfOk, Some, false, length, slice_get};
ghost use Rattle.std.specs.BTreeMap.{is_at};
ghost use Rattle.std.specs.BTreeSet.{insert_key};
ghost use Rattle.std.specs.List.{insert, list_any};
ghost use Rattle.std.specs.List.Sorted.{IsStrictlySortedBy};
ghost use Rattle.pl_node.specs.ManagerViews.{id_cmp};

use pl_frame::SwitchId;

/// Where a switch stands in a list that rises, or else where it would go.
pub(crate) fn position(list: &[SwitchId], switch: SwitchId) -> Result<usize, usize>
    requires { IsStrictlySortedBy id_cmp list.now }
    ensures found { IfOk result (λ at. slice_get list.now at ≡ Some switch) }
    ensures there { IfOk result (λ at. insert_key id_cmp list.now switch ≡ list.now) }
    ensures bound { IfErr result (λ at. at ≤ length list.now) }
    ensures none { IfErr result (λ at. list_any (is_at (id_cmp switch)) list.now ≡ false) }
    ensures gap { IfErr result (λ at. insert list.now at switch ≡ insert_key id_cmp list.now switch) }
{
    list.binary_search(&switch)
}
