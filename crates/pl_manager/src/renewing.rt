ghost use Rattle.std.specs.Prelude.{◌≡◌, ◌↔◌, ◌++◌, ◌∷◌, [], ℕ, OnOk, Some, if◌then◌else◌, not, slice_get, IsTrue};
ghost use Rattle.std.specs.BTreeMap.{insert_entry};
ghost use Rattle.pl_frame.specs.declared.address.SwitchId.{SwitchId};
ghost use Rattle.pl_node.specs.AvoidLists.{avoid_list};
ghost use Rattle.pl_node.specs.ManagerViews.{Told, members_cmp};
ghost use Rattle.pl_groups.specs.Kept.{members_in};
ghost use Rattle.pl_manager_rule.specs.ManagerRule.{avoid_acts, with_link, with_place};
ghost use Rattle.pl_faults.specs.Kept.{handed};
ghost use Rattle.pl_manager.specs.Routing.{AreOf, routed, trees_told_anew};
ghost use Rattle.pl_manager.specs.Telling.{AreTreesRenewed, listed_groups};

use crate::telling::{renew, tell_lists};
use pl_faults::Matrix;
use pl_frame::SwitchId;
use pl_groups::Groups;
use pl_node::{ManagerOutbox, Memory, Place};
use pl_reports::Reports;
use std::alloc::Global;

/// A switch tells its place: each switch whose avoid list or part of a tree is another one now is sent it,
/// lists first. Where the place is the same as before, no tree is made anew.
pub(crate) fn tell_place(
    matrix: &mut Matrix,
    groups: &mut Groups,
    switch: SwitchId,
    place: Place,
    out: &mut ManagerOutbox,
) -> Result<(), Memory>
    requires { AreOf matrix.old.told matrix.old groups.old }
    ensures told { OnOk result (matrix.new.told ≡ with_place matrix.old.told switch place) }
    ensures members { OnOk result (members_in groups.new ≡ members_in groups.old) }
    ensures current { OnOk result (AreOf matrix.new.told matrix.new groups.new) }
    ensures acts { OnOk result (out.new ≡ out.old ++ (avoid_acts matrix.old.told matrix.new.told
        ++ trees_told_anew (routed matrix.old.told groups.old) (routed matrix.new.told groups.new))) }
{
    let is_same = is_same_place(matrix.reports().place_of(switch), place);
    matrix.set_place(switch, place)?;
    tell_new_lists(matrix, out)?;
    if is_same {
        return Ok(());
    }
    renew_all(groups, matrix.reports(), out)?;
    Ok(())
}

/// The same where it tells whether its link to a neighbour is usable. Where the link is as alive as before,
/// no tree is made anew.
pub(crate) fn tell_link(
    matrix: &mut Matrix,
    groups: &mut Groups,
    switch: SwitchId,
    neighbour: SwitchId,
    usable: bool,
    out: &mut ManagerOutbox,
) -> Result<(), Memory>
    requires { AreOf matrix.old.told matrix.old groups.old }
    ensures told { OnOk result (matrix.new.told ≡ with_link matrix.old.told switch neighbour usable) }
    ensures members { OnOk result (members_in groups.new ≡ members_in groups.old) }
    ensures current { OnOk result (AreOf matrix.new.told matrix.new groups.new) }
    ensures acts { OnOk result (out.new ≡ out.old ++ (avoid_acts matrix.old.told matrix.new.told
        ++ trees_told_anew (routed matrix.old.told groups.old) (routed matrix.new.told groups.new))) }
{
    let was = matrix.reports().is_alive(switch, neighbour);
    matrix.report(switch, neighbour, usable)?;
    let now = matrix.reports().is_alive(switch, neighbour);
    tell_new_lists(matrix, out)?;
    if is_still(now, was) {
        return Ok(());
    }
    renew_all(groups, matrix.reports(), out)?;
    Ok(())
}

// Each switch whose avoid list is another one than it was told is sent it.
fn tell_new_lists(matrix: &mut Matrix, out: &mut ManagerOutbox) -> Result<(), Memory>
    ensures told { OnOk result (matrix.new.told ≡ matrix.old.told) }
    ensures handed { OnOk result ((s : SwitchId) → handed matrix.new s ≡ avoid_list matrix.old.told s) }
    ensures acts { OnOk result ((told : Told) → ((s : SwitchId) → handed matrix.old s ≡ avoid_list told s) →
        out.new ≡ out.old ++ avoid_acts told matrix.old.told) }
{
    let changed = matrix.changed()?;
    tell_lists(matrix, &changed, out)?;
    Ok(())
}

fn is_same_place(a: Place, b: Place) -> bool
    ensures { IsTrue result ↔ (a ≡ b) }
{
    a == b
}

// Whether something is now what it was.
fn is_still(now: bool, was: bool) -> bool
    ensures { result ≡ (if was then now else not now) }
{
    if was { now } else { !now }
}

/// An edge switch tells whether it has members of a group: each switch whose part of that group's tree is
/// another one now is sent it.
pub(crate) fn tell_members(
    matrix: &Matrix,
    groups: &mut Groups,
    edge: SwitchId,
    group: u32,
    any: bool,
    out: &mut ManagerOutbox,
) -> Result<(), Memory>
    requires { AreOf matrix.now.told matrix.now groups.old }
    ensures members { OnOk result (members_in groups.new ≡ insert_entry members_cmp (members_in groups.old) (edge, group) any) }
    ensures current { OnOk result (AreOf matrix.now.told matrix.now groups.new) }
    ensures acts { OnOk result (out.new ≡ out.old
        ++ trees_told_anew (routed matrix.now.told groups.old) (routed matrix.now.told groups.new)) }
{
    groups.set(edge, group, any)?;
    renew(groups, matrix.reports(), group, out)?;
    Ok(())
}

/// Forgets all that was told. Takes no memory.
pub(crate) fn forget(alloc: Global, matrix: &mut Matrix, groups: &mut Groups)
    ensures { AreOf matrix.new.told matrix.new groups.new }
{
    *matrix = Matrix::new(alloc);
    groups.forget();
}

// The trees of all groups are made anew, by rising group.
fn renew_all(groups: &mut Groups, reports: &Reports, out: &mut ManagerOutbox) -> Result<(), Memory>
    ensures { OnOk result (AreTreesRenewed reports.now (listed_groups groups.old) groups.old groups.new out.old out.new) }
{
    for n in 0..groups.len() {
        renew_nth(groups, reports, n, out)?;
    }
    Ok(())
}

// The tree of group number n is made anew.
fn renew_nth(
    groups: &mut Groups,
    reports: &Reports,
    n: usize,
    out: &mut ManagerOutbox,
) -> Result<(), Memory>
    ensures { OnOk result ((g : ℕ) → slice_get (listed_groups groups.old) n ≡ Some g →
        AreTreesRenewed reports.now (g ∷ []) groups.old groups.new out.old out.new) }
{
    match groups.group(n) {
        Some(group) => {
            renew(groups, reports, group, out)?;
            Ok(())
        }
        None => Ok(()),
    }
}
