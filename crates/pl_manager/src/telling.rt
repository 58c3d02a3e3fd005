ghost use Rattle.std.specs.Prelude.{◌≡◌, ◌++◌, ◌∷◌, [], OnOk};
ghost use Rattle.pl_node.specs.declared.acts.ManagerAct.TheVariants.{Say};
ghost use Rattle.pl_manager.specs.Telling.{AreTreesRenewed, lists_told, parts_told};

use pl_faults::Matrix;
use pl_frame::SwitchId;
use pl_groups::Groups;
use pl_node::{ManagerAct, ManagerOutbox, Memory, SwitchList, ToSwitch};
use pl_reports::Reports;

/// A switch is told.
pub(crate) fn say(to: SwitchId, says: ToSwitch, out: &mut ManagerOutbox) -> Result<(), Memory>
    ensures { OnOk result (out.new ≡ out.old ++ Say to says ∷ []) }
{
    out.push(ManagerAct::Say(to, says))
}

/// Each of these switches is sent its avoid list.
pub(crate) fn tell_lists(
    matrix: &Matrix,
    changed: &SwitchList,
    out: &mut ManagerOutbox,
) -> Result<(), Memory>
    ensures { OnOk result (out.new ≡ out.old ++ lists_told matrix.now.told changed.now) }
{
    for switch in changed.as_slice() {
        let list = matrix.avoid_for(*switch)?;
        say(*switch, ToSwitch::Avoid(list), out)?;
    }
    Ok(())
}

/// The tree of a group is made anew, and each switch whose part changed is sent it.
pub(crate) fn renew(
    groups: &mut Groups,
    reports: &Reports,
    group: u32,
    out: &mut ManagerOutbox,
) -> Result<(), Memory>
    ensures { OnOk result (AreTreesRenewed reports.now (group ∷ []) groups.old groups.new out.old out.new) }
{
    let changed = groups.renew(reports, group)?;
    tell_parts(groups, group, &changed, out)?;
    Ok(())
}

// Each of these switches is sent its part of a group's tree.
fn tell_parts(
    groups: &Groups,
    group: u32,
    changed: &SwitchList,
    out: &mut ManagerOutbox,
) -> Result<(), Memory>
    ensures { OnOk result (out.new ≡ out.old ++ parts_told groups.now group changed.now) }
{
    for switch in changed.as_slice() {
        let part = groups.part_for(group, *switch)?;
        say(*switch, ToSwitch::Tree { group, part }, out)?;
    }
    Ok(())
}
