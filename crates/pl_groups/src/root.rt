ghost use Rattle.std.specs.Prelude.{◌≡◌, IfOk};
ghost use Rattle.std.specs.BTreeMap.{is_at};
ghost use Rattle.std.specs.List.{list_any};
ghost use Rattle.pl_node.specs.ManagerViews.{id_cmp};
ghost use Rattle.pl_groups.specs.Rooted.{IsRoot};

use crate::needs::add_all;
use pl_frame::SwitchId;
use pl_node::{Memory, SwitchList};
use pl_reports::Reports;
use std::alloc::Global;

/// The core switch of a tree, and its neighbours over links that are alive.
#[derive(Debug, Drop)]
pub(crate) struct Root {
    pub(crate) core: SwitchId,
    pub(crate) near: SwitchList,
}

/// A core switch with its neighbours.
pub(crate) fn root_at(alloc: Global, reports: &Reports, core: SwitchId) -> Result<Root, Memory>
    ensures core { IfOk result (λ root. root.core ≡ core) }
    ensures near { IfOk result (λ root. IsRoot reports.now root) }
{
    let mut near = SwitchList::new(alloc);
    add_all(&mut near, reports.alive_neighbours(core))?;
    Ok(Root { core, near })
}

/// Whether a switch has an alive link to the core switch.
pub(crate) fn is_linked(root: &Root, switch: SwitchId) -> bool
    ensures { result ≡ list_any (is_at (id_cmp switch)) root.now.near }
{
    root.near.contains(&switch)
}
