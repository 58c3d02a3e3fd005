ghost use Rattle.std.specs.Prelude.{◌≡◌, Bool, if◌then◌else◌, IfOk, OnOk, fold, map};
ghost use Rattle.std.specs.BTreeSet.{insert_key};
ghost use Rattle.std.specs.List.{filter};
ghost use Rattle.std.specs.List.Sorted.{IsStrictlySortedBy};
ghost use Rattle.pl_frame.specs.declared.address.SwitchId.{SwitchId};
ghost use Rattle.pl_node.specs.ManagerViews.{id_cmp};

use pl_bits::Row;
use pl_frame::SwitchId;
use pl_node::{Memory, SwitchList};
use std::alloc::Global;

/// The needed edge switches, which rise, of which a row says yes.
pub(crate) fn edges_in(alloc: Global, needed: &[SwitchId], row: &Row) -> Result<SwitchList, Memory>
    requires { IsStrictlySortedBy id_cmp needed.now }
    ensures { IfOk result (λ edges. (f : SwitchId → Bool) → row.now ≡ map f needed.now → edges ≡ filter f needed.now) }
{
    let mut edges = SwitchList::new(alloc);
    for i in 0..needed.len() {
        add_if(&mut edges, needed[i], row.value(i))?;
    }
    Ok(edges)
}

/// Puts switches into a list.
pub(crate) fn add_all(list: &mut SwitchList, switches: &[SwitchId]) -> Result<(), Memory>
    ensures { OnOk result (list.new ≡ fold (insert_key id_cmp) list.old switches.now) }
{
    for switch in switches {
        list.insert(*switch)?;
    }
    Ok(())
}

/// Puts a switch into a list where it passes.
pub(crate) fn add_if(list: &mut SwitchList, switch: SwitchId, passes: bool) -> Result<(), Memory>
    ensures { OnOk result (list.new ≡ (if passes then insert_key id_cmp list.old switch else list.old)) }
{
    if passes {
        list.insert(switch)?;
    }
    Ok(())
}
