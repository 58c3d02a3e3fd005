ghost use Rattle.std.specs.Prelude.{◌≡◌, ◌↔◌, ℕ, IsTrue, Some, slice_get};
ghost use Rattle.pl_wiring.specs.Labels.{switch_count};
ghost use Rattle.pl_node.specs.SwitchViews.{SwitchView};
ghost use Rattle.pl_world.specs.Flying.{IsCounted};
ghost use Rattle.pl_fabric.specs.Settled.{IsSettled, IsSettledSwitch, has_reports};

use crate::switches::is_settled_switch;
use pl_node::{HostLogic, ManagerLogic, SwitchLogic};
use pl_schedule::World;
use pl_wiring::SwitchNo;

fn are_settled_switches<S: SwitchLogic, M: ManagerLogic, H: HostLogic>(
    world: &World<S, M, H>,
) -> bool
    requires { IsCounted world.now }
    ensures { IsTrue result ↔ ((s : ℕ) (v : SwitchView) → slice_get world.now.switches s ≡ Some v → IsSettledSwitch world.now s v) }
{
    for s in 0..world.wiring().switch_count() {
        if !is_settled_switch(world, SwitchNo(s)) {
            return false;
        }
    }
    true
}

// Whether no report of a switch is missing.
fn has_reports<S: SwitchLogic, M: ManagerLogic, H: HostLogic>(world: &World<S, M, H>) -> bool
    ensures { result ≡ has_reports world.now.manager (switch_count world.now.plan.k) }
{
    let manager = world.manager();
    let _k = world.wiring().k();
    manager.epoch() == 0 || world.wiring().switch_count() as usize <= manager.reported()
}

/// Whether the fabric is settled: nothing would change what its switches and its manager know of places
/// and links. Takes no memory. Asked first is whether a report is missing, and by a count that is kept what
/// waits in queues; then each port, record and list is looked at once.
pub fn settled<S: SwitchLogic, M: ManagerLogic, H: HostLogic>(world: &World<S, M, H>) -> bool
    requires { IsCounted world.now }
    ensures { IsTrue result ↔ IsSettled world.now }
{
    if !has_reports(world) {
        return false;
    }
    if world.pending() == 0 {
        are_settled_switches(world)
    } else {
        false
    }
}
