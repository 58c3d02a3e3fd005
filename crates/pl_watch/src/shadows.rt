ghost use Rattle.std.specs.Prelude.{◌≡◌, IfOk, map};
ghost use Rattle.pl_node.specs.ManagerViews.{booted_manager};
ghost use Rattle.pl_world.specs.Pending.{first_switches};

use pl_frame::Memory;
use pl_node::{ManagerLogic, SwitchLogic};
use pl_schedule::{boot_manager, boot_switches};
use pl_wiring::Wiring;
use std::alloc::Global;

/// A second set of a world's switches, and a second manager, which hear the same.
#[derive(Drop)]
pub(crate) struct Shadows<S: SwitchLogic, M: ManagerLogic> {
    pub switches: Vec<S>,
    pub manager: M,
}

impl<S: SwitchLogic, M: ManagerLogic> Shadows<S, M> {
    /// All of them as they begin.
    pub fn boot(alloc: Global, wiring: &Wiring) -> Result<Shadows<S, M>, Memory>
        ensures switches { IfOk result (λ all. map S.view all.switches.items ≡ (first_switches wiring.now).switches) }
        ensures manager { IfOk result (λ all. M.view all.manager ≡ booted_manager wiring.now.k) }
    {
        let switches = boot_switches(alloc, wiring)?;
        let manager = boot_manager(alloc, wiring)?;
        Ok(Shadows { switches, manager })
    }
}
