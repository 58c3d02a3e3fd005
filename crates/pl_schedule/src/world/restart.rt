ghost use Rattle.std.specs.Prelude.{◌≡◌, ◌∷◌, ◌+◌, ℕ, [], IfOk, OnOk, length, replicate};
ghost use Rattle.pl_node.specs.declared.messages.ToSwitch.TheVariants.{Hello};
ghost use Rattle.pl_node.specs.ManagerViews.{restarted_manager};
ghost use Rattle.pl_wiring.specs.Labels.{switch_count};
ghost use Rattle.pl_world.specs.Restarting.{in_epoch, manager_restarted};

use crate::world::World;
use pl_frame::Memory;
use pl_journal::Entry;
use pl_node::{HostLogic, ManagerLogic, SwitchLogic, ToSwitch};
use pl_queue_array::CountedQueues;
use pl_world_parts::WaitingToSwitch;
use std::alloc::AllocError;

impl<S: SwitchLogic, M: ManagerLogic, H: HostLogic> World<S, M, H> {
    // The manager loses all that it knows and all that waits to it and from it, and each switch is told so.
    pub(crate) fn restart_manager(&mut self) -> Result<(), Memory>
        ensures { OnOk result (self.new ≡ manager_restarted self.old) }
    {
        let epoch = self.next_epoch()?;
        self.begin_epoch(epoch)?;
        self.note(Entry::Restarted(epoch))
    }

    /// The number of the manager's next epoch.
    pub fn next_epoch(&self) -> Result<u32, Memory>
        ensures { IfOk result (λ n. n ≡ self.now.manager.epoch + 1) }
    {
        self.manager.epoch().checked_add(1).ok_or(AllocError)
    }

    fn begin_epoch(&mut self, epoch: u32) -> Result<(), Memory>
        ensures { OnOk result (self.new ≡ in_epoch self.old epoch) }
    {
        self.forget_all(epoch)?;
        self.empty_manager_queues();
        self.greet_switches(epoch)
    }

    fn forget_all(&mut self, epoch: u32) -> Result<(), Memory>
        ensures { OnOk result (self.new ≡ record self.old { manager = restarted_manager self.old.manager.k epoch }) }
    {
        self.manager.restart(self.alloc, epoch)
    }

    // What waits to the manager and from it vanishes.
    fn empty_manager_queues(&mut self)
        ensures { self.new ≡ record self.old { to_manager = replicate (switch_count self.old.plan.k) []; from_manager = replicate (switch_count self.old.plan.k) [] } }
    {
        self.to_manager.clear();
        self.from_manager.clear();
    }

    // Each switch is told that an epoch of the manager begins.
    fn greet_switches(&mut self, epoch: u32) -> Result<(), Memory>
        requires { self.old.from_manager ≡ replicate (switch_count self.old.plan.k) [] }
        ensures { OnOk result (self.new ≡ record self.old { from_manager = replicate (switch_count self.old.plan.k) (Hello epoch ∷ []) }) }
    {
        greet_all(&mut self.from_manager, epoch)
    }
}

fn greet_all(from_manager: &mut CountedQueues<WaitingToSwitch>, epoch: u32) -> Result<(), Memory>
    ensures many { length from_manager.new ≡ length from_manager.old }
    ensures greeted { (n : ℕ) → from_manager.old ≡ replicate n [] → OnOk result (from_manager.new ≡ replicate n (Hello epoch ∷ [])) }
{
    for s in 0..from_manager.queues().len() {
        from_manager.put(s, WaitingToSwitch::new(ToSwitch::Hello(epoch)))?;
    }
    Ok(())
}
