ghost use Rattle.pl_bridge_rule.proofs.Exports.{answers as quiet_answers};
ghost use Rattle.pl_bridge_rule.specs.QuietManager.{IsQuiet};
ghost use Rattle.pl_manager.specs.Manager.{manager_view};

use pl_frame::{Ip4, Mac, SwitchId};
use pl_layouts::Place;
use pl_manager::Manager;
use pl_node::{AvoidList, ManagerLogic, ManagerOutbox, Memory, ToManager, TreePart};
use pl_pmac::Pmac;
use std::alloc::Global;

/// A fabric manager that says nothing, and answers as one that was never told anything.
#[derive(Drop)]
pub struct QuietManager {
    untold: Manager,
}

impl ManagerLogic for QuietManager {
    ghost view = { λ manager. manager_view manager.untold };

    ghost rule = { IsQuiet };

    ghost answers = { quiet_answers };

    fn boot(alloc: Global, k: u8) -> Result<QuietManager, Memory> {
        Ok(QuietManager {
            untold: Manager::boot(alloc, k)?,
        })
    }

    fn restart(&mut self, alloc: Global, epoch: u32) -> Result<(), Memory> {
        self.untold.restart(alloc, epoch)
    }

    fn hears(
        &mut self,
        _switch: SwitchId,
        _says: &ToManager,
        _out: &mut ManagerOutbox,
    ) -> Result<(), Memory> {
        Ok(())
    }

    fn epoch(&self) -> u32 {
        self.untold.epoch()
    }

    fn reported(&self) -> usize {
        self.untold.reported()
    }

    fn lookup(&self, ip: Ip4) -> Option<Pmac> {
        self.untold.lookup(ip)
    }

    fn newest(&self, amac: Mac) -> Option<(Pmac, u64)> {
        self.untold.newest(amac)
    }

    fn place_of(&self, switch: SwitchId) -> Place {
        self.untold.place_of(switch)
    }

    fn told(&self, switch: SwitchId, neighbour: SwitchId) -> bool {
        self.untold.told(switch, neighbour)
    }

    fn avoid_list(&self, switch: SwitchId) -> &AvoidList {
        self.untold.avoid_list(switch)
    }

    fn group(&self, n: usize) -> Option<u32> {
        self.untold.group(n)
    }

    fn part_is(&self, switch: SwitchId, group: u32, part: Option<&TreePart>) -> bool {
        self.untold.part_is(switch, group, part)
    }
}
