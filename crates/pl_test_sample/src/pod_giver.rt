ghost use Rattle.std.specs.Prelude.{◌≡◌};
ghost use Rattle.pl_node.specs.ManagerViews.{restarted_manager};
ghost use Rattle.pl_test_sample.specs.Giving.{GivesPods, gives_pods_duly};

use crate::Silent;
use pl_frame::{Ip4, Mac, Memory, SwitchId};
use pl_layouts::Place;
use pl_node::{AvoidList, ManagerAct, ManagerLogic, ManagerOutbox, ToManager, ToSwitch, TreePart};
use pl_pmac::Pmac;
use std::alloc::Global;

/// A manager that gives each who asks for the number of its pod the number 0. All else is as at a
/// `Silent` one.
#[derive(Drop)]
pub struct PodGiver {
    silent: Silent,
}

impl ManagerLogic for PodGiver {
    ghost view = { λ manager. restarted_manager manager.silent.k manager.silent.epoch };

    ghost rule = { GivesPods };

    ghost answers = { gives_pods_duly };

    fn boot(alloc: Global, k: u8) -> Result<PodGiver, Memory> {
        Ok(PodGiver {
            silent: Silent::boot(alloc, k)?,
        })
    }

    fn restart(&mut self, alloc: Global, epoch: u32) -> Result<(), Memory> {
        self.silent.restart(alloc, epoch)
    }

    fn hears(
        &mut self,
        switch: SwitchId,
        says: &ToManager,
        out: &mut ManagerOutbox,
    ) -> Result<(), Memory> {
        match says {
            ToManager::PodWanted => out.push(ManagerAct::Say(switch, ToSwitch::Pod(0))),
            _ => Ok(()),
        }
    }

    fn epoch(&self) -> u32 {
        self.silent.epoch()
    }

    fn reported(&self) -> usize {
        self.silent.reported()
    }

    fn lookup(&self, ip: Ip4) -> Option<Pmac> {
        self.silent.lookup(ip)
    }

    fn newest(&self, amac: Mac) -> Option<(Pmac, u64)> {
        self.silent.newest(amac)
    }

    fn place_of(&self, switch: SwitchId) -> Place {
        self.silent.place_of(switch)
    }

    fn told(&self, switch: SwitchId, neighbour: SwitchId) -> bool {
        self.silent.told(switch, neighbour)
    }

    fn avoid_list(&self, switch: SwitchId) -> &AvoidList {
        self.silent.avoid_list(switch)
    }

    fn group(&self, n: usize) -> Option<u32> {
        self.silent.group(n)
    }

    fn part_is(&self, switch: SwitchId, group: u32, part: Option<&TreePart>) -> bool {
        self.silent.part_is(switch, group, part)
    }
}
