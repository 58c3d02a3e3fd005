ghost use Rattle.std.specs.Prelude.{◌≡◌, []};
ghost use Rattle.pl_node.specs.ManagerViews.{restarted_manager};
ghost use Rattle.pl_test_sample.specs.Duties.{says_nothing_duly};
ghost use Rattle.pl_test_sample.specs.Silence.{SaysNothing};

use pl_frame::{Ip4, Mac, Memory, SwitchId};
use pl_layouts::Place;
use pl_node::{AvoidList, ManagerLogic, ManagerOutbox, ToManager, TreePart};
use pl_pmac::Pmac;
use std::alloc::Global;

// The group of all hosts, which a manager has from the beginning.
const FLOOD: u32 = 8_388_608;

/// A manager that hears and says nothing, and never knows more than at boot.
#[derive(Drop)]
pub struct Silent {
    k: u8,
    epoch: u32,
    avoid: AvoidList,
    ghost nothing: { avoid ≡ [] },
}

impl ManagerLogic for Silent {
    ghost view = { λ manager. restarted_manager manager.k manager.epoch };

    ghost rule = { SaysNothing };

    ghost answers = { says_nothing_duly };

    fn boot(alloc: Global, k: u8) -> Result<Silent, Memory> {
        Ok(Silent {
            k,
            epoch: 0,
            avoid: AvoidList::new(alloc),
        })
    }

    fn restart(&mut self, _alloc: Global, epoch: u32) -> Result<(), Memory> {
        self.epoch = epoch;
        Ok(())
    }

    fn hears(
        &mut self,
        _switch: SwitchId,
        _says: &ToManager,
        _out: &mut ManagerOutbox,
    ) -> Result<(), Memory> {
        Ok(())
    }

    fn epoch(&self) -> u32 {
        self.epoch
    }

    fn reported(&self) -> usize {
        0
    }

    fn lookup(&self, _ip: Ip4) -> Option<Pmac> {
        None
    }

    fn newest(&self, _amac: Mac) -> Option<(Pmac, u64)> {
        None
    }

    fn place_of(&self, _switch: SwitchId) -> Place {
        Place {
            level: None,
            position: None,
            pod: None,
        }
    }

    fn told(&self, _switch: SwitchId, _neighbour: SwitchId) -> bool {
        false
    }

    #[tactic(auto, unfolding(pl_node::specs::AvoidLists::avoid_list))]
    fn avoid_list(&self, _switch: SwitchId) -> &AvoidList {
        &self.avoid
    }

    fn group(&self, n: usize) -> Option<u32> {
        if n == 0 { Some(FLOOD) } else { None }
    }

    #[tactic(auto, using(crate::proofs::NoTree::no_tree))]
    fn part_is(&self, _switch: SwitchId, _group: u32, part: Option<&TreePart>) -> bool {
        part.is_none()
    }
}
