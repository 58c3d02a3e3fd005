ghost use Rattle.std.specs.Prelude.{◌≡◌};
ghost use Rattle.pl_node.specs.SwitchFacts.{switch_at_boot};
ghost use Rattle.pl_test_sample.specs.Accounts.{asks_for_pods_accounts};
ghost use Rattle.pl_test_sample.specs.Asking.{AsksForPods};

use crate::NextPort;
use pl_frame::{Memory, SwitchId};
use pl_layouts::Place;
use pl_node::{
    Act, AvoidList, Outbox, PortRecord, SwitchFacts, SwitchLogic, ToManager, ToSwitch, TreePart,
};
use std::alloc::Global;

/// A switch that asks the manager for the number of its pod at each tick, and takes no notice of the
/// answer. All else is as at a `NextPort`.
#[derive(Drop)]
pub struct PodAsker {
    one: NextPort,
}

impl SwitchFacts for PodAsker {
    ghost view = { λ switch. switch_at_boot switch.one.id switch.one.k };

    fn id(&self) -> SwitchId {
        self.one.id()
    }

    fn k(&self) -> u8 {
        self.one.k()
    }

    fn place(&self) -> Place {
        self.one.place()
    }

    fn port(&self, port: u8) -> PortRecord {
        self.one.port(port)
    }

    fn avoids(&self, neighbour: SwitchId, pod: u16, position: u8) -> bool {
        self.one.avoids(neighbour, pod, position)
    }

    fn avoid_list(&self) -> &AvoidList {
        self.one.avoid_list()
    }

    fn announces(&self, port: u8, frame: &[u8]) -> bool {
        self.one.announces(port, frame)
    }

    fn attempt(&self) -> Option<(u32, u8)> {
        self.one.attempt()
    }

    fn granted(&self, port: u8) -> bool {
        self.one.granted(port)
    }

    fn hold(&self, position: u8) -> Option<(SwitchId, bool)> {
        self.one.hold(position)
    }

    fn part(&self, group: u32) -> Option<&TreePart> {
        self.one.part(group)
    }

    fn group(&self, n: usize) -> Option<u32> {
        self.one.group(n)
    }

    fn epoch(&self) -> u32 {
        self.one.epoch()
    }
}

impl SwitchLogic for PodAsker {
    ghost rule = { AsksForPods };

    ghost accounts = { asks_for_pods_accounts };

    fn boot(alloc: Global, id: SwitchId, k: u8) -> Result<PodAsker, Memory> {
        Ok(PodAsker {
            one: NextPort::boot(alloc, id, k)?,
        })
    }

    fn receive(&mut self, port: u8, frame: &[u8], out: &mut Outbox) -> Result<(), Memory> {
        self.one.receive(port, frame, out)
    }

    fn tick(&mut self, out: &mut Outbox) -> Result<(), Memory> {
        out.push(Act::Tell(ToManager::PodWanted))
    }

    fn manager_says(&mut self, _says: &ToSwitch, _out: &mut Outbox) -> Result<(), Memory> {
        Ok(())
    }
}
