ghost use Rattle.std.specs.Prelude.{◌≡◌};
ghost use Rattle.pl_node.specs.SwitchFacts.{switch_at_boot};
ghost use Rattle.pl_test_sample.specs.Accounts.{passes_two_accounts};
ghost use Rattle.pl_test_sample.specs.Passing.{PassesTwo};

use crate::NextPort;
use pl_frame::{Memory, SwitchId};
use pl_layouts::Place;
use pl_layouts::frames::is_control;
use pl_node::{AvoidList, Outbox, PortRecord, SwitchFacts, SwitchLogic, ToSwitch, TreePart};
use std::alloc::Global;

/// A switch that passes each data frame on by the next port, and a copy of it by the one after that.
/// All else is as at a `NextPort`.
#[derive(Drop)]
pub struct TwoPorts {
    one: NextPort,
}

impl SwitchFacts for TwoPorts {
    ghost view = { λ switch. switch_at_boot switch.one.id switch.one.k };

    fn id(&self) -> SwitchId {
        self.one.id()
    }

    fn k(&self) -> u8 {
        self.one.k()
    }

    fn place(&self) -> Place {
        self.one.place()
    }

    fn port(&self, port: u8) -> PortRecord {
        self.one.port(port)
    }

    fn avoids(&self, neighbour: SwitchId, pod: u16, position: u8) -> bool {
        self.one.avoids(neighbour, pod, position)
    }

    fn avoid_list(&self) -> &AvoidList {
        self.one.avoid_list()
    }

    fn announces(&self, port: u8, frame: &[u8]) -> bool {
        self.one.announces(port, frame)
    }

    fn attempt(&self) -> Option<(u32, u8)> {
        self.one.attempt()
    }

    fn granted(&self, port: u8) -> bool {
        self.one.granted(port)
    }

    fn hold(&self, position: u8) -> Option<(SwitchId, bool)> {
        self.one.hold(position)
    }

    fn part(&self, group: u32) -> Option<&TreePart> {
        self.one.part(group)
    }

    fn group(&self, n: usize) -> Option<u32> {
        self.one.group(n)
    }

    fn epoch(&self) -> u32 {
        self.one.epoch()
    }
}

impl SwitchLogic for TwoPorts {
    ghost rule = { PassesTwo };

    ghost accounts = { passes_two_accounts };

    fn boot(alloc: Global, id: SwitchId, k: u8) -> Result<TwoPorts, Memory> {
        Ok(TwoPorts {
            one: NextPort::boot(alloc, id, k)?,
        })
    }

    fn receive(&mut self, port: u8, frame: &[u8], out: &mut Outbox) -> Result<(), Memory> {
        if is_control(frame) {
            return Ok(());
        }
        self.one.pass(port, 1, frame, out)?;
        self.one.pass(port, 2, frame, out)
    }

    fn tick(&mut self, _out: &mut Outbox) -> Result<(), Memory> {
        Ok(())
    }

    fn manager_says(&mut self, _says: &ToSwitch, _out: &mut Outbox) -> Result<(), Memory> {
        Ok(())
    }
}
