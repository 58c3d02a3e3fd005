ghost use Rattle.std.specs.Prelude.{◌≡◌, ◌↔◌, ◌<◌, [], ◌∷◌, ◌++◌, IsTrue, OnOk};
ghost use Rattle.pl_node.specs.declared.acts.Act.TheVariants.{Pass};
ghost use Rattle.pl_node.specs.SwitchFacts.{CanBoot, IsAnnounced, switch_at_boot};
ghost use Rattle.pl_ldp.specs.Writable.{IsWritableId};
ghost use Rattle.pl_test_sample.specs.Passing.{PassesNext, first_announcement, port_after};
ghost use Rattle.pl_test_sample.specs.Accounts.{passes_next_accounts};

use pl_frame::{Frame, Memory, SwitchId};
use pl_layouts::frames::is_control;
use pl_layouts::{Control, Ldm, Place};
use pl_ldp::write_control;
use pl_node::{Act, AvoidList, Outbox, PortRecord, SwitchFacts, SwitchLogic, ToSwitch, TreePart};
use std::alloc::Global;

/// A switch that passes each data frame on by the next port, the first one after the last. It does
/// nothing else, and never knows more than at boot.
#[derive(Drop)]
pub struct NextPort {
    alloc: Global,
    id: SwitchId,
    k: u8,
    avoid: AvoidList,
    ghost can_boot: { CanBoot id k },
    ghost nothing: { avoid ≡ [] },
}

impl NextPort {
    /// Passes a frame on by the port that is so many after this one.
    pub(crate) fn pass(
        &self,
        port: u8,
        steps: u8,
        frame: &[u8],
        out: &mut Outbox,
    ) -> Result<(), Memory>
        requires port { port < self.now.k }
        requires steps { steps < self.now.k }
        ensures { OnOk result (out.new ≡ out.old ++ Pass (port_after self.now.k port steps) frame.now ∷ []) }
    {
        let k = self.k;
        out.push(Act::Pass((port + steps) % k, Frame::copy(self.alloc, frame)?))
    }
}

// The message of a switch that knows its id alone, as it stands in a frame.
fn announces(id: SwitchId, frame: &[u8]) -> bool
    requires { IsWritableId id }
    ensures { IsTrue result ↔ (frame.now ≡ first_announcement id) }
{
    let message = Control::Ldm(
        id,
        Ldm {
            place: NOWHERE,
            direction: 0,
            echo: None,
        },
    );
    let mut bytes = [0; 35];
    let len = write_control(&message, &mut bytes);
    frame == &bytes[..len]
}

const NOWHERE: Place = Place {
    level: None,
    position: None,
    pod: None,
};

impl SwitchFacts for NextPort {
    ghost view = { λ switch. switch_at_boot switch.id switch.k };

    fn id(&self) -> SwitchId {
        self.id
    }

    fn k(&self) -> u8 {
        self.k
    }

    fn place(&self) -> Place {
        NOWHERE
    }

    fn port(&self, _port: u8) -> PortRecord {
        PortRecord {
            host: false,
            heard: None,
            silent: 0,
        }
    }

    fn avoids(&self, _neighbour: SwitchId, _pod: u16, _position: u8) -> bool {
        false
    }

    fn avoid_list(&self) -> &AvoidList {
        &self.avoid
    }

    fn announces(&self, _port: u8, frame: &[u8]) -> bool {
        announces(self.id, frame)
    }

    fn attempt(&self) -> Option<(u32, u8)> {
        None
    }

    fn granted(&self, _port: u8) -> bool {
        false
    }

    fn hold(&self, _position: u8) -> Option<(SwitchId, bool)> {
        None
    }

    fn part(&self, _group: u32) -> Option<&TreePart> {
        None
    }

    fn group(&self, _n: usize) -> Option<u32> {
        None
    }

    fn epoch(&self) -> u32 {
        0
    }
}

impl SwitchLogic for NextPort {
    ghost rule = { PassesNext };

    ghost accounts = { passes_next_accounts };

    fn boot(alloc: Global, id: SwitchId, k: u8) -> Result<NextPort, Memory> {
        Ok(NextPort {
            alloc,
            id,
            k,
            avoid: AvoidList::new(alloc),
        })
    }

    fn receive(&mut self, port: u8, frame: &[u8], out: &mut Outbox) -> Result<(), Memory> {
        if is_control(frame) {
            Ok(())
        } else {
            self.pass(port, 1, frame, out)
        }
    }

    fn tick(&mut self, _out: &mut Outbox) -> Result<(), Memory> {
        Ok(())
    }

    fn manager_says(&mut self, _says: &ToSwitch, _out: &mut Outbox) -> Result<(), Memory> {
        Ok(())
    }
}
