ghost use Rattle.std.specs.Prelude.{◌≡◌, ◌↔◌, ◌<◌, ◌≤◌, ◌/◌, IfOk, OnOk, IsTrue, Some};
ghost use Rattle.std.specs.Option.{option_copied};
ghost use Rattle.pl_node.specs.SwitchFacts.{is_avoided, part_of, CanBoot, IsAnnounced, group_of_part, has_granted, holder_of, present_attempt, switch_at_boot};
ghost use Rattle.pl_node.specs.Gains.{Gains};
ghost use Rattle.pl_node.specs.Accounting.{AccountsForFrames, IsComing};
ghost use Rattle.pl_node.specs.PortRecords.{port_of};
ghost use Rattle.pl_node.specs.SwitchInputs.{SwitchRule};
ghost use Rattle.pl_node.specs.SwitchInputs.SwitchInput.{Comes, Says, Tick};
ghost use Rattle.pl_node.specs.SwitchViews.{SwitchView};

use crate::{AvoidList, Memory, Outbox, PortRecord, ToSwitch, TreePart};
use pl_frame::SwitchId;
use pl_layouts::Place;
use std::alloc::Global;

/// What can be asked of a switch. No call takes memory.
pub trait SwitchFacts: Drop {
    ghost view: { Self → SwitchView };

    fn id(&self) -> SwitchId
        ensures { result ≡ (view self.now).id };

    fn k(&self) -> u8
        ensures known { result ≡ (view self.now).k }
        ensures within { result ≤ 24 };

    fn place(&self) -> Place
        ensures { result ≡ (view self.now).place };

    fn port(&self, port: u8) -> PortRecord
        requires { port < (view self.now).k }
        ensures { result ≡ port_of (view self.now) port };

    /// Whether the edge switch of that pod and position is not to be reached through this neighbour.
    fn avoids(&self, neighbour: SwitchId, pod: u16, position: u8) -> bool
        ensures { result ≡ is_avoided (view self.now) (Some neighbour) pod position };

    fn avoid_list(&self) -> &AvoidList
        ensures { result.now ≡ (view self.now).avoid };

    /// Whether the frame is the location discovery message that this switch would send out of that port
    /// now.
    fn announces(&self, port: u8, frame: &[u8]) -> bool
        requires { port < (view self.now).k }
        ensures { IsTrue result ↔ IsAnnounced (view self.now) port frame.now };

    /// The present attempt and the position that it proposes; none where this is no edge switch, or its
    /// position is fixed.
    fn attempt(&self) -> Option<(u32, u8)>
        ensures { result ≡ present_attempt (view self.now) };

    /// Whether the neighbour at that port granted the present attempt.
    fn granted(&self, port: u8) -> bool
        requires { port < (view self.now).k }
        ensures { result ≡ has_granted (view self.now) port };

    /// The edge switch that holds a position, and whether it is marked as fixed there.
    fn hold(&self, position: u8) -> Option<(SwitchId, bool)>
        requires { position < (view self.now).k / 2 }
        ensures { result ≡ holder_of (view self.now) position };

    /// The part of a group's tree; none where no part is known.
    fn part(&self, group: u32) -> Option<&TreePart>
        ensures { option_copied result ≡ part_of (view self.now) group };

    /// Group number n, rising, of those of which a part is known; none past the last.
    fn group(&self, n: usize) -> Option<u32>
        ensures { result ≡ group_of_part (view self.now) n };

    /// How often the fabric manager began anew, as far as this switch heard.
    fn epoch(&self) -> u32
        ensures { result ≡ (view self.now).epoch };
}

/// The software of a switch: what it does with what comes. Each call is one step, and puts its acts
/// behind those that are in the outbox. After want of memory neither the switch nor the outbox is used
/// again; only the id and the number of ports are as they were.
pub trait SwitchLogic: SwitchFacts {
    ghost rule: { SwitchRule };

    /// A switch that knows its id, 1 to 2^48 - 1, and k, an even number from 4 to 24.
    fn boot(alloc: Global, id: SwitchId, k: u8) -> Result<Self, Memory>
        requires { CanBoot id k }
        ensures { IfOk result (λ logic. Self.view logic ≡ switch_at_boot id k) };

    /// A frame of 14 to 65,553 bytes comes at a port.
    fn receive(&mut self, port: u8, frame: &[u8], out: &mut Outbox) -> Result<(), Memory>
        requires { IsComing (Self.view self.old).k port frame.now }
        ensures step { OnOk result (Gains out.old out.new (rule (Self.view self.old) (Comes port frame.now) (Self.view self.new))) }
        ensures id { (Self.view self.new).id ≡ (Self.view self.old).id }
        ensures k { (Self.view self.new).k ≡ (Self.view self.old).k };

    fn tick(&mut self, out: &mut Outbox) -> Result<(), Memory>
        ensures step { OnOk result (Gains out.old out.new (rule (Self.view self.old) Tick (Self.view self.new))) }
        ensures id { (Self.view self.new).id ≡ (Self.view self.old).id }
        ensures k { (Self.view self.new).k ≡ (Self.view self.old).k };

    /// A message of the fabric manager comes.
    fn manager_says(&mut self, says: &ToSwitch, out: &mut Outbox) -> Result<(), Memory>
        ensures step { OnOk result (Gains out.old out.new (rule (Self.view self.old) (Says says.now) (Self.view self.new))) }
        ensures id { (Self.view self.new).id ≡ (Self.view self.old).id }
        ensures k { (Self.view self.new).k ≡ (Self.view self.old).k };

    ghost accounts: { AccountsForFrames rule };
}
