ghost use Rattle.std.specs.Prelude.{◌≡◌, ◌<◌, ◌≤◌, true, length, IfOk, OnOk};
ghost use Rattle.pl_edge.specs.Begun.{left_to_do};
ghost use Rattle.pl_layouts.specs.Placement.{is_known};
ghost use Rattle.pl_steps.specs.Taken.{IsTaken, IsTakenUpTo};
ghost use Rattle.pl_switch_rule.specs.Forwarding.{Choice};
ghost use Rattle.pl_switch_rule.specs.Granting.{granted, held_here, is_granted};
ghost use Rattle.pl_switch_rule.specs.Intake.{takes_in};
ghost use Rattle.pl_switch_rule.specs.Messages.{frees, invalidates};

use crate::SwitchState;
use pl_edge::EdgeAct;
use pl_frame::Frame;
use pl_node::{Memory, Outbox, Trap};
use pl_pmac::Pmac;

impl SwitchState {
    /// Whether an address was granted here, be it free by now or not.
    pub fn is_granted(&self, address: Pmac) -> bool
        ensures { result ≡ is_granted self.now address }
    {
        self.edge.is_granted(address)
    }

    /// A frame of a host whose source was learnt comes to an edge switch: it is taken or dropped, or it is
    /// rewritten to go on. The answer says what is left to do with it.
    pub fn ingress(
        &mut self,
        port: u8,
        frame: &mut Frame,
        out: &mut Outbox,
    ) -> Result<EdgeAct, Memory>
        requires edge { is_known self.old.place.level 0 ≡ true }
        requires port { port < self.old.k }
        requires long { 14 ≤ length frame.old }
        requires short { length frame.old ≤ 65553 }
        ensures begun { IfOk result (λ act. (choose : Choice) → IsTakenUpTo (left_to_do choose act frame.new self.new) (takes_in choose port frame.old self.old) out.old out.new) }
        ensures same { length frame.new ≡ length frame.old }
        ensures place { self.new.place ≡ self.old.place }
        ensures id { self.new.id ≡ self.old.id }
        ensures k { self.new.k ≡ self.old.k }
        ensures ports { self.new.ports ≡ self.old.ports }
        ensures avoid { self.new.avoid ≡ self.old.avoid }
    {
        self.edge.ingress(port, frame, out)
    }

    /// A host has a newer address than one that was granted here. Where that is free, nothing changes.
    pub fn invalidate(&mut self, old: Pmac, to: Trap, out: &mut Outbox) -> Result<(), Memory>
        requires { is_granted self.old old ≡ true }
        ensures taken { OnOk result (IsTaken (invalidates self.old old to (held_here self.old old)) self.new out.old out.new) }
        ensures id { self.new.id ≡ self.old.id }
        ensures k { self.new.k ≡ self.old.k }
        ensures place { self.new.place ≡ self.old.place }
        ensures ports { self.new.ports ≡ self.old.ports }
        ensures avoid { self.new.avoid ≡ self.old.avoid }
    {
        self.edge.invalidate(old, to, out)
    }

    /// The manager releases an address: where it rests here, it is free from now on.
    pub fn release(&mut self, pmac: Pmac, out: &mut Outbox) -> Result<(), Memory>
        ensures taken { OnOk result (IsTaken (frees self.old pmac (granted self.old pmac)) self.new out.old out.new) }
        ensures id { self.new.id ≡ self.old.id }
        ensures k { self.new.k ≡ self.old.k }
        ensures place { self.new.place ≡ self.old.place }
        ensures ports { self.new.ports ≡ self.old.ports }
        ensures avoid { self.new.avoid ≡ self.old.avoid }
    {
        self.edge.release(pmac, out)
    }
}
