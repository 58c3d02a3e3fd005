ghost use Rattle.std.specs.Prelude.{◌≡◌, ◌<◌, IfOk, OnOk};
ghost use Rattle.pl_node.specs.Accounting.{IsComing};
ghost use Rattle.pl_ldp.specs.Writable.{IsWritableControl};
ghost use Rattle.pl_steps.specs.Taken.{IsTaken};
ghost use Rattle.pl_switch_rule.specs.Levels.{changes_to, hears_message};
ghost use Rattle.pl_switch_rule.specs.Positions.{after_vote, hears_proposal};
ghost use Rattle.pl_switch_rule.specs.SwitchRule.{control_comes, hears_control};

use crate::SwitchState;
use crate::settling::settle;
use crate::voting::{answer_proposal, count_vote, note_edge};
use pl_frame::SwitchId;
use pl_layouts::{Control, ControlError, Ldm, Proposal, Vote};
use pl_ldp::read_control;
use pl_node::{Memory, Outbox};

impl SwitchState {
    /// A control frame comes at a port. One that cannot be read, or that a host sent, is ignored.
    pub fn control_comes(&mut self, port: u8, frame: &[u8], out: &mut Outbox) -> Result<(), Memory>
        requires { IsComing self.old.k port frame.now }
        ensures taken { OnOk result (IsTaken (control_comes self.old port frame.now) self.new out.old out.new) }
        ensures id { self.new.id ≡ self.old.id }
        ensures k { self.new.k ≡ self.old.k }
        ensures avoid { self.new.avoid ≡ self.old.avoid }
    {
        if self.ports.record(port).host {
            return Ok(());
        }
        let payload = frame.split_at(14).1;
        self.hear_control(port, read_control(payload), out)
    }

    // What a control frame says comes about.
    fn hear_control(
        &mut self,
        port: u8,
        heard: Result<Control, ControlError>,
        out: &mut Outbox,
    ) -> Result<(), Memory>
        requires port { port < self.old.k }
        requires message { IfOk heard IsWritableControl }
        ensures taken { OnOk result (IsTaken (hears_control self.old port heard) self.new out.old out.new) }
        ensures id { self.new.id ≡ self.old.id }
        ensures k { self.new.k ≡ self.old.k }
        ensures avoid { self.new.avoid ≡ self.old.avoid }
    {
        match heard {
            Ok(Control::Ldm(id, ldm)) => self.hear_message(port, id, &ldm, out),
            Ok(Control::Proposal(id, proposal)) => self.hear_proposal(port, id, proposal, out),
            Ok(Control::Vote(_, vote)) => self.hear_vote(port, &vote, out),
            Err(_) => Ok(()),
        }
    }

    // A message of location discovery: the record of the port is replaced, then come level and pod, and
    // the position that an edge switch says it has is noted.
    fn hear_message(
        &mut self,
        port: u8,
        id: SwitchId,
        ldm: &Ldm,
        out: &mut Outbox,
    ) -> Result<(), Memory>
        requires port { port < self.old.k }
        requires message { IsWritableControl (Control.Ldm id ldm.now) }
        ensures taken { OnOk result (IsTaken (hears_message self.old port id ldm.now) self.new out.old out.new) }
        ensures id { self.new.id ≡ self.old.id }
        ensures k { self.new.k ≡ self.old.k }
        ensures avoid { self.new.avoid ≡ self.old.avoid }
    {
        let before = self.ports.standing();
        self.ports.heard(port, id, ldm);
        self.ports.learn(ldm.place);
        note_edge(&self.ports, &mut self.holder, id, ldm.place);
        settle(
            &mut self.ports,
            &mut self.proposer,
            &mut self.edge,
            &before,
            out,
        )
    }

    // A proposal of an edge switch.
    fn hear_proposal(
        &mut self,
        port: u8,
        edge: SwitchId,
        proposal: Proposal,
        out: &mut Outbox,
    ) -> Result<(), Memory>
        requires port { port < self.old.k }
        requires message { IsWritableControl (Control.Proposal edge proposal) }
        ensures taken { OnOk result (IsTaken (hears_proposal self.old port edge proposal) self.new out.old out.new) }
        ensures id { self.new.id ≡ self.old.id }
        ensures k { self.new.k ≡ self.old.k }
        ensures avoid { self.new.avoid ≡ self.old.avoid }
    {
        answer_proposal(
            self.alloc,
            &self.ports,
            &mut self.holder,
            port,
            edge,
            proposal,
            out,
        )
    }

    // A vote on the position that this switch proposes.
    fn hear_vote(&mut self, port: u8, vote: &Vote, out: &mut Outbox) -> Result<(), Memory>
        requires { port < self.old.k }
        ensures taken { OnOk result (IsTaken (changes_to self.old (after_vote self.old port vote.now)) self.new out.old out.new) }
        ensures id { self.new.id ≡ self.old.id }
        ensures k { self.new.k ≡ self.old.k }
        ensures avoid { self.new.avoid ≡ self.old.avoid }
    {
        let before = self.ports.standing();
        count_vote(&mut self.ports, &mut self.proposer, port, vote);
        settle(
            &mut self.ports,
            &mut self.proposer,
            &mut self.edge,
            &before,
            out,
        )
    }
}
