ghost use Rattle.std.specs.Prelude.{◌≡◌, ◌+◌, ℕ, true, false, nat_le, slice_get, IfErr, None, OnOk, Some};
ghost use Rattle.pl_frame.specs.declared.address.SwitchId.{SwitchId};
ghost use Rattle.pl_node.specs.ManagerFacts.{CanHear};
ghost use Rattle.pl_world.specs.declared.error.StepError.{StepError};
ghost use Rattle.pl_world.specs.Flying.{IsCounted};
ghost use Rattle.pl_world.specs.Ready.{CanStep};
ghost use Rattle.pl_world.specs.LinksAndMoves.{link_between};
ghost use Rattle.pl_world.specs.Refusals.{has_queue, is_filled, refusal, refusal_of_event, refusal_of_link, refusal_of_queue};
ghost use Rattle.pl_world.specs.WorldRule.{Delivers, LinkFails, Happens, LinkIsRepaired, WorldStep};

use crate::world::World;
use pl_frame::Memory;
use pl_node::{HostLogic, ManagerLogic, SwitchLogic};
use pl_wiring::SwitchNo;
use pl_world::{AttachmentPoint, Event, QueueName, StepError};
use pl_world_parts::{HostCall, link_of};

impl<S: SwitchLogic, M: ManagerLogic, H: HostLogic> World<S, M, H> {
    fn deliver(&mut self, name: &QueueName) -> Result<(), Memory>
        requires counted { IsCounted self.old }
        requires hears { (s : ℕ) (id : SwitchId) → slice_get self.old.plan.ids s ≡ Some id → CanHear self.old.manager id }
        requires allowed { refusal_of_queue (has_queue self.old.plan name.now) (is_filled self.old name.now) ≡ None }
        ensures { OnOk result (Delivers S.rule M.rule H.rule self.old name.now self.new) }
    {
        match name {
            QueueName::FromHost(h) => self.deliver_from_host(*h),
            QueueName::Port(s, port) => self.deliver_out(*s, *port),
            QueueName::ToManager(s) => self.deliver_to_manager(*s),
            QueueName::FromManager(s) => self.deliver_from_manager(*s),
        }
    }

    fn fail_between(&mut self, a: SwitchNo, b: SwitchNo) -> Result<(), Memory>
        requires { refusal_of_link self.old false (link_between self.old.plan a.0 b.0) ≡ None }
        ensures { OnOk result (LinkFails self.old (link_between self.old.plan a.0 b.0) self.new) }
    {
        match link_of(self.wiring_index.wiring(), a, b) {
            None => Ok(()),
            Some(link) => self.fail(link),
        }
    }

    fn repair_between(&mut self, a: SwitchNo, b: SwitchNo) -> Result<(), Memory>
        requires { refusal_of_link self.old true (link_between self.old.plan a.0 b.0) ≡ None }
        ensures { OnOk result (LinkIsRepaired self.old (link_between self.old.plan a.0 b.0) self.new) }
    {
        match link_of(self.wiring_index.wiring(), a, b) {
            None => Ok(()),
            Some(link) => self.repair(link),
        }
    }

    fn happen(&mut self, event: &Event) -> Result<(), Memory>
        requires counted { IsCounted self.old }
        requires hears { (s : ℕ) (id : SwitchId) → slice_get self.old.plan.ids s ≡ Some id → CanHear self.old.manager id }
        requires allowed { refusal_of_event self.old event.now ≡ None }
        ensures { OnOk result (Happens S.rule M.rule H.rule self.old event.now self.new) }
    {
        match event {
            Event::Deliver(name) => self.deliver(name),
            Event::Tick(s) => self.tick(*s),
            Event::Fail(a, b) => self.fail_between(*a, *b),
            Event::Repair(a, b) => self.repair_between(*a, *b),
            Event::Lose(s, port) => self.lose(*s, *port),
            Event::Move(h, s, port) => {
                let to = AttachmentPoint {
                    edge: *s,
                    port: *port,
                };
                self.move_host(*h, to)
            }
            Event::Start(h) => self.host_does(*h, HostCall::Start),
            Event::Play {
                host,
                frame,
                original,
                raw,
            } => self.host_plays(*host, frame.bytes(), *original, *raw),
            Event::Retry(h) => self.host_does(*h, HostCall::Retry),
            Event::Join(h, group) => self.host_does(*h, HostCall::Join(*group)),
            Event::Leave(h, group) => self.host_does(*h, HostCall::Leave(*group)),
            Event::Restart => self.restart_manager(),
        }
    }

    fn count_step(&mut self)
        requires { nat_le self.old.limits.steps self.old.steps ≡ false }
        ensures { self.new ≡ record self.old { steps = self.old.steps + 1 } }
    {
        let _limit = self.limits.steps;
        self.steps += 1;
    }

    // A step that is not refused.
    fn make_step(&mut self, event: &Event) -> Result<(), Memory>
        requires orderly { CanStep self.old }
        requires allowed { refusal self.old event.now ≡ None }
        ensures { OnOk result (WorldStep S.rule M.rule H.rule self.old event.now self.new) }
    {
        self.count_step();
        self.happen(event)
    }

    /// Makes one step, which is an event. A step that is refused changes nothing. After want of memory
    /// the world is not used again.
    pub fn step(&mut self, event: &Event) -> Result<(), StepError>
        requires orderly { CanStep self.old }
        ensures step { OnOk result ((refusal self.old event.now ≡ None) × WorldStep S.rule M.rule H.rule self.old event.now self.new) }
        ensures refused { (e : StepError) → refusal self.old event.now ≡ Some e → (result ≡ Err e) × (self.new ≡ self.old) }
        ensures memory { refusal self.old event.now ≡ None → IfErr result (λ e. e ≡ StepError.Memory) }
        ensures orderly { OnOk result (CanStep self.new) }
    {
        match self.refusal(event) {
            Some(refusal) => Err(refusal),
            None => match self.make_step(event) {
                Ok(()) => Ok(()),
                Err(_) => Err(StepError::Memory),
            },
        }
    }
}
