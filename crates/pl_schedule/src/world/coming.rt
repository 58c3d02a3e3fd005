ghost use Rattle.std.specs.Prelude.{◌≡◌, ◌<◌, ◌+◌, IfSome, None, false, nat_le, length, option_map, slice_get};
ghost use Rattle.std.specs.Option.{option_copied};
ghost use Rattle.pl_wiring.specs.Labels.{switch_count};
ghost use Rattle.pl_node.specs.SwitchInputs.SwitchInput.{Comes, Says, Tick};
ghost use Rattle.pl_world.specs.Changes.{out_of};
ghost use Rattle.pl_world.specs.Drops.{coming, coming_at};
ghost use Rattle.pl_world.specs.Flying.{IsCounted, IsItem};
ghost use Rattle.pl_world.specs.Refusals.{has_queue, is_filled, refusal_of_event, refusal_of_queue};
ghost use Rattle.pl_schedule.specs.Coming.{IsHeardThere, coming_of, telling};
ghost use Rattle.pl_node.specs.Accounting.{CanCome};
ghost use Rattle.pl_node.specs.SwitchViews.{SwitchView};

use crate::world::World;
use pl_frame::Frame;
use pl_node::{HostLogic, ManagerLogic, SwitchLogic, ToManager, ToSwitch};
use pl_wiring::{HostNo, Peer, SwitchNo};
use pl_world::{Event, Item, QueueName};
use pl_world_parts::Incoming;

/// What a switch is about to hear, and the number of the frame that comes, where it is a data frame.
#[derive(Clone, Copy)]
pub struct Coming<'a> {
    pub switch: SwitchNo,
    pub incoming: Incoming<'a>,
    pub frame: Option<u64>,
}

impl<S: SwitchLogic, M: ManagerLogic, H: HostLogic> World<S, M, H> {
    /// The number of the next step.
    pub fn next_step(&self) -> u64
        requires { nat_le self.now.limits.steps self.now.steps ≡ false }
        ensures { result ≡ self.now.steps + 1 }
    {
        let _limit = self.limits.steps;
        self.steps + 1
    }

    /// What a switch hears in an event that is not refused; none where no switch hears anything.
    pub fn coming(&self, event: &Event) -> Option<Coming<'_>>
        requires { refusal_of_event self.now event.now ≡ None }
        ensures coming { option_map coming_of result ≡ coming self.now event.now }
        ensures heard { IsCounted self.now → IfSome result (λ c. IsHeardThere self.now.plan c) }
    {
        match event {
            Event::Tick(s) => Some(ticking(*s)),
            Event::Deliver(name) => self.coming_from(name),
            _ => None,
        }
    }

    // What comes of the head of a queue at a switch.
    fn coming_from(&self, name: &QueueName) -> Option<Coming<'_>>
        requires { refusal_of_queue (has_queue self.now.plan name.now) (is_filled self.now name.now) ≡ None }
        ensures coming { option_map coming_of result ≡ coming self.now (Event.Deliver name.now) }
        ensures heard { IsCounted self.now → IfSome result (λ c. IsHeardThere self.now.plan c) }
    {
        match name {
            QueueName::FromHost(h) => self.coming_in(*h),
            QueueName::Port(s, port) => self.coming_over(*s, *port),
            QueueName::ToManager(_) => None,
            QueueName::FromManager(s) => self.coming_from_manager(*s),
        }
    }

    #[tactic(auto, using(crate::proofs::Hearing::item_heard, crate::proofs::Hearing::sent_first))]
    fn coming_in(&self, h: HostNo) -> Option<Coming<'_>>
        requires { h.0 < length self.now.plan.hosts }
        ensures coming { option_map coming_of result ≡ coming self.now (Event.Deliver (QueueName.FromHost h)) }
        ensures heard { IsCounted self.now → IfSome result (λ c. IsHeardThere self.now.plan c) }
    {
        let item = self.from_hosts.first(h.0 as usize)?;
        let at = self.attachment_of(h);
        Some(coming_at(at.edge, at.port, item))
    }

    #[tactic(auto, using(crate::proofs::Hearing::item_heard, crate::proofs::Hearing::out_first))]
    fn coming_over(&self, s: SwitchNo, port: u8) -> Option<Coming<'_>>
        requires switch { s.0 < switch_count self.now.plan.k }
        requires port { port < self.now.plan.k }
        ensures coming { option_map coming_of result ≡ coming self.now (Event.Deliver (QueueName.Port s port)) }
        ensures heard { IsCounted self.now → IfSome result (λ c. IsHeardThere self.now.plan c) }
    {
        let item = self.first_out(s, port)?;
        match self.peer(s, port) {
            Peer::Switch(to, at) => Some(coming_at(to, at, item)),
            Peer::HostPort => None,
        }
    }

    fn coming_from_manager(&self, s: SwitchNo) -> Option<Coming<'_>>
        requires { s.0 < switch_count self.now.plan.k }
        ensures coming { option_map coming_of result ≡ coming self.now (Event.Deliver (QueueName.FromManager s)) }
        ensures heard { IsCounted self.now → IfSome result (λ c. IsHeardThere self.now.plan c) }
    {
        let waiting = self.from_manager.queues().first(s.0 as usize)?;
        Some(saying(s, waiting.says()))
    }

    /// The first item of the queue out of a port; none where it is empty.
    pub fn first_out(&self, s: SwitchNo, port: u8) -> Option<&Item>
        requires switch { s.0 < switch_count self.now.plan.k }
        requires port { port < self.now.plan.k }
        ensures { option_copied result ≡ slice_get (out_of self.now s.0 port) 0 }
    {
        self.switches.first(s.0 as usize, port)
    }

    /// What the manager hears in an event that is not refused, and of which switch; none where it hears
    /// nothing.
    pub fn telling(&self, event: &Event) -> Option<(SwitchNo, &ToManager)>
        requires { refusal_of_event self.now event.now ≡ None }
        ensures telling { option_map (λ told. (told.0.0, told.1.now)) result ≡ telling self.now event.now }
        ensures there { IfSome result (λ told. told.0.0 < switch_count self.now.plan.k) }
    {
        match event {
            Event::Deliver(QueueName::ToManager(s)) => self.first_told(*s),
            _ => None,
        }
    }

    fn first_told(&self, s: SwitchNo) -> Option<(SwitchNo, &ToManager)>
        requires { s.0 < switch_count self.now.plan.k }
        ensures telling { option_map (λ told. (told.0.0, told.1.now)) result ≡ telling self.now (Event.Deliver (QueueName.ToManager s)) }
        ensures there { IfSome result (λ told. told.0.0 < switch_count self.now.plan.k) }
    {
        let waiting = self.to_manager.queues().first(s.0 as usize)?;
        Some((s, waiting.told()))
    }
}

fn ticking(s: SwitchNo) -> Coming<'static>
    ensures { coming_of result ≡ record { switch = s.0; input = Tick; frame = None } }
{
    Coming {
        switch: s,
        incoming: Incoming::Tick,
        frame: None,
    }
}

fn coming_at(s: SwitchNo, port: u8, item: &Item) -> Coming<'_>
    ensures is { coming_of result ≡ coming_at s.0 port item.now }
    ensures fits { (v : SwitchView) → port < v.k → IsItem item.now → CanCome v (coming_of result).input }
{
    match item {
        Item::Control(frame) => frame_at(s, port, frame, None),
        Item::Data(number, frame) => frame_at(s, port, frame, Some(*number)),
    }
}

fn frame_at(s: SwitchNo, port: u8, frame: &Frame, number: Option<u64>) -> Coming<'_>
    ensures { coming_of result ≡ record { switch = s.0; input = Comes port frame.now; frame = number } }
{
    Coming {
        switch: s,
        incoming: Incoming::Frame(port, frame.bytes()),
        frame: number,
    }
}

fn saying(s: SwitchNo, says: &ToSwitch) -> Coming<'_>
    ensures { coming_of result ≡ record { switch = s.0; input = Says says.now; frame = None } }
{
    Coming {
        switch: s,
        incoming: Incoming::Message(says),
        frame: None,
    }
}
