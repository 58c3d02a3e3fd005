ghost use Rattle.std.specs.Prelude.{◌≡◌, Some};
ghost use Rattle.std.specs.Option.{option_map};
ghost use Rattle.pl_wiring.specs.Labels.{switch_count};
ghost use Rattle.pl_journal.specs.Places.{is_host_port};
ghost use Rattle.pl_world.specs.Changes.{host_at, out_of};
ghost use Rattle.pl_queues.specs.Queues.{has_items};
ghost use Rattle.pl_schedule.specs.Looks.{refusal_of_len};
ghost use Rattle.pl_world.specs.LinksAndMoves.{link_between};
ghost use Rattle.pl_world.specs.Refusals.{has_host, has_port, has_queue, has_switch, is_filled, is_for_hosts, is_linked, refusal, refusal_of_event, refusal_of_link, refusal_of_move, refusal_of_place, refusal_of_queue, unless_there};

use crate::world::World;
use pl_node::{HostLogic, ManagerLogic, SwitchLogic};
use pl_wiring::{HostNo, Link, Peer, SwitchNo};
use pl_world::{Event, QueueName, StepError};
use pl_world_parts::link_of;

impl<S: SwitchLogic, M: ManagerLogic, H: HostLogic> World<S, M, H> {
    /// Why an event is refused, by the first reason that holds; none where the step is made.
    pub fn refusal(&self, event: &Event) -> Option<StepError>
        ensures { result ≡ refusal self.now event.now }
    {
        if self.steps >= self.limits.steps {
            Some(StepError::StepsSpent)
        } else if self.world_journal.is_full(&self.limits) {
            Some(StepError::JournalFull)
        } else {
            self.refusal_of_event(event)
        }
    }

    fn refusal_of_event(&self, event: &Event) -> Option<StepError>
        ensures { result ≡ refusal_of_event self.now event.now }
    {
        match event {
            Event::Deliver(name) => self.refusal_of_delivery(name),
            Event::Tick(s) => unless_there(self.has_switch(*s)),
            Event::Fail(a, b) => self.refusal_between(*a, *b, false),
            Event::Repair(a, b) => self.refusal_between(*a, *b, true),
            Event::Lose(s, port) => self.refusal_of_loss(*s, *port),
            Event::Move(h, s, port) => self.refusal_of_move(*h, *s, *port),
            Event::Start(h) => unless_there(self.has_host(*h)),
            Event::Play { host, .. } => unless_there(self.has_host(*host)),
            Event::Retry(h) => unless_there(self.has_host(*h)),
            Event::Join(h, _) => unless_there(self.has_host(*h)),
            Event::Leave(h, _) => unless_there(self.has_host(*h)),
            Event::Restart => None,
        }
    }

    pub(crate) fn has_host(&self, h: HostNo) -> bool
        ensures { result ≡ has_host self.now.plan h.0 }
    {
        h.0 < self.wiring_index.wiring().host_count()
    }

    pub(crate) fn has_switch(&self, s: SwitchNo) -> bool
        ensures { result ≡ has_switch self.now.plan s.0 }
    {
        s.0 < self.wiring_index.wiring().switch_count()
    }

    pub(crate) fn has_port(&self, s: SwitchNo, port: u8) -> bool
        ensures { result ≡ has_port self.now.plan s.0 port }
    {
        self.has_switch(s) && port < self.wiring_index.wiring().k()
    }

    // Whether the wiring has this port, and a host may stand there.
    fn is_for_hosts(&self, s: SwitchNo, port: u8) -> bool
        ensures { result ≡ is_for_hosts self.now.plan s.0 port }
    {
        if self.has_port(s, port) {
            is_host_port(&self.wiring_index.wiring().peer(s, port))
        } else {
            false
        }
    }

    // Whether the wiring has this port, and a link is there.
    fn is_linked(&self, s: SwitchNo, port: u8) -> bool
        ensures { result ≡ is_linked self.now.plan s.0 port }
    {
        if self.has_port(s, port) {
            !is_host_port(&self.wiring_index.wiring().peer(s, port))
        } else {
            false
        }
    }

    fn refusal_of_delivery(&self, name: &QueueName) -> Option<StepError>
        ensures { result ≡ refusal_of_queue (has_queue self.now.plan name.now) (is_filled self.now name.now) }
    {
        refusal_of_len(self.queue_len(*name))
    }

    fn refusal_of_loss(&self, s: SwitchNo, port: u8) -> Option<StepError>
        ensures { result ≡ refusal_of_queue (is_linked self.now.plan s.0 port) (has_items (out_of self.now s.0 port)) }
    {
        if self.is_linked(s, port) {
            refusal_of_len(self.queue_len(QueueName::Port(s, port)))
        } else {
            Some(StepError::NoSuch)
        }
    }

    // A link between two switches is to become live, or failed.
    fn refusal_between(&self, a: SwitchNo, b: SwitchNo, live: bool) -> Option<StepError>
        ensures { result ≡ refusal_of_link self.now live (link_between self.now.plan a.0 b.0) }
    {
        match link_of(self.wiring_index.wiring(), a, b) {
            None => Some(StepError::NoSuch),
            Some(link) => self.refusal_of_link(&link, live),
        }
    }

    fn refusal_of_link(&self, link: &Link, live: bool) -> Option<StepError>
        ensures { result ≡ refusal_of_link self.now live (Some link.now) }
    {
        if self.links.is_live(link) == live {
            Some(StepError::AlreadySo)
        } else {
            None
        }
    }

    fn refusal_of_move(&self, h: HostNo, s: SwitchNo, port: u8) -> Option<StepError>
        ensures { result ≡ refusal_of_move self.now h.0 s.0 port }
    {
        if self.has_host(h) && self.is_for_hosts(s, port) {
            let _ = &self.attachments;
            refusal_of_place(h, self.attachments.host_at(s, port))
        } else {
            Some(StepError::NoSuch)
        }
    }
}

// What is not there cannot be named.
fn unless_there(there: bool) -> Option<StepError>
    ensures { result ≡ unless_there there }
{
    if there { None } else { Some(StepError::NoSuch) }
}

// A queue that is there may be empty.
fn refusal_of_len(len: Option<usize>) -> Option<StepError>
    ensures { result ≡ refusal_of_len len }
{
    match len {
        None => Some(StepError::NoSuch),
        Some(len) => {
            if len == 0 {
                Some(StepError::NothingThere)
            } else {
                None
            }
        }
    }
}

// A host goes to a port where one stands by now.
fn refusal_of_place(h: HostNo, other: Option<HostNo>) -> Option<StepError>
    ensures { result ≡ refusal_of_place h.0 (option_map (λ n. n.0) other) }
{
    match other {
        None => None,
        Some(other) => {
            if other.0 == h.0 {
                Some(StepError::AlreadySo)
            } else {
                Some(StepError::Occupied)
            }
        }
    }
}

fn is_host_port(peer: &Peer) -> bool
    ensures { result ≡ is_host_port peer.now }
{
    match peer {
        Peer::HostPort => true,
        Peer::Switch(..) => false,
    }
}
