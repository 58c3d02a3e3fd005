ghost use Rattle.std.specs.Prelude.{◌≡◌, [], IfOk, IsTrue, None, OnOk, Some};
ghost use Rattle.pl_arp.specs.Reception.{answer_to, hardware_of, table_after};
ghost use Rattle.pl_node.specs.HostViews.{with_held};
ghost use Rattle.pl_host_rule.specs.HostRule.{released, released_by, still_held};
ghost use Rattle.pl_host.specs.Waiting.{are_unknown};

use crate::carried::Carried;
use crate::waiting::Waiting;
use pl_arp::{Arp, Cache, Me};
use pl_frame::{Ip4, Memory};
use pl_lists::Queue;
use std::alloc::Global;

/// The addresses that a host knows, and the frames that wait for those that it does not.
#[derive(Drop)]
pub(crate) struct Neighbours {
    pub(crate) cache: Cache,
    pub(crate) waiting: Waiting,
    ghost unknown: { IsTrue (are_unknown cache waiting) },
}

/// What a host owes once it has heard a packet: its answer, and the frames that waited for the sender.
#[derive(Drop)]
pub(crate) struct Heard {
    pub(crate) answer: Option<Arp>,
    pub(crate) frames: Queue<Carried>,
}

impl Neighbours {
    pub(crate) fn new(alloc: Global) -> Neighbours
        ensures cache { result.cache ≡ [] }
        ensures waiting { result.waiting ≡ [] }
    {
        Neighbours {
            cache: Cache::new(alloc),
            waiting: Waiting::new(alloc),
        }
    }

    /// One more frame waits for an address that is not known.
    pub(crate) fn hold(&mut self, alloc: Global, ip: Ip4, frame: Carried) -> Result<(), Memory>
        requires { hardware_of self.old.cache ip ≡ None }
        ensures waiting { OnOk result (self.new.waiting ≡ with_held self.old.waiting ip frame) }
        ensures cache { self.new.cache ≡ self.old.cache }
    {
        self.waiting.hold(alloc, ip, frame)
    }

    /// Hears a packet. No frame waits any longer for the address that it tells.
    pub(crate) fn hear(&mut self, alloc: Global, me: Me, arp: &Arp) -> Result<Heard, Memory>
        ensures answer { IfOk result (λ heard. heard.answer ≡ answer_to me arp.now) }
        ensures cache { OnOk result (self.new.cache ≡ table_after self.old.cache me arp.now) }
        ensures released { IfOk result (λ heard. released heard.frames (Some arp.now.sha) ≡ released_by self.new.cache self.old.waiting) }
        ensures waiting { OnOk result (self.new.waiting ≡ still_held self.new.cache self.old.waiting) }
    {
        let answer = self.cache.receive(me, arp)?;
        if self.cache.get(arp.spa).is_none() {
            let frames = Queue::new(alloc);
            return Ok(Heard { answer, frames });
        }
        let frames = self.waiting.take(alloc, arp.spa);
        Ok(Heard { answer, frames })
    }
}
