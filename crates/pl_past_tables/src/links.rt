ghost use Rattle.std.specs.Prelude.{◌≡◌, ◌+◌, ◌<◌, ◌≤◌, true, ◌∷◌, [], List, ℕ, OnOk, length};
ghost use Rattle.pl_wiring.specs.Labels.{switch_count};
ghost use Rattle.pl_wiring.specs.Peers.{peer_of};
ghost use Rattle.pl_journal.specs.declared.entry.Entry.{Entry};
ghost use Rattle.pl_journal.specs.declared.entry.Entry.TheVariants.{LinkDown, LinkUp};
ghost use Rattle.pl_journal.specs.Places.{has_failed_link, is_adjacent, is_failed};
ghost use Rattle.pl_past.specs.Links.{live_since};
ghost use Rattle.pl_past_tables.specs.Links.{KeepsLinks, ends_of, leads_to_failed};

use crate::keys::Ends;
use crate::last::Last;
use pl_journal::Memory;
use pl_wiring::{Peer, SwitchNo, Wiring};
use std::alloc::Global;

/// Since which entry links are live: none for a failed one, 0 where it never failed.
#[derive(Debug, Drop)]
pub struct Links {
    pub(crate) since: Last<Ends, Option<u64>>,
}

impl Links {
    pub fn new(alloc: Global) -> Links
        ensures { KeepsLinks [] result }
    {
        Links {
            since: Last::new(alloc),
        }
    }

    /// Since which entry the link of two switches is live; none where it is failed.
    pub fn live_since(&self, a: SwitchNo, b: SwitchNo) -> Option<u64>
        ensures { (past : List Entry) → KeepsLinks past self.now → result ≡ live_since past a.0 b.0 }
    {
        match self.since.get(ends_of(a, b)) {
            None => Some(0),
            Some(since) => since,
        }
    }

    pub fn is_failed(&self, a: SwitchNo, b: SwitchNo) -> bool
        ensures { (past : List Entry) → KeepsLinks past self.now → result ≡ is_failed past a.0 b.0 }
    {
        self.live_since(a, b).is_none()
    }

    /// Whether a link of a switch is failed. A switch has at most 24 ports.
    pub fn has_failed_link(&self, wiring: &Wiring, s: SwitchNo) -> bool
        ensures { (past : List Entry) → KeepsLinks past self.now → result ≡ has_failed_link wiring.now past s.0 }
    {
        let _k = wiring.k();
        if s.0 >= wiring.switch_count() {
            return false;
        }
        for port in 0..wiring.k() {
            if self.is_failed_at(wiring, s, port) {
                return true;
            }
        }
        false
    }

    // Whether the link at a port is failed.
    fn is_failed_at(&self, wiring: &Wiring, s: SwitchNo, port: u8) -> bool
        requires switch { s.0 < switch_count wiring.now.k }
        requires port { port < wiring.now.k }
        ensures { (past : List Entry) → KeepsLinks past self.now →
            result ≡ leads_to_failed past s.0 (peer_of wiring.now s.0 port) }
    {
        match wiring.peer(s, port) {
            Peer::HostPort => false,
            Peer::Switch(t, _) => self.is_failed(s, t),
        }
    }

    /// A link fails; the switch with the smaller number stands first.
    pub fn fail(&mut self, a: SwitchNo, b: SwitchNo) -> Result<(), Memory>
        ensures { OnOk result ((past : List Entry) → KeepsLinks past self.old → a.0 < b.0 → KeepsLinks (LinkDown a b ∷ past) self.new) }
    {
        self.since.put(Ends { lower: a, upper: b }, None)?;
        Ok(())
    }

    /// A failed link is repaired by entry `n`; the switch with the smaller number stands first.
    pub fn repair(&mut self, a: SwitchNo, b: SwitchNo, n: u64) -> Result<(), Memory>
        ensures { OnOk result ((past : List Entry) → KeepsLinks past self.old → a.0 < b.0 → is_failed past a.0 b.0 ≡ true →
            n ≡ length past + 1 → KeepsLinks (LinkUp a b ∷ past) self.new) }
    {
        self.since.put(Ends { lower: a, upper: b }, Some(n))?;
        Ok(())
    }
}

/// Whether the wiring has a link between two switches.
pub fn is_adjacent(wiring: &Wiring, a: SwitchNo, b: SwitchNo) -> bool
    ensures { result ≡ is_adjacent wiring.now a.0 b.0 }
{
    wiring.link(a, b).is_some()
}

fn ends_of(a: SwitchNo, b: SwitchNo) -> Ends
    ensures { result ≡ ends_of a b }
{
    if a.0 <= b.0 {
        Ends { lower: a, upper: b }
    } else {
        Ends { lower: b, upper: a }
    }
}
