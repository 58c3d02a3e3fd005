//! A frame is taken, or is dropped for a cause.
ghost use Rattle.std.specs.Prelude.{◌≡◌, ◌↔◌, ◌&&◌, ◌∷◌, [], List, ℕ, IsTrue, option_map};
ghost use Rattle.pl_journal.specs.declared.entry.Entry.{Entry};
ghost use Rattle.pl_journal.specs.declared.entry.Entry.TheVariants.{Dropped, Taken};
ghost use Rattle.pl_journal.specs.declared.cause.Cause.{Cause};
ghost use Rattle.pl_journal.specs.Places.{are_live_there, is_live, is_spent};
ghost use Rattle.pl_journal.specs.Causes.{CauseShows, has_crossed, has_left, is_left_behind};
ghost use Rattle.pl_journal.specs.Flights.{addressee, sender};
ghost use Rattle.pl_past.specs.Kept.{kept};
ghost use Rattle.pl_past_tables.specs.Addresses.{KeepsAddresses};
ghost use Rattle.pl_past_tables.specs.Frames.{IsRow};
ghost use Rattle.pl_past_tables.specs.Holders.{KeepsHolders};
ghost use Rattle.pl_past_tables.specs.Keys.{edge_port_at};
ghost use Rattle.pl_past_tables.specs.Legs.{switches_of};
ghost use Rattle.pl_checker.specs.Past.{Keeps, MayFollow};

use crate::past::Past;
use pl_journal::Cause;
use pl_multicast::FLOOD;
use pl_past_tables::{Leg, Point, Row, is_at};
use pl_wiring::{HostNo, SwitchNo, Wiring};

impl Past {
    pub(crate) fn may_take(&self, wiring: &Wiring, id: u64, s: SwitchNo) -> bool
        ensures { (text : List ℕ) (past : List Entry) → Keeps wiring.now text past self.now →
            (IsTrue result ↔ MayFollow wiring.now past (Taken id s)) }
    {
        let Some(row) = self.frames.flying(id) else {
            return false;
        };
        if row.sender.is_none() {
            return false;
        }
        if !row.carried.takeable {
            return false;
        }
        is_just(row.leg, s)
    }

    pub(crate) fn may_drop(&self, wiring: &Wiring, id: u64, cause: Cause) -> bool
        ensures { (text : List ℕ) (past : List Entry) → Keeps wiring.now text past self.now →
            (IsTrue result ↔ MayFollow wiring.now past (Dropped id cause)) }
    {
        let Some(row) = self.frames.flying(id) else {
            return false;
        };
        self.shows(wiring, &row, cause)
    }

    // Whether the cause shows of a frame.
    fn shows(&self, wiring: &Wiring, row: &Row, cause: Cause) -> bool
        ensures { (text : List ℕ) (past : List Entry) (id : ℕ) → Keeps wiring.now text past self.now → IsRow text row.now (kept wiring.now past id) →
            (IsTrue result ↔ CauseShows wiring.now past id cause) }
    {
        match cause {
            Cause::NotPlaced => has_crossed(wiring, row),
            Cause::NoNextHop => has_crossed(wiring, row),
            Cause::Lost => has_crossed(wiring, row),
            Cause::NoAddress => self.is_not_live(wiring, row),
            Cause::HostGone => self.is_gone(wiring, row),
            Cause::LinkDown => self.touches_failed_link(wiring, row),
            Cause::Spent => self.came_in_at_spent_port(wiring, row),
            Cause::BadArp => is_bad_arp(wiring, row),
            Cause::NoMember => is_routed(wiring, row),
        }
    }

    // Whether the present address of a frame is not live.
    fn is_not_live(&self, wiring: &Wiring, row: &Row) -> bool
        ensures { (text : List ℕ) (past : List Entry) (id : ℕ) → Keeps wiring.now text past self.now → IsRow text row.now (kept wiring.now past id) →
            (IsTrue result ↔ CauseShows wiring.now past id Cause.NoAddress) }
    {
        !self.holders.is_live(row.address)
    }

    // Whether a frame goes to a group, its host has left, or its sender has with the frame in its queue.
    fn is_gone(&self, wiring: &Wiring, row: &Row) -> bool
        ensures { (text : List ℕ) (past : List Entry) (id : ℕ) → Keeps wiring.now text past self.now → IsRow text row.now (kept wiring.now past id) →
            (IsTrue result ↔ CauseShows wiring.now past id Cause.HostGone) }
    {
        if row.carried.group.is_some() {
            return true;
        }
        let host = self.addressee(wiring, row);
        let there = self.addresses.point_of(row.address);
        if self.has_left(wiring, host, there) {
            return true;
        }
        self.is_left_behind(wiring, row)
    }

    /// The host that a frame is for.
    pub(crate) fn addressee(&self, wiring: &Wiring, row: &Row) -> Option<HostNo>
        ensures { (text : List ℕ) (past : List Entry) (id : ℕ) → Keeps wiring.now text past self.now → IsRow text row.now (kept wiring.now past id) →
            option_map (λ h. h.0) result ≡ addressee past id }
    {
        self.holders.held_as_of(row.address, row.asked)
    }

    // Whether a host does not stand at a port.
    fn has_left(&self, wiring: &Wiring, host: Option<HostNo>, there: Option<Point>) -> bool
        ensures { (text : List ℕ) (past : List Entry) → Keeps wiring.now text past self.now →
            result ≡ has_left wiring.now past (option_map (λ h. h.0) host) (option_map edge_port_at there) }
    {
        match (host, there) {
            (Some(host), Some(there)) => !is_at(self.hosts.point_of(wiring, host), there),
            _ => false,
        }
    }

    // Whether a frame crossed nothing, and its sender moved since it was sent.
    fn is_left_behind(&self, wiring: &Wiring, row: &Row) -> bool
        ensures { (text : List ℕ) (past : List Entry) (id : ℕ) → Keeps wiring.now text past self.now → IsRow text row.now (kept wiring.now past id) →
            result ≡ is_left_behind past id (sender past id) }
    {
        let Some(host) = row.sender else {
            return false;
        };
        let moved = row.sent < self.hosts.moved_at(wiring, host);
        if !row.trail.is_empty() {
            return false;
        }
        moved
    }

    // Whether a link of the switch that a frame crossed last is failed.
    fn touches_failed_link(&self, wiring: &Wiring, row: &Row) -> bool
        ensures { (text : List ℕ) (past : List Entry) (id : ℕ) → Keeps wiring.now text past self.now → IsRow text row.now (kept wiring.now past id) →
            (IsTrue result ↔ CauseShows wiring.now past id Cause.LinkDown) }
    {
        match row.trail.last() {
            None => false,
            Some(s) => self.links.has_failed_link(wiring, s),
        }
    }

    // Whether the port where a frame came in has given the largest vmid, and each address of it is live.
    fn came_in_at_spent_port(&self, wiring: &Wiring, row: &Row) -> bool
        ensures { (text : List ℕ) (past : List Entry) (id : ℕ) → Keeps wiring.now text past self.now → IsRow text row.now (kept wiring.now past id) →
            (IsTrue result ↔ CauseShows wiring.now past id Cause.Spent) }
    {
        match row.came_in {
            None => false,
            Some(point) => self.is_spent(point),
        }
    }

    // Whether a port has given the largest vmid, and each address that it has given is live.
    fn is_spent(&self, point: Point) -> bool
        ensures { (past : List Entry) → KeepsAddresses past self.now.addresses → KeepsHolders past self.now.holders →
            result ≡ (is_spent past (edge_port_at point) && are_live_there (is_live past) past (edge_port_at point)) }
    {
        if !self.addresses.is_spent(point) {
            return false;
        }
        self.holders.are_live_there(point)
    }

    /// A frame is taken.
    pub(crate) fn take(&mut self, wiring: &Wiring, id: u64, s: SwitchNo)
        ensures { (text : List ℕ) (past : List Entry) → Keeps wiring.now text past self.old →
            MayFollow wiring.now past (Taken id s) → Keeps wiring.now text (Taken id s ∷ past) self.new }
    {
        let Some(row) = self.frames.flying(id) else {
            return;
        };
        self.frames.put(id, row.ending());
        self.just = None;
    }

    /// A frame is dropped.
    pub(crate) fn drop_frame(&mut self, wiring: &Wiring, id: u64, cause: Cause)
        ensures { (text : List ℕ) (past : List Entry) → Keeps wiring.now text past self.old →
            MayFollow wiring.now past (Dropped id cause) → Keeps wiring.now text (Dropped id cause ∷ past) self.new }
    {
        let Some(row) = self.frames.flying(id) else {
            return;
        };
        self.frames.put(id, row.ending());
        self.just = None;
    }
}

// Whether the leg is this switch alone.
fn is_just(leg: Leg, s: SwitchNo) -> bool
    ensures { IsTrue result ↔ (switches_of leg ≡ s.0 ∷ []) }
{
    match leg {
        Leg::Empty => false,
        Leg::One(a) => a.0 == s.0,
        Leg::Two(..) => false,
        Leg::Three(..) => false,
        Leg::Four(..) => false,
        Leg::Five(..) => false,
    }
}

// Whether a frame has crossed a switch.
fn has_crossed(wiring: &Wiring, row: &Row) -> bool
    ensures { (text : List ℕ) (past : List Entry) (id : ℕ) → IsRow text row.now (kept wiring.now past id) →
        (IsTrue result ↔ IsTrue (has_crossed past id)) }
{
    !row.trail.is_empty()
}

// Whether a frame crossed one switch, and its ARP packet cannot be read.
fn is_bad_arp(wiring: &Wiring, row: &Row) -> bool
    ensures { (text : List ℕ) (past : List Entry) (id : ℕ) → IsRow text row.now (kept wiring.now past id) →
        (IsTrue result ↔ CauseShows wiring.now past id Cause.BadArp) }
{
    if !row.trail.is_single() {
        return false;
    }
    row.carried.bad_arp
}

// Whether a frame goes to a routed group.
fn is_routed(wiring: &Wiring, row: &Row) -> bool
    ensures { (text : List ℕ) (past : List Entry) (id : ℕ) → IsRow text row.now (kept wiring.now past id) →
        (IsTrue result ↔ CauseShows wiring.now past id Cause.NoMember) }
{
    match row.carried.group {
        None => false,
        Some(group) => group != FLOOD,
    }
}
