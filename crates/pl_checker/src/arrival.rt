//! A frame arrives at a host.
ghost use Rattle.std.specs.Prelude.{◌≡◌, ◌↔◌, ◌<◌, ◌≤◌, ◌&&◌, ◌∷◌, List, ℕ, IfNone, IfOk, IfSome, IsTrue, MatchOption, OnOk, Some, is_none, is_some, drop, length, not, option_map, take};
ghost use Rattle.hex.specs.Hex.{IsBytes, encode_lower};
ghost use Rattle.pl_frame.specs.Ethernet.{destination_of, source_of};
ghost use Rattle.pl_layouts.specs.Frames.{HasSixBytes, arriving, mac_number};
ghost use Rattle.pl_layouts.specs.Memberships.{group_of};
ghost use Rattle.pl_journal.specs.declared.entry.Entry.{Entry};
ghost use Rattle.pl_journal.specs.declared.entry.Entry.TheVariants.{Arrived};
ghost use Rattle.pl_journal.specs.Places.{edge_port, is_at};
ghost use Rattle.pl_journal.specs.Lossy.{ArrivesByAddress, ArrivesByGroup, EndsAt, UnalteredFrom, is_member, mac_of_host};
ghost use Rattle.pl_past.specs.Kept.{Kept, kept};
ghost use Rattle.pl_past_tables.specs.Frames.{IsCarried, IsRow, source_of_host};
ghost use Rattle.pl_past_tables.specs.Keys.{edge_port_at};
ghost use Rattle.pl_past_tables.specs.Legs.{switches_of};
ghost use Rattle.pl_checker.specs.Past.{Keeps, MayFollow};

use crate::past::Past;
use hex::FromHexError;
use pl_frame::{Frame, Mac, SHORTEST};
use pl_journal::Memory;
use pl_layouts::frames::arrive;
use pl_multicast::group_of;
use pl_past_tables::{Carried, Leg, Point, Row, destination, is_at, mac_number, source};
use pl_pmac::{Pmac, pack};
use pl_wiring::{HostNo, Wiring};
use std::alloc::{AllocError, Global};

impl Past {
    pub(crate) fn may_arrive(
        &self,
        alloc: Global,
        wiring: &Wiring,
        text: &[u8],
        id: u64,
        host: HostNo,
        frame: &Frame,
    ) -> Result<bool, Memory>
        requires host { host.0 < length wiring.now.hosts }
        requires long { 14 ≤ length frame.now }
        ensures { IfOk result (λ follows. (past : List Entry) → Keeps wiring.now text.now past self.now →
            (IsTrue follows ↔ MayFollow wiring.now past (Arrived id host frame.now))) }
    {
        let Some(row) = self.frames.flying(id) else {
            return Ok(false);
        };
        if row.carried.group.is_some() {
            let by_group = self.arrives_by_group(alloc, wiring, text, &row, host, frame)?;
            return Ok(by_group);
        }
        let by_address = self.arrives_by_address(alloc, wiring, text, &row, host, frame)?;
        Ok(by_address)
    }

    // Whether a frame to one host arrives at this one.
    fn arrives_by_address(
        &self,
        alloc: Global,
        wiring: &Wiring,
        text: &[u8],
        row: &Row,
        host: HostNo,
        frame: &Frame,
    ) -> Result<bool, Memory>
        requires { host.0 < length wiring.now.hosts }
        ensures { IfOk result (λ arrives. (past : List Entry) (id : ℕ) → Keeps wiring.now text.now past self.now →
            IsRow text.now row.now (kept wiring.now past id) →
            (IsTrue arrives ↔ ArrivesByAddress wiring.now past id host.0 frame.now)) }
    {
        let _k = wiring.k();
        let stands = self.hosts.point_of(wiring, host);
        let granted = self.addresses.point_of(row.address);
        let addressee = self.addressee(wiring, row);
        if !is_host(addressee, host) {
            return Ok(false);
        }
        if !same_point(stands, granted) {
            return Ok(false);
        }
        if !ends_at(row.leg, stands) {
            return Ok(false);
        }
        let to = mac_of(wiring, host);
        let unaltered = is_unaltered(alloc, text, row, to, frame)?;
        Ok(unaltered)
    }

    // Whether a frame of a group arrives at a host.
    fn arrives_by_group(
        &self,
        alloc: Global,
        wiring: &Wiring,
        text: &[u8],
        row: &Row,
        host: HostNo,
        frame: &Frame,
    ) -> Result<bool, Memory>
        requires { 14 ≤ length frame.now }
        ensures { IfOk result (λ arrives. (past : List Entry) (id : ℕ) → Keeps wiring.now text.now past self.now →
            IsRow text.now row.now (kept wiring.now past id) →
            (IsTrue arrives ↔ ArrivesByGroup wiring.now past id host.0 frame.now)) }
    {
        let Some(stands) = self.hosts.point_of(wiring, host) else {
            return Ok(false);
        };
        if !ends_at(row.leg, Some(stands)) {
            return Ok(false);
        }
        if self.groups.has_arrived(row.root, stands) {
            return Ok(false);
        }
        if !self.may_receive(wiring, host, stands, frame) {
            return Ok(false);
        }
        let unaltered = is_unaltered(alloc, text, row, None, frame)?;
        Ok(unaltered)
    }

    // Whether a host is a member of the group that a frame goes to, and does not stand at the port of its source.
    fn may_receive(&self, wiring: &Wiring, host: HostNo, stands: Point, frame: &Frame) -> bool
        requires { 14 ≤ length frame.now }
        ensures { (text : List ℕ) (past : List Entry) → Keeps wiring.now text past self.now →
            result ≡ (not (is_at (edge_port past (mac_number (source_of frame.now))) (edge_port_at stands))
            && is_member past host.0 (group_of (destination_of frame.now))) }
    {
        let from = mac_number(source(frame));
        if is_at(self.addresses.point_of(from), stands) {
            return false;
        }
        let to = destination(frame);
        self.groups.is_member(host, group_of(to))
    }

    /// A frame arrives at a host.
    pub(crate) fn arrive(
        &mut self,
        wiring: &Wiring,
        id: u64,
        host: HostNo,
        frame: &Frame,
    ) -> Result<(), Memory>
        ensures { OnOk result ((text : List ℕ) (past : List Entry) → Keeps wiring.now text past self.old →
            MayFollow wiring.now past (Arrived id host frame.now) → Keeps wiring.now text (Arrived id host frame.now ∷ past) self.new) }
    {
        let Some(row) = self.frames.flying(id) else {
            return Ok(());
        };
        let Some(stands) = self.hosts.point_of(wiring, host) else {
            return Ok(());
        };
        self.groups.arrive(row.root, stands)?;
        self.frames.put(id, row.ending());
        self.just = None;
        Ok(())
    }
}

fn is_host(held: Option<HostNo>, host: HostNo) -> bool
    ensures { IsTrue result ↔ (option_map (λ h. h.0) held ≡ Some host.0) }
{
    match held {
        None => false,
        Some(held) => held.0 == host.0,
    }
}

fn same_point(a: Option<Point>, b: Option<Point>) -> bool
    ensures { IsTrue result ↔ (option_map edge_port_at a ≡ option_map edge_port_at b) }
{
    match (a, b) {
        (None, None) => true,
        (Some(a), Some(b)) => a.edge.0 == b.edge.0 && a.port == b.port,
        _ => false,
    }
}

// Whether the leg has come to the edge switch of this port.
fn ends_at(leg: Leg, there: Option<Point>) -> bool
    ensures { IsTrue result ↔ EndsAt (switches_of leg) (option_map edge_port_at there) }
{
    match (leg.last(), there) {
        (Some(s), Some(there)) => s.0 == there.edge.0,
        _ => false,
    }
}

// Whether a frame arrives with its sender's address as source and this destination, if there is one.
fn is_unaltered(
    alloc: Global,
    text: &[u8],
    row: &Row,
    to: Option<Mac>,
    frame: &Frame,
) -> Result<bool, Memory>
    ensures { IfOk result (λ same. (kept : Kept) → IsRow text.now row.now kept → HasSixBytes to →
        (IsTrue same ↔ UnalteredFrom kept.sender kept.source kept.beginning to frame.now)) }
{
    if lacks_source(row.sender, row.source) {
        return Ok(false);
    }
    let from = source_of_host(row.sender, row.source);
    let same = arrives_as(alloc, text, row.carried, from, to, frame)?;
    Ok(same)
}

// Whether a host sent the frame, and has no address where it came in.
fn lacks_source(sender: Option<HostNo>, source: Option<Pmac>) -> bool
    ensures { result ≡ (is_some sender && is_none source) }
{
    match (sender, source) {
        (None, _) => false,
        (Some(_), None) => true,
        (Some(_), Some(_)) => false,
    }
}

// The address that a host's frame has as its source.
fn source_of_host(sender: Option<HostNo>, source: Option<Pmac>) -> Option<Mac>
    ensures { result ≡ source_of_host (option_map (λ h. h.0) sender) source }
{
    match (sender, source) {
        (Some(_), Some(x)) => Some(pack(x)),
        _ => None,
    }
}

// The MAC address of a host.
fn mac_of(wiring: &Wiring, host: HostNo) -> Option<Mac>
    requires { host.0 < length wiring.now.hosts }
    ensures { result ≡ mac_of_host wiring.now host.0 }
{
    Some(wiring.host(host).mac)
}

// Whether a frame has these bytes with this source and this destination, where there is one.
fn arrives_as(
    alloc: Global,
    text: &[u8],
    carried: Carried,
    from: Option<Mac>,
    to: Option<Mac>,
    frame: &Frame,
) -> Result<bool, Memory>
    ensures { IfOk result (λ same. (bytes : List ℕ) → IsCarried text.now carried bytes → HasSixBytes from → HasSixBytes to →
        (IsTrue same ↔ (frame.now ≡ arriving bytes from to))) }
{
    let long = frame.bytes().len();
    if carried.length != long {
        return Ok(false);
    }
    let Some(digits) = part_of(text, carried.from, 2 * long) else {
        return Ok(false);
    };
    let read = spelled(alloc, digits)?;
    match read {
        None => Ok(false),
        Some(bytes) => Ok(is_arrived(bytes, from, to, frame)),
    }
}

// Whether a frame has these bytes with this source and this destination.
fn is_arrived(mut bytes: Vec<u8>, from: Option<Mac>, to: Option<Mac>, frame: &Frame) -> bool
    ensures { 14 ≤ length bytes.items → (IsTrue result ↔ (frame.now ≡ arriving bytes.items from to)) }
{
    if bytes.len() < SHORTEST {
        return false;
    }
    arrive(bytes.as_mut_slice(), from, to);
    same_bytes(bytes.as_slice(), frame.bytes())
}

fn same_bytes(a: &[u8], b: &[u8]) -> bool
    ensures { IsTrue result ↔ (a.now ≡ b.now) }
{
    a == b
}

// So many bytes from a place on.
fn part_of(text: &[u8], from: usize, n: usize) -> Option<&[u8]>
    ensures found { IfSome result (λ part. part.now ≡ take n (drop from text.now)) }
    ensures none { IfNone result (from ≤ length text.now → length (drop from text.now) < n) }
{
    if from > text.len() {
        return None;
    }
    let rest = &text[from..];
    if rest.len() < n {
        return None;
    }
    Some(&rest[..n])
}

// The bytes that these digits spell.
#[tactic(auto, using(crate::proofs::Unaltered::unread))]
fn spelled(alloc: Global, digits: &[u8]) -> Result<Option<Vec<u8>>, Memory>
    ensures { IfOk result (λ read. (bytes : List ℕ) → IsBytes bytes → digits.now ≡ encode_lower bytes → MatchOption read ⊥ (λ v. v.items ≡ bytes)) }
{
    match hex::decode(alloc, digits) {
        Ok(bytes) => Ok(Some(bytes)),
        Err(FromHexError::OutOfMemory) => Err(AllocError),
        Err(_) => Ok(None),
    }
}
