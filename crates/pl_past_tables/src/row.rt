ghost use Rattle.std.specs.Prelude.{◌≡◌, ◌+◌, ◌≤◌, ◌*◌, ◌==◌, ◌||◌, List, ℕ, length, take, drop, is_some, is_none, option_map, IfOk, Some, None};
ghost use Rattle.hex.specs.Hex.{IsBytes, encode_lower};
ghost use Rattle.pl_frame.specs.Ethernet.{destination_of, fields, fields_of, source_of};
ghost use Rattle.pl_layouts.specs.Frames.{is_takeable, is_taken_packet, mac_number};
ghost use Rattle.pl_layouts.specs.Memberships.{is_group, membership_in};
ghost use Rattle.pl_journal.specs.Causes.{is_bad_arp};
ghost use Rattle.pl_past.specs.Kept.{Kept, crossing, ending, first_kept, granting, redirecting};
ghost use Rattle.pl_past_tables.specs.Keys.{edge_port_at};
ghost use Rattle.pl_past_tables.specs.Frames.{IsCarried, IsRow};

use crate::keys::{Point, number_of};
use crate::leg::{Leg, Trail};
use byteorder::{BigEndian, ByteOrder};
use pl_arp::{Arp, REQUEST};
use pl_frame::{Frame, FrameView, Mac, SHORTEST};
use pl_layouts::frames::{is_arp, packet_in};
use pl_multicast::{group_of, read_igmp};
use pl_pmac::{Pmac, unpack};
use pl_wiring::{HostNo, SwitchNo};

/// The bytes that a frame began with: where their digits stand in the text, and what is asked of them.
#[derive(Clone, Copy, Debug)]
pub struct Carried {
    pub from: usize,
    pub length: usize,
    pub group: Option<u32>,
    pub takeable: bool,
    pub bad_arp: bool,
}

/// What is kept of a frame.
#[derive(Clone, Copy, Debug)]
pub struct Row {
    pub root: u64,
    pub sender: Option<HostNo>,
    pub carried: Carried,
    pub address: u64,
    pub redirected: bool,
    pub leg: Leg,
    pub trail: Trail,
    pub came_in: Option<Point>,
    pub source: Option<Pmac>,
    pub crossed: u64,
    pub asked: u64,
    pub sent: u64,
    pub over: bool,
}

impl Carried {
    /// The bytes of a frame, whose digits stand in the text from a place on.
    pub fn of(frame: &Frame, from: usize) -> Carried
        requires { 14 ≤ length frame.now }
        ensures { (text : List ℕ) → IsBytes frame.now → length frame.now ≤ 65553 →
            take (2 * length frame.now) (drop from text) ≡ encode_lower frame.now → IsCarried text result frame.now }
    {
        let bytes = frame.bytes();
        let to = destination(frame);
        Carried {
            from,
            length: bytes.len(),
            group: group_of(to),
            takeable: is_takeable(bytes, to),
            bad_arp: is_bad_arp(bytes),
        }
    }
}

impl Row {
    /// A frame that begins.
    pub fn first(id: u64, sender: Option<HostNo>, to: u64, carried: Carried, sent: u64) -> Row
        ensures { (text bytes : List ℕ) → IsCarried text carried bytes → to ≡ mac_number (destination_of bytes) →
            IsRow text result (first_kept id (option_map (λ h. h.0) sender) bytes sent) }
    {
        Row {
            root: id,
            sender,
            carried,
            address: to,
            redirected: false,
            leg: Leg::Empty,
            trail: Trail::Empty,
            came_in: None,
            source: None,
            crossed: 0,
            asked: 0,
            sent,
            over: false,
        }
    }

    /// It crosses a switch by entry `n`. Where it comes in by this, it is known where, and its sender's
    /// address there.
    pub fn crossing(self, n: u64, s: SwitchNo, there: Option<Point>, source: Option<Pmac>) -> Row
        ensures { (text : List ℕ) (frame : Kept) → IsRow text self frame →
            IsRow text result (crossing n s.0 (option_map edge_port_at there) source frame) }
    {
        let first = self.trail.is_empty();
        Row {
            leg: self.leg.with(s),
            trail: self.trail.with(s),
            came_in: if first { there } else { self.came_in },
            source: if first { source } else { self.source },
            crossed: n,
            asked: n,
            ..self
        }
    }

    /// An address is granted by entry `n`, just after it crossed a switch. This is its sender's address where
    /// it came in, if it came in by that crossing.
    pub fn granting(self, n: u64, source: Option<Pmac>) -> Row
        ensures { (text : List ℕ) (frame : Kept) → IsRow text self frame → IsRow text result (granting n source frame) }
    {
        let first = self.trail.is_single();
        Row {
            source: if first { source } else { self.source },
            asked: n,
            ..self
        }
    }

    /// It goes on to another address.
    pub fn redirecting(self, to: Pmac) -> Row
        ensures { (text : List ℕ) (frame : Kept) → IsRow text self frame → IsRow text result (redirecting to frame) }
    {
        Row {
            address: number_of(to),
            redirected: true,
            leg: Leg::Empty,
            ..self
        }
    }

    /// It ends.
    pub fn ending(self) -> Row
        ensures { (text : List ℕ) (frame : Kept) → IsRow text self frame → IsRow text result (ending frame) }
    {
        Row { over: true, ..self }
    }
}

/// The destination of a frame.
pub fn destination(frame: &Frame) -> Mac
    requires { 14 ≤ length frame.now }
    ensures { result ≡ destination_of frame.now }
{
    Mac::read_at(frame.bytes(), 0)
}

/// The source of a frame.
pub fn source(frame: &Frame) -> Mac
    requires { 14 ≤ length frame.now }
    ensures { result ≡ source_of frame.now }
{
    Mac::read_at(frame.bytes(), 6)
}

// Whether an edge switch may take a frame to this destination.
fn is_takeable(bytes: &[u8], to: Mac) -> bool
    requires { 14 ≤ length bytes.now }
    ensures { to ≡ destination_of bytes.now → result ≡ is_takeable bytes.now }
{
    let taken = is_taken_packet(to, packet_in(bytes));
    let member = has_membership(bytes);
    taken || member
}

fn is_taken_packet(to: Mac, packet: Option<Arp>) -> bool
    ensures { result ≡ is_taken_packet to packet }
{
    match packet {
        None => false,
        Some(arp) => arp.op == REQUEST || is_group(to) || unpack(to).vmid == 0,
    }
}

fn is_group(mac: Mac) -> bool
    ensures { result ≡ is_group mac }
{
    mac.0[0] % 2 == 1
}

fn has_membership(bytes: &[u8]) -> bool
    requires { 14 ≤ length bytes.now }
    ensures { result ≡ is_some (membership_in bytes.now) }
{
    let view = view_of(bytes);
    read_igmp(&view).is_some()
}

/// The fields of a frame.
pub(crate) fn view_of(bytes: &[u8]) -> FrameView<'_>
    requires { 14 ≤ length bytes.now }
    ensures { fields result ≡ fields_of bytes.now }
{
    FrameView {
        dst: Mac::read_at(bytes, 0),
        src: Mac::read_at(bytes, 6),
        kind: BigEndian::read_u16(&bytes[12..]),
        payload: &bytes[SHORTEST..],
    }
}

// Whether a frame has the type of ARP and no packet that can be read.
fn is_bad_arp(bytes: &[u8]) -> bool
    requires { 14 ≤ length bytes.now }
    ensures { result ≡ is_bad_arp bytes.now }
{
    let arp = is_arp(bytes);
    let unread = packet_in(bytes).is_none();
    arp && unread
}
