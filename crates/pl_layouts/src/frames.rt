//! The bytes of a frame: which kind it is, the ARP packet in it, and the address fields that are rewritten.
ghost use Rattle.std.specs.Prelude.{◌≡◌, ◌+◌, ◌≤◌, length};
ghost use Rattle.pl_frame.specs.Ethernet.{kind_of};
ghost use Rattle.pl_layouts.specs.ArpFrames.{arp_frame};
ghost use Rattle.pl_layouts.specs.Control.{is_control};
ghost use Rattle.pl_layouts.specs.Frames.{arriving, is_arp, packet_in, put};

use byteorder::{BigEndian, ByteOrder};
use pl_arp::Arp;
use pl_frame::{Mac, SHORTEST, TYPE_ARP, TYPE_CONTROL};

/// How long a frame is that carries an ARP packet and nothing more.
pub const ARP_FRAME: usize = 42;

// Where the source stands in a frame.
const SOURCE_AT: usize = 6;

// Where the hardware addresses of an ARP packet stand in its frame: the sender's, the target's.
const SENDER_AT: usize = 22;

const TARGET_AT: usize = 32;

/// Whether a frame is a control frame.
pub fn is_control(frame: &[u8]) -> bool
    requires { 14 ≤ length frame.now }
    ensures { result ≡ is_control frame.now }
{
    kind_of(frame) == TYPE_CONTROL
}

/// Whether a frame has the type of ARP.
pub fn is_arp(frame: &[u8]) -> bool
    requires { 14 ≤ length frame.now }
    ensures { result ≡ is_arp frame.now }
{
    kind_of(frame) == TYPE_ARP
}

/// The ARP packet of a frame, where it can be read.
pub fn packet_in(frame: &[u8]) -> Option<Arp>
    ensures { result ≡ packet_in frame.now }
{
    if frame.len() < SHORTEST || !is_arp(frame) {
        return None;
    }
    pl_arp::read(&frame[SHORTEST..]).ok()
}

/// An ARP packet in a frame of its sender.
#[tactic(auto, unfolding(crate::specs::ArpFrames::arp_frame))]
pub fn arp_frame(to: Mac, arp: &Arp) -> [u8; ARP_FRAME]
    ensures { result ≡ arp_frame to arp.now }
{
    let mut frame = [0; ARP_FRAME];
    let (dst, rest) = frame.split_at_mut(6);
    let (src, rest) = rest.split_at_mut(6);
    let (kind, payload) = rest.split_at_mut(2);
    dst.copy_from_slice(&to.0);
    src.copy_from_slice(&arp.sha.0);
    BigEndian::write_u16(kind, TYPE_ARP);
    payload.copy_from_slice(&pl_arp::write(arp));
    frame
}

/// Writes this source and this destination where there is one, in the frame and in an ARP packet that can
/// be read, and no other byte.
pub fn arrive(frame: &mut [u8], src: Option<Mac>, dst: Option<Mac>)
    requires { 14 ≤ length frame.old }
    ensures { frame.new ≡ arriving frame.old src dst }
{
    if packet_in(frame).is_some() {
        put(frame, TARGET_AT, dst);
        put(frame, SENDER_AT, src);
    }
    put(frame, SOURCE_AT, src);
    put(frame, 0, dst);
}

// Writes an address from a place on where there is one, and no other byte.
fn put(bytes: &mut [u8], at: usize, mac: Option<Mac>)
    requires { at + 6 ≤ length bytes.old }
    ensures { bytes.new ≡ put mac at bytes.old }
{
    if let Some(mac) = mac {
        let (_, after) = bytes.split_at_mut(at);
        let (address, _) = after.split_at_mut(6);
        address.copy_from_slice(&mac.0);
    }
}

// The type of a frame.
fn kind_of(frame: &[u8]) -> u16
    requires { 14 ≤ length frame.now }
    ensures { result ≡ kind_of frame.now }
{
    BigEndian::read_u16(&frame[12..])
}
