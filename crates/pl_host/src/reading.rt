ghost use Rattle.std.specs.Prelude.{◌≡◌, ◌≤◌, length, slice_index};
ghost use Rattle.pl_frame.specs.Ethernet.{destination_of};
ghost use Rattle.pl_layouts.specs.Memberships.{group_of, is_group};
ghost use Rattle.pl_node.specs.HostDuties.{is_of};
ghost use Rattle.pl_host_rule.specs.HostRule.{is_foreign};
ghost use Rattle.pl_host.specs.Carried.{six_bytes};

use pl_arp::{Arp, Me};
use pl_frame::Mac;
use pl_layouts::frames::packet_in;
use pl_multicast::group_of;

/// Whether an address is one of a group.
pub(crate) fn is_group(mac: Mac) -> bool
    ensures { result ≡ is_group mac }
{
    mac.is_group()
}

/// The group that a frame goes to.
pub(crate) fn group_in(frame: &[u8]) -> Option<u32>
    ensures { result ≡ group_of (destination_of frame.now) }
{
    group_of(destination_in(frame))
}

/// Whether a frame comes from another host or, where it is played raw, a packet in it.
pub(crate) fn is_foreign(me: Me, raw: bool, frame: &[u8]) -> bool
    requires { 14 ≤ length frame.now }
    ensures { result ≡ is_foreign me raw frame.now }
{
    Mac::read_at(frame, 6) != me.mac || (raw && !is_of(me, packet_in(frame)))
}

// Whether the sender of a packet that can be read is the host itself.
fn is_of(me: Me, packet: Option<Arp>) -> bool
    ensures { result ≡ is_of me packet }
{
    match packet {
        Some(arp) => arp.sha == me.mac && arp.spa == me.ip,
        None => true,
    }
}

// The destination of a frame, with 0 for each byte that is not there.
fn destination_in(frame: &[u8]) -> Mac
    ensures { result.0 ≡ six_bytes frame.now }
{
    Mac([
        byte_at(frame, 0),
        byte_at(frame, 1),
        byte_at(frame, 2),
        byte_at(frame, 3),
        byte_at(frame, 4),
        byte_at(frame, 5),
    ])
}

// A byte of a frame, or 0 behind its end.
fn byte_at(frame: &[u8], i: usize) -> u8
    ensures { result ≡ slice_index frame.now i }
{
    frame.get(i).copied().unwrap_or(0)
}
