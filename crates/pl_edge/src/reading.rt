ghost use Rattle.std.specs.Prelude.{◌≡◌, ◌+◌, ◌≤◌, length};
ghost use Rattle.pl_frame.specs.Ethernet.{destination_of, source_of};
ghost use Rattle.pl_layouts.specs.Memberships.{is_group};
ghost use Rattle.pl_switch_rule.specs.Granting.{sender_ip};

use pl_frame::{Ip4, Mac};
use pl_layouts::frames::packet_in;

/// The source of a frame.
pub(crate) fn source_of(frame: &[u8]) -> Mac
    requires { 14 ≤ length frame.now }
    ensures { result ≡ source_of frame.now }
{
    Mac::read_at(frame, 6)
}

/// The destination of a frame.
pub(crate) fn destination_of(frame: &[u8]) -> Mac
    requires { 14 ≤ length frame.now }
    ensures { result ≡ destination_of frame.now }
{
    Mac::read_at(frame, 0)
}

/// The IPv4 address of the sender in an ARP packet that can be read.
pub(crate) fn sender_ip(frame: &[u8]) -> Option<Ip4>
    ensures { result ≡ sender_ip frame.now }
{
    match packet_in(frame) {
        Some(arp) => Some(arp.spa),
        None => None,
    }
}

/// Whether an address is one of a group.
pub(crate) fn is_group(mac: Mac) -> bool
    ensures { result ≡ is_group mac }
{
    mac.is_group()
}
