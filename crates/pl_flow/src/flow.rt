ghost use Rattle.std.specs.Prelude.{◌≡◌, ◌≤◌, length};
ghost use Rattle.std.specs.List.{fold};
ghost use Rattle.pl_layouts.specs.Flow.{flow_hash, fnv_step, has_ports, ipv4_flow_bytes, port_bytes};
ghost use Rattle.pl_layouts.specs.Memberships.{has_ipv4, header_length};

use crate::fnv::{fnv1a, hash_byte, hash_further};
use byteorder::{BigEndian, ByteOrder};
use pl_frame::{SHORTEST, TYPE_IPV4};

// The bytes of an IPv4 header without options.
const SHORTEST_HEADER: usize = 20;

const TCP: u8 = 6;

const UDP: u8 = 17;

// The bits below this one say whether more fragments follow, and where this one begins (RFC 791).
const FRAGMENT: u16 = 1 << 14;

/// The hash of the flow of a frame: of its destination, source and type; then, where it carries IPv4, of
/// the protocol and both addresses; then, where it is a whole datagram of TCP or UDP, of both ports.
#[tactic(auto, unfolding(pl_layouts::specs::Flow::flow_hash, pl_layouts::specs::Flow::flow_bytes, pl_layouts::specs::Flow::fnv1a))]
pub fn flow_hash(frame: &[u8]) -> u32
    requires { 14 ≤ length frame.now }
    ensures { result ≡ flow_hash frame.now }
{
    let (head, payload) = frame.split_at(SHORTEST);
    let hash = fnv1a(head);
    if has_ipv4(frame) {
        hash_packet(hash, payload)
    } else {
        hash
    }
}

// The hash of some bytes and then what an IPv4 packet has of its flow.
fn hash_packet(hash: u32, packet: &[u8]) -> u32
    requires { SHORTEST_HEADER ≤ length packet.now }
    ensures { result ≡ fold fnv_step hash (ipv4_flow_bytes packet.now) }
{
    let with_protocol = hash_byte(hash, packet[9]);
    let with_addresses = hash_further(with_protocol, &packet[12..20]);
    hash_further(with_addresses, port_bytes(packet))
}

// Whether a frame carries IPv4, with a header that is whole.
fn has_ipv4(frame: &[u8]) -> bool
    requires { 14 ≤ length frame.now }
    ensures { result ≡ has_ipv4 frame.now }
{
    let (head, payload) = frame.split_at(SHORTEST);
    if BigEndian::read_u16(&head[12..]) != TYPE_IPV4 || payload.len() < SHORTEST_HEADER {
        return false;
    }
    let header = header_length(payload);
    payload[0] / 16 == 4 && SHORTEST_HEADER <= header && header <= payload.len()
}

// The bytes of an IPv4 header, by its own field in words of four bytes.
fn header_length(packet: &[u8]) -> usize
    requires { 1 ≤ length packet.now }
    ensures { result ≡ header_length packet.now }
{
    4 * usize::from(packet[0] % 16)
}

// Source and destination port of a packet, or nothing.
fn port_bytes(packet: &[u8]) -> &[u8]
    requires { SHORTEST_HEADER ≤ length packet.now }
    ensures { result.now ≡ port_bytes packet.now }
{
    if !has_ports(packet) {
        return &[];
    }
    let header = header_length(packet);
    &packet[header..header + 4]
}

// Whether a packet has ports: of TCP or UDP, no fragment, and with four bytes behind the header.
fn has_ports(packet: &[u8]) -> bool
    requires { SHORTEST_HEADER ≤ length packet.now }
    ensures { result ≡ has_ports packet.now }
{
    matches!(packet[9], TCP | UDP)
        && BigEndian::read_u16(&packet[6..]) % FRAGMENT == 0
        && header_length(packet) + 4 <= packet.len()
}
