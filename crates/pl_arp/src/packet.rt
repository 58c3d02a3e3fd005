ghost use Rattle.std.specs.Prelude.{◌≡◌, ◌≢◌, ◌<◌, ◌≤◌, ◌↔◌, ◌++◌, ℕ, List, length, take, drop, slice_index, IfOk, Ok, Err};
ghost use Rattle.pl_arp.specs.declared.packet.Arp.{Arp};
ghost use Rattle.pl_arp.specs.Packet.{ArpFits, arp_in, ethernet_ipv4, layout};

use byteorder::{BigEndian, ByteOrder};
use pl_frame::{Ip4, Mac};
use thiserror::Error;

/// The bytes of a packet.
pub const LENGTH: usize = 28;

/// The opcode of a request.
pub const REQUEST: u16 = 1;

/// The opcode of a reply.
pub const REPLY: u16 = 2;

// Hardware type 1, protocol type 0x0800, hardware addresses of 6 bytes, protocol addresses of 4.
const ETHERNET_IPV4: [u8; 6] = [0, 1, 8, 0, 6, 4];

/// An ARP packet for Ethernet and IPv4: opcode, then the hardware and protocol address of the
/// sender, then those of the target.
#[derive(Clone, Copy, Debug, PartialEq, Eq)]
pub struct Arp {
    pub op: u16,
    pub sha: Mac,
    pub spa: Ip4,
    pub tha: Mac,
    pub tpa: Ip4,
}

/// Why a payload is no ARP packet for Ethernet and IPv4.
#[derive(Clone, Copy, Debug, PartialEq, Eq, Error)]
pub enum ArpError {
    #[error("Cut")]
    Cut,
    #[error("OtherKind")]
    OtherKind,
}

/// The packet at the front of a payload. Any opcode is accepted, and so are bytes after the packet,
/// since short frames are padded.
pub fn read(payload: &[u8]) -> Result<Arp, ArpError>
    ensures exact { result ≡ arp_in payload.now }
    ensures cut { (result ≡ Err ArpError.Cut) ↔ (length payload.now < LENGTH) }
    ensures other_kind { (result ≡ Err ArpError.OtherKind) ↔
        ((LENGTH ≤ length payload.now) × (take 6 payload.now ≢ ethernet_ipv4)) }
{
    if payload.len() < LENGTH {
        return Err(ArpError::Cut);
    }
    if &payload[..6] != ETHERNET_IPV4.as_slice() {
        return Err(ArpError::OtherKind);
    }
    Ok(Arp {
        op: BigEndian::read_u16(&payload[6..]),
        sha: Mac::read_at(payload, 8),
        spa: Ip4(BigEndian::read_u32(&payload[14..])),
        tha: Mac::read_at(payload, 18),
        tpa: Ip4(BigEndian::read_u32(&payload[24..])),
    })
}

/// The bytes of a packet.
pub fn write(arp: &Arp) -> [u8; 28]
    ensures { result ≡ layout arp.now }
{
    let mut bytes = [0; LENGTH];
    let (kind, rest) = bytes.split_at_mut(6);
    let (op, rest) = rest.split_at_mut(2);
    let (sha, rest) = rest.split_at_mut(6);
    let (spa, rest) = rest.split_at_mut(4);
    let (tha, tpa) = rest.split_at_mut(6);
    kind.copy_from_slice(&ETHERNET_IPV4);
    BigEndian::write_u16(op, arp.op);
    sha.copy_from_slice(&arp.sha.0);
    BigEndian::write_u32(spa, arp.spa.0);
    tha.copy_from_slice(&arp.tha.0);
    BigEndian::write_u32(tpa, arp.tpa.0);
    bytes
}

/// A packet and its bytes determine each other: what is spelled is read, whatever follows it, and
/// what is read is spelled so.
pub fn spelling_is_exact()
    ensures read { (arp : Arp) (padding : List ℕ) → ArpFits arp → arp_in (layout arp ++ padding) ≡ Ok arp }
    ensures spelled { (payload : List ℕ) (arp : Arp) → ((i : ℕ) → slice_index payload i < 256) →
        arp_in payload ≡ Ok arp → ArpFits arp × (payload ≡ layout arp ++ drop 28 payload) }
{}
