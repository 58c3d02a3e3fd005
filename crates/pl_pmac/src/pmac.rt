ghost use Rattle.std.specs.Prelude.{◌≡◌, ◌<◌, ◌^◌, ℕ, Some, length, slice_index};
ghost use Rattle.pl_frame.specs.declared.address.Mac.{Mac};
ghost use Rattle.pl_frame.specs.Address.{mac_text};
ghost use Rattle.pl_pmac.specs.declared.pmac.Pmac.{Pmac};
ghost use Rattle.pl_pmac.specs.Pmac.{PmacFits, mac_of, pmac_of};

use byteorder::{BigEndian, ByteOrder};
use pl_frame::Mac;
use std::fmt;

/// A pseudo address (PortLand, SIGCOMM 2009, section 3.2): the pod, the position of the edge switch
/// in its pod, the port of that switch, and the number of the host on that port. 48 bits, the most
/// significant first: 16 of pod, 8 of position, 8 of port, 16 of vmid.
#[derive(Clone, Copy, Debug, PartialEq, Eq, PartialOrd, Ord, Hash)]
pub struct Pmac {
    pub pod: u16,
    pub position: u8,
    pub port: u8,
    pub vmid: u16,
}

/// Six two-digit lower-case hexadecimal numbers joined by colons, as the MAC address is printed.
impl fmt::Display for Pmac {
    ghost output = { λ pmac. Some (mac_text (mac_of pmac)) };

    fn fmt<W: fmt::Write>(&self, f: &mut fmt::Formatter<W>) -> fmt::Result {
        let mac = pack(*self);
        write!(f, "{mac}")
    }
}

/// The pseudo address as a MAC address.
pub fn pack(pmac: Pmac) -> Mac
    ensures { result ≡ mac_of pmac }
{
    let mut bytes = [0; 6];
    BigEndian::write_u16(&mut bytes, pmac.pod);
    bytes[2] = pmac.position;
    bytes[3] = pmac.port;
    BigEndian::write_u16(&mut bytes[4..], pmac.vmid);
    Mac(bytes)
}

/// The pseudo address that a MAC address is.
pub fn unpack(mac: Mac) -> Pmac
    ensures { result ≡ pmac_of mac }
{
    let bytes = mac.0;
    Pmac {
        pod: BigEndian::read_u16(&bytes),
        position: bytes[2],
        port: bytes[3],
        vmid: BigEndian::read_u16(&bytes[4..]),
    }
}

/// `pack` and `unpack` undo each other: on every pseudo address, and on every MAC address.
pub fn pack_and_unpack_are_inverse()
    ensures unpacked { (pmac : Pmac) → PmacFits pmac → pmac_of (mac_of pmac) ≡ pmac }
    ensures packed { (mac : Mac) → length mac.0 ≡ 6 → ((i : ℕ) → slice_index mac.0 i < 256) →
        mac_of (pmac_of mac) ≡ mac }
{}
