ghost use Rattle.std.specs.Prelude.{◌≡◌};
ghost use Rattle.pl_layouts.specs.Frames.{mac_number};
ghost use Rattle.pl_pmac.specs.Pmac.{PmacFits, pmac_number};

use byteorder::{BigEndian, ByteOrder};
use pl_frame::Mac;
use pl_pmac::Pmac;
use pl_wiring::{HostNo, SwitchNo};

/// A port of an edge switch.
#[derive(Clone, Copy, Debug, PartialEq, Eq, Hash)]
pub struct Point {
    pub edge: SwitchNo,
    pub port: u8,
}

/// A host at a port.
#[derive(Clone, Copy, Debug, PartialEq, Eq, Hash)]
pub(crate) struct Stay {
    pub(crate) host: HostNo,
    pub(crate) point: Point,
}

/// The pod and the position that stand in an address.
#[derive(Clone, Copy, Debug, PartialEq, Eq, Hash)]
pub(crate) struct PodPosition {
    pub(crate) pod: u16,
    pub(crate) position: u8,
}

/// The two switches of a link, the one with the smaller number first.
#[derive(Clone, Copy, Debug, PartialEq, Eq, Hash)]
pub(crate) struct Ends {
    pub(crate) lower: SwitchNo,
    pub(crate) upper: SwitchNo,
}

/// A frame's root at a port.
#[derive(Clone, Copy, Debug, PartialEq, Eq, Hash)]
pub(crate) struct Arrival {
    pub(crate) root: u64,
    pub(crate) point: Point,
}

/// A host and the number of a group.
#[derive(Clone, Copy, Debug, PartialEq, Eq, Hash)]
pub(crate) struct Member {
    pub(crate) host: HostNo,
    pub(crate) group: u32,
}

/// An address, and how many of its tenures were before one of them.
#[derive(Clone, Copy, Debug, PartialEq, Eq, Hash)]
pub(crate) struct Term {
    pub(crate) address: u64,
    pub(crate) place: u64,
}

/// Each field of an address is within its type.
pub fn fits(x: Pmac)
    ensures { PmacFits x }
{}

/// A pseudo address as a number of 48 bits.
pub fn number_of(x: Pmac) -> u64
    ensures { result ≡ pmac_number x }
{
    u64::from(x.pod) * 0x1_0000_0000
        + u64::from(x.position) * 0x100_0000
        + u64::from(x.port) * 0x1_0000
        + u64::from(x.vmid)
}

/// A MAC address as a number of 48 bits.
pub fn mac_number(mac: Mac) -> u64
    ensures { result ≡ mac_number mac }
{
    BigEndian::read_u48(&mac.0)
}
