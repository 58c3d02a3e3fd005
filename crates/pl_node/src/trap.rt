use pl_frame::Ip4;
use pl_pmac::Pmac;

/// Where frames for an address that a host has left go on to: its newer address, the registration number
/// of that one, and the host's IPv4 address, if it is known.
#[derive(Clone, Copy, Debug, PartialEq, Eq)]
pub struct Trap {
    pub new: Pmac,
    pub number: u64,
    pub ip: Option<Ip4>,
}
