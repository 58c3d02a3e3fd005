use crate::AddressUse;
use pl_frame::{Ip4, Mac, SwitchId};

/// An aggregation switch holds a position for an edge switch, and has heard that it is fixed there, or
/// not.
#[derive(Clone, Copy, Debug, PartialEq, Eq)]
pub struct Hold {
    pub edge: SwitchId,
    pub fixed: bool,
}

/// An address that an edge switch granted: to which host, that host's IPv4 address, and what it is used
/// for.
#[derive(Clone, Copy, Debug, PartialEq, Eq)]
pub struct Grant {
    pub amac: Mac,
    pub ip: Option<Ip4>,
    pub held: AddressUse,
}

/// The last source of a port, and the IPv4 address that it gave there.
#[derive(Clone, Copy, Debug, PartialEq, Eq)]
pub struct Source {
    pub amac: Mac,
    pub ip: Option<Ip4>,
}

/// A host at a port has joined a group.
#[derive(Clone, Copy, Debug, PartialEq, Eq)]
pub struct Member {
    pub group: u32,
    pub port: u8,
    pub amac: Mac,
}
