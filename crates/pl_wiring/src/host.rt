use crate::{Name, SwitchNo};
use pl_frame::{Ip4, Mac};

/// A host by its number in the list of hosts, from 0.
#[derive(Clone, Copy, Debug, PartialEq, Eq, PartialOrd, Ord, Hash)]
pub struct HostNo(pub u32);

/// A host with its addresses, and the edge switch and port where it stands first.
#[derive(Debug, Drop)]
pub struct Host {
    pub name: Name,
    pub mac: Mac,
    pub ip: Ip4,
    pub edge: SwitchNo,
    pub port: u8,
    pub capture: Option<Name>,
}
