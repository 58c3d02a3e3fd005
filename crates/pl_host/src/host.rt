use crate::groups::Groups;
use crate::neighbours::Neighbours;
use crate::owners::Owners;
use pl_arp::Me;
use std::alloc::Global;

/// A host that plays recorded frames. It sends each to the address that its cache has for the host that
/// the frame was recorded for, and until it has one it asks for it.
#[derive(Drop)]
pub struct Host {
    pub(crate) alloc: Global,
    pub(crate) me: Me,
    pub(crate) hosts: Owners,
    pub(crate) neighbours: Neighbours,
    pub(crate) joined: Groups,
}
