use crate::SwitchNo;

/// A link of the wiring, its lower end first: an edge switch below an aggregation switch, or an
/// aggregation switch below a core switch.
#[derive(Clone, Copy, Debug, PartialEq, Eq)]
pub struct Link {
    pub lower: SwitchNo,
    pub lower_port: u8,
    pub upper: SwitchNo,
    pub upper_port: u8,
}

/// What stands at the other end of a port: a switch and its port, or no link.
#[derive(Clone, Copy, Debug, PartialEq, Eq)]
pub enum Peer {
    Switch(SwitchNo, u8),
    HostPort,
}
