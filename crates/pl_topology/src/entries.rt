use pl_frame::{Ip4, Mac, SwitchId};
use pl_wiring::{Name, SwitchNo};

/// What a `switch` table says: the id of a switch.
#[derive(Clone, Copy, Debug, PartialEq, Eq)]
pub(crate) struct SwitchEntry {
    pub(crate) switch: SwitchNo,
    pub(crate) id: SwitchId,
}

/// What a `link` table says: the ports of a link. Which of them exist is seen later.
#[derive(Clone, Copy, Debug, PartialEq, Eq)]
pub(crate) struct LinkEntry {
    pub(crate) a: SwitchNo,
    pub(crate) port_a: i64,
    pub(crate) b: SwitchNo,
    pub(crate) port_b: i64,
}

/// What a `host` table says.
#[derive(Debug, Drop)]
pub(crate) struct HostEntry {
    pub(crate) name: Name,
    pub(crate) mac: Mac,
    pub(crate) ip: Ip4,
    pub(crate) edge: SwitchNo,
    pub(crate) port: i64,
    pub(crate) capture: Option<Name>,
}

/// A port that a table names, and whether a link of the tree or a host is to be there.
#[derive(Clone, Copy, Debug, PartialEq, Eq)]
pub(crate) struct PortUse {
    pub(crate) switch: SwitchNo,
    pub(crate) port: i64,
    pub(crate) counts: bool,
}
