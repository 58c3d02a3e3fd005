use crate::{ToManager, ToSwitch};
use pl_frame::{Frame, Mac, SwitchId};
use pl_journal::Cause;
use pl_pmac::Pmac;

/// One thing that a switch does in a step.
///
/// `Redirect`, `Pass`, `Take` and `Drop` speak of the data frame that was received or, behind a `Make`,
/// of the frame that was made last.
#[derive(Debug, Drop)]
pub enum Act {
    /// A control frame leaves by a port.
    Control(u8, Frame),
    /// The manager is told.
    Tell(ToManager),
    /// A host at a port is granted an address.
    Grant { pmac: Pmac, amac: Mac },
    /// An address is free, and may be granted again.
    Free(Pmac),
    /// A frame of the switch's own begins.
    Make(Frame),
    /// The frame goes on from an old address to a newer one of the same host.
    Redirect { old: Pmac, new: Pmac },
    /// The frame leaves by a port, with these bytes; a second one is a copy.
    Pass(u8, Frame),
    /// The frame ends here: the switch keeps it for itself.
    Take,
    /// The frame ends here.
    Drop(Cause),
}

/// One thing that the fabric manager does in a step.
#[derive(Debug, Drop)]
pub enum ManagerAct {
    /// A switch is told.
    Say(SwitchId, ToSwitch),
    /// A pseudo address was learnt, and has this number.
    Number(Pmac, u64),
}

/// One thing that a host does in a step.
#[derive(Debug, Drop)]
pub enum HostAct {
    Send(Frame),
}
