use crate::{Cause, Skip};
use pl_frame::Frame;
use pl_layouts::Place;
use pl_pmac::Pmac;
use pl_wiring::{HostNo, SwitchNo};

/// One thing that befell a frame, an address, a switch, a link or a host, or that the script did.
///
/// A frame is named by its number: 1, 2, 3 and so on, as frames are sent, made or copied.
#[derive(Debug, Drop)]
pub enum Entry {
    /// A line of the script begins.
    Line(u32),
    /// A host sends a frame.
    Sent(u64, HostNo, Frame),
    /// A host passes a recorded frame over.
    Skipped(HostNo, Skip),
    /// A switch makes a frame.
    Made(u64, SwitchNo, Frame),
    /// A frame crosses a switch.
    Crossed(u64, SwitchNo),
    /// A frame goes on from an old address to a newer one of the same host.
    Redirected(u64, Pmac, Pmac),
    /// A frame of a group is copied; the second number is the copy's.
    Copied(u64, u64),
    /// A frame arrives at a host, with these bytes.
    Arrived(u64, HostNo, Frame),
    /// An edge switch takes a frame for itself.
    Taken(u64, SwitchNo),
    /// A frame ends for a cause.
    Dropped(u64, Cause),
    /// An edge switch grants an address to a host at one of its ports.
    Granted(Pmac, HostNo, SwitchNo, u8),
    /// The fabric manager learns an address, and numbers it.
    Registered(Pmac, u64),
    /// An edge switch frees an address that is not used: it may be granted again.
    Freed(Pmac),
    /// A switch knows more of its place.
    Placed(SwitchNo, Place),
    /// A link fails; the switch that is first in label order stands first.
    LinkDown(SwitchNo, SwitchNo),
    /// A link is repaired; the switch that is first in label order stands first.
    LinkUp(SwitchNo, SwitchNo),
    /// A host moves to a port of an edge switch.
    Moved(HostNo, SwitchNo, u8),
    /// The fabric manager begins anew, and knows nothing: this is its so many-th restart.
    Restarted(u32),
    /// The fabric is settled, after this many rounds.
    Settled(u32),
    /// The fabric is not settled; so many items are pending.
    Unsettled(u64),
}
