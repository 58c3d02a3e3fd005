use pl_frame::{Frame, Ip4};
use pl_wiring::{HostNo, SwitchNo};

/// A queue of the fabric: first in, first out.
#[derive(Clone, Copy, Debug, PartialEq, Eq)]
pub enum QueueName {
    /// From a host to its edge switch.
    FromHost(HostNo),
    /// Out of a port of a switch.
    Port(SwitchNo, u8),
    /// From a switch to the fabric manager.
    ToManager(SwitchNo),
    /// From the fabric manager to a switch.
    FromManager(SwitchNo),
}

/// One step of one actor.
#[derive(Debug, Drop)]
pub enum Event {
    /// The head of a queue is delivered.
    Deliver(QueueName),
    Tick(SwitchNo),
    Fail(SwitchNo, SwitchNo),
    Repair(SwitchNo, SwitchNo),
    /// The head of the queue out of a port is lost.
    Lose(SwitchNo, u8),
    Move(HostNo, SwitchNo, u8),
    Start(HostNo),
    /// A host plays a recorded frame; `original` is the length that it had on the wire.
    Play {
        host: HostNo,
        frame: Frame,
        original: u32,
        raw: bool,
    },
    Retry(HostNo),
    Join(HostNo, Ip4),
    Leave(HostNo, Ip4),
    /// The fabric manager loses all that it knows, and begins anew.
    Restart,
}
