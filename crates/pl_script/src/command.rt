use pl_frame::Ip4;
use pl_journal::Cause;
use pl_pmac::Pmac;
use pl_wiring::{HostNo, SwitchNo};

/// One host, or each in the order of the topology.
#[derive(Clone, Copy, Debug, PartialEq, Eq)]
pub enum Who {
    One(HostNo),
    All,
}

/// How many records of a host's capture are played.
#[derive(Clone, Copy, Debug, PartialEq, Eq)]
pub enum Count {
    N(u32),
    All,
}

/// An end of a queue.
#[derive(Clone, Copy, Debug, PartialEq, Eq)]
pub enum End {
    Switch(SwitchNo),
    Host(HostNo),
    Manager,
}

/// What a line of a script asks for.
#[derive(Clone, Copy, Debug, PartialEq, Eq)]
pub enum Command {
    /// The host announces itself.
    Start(Who),
    /// The host sends the next frames of its capture.
    Send(HostNo, Count),
    /// The same, with recorded ARP frames and with frames to addresses that no host owns.
    Raw(HostNo, Count),
    /// The host asks again for the addresses that it waits for.
    Retry(Who),
    /// The host joins a group.
    Join(HostNo, Ip4),
    /// The host leaves a group.
    Leave(HostNo, Ip4),
    /// The host moves to a port of a switch.
    Move(HostNo, SwitchNo, u8),
    /// The link between two switches fails.
    Fail(SwitchNo, SwitchNo),
    /// The link between two switches is live again.
    Repair(SwitchNo, SwitchNo),
    /// The head of the queue from the first switch to the second is lost.
    Lose(SwitchNo, SwitchNo),
    /// The head of the queue from the first end to the second is delivered.
    Deliver(End, End),
    /// The switch, or each in label order for `None`, has a tick.
    Tick(Option<SwitchNo>),
    /// So many sweeps over all queues.
    Sweep(u32),
    /// Rounds until the fabric is settled, at most so many.
    Settle(u32),
    /// Sweeps until no queue has items, at most so many: what `settle` asks of bridges. No other line has it.
    Drain(u32),
    /// The fabric manager begins anew.
    Restart,
    /// Random steps: the number that they begin from, and how many.
    Random(u64, u32),
    /// The host is to have received so many frames.
    ExpectArrived(HostNo, u64),
    /// So many frames are to have ended for this cause.
    ExpectDropped(Cause, u64),
    /// The newest registered address of the host is to be this.
    ExpectAddress(HostNo, Pmac),
    /// The last `settle` is to have settled the fabric.
    ExpectSettled,
}
