use pl_node::Cause;
use pl_pmac::Pmac;

/// What is left to do with a frame of a host.
#[derive(Clone, Copy, Debug, PartialEq, Eq)]
pub enum EdgeAct {
    /// It goes up, to a host of another edge switch.
    Upward(Pmac),
    /// It goes to a host of this edge switch.
    ToHost(Pmac),
    /// It goes to a group.
    Group(u32),
    /// The switch keeps it for itself.
    Taken,
    /// It ends here.
    Drop(Cause),
}
