/// What a host makes of a frame that arrives at it.
#[derive(Clone, Copy, Debug, PartialEq, Eq)]
pub enum Reception {
    Kept,
    /// The frame goes to a routed group that the host has not joined.
    NotMember,
}
