use pl_frame::Frame;

/// What waits in a queue of a host or of a switch's port.
#[derive(Debug, Drop)]
pub enum Item {
    /// A control frame. It has no number.
    Control(Frame),
    /// A data frame and its number.
    Data(u64, Frame),
}
