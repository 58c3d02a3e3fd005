/// Which frame a switch's acts speak of by now.
#[derive(Clone, Copy, Debug, PartialEq, Eq)]
pub enum SpokenFrame {
    /// Of none.
    Silent,
    /// Of one that waits for its end: its number, and whether it was redirected since it crossed the
    /// switch.
    Waiting(u64, bool),
    /// Of one that was passed on; a further pass is a copy.
    Passed(u64),
    /// It was taken or dropped.
    Over,
}
