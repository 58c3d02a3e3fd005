use pl_frame::Ip4;

/// What a host does of itself, or is told to do.
#[derive(Clone, Copy, Debug)]
pub enum HostCall {
    Start,
    Retry,
    Moved,
    Join(Ip4),
    Leave(Ip4),
}
