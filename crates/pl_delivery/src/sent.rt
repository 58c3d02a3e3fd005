use pl_frame::Frame;

/// What became of a frame for an address of this edge switch.
#[derive(Debug, Drop)]
pub enum Sent {
    /// It ended here: it left by the port of its host, or was dropped.
    Here,
    /// It is for another edge switch by now, and is to be forwarded as a frame of a host here.
    Upward(Frame),
}
