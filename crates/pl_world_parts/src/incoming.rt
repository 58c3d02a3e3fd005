use pl_node::ToSwitch;

/// What comes at a switch: a frame at a port, a tick, or a message of the manager.
#[derive(Clone, Copy)]
pub enum Incoming<'a> {
    Frame(u8, &'a [u8]),
    Tick,
    Message(&'a ToSwitch),
}
