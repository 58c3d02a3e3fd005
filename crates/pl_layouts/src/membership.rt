use pl_frame::Ip4;

/// What a host says of a group: that it joins it, or leaves it (RFC 2236, RFC 3376).
#[derive(Clone, Copy, Debug, PartialEq, Eq)]
pub struct Change {
    pub group: Ip4,
    pub join: bool,
}
