use pl_capture::{Captured, Endianness};

/// What packets need to know of their interface: the link type, which is 1 for Ethernet, and how
/// many bytes of a frame were captured at most, 0 for all of them.
#[derive(Clone, Copy, Debug, PartialEq, Eq)]
pub struct Interface {
    pub link: u16,
    pub snapshot: u32,
}

/// What a whole block says.
#[derive(Clone, Copy, Debug, PartialEq, Eq)]
pub enum Content {
    /// A section of this byte order begins.
    BeginsSection(Endianness),
    /// The section has one more interface.
    AddsInterface(Interface),
    /// A frame came on an Ethernet.
    HasRecord(Captured),
    /// Nothing that is read, or a frame of another link type.
    PassedOver,
}

/// A whole block, and the offset in the file behind it.
#[derive(Clone, Copy, Debug, PartialEq, Eq)]
pub struct Block {
    pub content: Content,
    pub end: usize,
}
