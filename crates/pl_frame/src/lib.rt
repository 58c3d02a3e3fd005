//! Ethernet frames and the addresses that they carry.
//!
//! `view` reads the fields of a frame where they stand, `set_source` and `set_destination` write one
//! field and keep every other byte, and `Frame` owns a frame's bytes. The fields are functions of the
//! bytes (`specs/Ethernet.antt`), which every later crate cites. What an address or a payload means
//! is left to the crates above.
#![tactic(auto)]

pub use address::{Ip4, Mac, SwitchId};
pub use ethernet::{
    FrameError, FrameView, LONGEST, SHORTEST, TYPE_ARP, TYPE_CONTROL, TYPE_IPV4, set_destination,
    set_source, view,
};
pub use owned::Frame;
use std::alloc::AllocError;

mod address;
mod ethernet;
mod owned;

/// The answer of a call that only want of memory can refuse.
pub type Memory = AllocError;
