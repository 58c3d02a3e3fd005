//! Pseudo addresses: a host's place in the fat tree, written as a MAC address.
//!
//! `pack` and `unpack` are inverse to each other on all values, so a pseudo address is the same
//! 48 bits whichever way it is kept. Which addresses a fabric grants is left to the crates above.
#![tactic(auto)]

pub use pmac::{Pmac, pack, pack_and_unpack_are_inverse, unpack};

mod pmac;
