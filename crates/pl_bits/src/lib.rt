//! Bits in words of 64 bits, and a row of values that is kept in them.
#![tactic(auto)]

pub use row::Row;
pub use words::{bit_of, clear_bit, set_bit};

/// Want of memory.
pub use std::alloc::AllocError as Memory;

mod row;
mod words;
