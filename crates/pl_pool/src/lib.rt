//! A pool: a fixed number of lists over the nodes of one slab.
#![tactic(auto)]

pub use iter::Iter;
pub use key::Key;
pub use pool::Pool;

/// Want of memory.
pub use std::alloc::AllocError as Memory;

mod iter;
mod key;
mod links;
mod nodes;
mod pool;
