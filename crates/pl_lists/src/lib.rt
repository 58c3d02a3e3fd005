//! Lists that contracts see as lists: items in order, a queue, items that rise, a set of ports.
#![tactic(auto)]

pub use items::Items;
pub use port_set::PortSet;
pub use queue::Queue;
pub use rising::Rising;

/// Want of memory.
pub use std::alloc::AllocError as Memory;

mod items;
mod port_set;
mod queue;
mod rising;
