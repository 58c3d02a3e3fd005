//! Queues side by side: a queue array of them, which of them have items, and how many of their items count.
#![tactic(auto)]

pub use bit_set::BitSet;
pub use counted::{CountedQueues, one_if};
pub use iter::Iter;
pub use pl_lists::Memory;
pub use queues::Queues;

mod bit_set;
mod counted;
mod iter;
mod lists;
mod queues;
mod tally;
mod words;
