//! What a fabric manager that began anew has heard of the switches' reports, and what it keeps until each of
//! them has ended.
//!
//! A `Gatherer` is what pl_gathering says, but for what the manager knows: each call is a word of it. What is
//! kept is treated by the crate above.
#![tactic(auto)]

pub use gatherer::Gatherer;
pub use kept::Kept;
pub use pl_node::Memory;

mod gatherer;
mod kept;
