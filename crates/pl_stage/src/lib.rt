//! A world with a watcher, who is shown each step just before it is made.
//!
//! Contracts see a `Stage` as the `WorldView` of its world, and its steps are those of a `World`.
#![tactic(auto)]

pub use stage::Stage;
pub use watcher::{Nobody, Watcher};

mod stage;
mod watcher;
