//! The one call that does all that the program does, with its theorem.
#![tactic(auto)]

pub use in_memory::portland_in_memory;
pub use laws::{each_run_saves_a_legal_journal, each_saved_run_is_verified};
pub use pl_inputs::{Status, StepReason};
pub use program::portland;

mod check;
mod generating;
mod in_memory;
mod laws;
mod program;
mod running;
mod verify;
