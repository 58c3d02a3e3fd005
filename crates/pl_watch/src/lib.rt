//! What the switches say: a log of a fabric's steps, each with what a node heard and did, and with what a switch knows now that it
//! did not before.
//!
//! A `Chronicle` sees the steps of a world just before each is made. It has a second set of switches and a second manager, which
//! hear what the world's are about to hear: their rules leave no choice, so they do the same. Lines go out as they come, and no
//! list of them is kept; pl_log_lines says how they look.
#![tactic(auto)]

pub use chronicle::Chronicle;
pub use decided::{DecidedManager, DecidedSwitch};
pub use log_laws::{
    a_log_is_of_a_run, each_run_has_a_log, one_run_one_log, the_journal_stands_in_the_log,
};

mod chronicle;
mod decided;
mod events;
mod heard;
mod log_laws;
mod news;
mod same;
mod shadows;
