//! Through which neighbours each switch is not to send, kept up by changes of what the switches told.
#![tactic(auto)]

pub use matrix::Matrix;
pub use pl_node::{AvoidList, Memory, SwitchList};
pub use pl_reports::Reports;

mod edges;
mod leading;
mod listed;
mod lists;
mod making;
mod matrix;
mod missed;
mod missed_edges;
mod reach;
mod renewing;
mod row;
mod sharing;
mod tables;
mod telling;
