//! What the switches of a fabric told its manager of their places and links.
//!
//! Contracts see what pl_node calls `Told`, so each word that is told is one equation of the manager's
//! rule. The switches that told something, the placed edge switches, the neighbours that each told of, and
//! those of them over links that are alive, are kept beside it, so that no question is a scan.
#![tactic(auto)]

pub use pl_node::{Memory, SwitchList};
pub use reports::Reports;
pub use switch_report::SwitchReport;

mod edges;
mod entering;
mod living;
mod positions;
mod renewing;
mod reports;
mod switch_report;
