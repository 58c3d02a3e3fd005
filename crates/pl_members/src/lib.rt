//! Which hosts at an edge switch have joined which groups, by group, port and address (the memberships that
//! hosts report by RFC 2236 and RFC 3376).
//!
//! Contracts see the rising list of them, which is the switch's `members`, so each call is one equation
//! of the rule.
#![tactic(auto)]

pub use members::Members;
pub use pl_node::{Memory, PortSet};
pub use ranked_member::RankedMember;

mod members;
mod ranked_member;
