//! How the edge switches of a pod get different positions: an edge switch proposes one, and the aggregation
//! switches of the pod vote on it.
//!
//! `Proposer` is what an edge switch keeps of this, `Holder` what an aggregation switch keeps. Each call is
//! one equation between what the whole switch knows before and after, whatever else it knows.
#![tactic(auto)]

pub use holder::Holder;
pub use pl_node::{Proposal, Vote};
pub use proposer::Proposer;

mod holder;
mod holds;
mod proposer;
