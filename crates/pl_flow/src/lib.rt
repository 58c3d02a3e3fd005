//! The number by which a switch chooses among the ports that lead on, so that the frames of one flow take
//! one way. What goes into it are definitions of `pl_layouts` (`specs/Flow.antt` there); a frame is read
//! once, and nothing is copied.
#![tactic(auto)]

pub use flow::flow_hash;
pub use fnv::fnv1a;

mod flow;
mod fnv;
