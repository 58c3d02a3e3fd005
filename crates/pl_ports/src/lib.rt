//! What a switch knows of itself and of its ports: its id, its place, and at each port what was last
//! heard there.
//!
//! Each call is a word of the rule that pl_switch_rule has, said for every switch that knows this of its
//! ports. What a message does besides (votes, addresses, groups) is left to the crates above, as is the
//! order of the calls in a step.
#![tactic(auto)]

pub use level_laws::the_level_is_what_the_records_show;
pub use ports::Ports;
pub use standing::Standing;

mod addresses;
mod announcing;
mod evidence;
mod hearing;
mod learning;
mod level_laws;
mod ports;
mod reporting;
mod standing;
mod telling;
