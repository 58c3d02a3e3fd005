//! What a switch keeps, and what it does with all that is no data frame: ticks, control frames, and
//! the messages of the fabric manager that say its pod, what to avoid, its parts of trees and that it begins
//! anew; and that a
//! host is found at a port.
//!
//! A `SwitchState` is put together from the parts of a switch. Contracts see all that the switch knows, as
//! its rule does, and each call is a row of that rule. The rows for data frames are left to the crate
//! above.
#![tactic(auto)]

pub use switch_state::SwitchState;

mod copying;
mod facts;
mod hearing;
mod hosts;
mod managing;
mod members;
mod proposing;
mod settling;
mod switch_state;
mod taking;
mod ticking;
mod voting;
