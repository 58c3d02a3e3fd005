//! What an edge switch does with a frame for its own pod and position, the ARP frames that it makes, and
//! what it does with addresses that age (PortLand, SIGCOMM 2009, section 3.3).
//!
//! The calls speak of the address table of the switch and of a frame that they own: it is rewritten in
//! place, and copied only behind a `Make`. Each is a row of the switch's rule for every switch that has
//! this address table. By which port a frame leaves for another edge switch is left to the crates above: such a
//! frame is given back as `Sent::Upward`.
#![tactic(auto)]

pub use aging::age;
pub use delivery::deliver;
pub use home::{begin, egress};
pub use invalidation::{invalidate, probe};
pub use laws::{a_sender_is_told_behind_its_frame, an_invalidation_is_three_parts};
pub use made::{answer, flood, reply};
pub use sent::Sent;

mod aging;
mod delivery;
mod home;
mod invalidation;
mod laws;
mod made;
mod sent;
