//! What stands in the bytes of the fabric's frames, as types and definitions: control frames, group
//! membership, the ARP frames that the fabric makes, the address fields that it rewrites, and the flow by
//! which it tells frames apart. The codecs stand in the crates above.
#![tactic(auto)]

pub use arrival_laws::{
    a_frame_arrives_with_other_addresses_alone, addresses_are_rewritten_one_after_the_other,
};
pub use control::{Control, ControlError, Ldm, Proposal, Vote};
pub use membership::Change;
pub use pl_frame::Memory;
pub use place::Place;

mod arrival_laws;
mod control;
pub mod frames;
mod membership;
mod place;
