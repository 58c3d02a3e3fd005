//! What a host does, as definitions; and what holds of each of its steps.
#![tactic(auto)]

pub use host_laws::{
    a_host_has_joined_what_its_frames_say, a_host_is_orderly,
    a_host_keeps_what_goes_to_no_routed_group, a_host_sends_data_frames,
    a_host_sends_under_its_own_addresses,
};
pub use lawful_host::LawfulHost;

mod host_laws;
mod lawful_host;
