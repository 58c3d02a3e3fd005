//! Laws of addresses: what holds of the grants of edge switches in every run of the fabric, over the
//! definitions of the world and of the rules alone.
#![tactic(auto)]

pub use addresses_in_order::{
    no_two_edge_switches_grant_one_address, the_newest_address_has_the_largest_number,
};
pub use own_frames::{each_step_keeps_frames_with_their_hosts, hosts_send_frames_of_their_own};
pub use runs_in_order::{
    each_step_keeps_grants_in_order, grants_are_in_order_at_boot, grants_are_in_order_in_every_run,
    no_address_is_granted_again_before_it_was_freed, no_address_is_granted_while_it_is_somebodys,
    what_was_granted_stays_granted,
};

mod addresses_in_order;
mod own_frames;
mod runs_in_order;
