//! Laws of addresses over all epochs of the fabric manager: what holds of grants, traps and registrations while the manager begins anew again
//! and again.
#![tactic(auto)]

pub use epoch_laws::{
    a_registered_address_is_held, a_restart_keeps_addresses_in_order,
    a_standing_trap_is_known_or_reported, addresses_begin_in_order,
    an_address_in_use_is_told_or_known, an_ip_address_that_is_known_is_its_hosts_own,
    each_step_keeps_addresses_in_order,
};
pub use plane_laws::{
    a_restart_keeps_all_addresses_in_order, each_step_of_the_control_plane_keeps_addresses_in_order,
};
pub use situation_laws::{
    what_a_restart_does_leaves_an_address_in_a_situation,
    what_a_switch_does_leaves_an_address_in_a_situation,
    what_is_heard_of_an_unknown_address_is_reported,
    what_the_manager_does_leaves_an_address_in_a_situation,
};
pub use trap_laws::{
    a_restart_leaves_traps_at_live_addresses, addresses_are_released_once_traps_were_reported,
    an_order_sets_a_trap_to_a_live_address, each_step_leaves_traps_at_live_addresses,
    traps_are_told_in_reports_alone,
};
pub use world_laws::{
    a_served_host_is_registered_at_rest, addresses_of_a_world_begin_in_order,
    an_address_that_is_nobodys_stands_for_nothing, each_step_of_a_world_keeps_addresses_in_order,
};

mod epoch_laws;
mod plane_laws;
mod situation_laws;
mod trap_laws;
mod world_laws;
