//! Laws of how hosts are attended to: the edge switch where a host stands knows it once an ARP frame of it
//! came there, or is going to; so where every queue is empty it is registered there.
//!
//! Laws of what settlings and scripts leave: a fabric at rest has nothing in its queues, so each host that is heard where it
//! stands is registered there.
#![tactic(auto)]

pub use being_registered_laws::{
    hosts_are_being_registered_in_every_run, no_two_hosts_stand_at_one_place,
    unplaced_edge_switches_remember_hosts,
};
pub use registration_laws::{
    a_host_is_registered_at_rest, a_host_is_registered_at_rest_in_every_run,
    lawful_logic_registers_hosts_at_rest,
};
pub use script_laws::a_script_that_ends_at_rest_leaves_hosts_registered;
pub use settling_laws::{
    a_fabric_at_rest_has_empty_queues, a_fabric_at_rest_has_its_hosts_registered,
    a_settling_leaves_hosts_registered,
};
pub use stood_laws::addresses_are_granted_where_hosts_stood;

mod being_registered_laws;
mod registration_laws;
mod script_laws;
mod settling_laws;
mod stood_laws;
