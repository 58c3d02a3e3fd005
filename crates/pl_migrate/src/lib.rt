//! The addresses that an edge switch granted to the hosts at its ports: which host has which, where frames
//! for an address go that its host has left, and which are old (PortLand, SIGCOMM 2009, sections 3.2 and 3.3).
//!
//! An `AddressTable` is the part of a switch that the rules of granting, of traps and of age speak of, and
//! each of its calls is what they say of that part, whatever else the switch knows. Its addresses stand in
//! lists by what they are used for, so that a tick costs what is due, and not what is there. Frames,
//! memberships and remembered sources are left to the crates above.
#![tactic(auto)]

pub use address_laws::{
    an_address_in_use_is_its_hosts, an_address_table_is_a_part_of_a_switch, the_newest_trap_stands,
};
pub use address_table::AddressTable;
pub use error::GrantError;
pub use grantee::Grantee;
pub use pl_node::{Grant, Memory, Trap};

mod address_laws;
mod address_table;
mod aging;
mod error;
mod grantee;
mod orders;
mod port_grants;
mod reporting;
mod tenancy;
