//! The journal of a run, and the one lossy switch that every journal is to be a run of.
//!
//! An `Entry` says one thing that befell a frame or the fabric; a `Journal` is a list of entries, the
//! oldest first. `specs/Lossy.antt` says which journals are runs of one lossy switch, by the wiring and
//! the journal alone; `specs/Text.antt` says how an entry is printed. What switches, hosts and the
//! fabric manager do to bring an entry about is left to the crates above.
#![tactic(auto)]

pub use address_laws::{
    a_grant_gives_an_address, a_live_address_stays_with_its_host, a_registration_gives_a_number,
    a_waiting_frame_keeps_its_addressee, registered_addresses_have_numbers_of_their_own,
};
pub use cause::{Cause, Skip};
pub use entry::Entry;
pub use fabric_laws::{a_host_stands_where_it_moved_last, a_link_is_failed_until_it_is_repaired};
pub use frame_laws::{
    a_frame_begins_with_an_empty_trail, a_frame_ends_at_most_once,
    a_group_frame_arrives_at_a_port_at_most_once, frames_are_numbered_in_order, legs_are_good,
    the_links_of_a_leg_were_live,
};
pub use group_laws::{
    a_frame_of_a_routed_group_arrives_at_members_alone, a_frame_to_a_host_goes_to_no_group,
    a_group_frame_never_arrives_at_the_port_of_its_source,
    a_host_that_does_not_move_receives_a_group_frame_at_most_once,
};
pub use journal::Journal;
pub use lines::write_line;
pub use pl_lists::Memory;
pub use run_laws::{a_front_of_a_run_is_a_run, a_good_trail_goes_on, a_run_goes_on};
pub use words::{Field, Words};

mod address_laws;
mod cause;
mod entry;
mod fabric_laws;
mod frame_laws;
mod group_laws;
mod journal;
mod lines;
mod run_laws;
mod words;
