//! What the journal says of addresses is what the switches granted and the fabric manager registered: so it
//! is at the beginning, and each step keeps it, over the definitions of the world and of the rules alone.
//!
//! In every run the journal says of addresses what the switches granted and the fabric manager registered,
//! and each number of a pod that is given is below how many pods there are.
#![tactic(auto)]

pub use ledger_laws::{
    an_address_in_use_is_the_last_granted, each_step_keeps_the_ledger, the_ledger_begins_empty,
};
pub use run_laws::{
    each_number_given_is_below_the_number_of_pods, each_trap_leads_to_a_newer_address_in_every_run,
    pods_and_positions_are_of_one_byte_in_every_run,
    the_journal_says_what_was_granted_in_every_run, what_is_known_of_places_is_known_later,
};

mod ledger_laws;
mod run_laws;
