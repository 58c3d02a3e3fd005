//! What is promised of the network, put together: in each run of lawful logic the fabric is one lossy switch, and
//! the invariant of the network holds at each moment.
//!
//! In every run the journal of a world is a run of the one lossy switch with good trails, whichever candidates
//! the switches choose: what the switches know is what the journal says, and each frame in a queue is where the
//! journal says that it is on its way.
#![tactic(auto)]

pub use invariant::{
    copies_are_in_order_in_every_run, hosts_are_in_order_in_every_run,
    lawful_logic_keeps_the_invariant, places_are_in_order_in_every_run,
    records_are_in_order_in_every_run,
};
pub use lawful_laws::{lawful_logic_is_one_lossy_switch, lawful_logic_writes_what_is_so};
pub use run_laws::{
    frames_of_groups_arrive_well_in_every_run, the_journal_is_a_run_of_one_lossy_switch,
    the_journal_says_what_is_so_in_every_run, the_manager_numbers_well_in_every_run,
    the_trails_of_the_journal_are_good, what_switches_know_is_so_in_every_run,
};
pub use theorem::{lawful_logic_is_one_switch, sure_frames_arrive};

mod invariant;
mod lawful_laws;
mod run_laws;
mod theorem;
