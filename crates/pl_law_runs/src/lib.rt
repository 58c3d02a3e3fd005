//! Laws of the network: what holds in every run of the fabric, over the definitions of the world and of
//! the rules alone.
#![tactic(auto)]

pub use determined_runs::{
    a_run_is_determined, a_step_is_determined, rules_that_leave_no_choice_determine_a_run,
    rules_that_leave_no_choice_determine_a_step, the_rules_of_the_fabric_leave_no_choice,
};
pub use epochs::restarts_are_counted_in_every_run;
pub use loose_runs::each_run_is_a_loose_run;
pub use named_drops::a_switch_drops_frames_for_the_first_cause;
pub use saved_entries::{
    each_run_keeps_the_wiring, each_step_writes_entries_that_can_be_saved, every_entry_can_be_saved,
};

mod determined_runs;
mod epochs;
mod loose_runs;
mod named_drops;
mod saved_entries;
