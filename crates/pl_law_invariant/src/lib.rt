//! What holds in every run: places are true, and votes, numbers of pods and addresses are in order; so edge
//! switches of a pod never have one position, pods never one number, and no address is granted again before
//! it was freed.
//!
//! What holds in every run is kept by whatever lawful logic does: by any run from any world where it holds, so
//! by events in order, a sweep, rounds, a settling and drawn steps; and it holds at the beginning.
#![tactic(auto)]

pub use address_laws::{
    addresses_are_in_order_by_what_is_due_in_every_run,
    no_address_is_granted_again_before_it_was_freed_in_any_run,
    no_address_is_granted_while_anything_stands_for_it_in_any_run,
    no_two_edge_switches_grant_one_address_in_any_run, placed_edge_switches_stand_apart,
    placed_edge_switches_stand_apart_in_every_run, what_was_granted_stays_granted_in_every_run,
};
pub use execution_laws::{
    a_settling_keeps_all_of_it, a_sweep_keeps_all_of_it, drawn_steps_keep_all_of_it,
    events_in_order_keep_all_of_it, rounds_keep_all_of_it,
};
pub use kept_laws::{
    each_step_keeps_all_of_it, edge_switches_of_a_pod_differ_in_every_run,
    every_run_keeps_all_of_it, known_pods_are_those_of_edge_switches_with_position_0_in_every_run,
};
pub use lawful_laws::{
    each_run_of_lawful_logic_is_a_run_of_the_rules,
    lawful_logic_grants_no_address_again_before_it_was_freed,
    lawful_logic_grants_no_address_while_anything_stands_for_it, lawful_logic_keeps_all_of_it,
    lawful_logic_keeps_what_it_granted,
};
pub use run_laws::{all_of_it_holds_at_the_beginning, runs_of_lawful_logic_keep_all_of_it};

mod address_laws;
mod execution_laws;
mod kept_laws;
mod lawful_laws;
mod run_laws;
