//! Laws of the numbers of pods, in each epoch of the manager: an edge switch with position 0 is on one way to the
//! number of its pod, no number is of two of them, and each is below how many pods there are.
#![tactic(auto)]

pub use pod_laws::{
    a_number_stays_with_its_switch, a_wish_for_a_pod_is_told_once,
    an_edge_switch_with_position_0_is_on_one_way_to_its_pod,
    an_edge_switch_with_position_0_knows_its_pod_at_rest,
    hearing_keeps_numbers_apart_and_below_the_number_of_pods,
    known_pods_are_told_behind_all_reports, numbers_are_in_order_in_each_epoch,
    numbers_in_order_are_known_apart, numbers_stay_apart_in_each_epoch,
    the_tables_of_the_manager_stay_in_order, what_is_due_is_true_of_pods,
};

mod pod_laws;
