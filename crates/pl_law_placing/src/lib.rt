//! Laws of how edge switches come to their places: why positions are refused and left, and that in a pod at
//! rest each edge switch has one.
#![tactic(auto)]

pub use placing_laws::{
    each_step_keeps_edge_switches_placing, edge_switches_of_a_pod_at_rest_have_positions,
    edge_switches_of_a_pod_at_rest_know_the_pod, every_run_keeps_edge_switches_placing,
    no_edge_switch_makes_more_attempts_than_there_are_positions,
    one_of_a_pod_at_rest_has_position_0, what_is_no_news_was_answered,
};

mod placing_laws;
