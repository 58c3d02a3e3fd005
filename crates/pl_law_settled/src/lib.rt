//! Laws of a settled fabric: the manager's records are what the switches know now, and in a pod that lacks no
//! link each edge switch that received a frame of a host has level 0, a position and a pod.
#![tactic(auto)]

pub use run_laws::{
    records_are_current_in_every_run_where_queues_are_settled,
    settled_runs_have_current_records_and_positions,
    settlings_end_with_current_records_and_placed_edge_switches,
};
pub use settled_laws::{
    a_settled_pod_is_at_rest, edge_switches_of_a_settled_pod_have_positions,
    edge_switches_of_a_settled_pod_know_the_pod,
    edge_switches_of_a_settled_pod_that_received_frames_of_hosts_are_placed,
    no_report_is_missing_where_queues_are_settled, one_of_a_settled_pod_has_position_0,
    records_are_current_where_queues_are_settled, settled_queues_are_at_rest,
};
pub use vote_laws::a_proposal_sent_again_changes_nothing_exactly_where_the_rows_leave_both;

mod run_laws;
mod settled_laws;
mod vote_laws;
