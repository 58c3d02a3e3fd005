//! Laws of the votes on positions: edge switches propose positions, the aggregation switches of their pod
//! vote, and no two edge switches of a pod ever get one position.
#![tactic(auto)]

pub use vote_laws::{
    a_fixed_position_is_held_by_more_than_half_of_the_pod, each_step_keeps_the_votes_in_order,
    edge_switches_of_a_pod_have_different_positions, the_votes_begin_in_order,
};

mod vote_laws;
