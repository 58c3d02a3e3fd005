//! Laws of arrival: while a fabric stays settled, a frame between registered hosts with a live up-down path
//! arrives.
#![tactic(auto)]

pub use arrival_laws::{
    a_frame_waits_at_its_host_once_it_is_sent, a_sure_frame_has_no_other_end,
    a_sure_frame_that_ends_has_arrived, each_run_is_orderly,
    no_link_and_no_place_changes_between_settled_moments,
};
pub use forwarding_laws::{
    a_frame_comes_down_from_a_core_switch, a_frame_goes_on_from_an_aggregation_switch,
    a_frame_goes_up_from_its_edge_switch,
};

mod arrival_laws;
mod forwarding_laws;
