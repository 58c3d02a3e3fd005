//! Laws of learning bridges on a tree, over the definitions of the world and of the bridge's rule alone.
//!
//! From the first moment on no switch is crossed twice by a frame and its copies, each line of crossings is
//! a path of the tree, at most one copy goes out of each port for hosts, and whatever arrives has the bytes
//! that were sent. A frame whose way over the tree is learnt, live and left alone goes just that way.
#![tactic(auto)]

pub use journal_laws::{
    a_host_that_stays_gets_one_copy, a_line_of_crossings_is_a_path_of_the_tree,
    frames_arrive_as_they_were_sent, no_switch_is_crossed_twice, one_copy_arrives_at_each_port,
};
pub use learnt_laws::{
    a_frame_from_a_link_goes_where_it_is_learnt, a_frame_goes_the_way_that_is_learnt,
    a_frame_of_a_host_goes_where_it_is_learnt,
};
pub use run_laws::{
    an_address_is_at_one_port_in_every_run, each_run_keeps_to_the_tree,
    each_step_keeps_to_the_tree, one_copy_goes_out_of_each_port,
    the_first_world_is_reached_by_failures, the_first_world_keeps_to_the_tree,
};

mod journal_laws;
mod learnt_laws;
mod run_laws;
