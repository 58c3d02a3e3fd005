//! That of a frame that is copied at most one copy comes to each port for hosts, over the definitions of
//! the world and of the rules alone.
//!
//! Laws of what is told and ordered, and of the trees of groups: what switches tell of places, links and members
//! is so, each part of a tree leads up and down by one level, and so of each frame at most one copy arrives at
//! each port for hosts.
#![tactic(auto)]

pub use copy_laws::{
    copies_come_once, each_step_lets_one_copy_come, frames_of_a_root_are_alone,
    no_copy_is_on_its_way_at_first,
};
pub use tree_laws::{
    frames_of_a_root_are_alone_in_every_run, lawful_logic_lets_one_copy_arrive,
    one_copy_arrives_at_each_port_in_every_run, one_copy_may_come_to_each_port_in_every_run,
    what_is_told_and_ordered_is_so_in_every_run,
};

mod copy_laws;
mod tree_laws;
