//! The control plane of a world: what its switches and its manager know, and what of discovery waits in
//! the queues; and what each step of the world is there.
#![tactic(auto)]

pub use plane_laws::{
    a_written_message_is_read, each_step_is_one_of_the_control_plane,
    each_step_keeps_hosts_at_edges, hosts_stand_at_edges_in_every_run,
    switches_keep_their_ids_in_every_run,
};

mod plane_laws;
