//! Laws of joined groups: by the journal each host has joined what its own frames said, and keeps frames
//! of its groups alone.
#![tactic(auto)]

pub use joined_laws::{
    each_step_keeps_what_hosts_have_joined, hosts_have_joined_what_their_frames_said_in_every_run,
    hosts_keep_frames_of_their_groups_alone,
    hosts_that_keep_a_frame_of_a_group_are_members_in_every_run,
};

mod joined_laws;
