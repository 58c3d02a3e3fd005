//! Group membership on the wire (RFC 1112, RFC 2236, RFC 3376).
//!
//! `group_of` tells the group that a frame goes to, `read_igmp` what a frame says of its sender's
//! memberships, and `write_igmp` makes the frame by which a host joins or leaves a group. What is read
//! is what `pl_layouts` says of a frame (`specs/Memberships.antt` there), and what is written is read as
//! the change that it was written for. Who is a member of what, and where a group's frames go, is left
//! to the crates above.
#![tactic(auto)]

pub use group::{FLOOD, group_of};
pub use pl_layouts::Change;
pub use reading::{Changes, read_igmp};
pub use writing::{a_written_change_is_read, write_igmp};

mod checksum;
mod group;
mod reading;
mod record;
mod writing;
