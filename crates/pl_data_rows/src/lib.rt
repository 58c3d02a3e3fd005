//! The rows of a switch's rule for data frames and for messages of the fabric manager, one function for
//! each, and the dispatch by what comes.
//!
//! They are said of any switch that keeps all that its rule speaks of (`KeepsRecords`), so that a switch
//! that keeps more than the reference switch (pl_tables) has the same rows. How it does what no row here does (a
//! control frame, a host that is found, an address that is learnt) and by which ports a unicast frame may
//! leave it answers itself. A data frame for one host is copied once and moved on.
#![tactic(auto)]

pub use keeps_records::KeepsRecords;
pub use messages::hear_manager;
pub use steps::comes;

mod home;
mod host_frames;
mod keeps_records;
mod messages;
mod neighbour_frames;
mod reading;
mod steps;
