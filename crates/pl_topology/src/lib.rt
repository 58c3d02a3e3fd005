//! Topology files: which wiring a file means, or the first thing that is wrong with it.
#![tactic(auto)]

pub use error::TopologyError;
pub use key::Key;
pub use pl_frame::Memory;
pub use pl_wiring::{Host, HostNo, Label, Link, LinkStates, Name, Path, Peer, SwitchNo, Wiring};
pub use reading::read;

mod adjacent;
mod building;
mod canonical;
mod complete;
mod document;
mod double_hosts;
mod double_ids;
mod entries;
mod error;
mod file_entries;
mod host_tables;
mod key;
mod link_tables;
mod reading;
mod switch_tables;
mod used_ports;
mod values;
