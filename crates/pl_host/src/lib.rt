//! The host that plays recorded frames as a real machine would.
//!
//! `Host` is a `HostLogic` whose rule is that of `pl_node` (`specs/HostRule.antt` there), to the letter:
//! from what it knows and what it is told or hears, its next state, the frames that it sends and its
//! answer follow. It sends a recorded frame to the address that its ARP cache has for the host that the
//! frame was recorded for, and until it has one it holds the frame and asks. Only want of memory is left
//! free: a step that it cuts short may have done a part.
//!
//! The hosts of the topology, and the frames that wait for an address, are found by maps
//! (`specs/Owners.antt`, `specs/Waiting.antt`). When a step comes, and what becomes of the frames, is
//! left to the crates above.
#![tactic(auto)]

pub use host::Host;

mod carried;
mod frames;
mod groups;
mod hearing;
mod host;
mod host_logic;
mod neighbours;
mod owners;
mod playing;
mod reading;
mod sending;
mod waiting;
