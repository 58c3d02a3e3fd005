//! What stands around the world: maps of its wiring, where hosts stand, the switches with the queues out
//! of their ports, and the book that the journal is written in.
#![tactic(auto)]

pub use attachments::Attachments;
pub use counting::{WaitingToManager, WaitingToSwitch};
pub use host_call::HostCall;
pub use incoming::Incoming;
pub use links::{link_of, set_live};
pub use one_step::{arrive_at, hear_at, host_call_at, play_at};
pub use switches::Switches;
pub use wiring_index::WiringIndex;
pub use world_journal::WorldJournal;

mod attachments;
mod counting;
mod host_call;
mod incoming;
mod links;
mod one_step;
mod said;
mod switches;
mod wiring_index;
mod world_journal;
