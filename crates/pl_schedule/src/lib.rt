//! The world in code: a `World` over any logic of its nodes goes on by events.
//!
//! Contracts see it as a `WorldView` of pl_world, and each of its calls is one equation of it.
#![tactic(auto)]

pub use pl_world::{AttachmentPoint, Event, Item, Limits, QueueName, StepError};
pub use world::World;
pub use world::boot::{boot_manager, boot_switches};
pub use world::coming::Coming;

mod world;
