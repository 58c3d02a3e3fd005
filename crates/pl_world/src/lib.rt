//! The world as definitions: the switches, hosts and manager of a fabric, and the queues between them.
//!
//! A world goes on by events. One event is one step of one actor: the head of one queue is delivered, one
//! switch ticks, one host acts, one link fails or is repaired, one item is lost, one host moves, or the manager
//! restarts. `specs/WorldRule.antt` says what each event does, over whatever rules switches, manager and hosts
//! have; so what holds of each event holds in each order of events. The laws here hold of any rules.
#![tactic(auto)]

pub use attachment::AttachmentPoint;
pub use error::StepError;
pub use event::{Event, QueueName};
pub use item::Item;
pub use limits::Limits;
pub use progress::ActsProgress;
pub use spoken_frame::SpokenFrame;
pub use world_laws::{
    a_new_world_has_its_frames_in_order, a_step_drops_what_its_turn_says,
    each_run_keeps_its_frames_in_order, each_run_stays_within_hearing,
    each_step_keeps_its_frames_in_order, hosts_have_no_control_frames_in_their_queues,
    nothing_is_pending_exactly_where_the_queues_are_settled,
};

mod attachment;
mod counting;
mod error;
mod event;
mod item;
mod limits;
mod progress;
mod spoken_frame;
mod world_laws;
