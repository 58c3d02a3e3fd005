//! What queues side by side are: definitions, and what counts among their items. The queue array that keeps them
//! stands in pl_queue_array, so that the world and its laws, which speak of queues, stand on no code.
#![tactic(auto)]

pub use counted::Counted;

mod counted;
