//! A fabric as a whole: sweeps over its queues, rounds, whether it is settled, and steps drawn by numbers.
//!
//! All calls are made of `World::step`. What they do is said over whatever rules the switches, the manager
//! and the hosts have; `specs/Settled.antt` says when a fabric is settled.
#![tactic(auto)]

pub use draining::{drain, drained};
pub use draws::random;
pub use fabric::settled;
pub use making::{make, tick_all};
pub use rounds::{round, sweep, sweep_often};
pub use run_laws::{
    a_sweep_is_a_run, a_sweep_visits_the_queues_in_queue_order, drawn_steps_are_a_run,
    the_rounds_of_a_settling_are_a_run,
};
pub use settling::{Settling, settle};

mod draining;
mod draws;
mod ends;
mod fabric;
mod making;
mod rounds;
mod run_laws;
mod settling;
mod switches;
mod votes;
