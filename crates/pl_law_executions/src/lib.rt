//! Laws of what is done to a fabric step by step: with rules that leave no choice, a sweep, a round, a
//! settling and steps drawn by numbers come to one end and to one world.
//!
//! Laws of what a script comes to: with rules that leave no choice, as those of this fabric are, it comes to
//! one end.
#![tactic(auto)]

pub use execution_laws::{
    a_settling_goes_one_way, a_sweep_goes_one_way, drawn_steps_go_one_way,
    events_in_order_go_one_way, rounds_go_one_way,
};
pub use script_laws::{a_script_goes_one_way, one_script_one_end, one_script_one_end_of_bridges};

mod execution_laws;
mod script_laws;
