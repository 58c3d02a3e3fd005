//! What a switch of this fabric does, row by row, as definitions; and what holds of each of its steps.
#![tactic(auto)]

pub use came::{Came, Way};
pub use candidate::is_candidate;
pub use cause_laws::each_drop_is_for_the_first_cause;
pub use lawful_switch::{LawfulSwitch, a_lawful_switch_is_loose};
pub use loose_switch::LooseSwitch;
pub use switch_laws::{
    a_new_switch_is_shaped, each_step_accounts_for_its_frames, exact_steps_are_loose,
};

mod came;
mod candidate;
mod cause_laws;
mod lawful_switch;
mod loose_switch;
mod switch_laws;
