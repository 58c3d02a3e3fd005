//! Words of a step of a switch, which each row of its rule is written in, and what the rows' bodies share:
//! how parts of a step go together, and the loops that tell or send at each port.
#![tactic(auto)]

pub use sends_at_port::{SendsAtPort, send_at_each_port};
pub use taken_laws::{
    a_part_and_then_the_next, a_part_that_rests, a_part_that_tells, a_step_of_one_part,
    what_a_part_takes_the_switch_takes, what_a_whole_step_gives, what_is_left_is_done,
};
pub use tells_at_port::{TellsAtPort, one_act_where, tell_at_each_port};

mod sends_at_port;
mod taken_laws;
mod tells_at_port;
