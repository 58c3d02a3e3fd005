//! What the lines of a script do to a fabric, as definitions: each line is a relation between what was come to
//! before it and behind it, over whatever rules the switches, the manager and the hosts have.
#![tactic(auto)]

pub use laws::{a_script_is_a_run, hosts_do_what_is_asked};
pub use stop::Stop;
pub use tree_laws::{
    a_script_on_the_tree_is_a_run, a_script_on_the_tree_keeps_to_it,
    hosts_on_the_tree_do_what_is_asked,
};

mod laws;
mod stop;
mod tree_laws;
