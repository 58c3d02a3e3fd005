//! What is due: of each switch the words that the fabric manager is going to treat, in the place of what waits of it. Each
//! step of the control plane is one to what is due, in every epoch of the manager.
#![tactic(auto)]

pub use due_laws::{
    a_restart_makes_nothing_due, each_step_is_one_to_what_is_due, each_step_keeps_reports_gathered,
    each_step_or_restart_is_one_to_what_is_due, no_report_is_missing_at_rest,
    nothing_is_missing_at_the_beginning,
    the_epoch_of_a_switch_is_the_managers_where_it_is_not_silent,
};

mod due_laws;
