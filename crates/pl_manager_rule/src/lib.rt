//! What the fabric manager does, as definitions; and what holds of each of its steps.
#![tactic(auto)]

pub use lawful_manager::LawfulManager;
pub use manager_laws::{
    a_change_is_seen, a_pod_is_free_when_it_is_given, a_repeated_word_changes_nothing,
    a_word_is_treated_alone_as_it_is_heard, addresses_are_numbered_in_order,
    an_avoid_list_is_what_its_switch_avoids, lists_of_switches_rise,
    the_first_epoch_goes_by_the_rule_of_one, the_manager_answers_duly,
    what_is_known_is_what_was_told_last, what_is_known_stays_in_order,
};

mod lawful_manager;
mod manager_laws;
