//! What a learning bridge does, and a fabric manager that says nothing, as definitions; the tree that is
//! left of a fat tree for bridges; and what holds of each step and of the tree.
#![tactic(auto)]

pub use learning_bridge::LearningBridge;
pub use rule_laws::{
    a_bridge_accounts_for_its_frames, a_bridge_has_no_choice, a_quiet_manager_answers_duly,
    an_address_is_at_one_port, other_addresses_stay,
};
pub use tree::is_tree_link;
pub use tree_laws::{
    links_of_the_tree_lead_apart, one_way_leads_from_switch_to_switch,
    there_is_a_way_to_each_switch,
};

mod learning_bridge;
mod rule_laws;
mod tree;
mod tree_laws;
