//! The fabric manager: a `ManagerLogic` whose rule is that of `pl_manager_rule`, to the letter.
//!
//! `Routing` is what the switches told of the tree and of the members of groups, with the avoid lists and
//! the trees of the groups, each as its switch was told it: a word that is heard tells just those switches
//! for which something changed. Addresses and pods are found by a `Registry` and by `Askers`. A manager that
//! began anew keeps what it hears in a `Gatherer`, until the report of each switch has ended.
#![tactic(auto)]

pub use manager::Manager;

mod gathering;
mod giving;
mod known;
mod manager;
mod manager_logic;
mod renewing;
mod routing;
mod saying;
mod telling;
