//! Plays scripts on a fabric, line by line, over any logic of its nodes.
//!
//! A `Player` is a world and how many records of each host were asked for; contracts see it as a `Scene`
//! of pl_script_rule, and what its calls do is said there.
#![tactic(auto)]

pub use player::{Player, Stopped};

mod expecting;
mod hosts;
mod lines;
mod on_tree;
mod player;
mod queues;
mod records;
mod steps;
