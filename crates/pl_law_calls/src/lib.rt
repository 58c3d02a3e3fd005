//! A fabric of lawful logic: the calls that make its runs, a beginning, steps, marks, sweeps, settlings and drawn
//! steps, each with what is promised of the network as its clause.
#![tactic(auto)]

pub use fabric::{boot, make, mark, random, settle, sweep};

mod fabric;
