//! Plays a scenario, which comes on standard input, through a part of the fabric manager: each line is one
//! call of the part, and what the part answers is printed, a line each.
//!
//! The first line of a scenario names the part and says what it needs: `fabric K`, `registry` or `gatherer SWITCHES`.
//! What can be said to a part stands in the file of its name. A line that begins with `#` is printed as it is, and with
//! `new` another scenario begins.
#![tactic(auto)]

mod fabric;
mod gatherer;
mod naming;
mod registry;
mod tree;

use crate::fabric::play_fabric;
use crate::gatherer::play_gatherer;
use crate::registry::play_registry;
use pl_frame::Memory;
use pl_test_words::{Player, first_word, play_each, say};
use std::alloc::Global;
use std::io;

fn main(rt: HostRuntime) -> io::Result<()> {
    let mut input = String::new(rt.alloc());
    for line in rt.lines(rt.alloc()) {
        input.push_str(line?.as_str())?;
        input.push_str("\n")?;
    }
    let mut out = String::new(rt.alloc());
    play_each(&Parts, rt.alloc(), input.as_str(), &mut out)?;
    print!(rt; "{out}")
}

#[derive(Drop)]
struct Parts;

impl Player for Parts {
    fn play(&self, alloc: Global, scenario: &[&str], out: &mut String) -> Result<(), Memory> {
        match scenario.split_first() {
            Some((first, rest)) => play_scenario(alloc, first, rest, out),
            None => Ok(()),
        }
    }
}

fn play_scenario(
    alloc: Global,
    first: &str,
    lines: &[&str],
    out: &mut String,
) -> Result<(), Memory> {
    let (part, words) = first_word(first);
    match part {
        "fabric" => play_fabric(alloc, words, lines, out),
        "registry" => play_registry(alloc, lines, out),
        "gatherer" => play_gatherer(alloc, words, lines, out),
        _ => say(out, "not understood"),
    }
}
