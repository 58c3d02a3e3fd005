//! Plays a scenario, which comes on standard input, through a part of a switch: each line is one call of
//! the part, and what the part answers is printed, a line each.
//!
//! The first line of a scenario names the part and says what it needs: `ports ID K`, `tables ID K`, `votes K`,
//! `address_table K POD POSITION`, `edge K`, `members` or `flows`. What can be said to a part stands in the file of its name. A line
//! that begins with `#` is printed as it is, and with `new` another scenario begins.
#![tactic(auto)]

mod acts;
mod address_table;
mod edge;
mod flows;
mod members;
mod numbers;
mod pmacs;
mod ports;
mod tables;
mod votes;

use crate::address_table::play_address_table;
use crate::edge::play_edge;
use crate::flows::play_flows;
use crate::members::play_members;
use crate::ports::play_ports;
use crate::tables::play_tables;
use crate::votes::play_votes;
use pl_frame::Memory;
use pl_test_words::{Player, first_word, play_each, say};
use std::alloc::Global;
use std::io;

fn main(rt: HostRuntime) -> io::Result<()> {
    let mut input = String::new(rt.alloc());
    for line in rt.lines(rt.alloc()) {
        input.push_str(line?.as_str())?;
        input.push_str("\n")?;
    }
    let mut out = String::new(rt.alloc());
    play_each(&Parts, rt.alloc(), input.as_str(), &mut out)?;
    print!(rt; "{out}")
}

#[derive(Drop)]
struct Parts;

impl Player for Parts {
    fn play(&self, alloc: Global, scenario: &[&str], out: &mut String) -> Result<(), Memory> {
        match scenario.split_first() {
            Some((first, rest)) => play_scenario(alloc, first, rest, out),
            None => Ok(()),
        }
    }
}

fn play_scenario(
    alloc: Global,
    first: &str,
    lines: &[&str],
    out: &mut String,
) -> Result<(), Memory> {
    let (part, words) = first_word(first);
    match part {
        "ports" => play_ports(alloc, words, lines, out),
        "tables" => play_tables(alloc, words, lines, out),
        "votes" => play_votes(alloc, words, lines, out),
        "addresses" => play_address_table(alloc, words, lines, out),
        "edge" => play_edge(alloc, words, lines, out),
        "members" => play_members(alloc, lines, out),
        "flows" => play_flows(alloc, lines, out),
        _ => say(out, "not understood"),
    }
}
