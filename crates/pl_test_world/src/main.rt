//! Plays a scenario, which comes on standard input, through a part of the fabric: each line is one call
//! of the part, or one event, and what the part answers is printed, a line each.
//!
//! A scenario begins with what the part needs (`gathered.rt`): `known MAC IP` for each host of the
//! topology and then `host MAC IP`, or the lines of a topology between `topology` and `end` and then
//! `world SWITCHES STEPS ENTRIES BYTES`, `wiring`, `manager` or `script`. What can be said to a host stands in
//! `host.rt`, to a world in `fabric.rt`, `event.rt`, `looks.rt` and `settling.rt`, to a wiring in `topology.rt`, to the
//! manager in `manager.rt`, to a script in `script.rt`. A frame is written in hexadecimal, and `+N` behind it stands for N more bytes of
//! zero. A line that begins with `#` is printed as it is, and with `new` another scenario begins.
#![tactic(auto)]

mod entries;
mod event;
mod fabric;
mod gathered;
mod host;
mod looks;
mod manager;
mod script;
mod settling;
mod topology;

use crate::gathered::play_scenario;
use pl_frame::Memory;
use pl_test_words::{Player, play_each};
use std::alloc::Global;
use std::io;

fn main(rt: HostRuntime) -> io::Result<()> {
    let mut input = String::new(rt.alloc());
    for line in rt.lines(rt.alloc()) {
        input.push_str(line?.as_str())?;
        input.push_str("\n")?;
    }
    let mut out = String::new(rt.alloc());
    play_each(&Parts, rt.alloc(), input.as_str(), &mut out)?;
    print!(rt; "{out}")
}

#[derive(Drop)]
struct Parts;

impl Player for Parts {
    fn play(&self, alloc: Global, scenario: &[&str], out: &mut String) -> Result<(), Memory> {
        play_scenario(alloc, scenario, out)
    }
}
