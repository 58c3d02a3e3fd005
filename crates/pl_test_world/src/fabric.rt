ghost use Rattle.std.specs.Prelude.{◌≤◌, IfSome, OnOk};
ghost use Rattle.pl_world.specs.Ready.{CanStep};
ghost use Rattle.pl_world.specs.Runs.{IsMark};

use crate::entries::tell_entries;
use crate::event::event;
use crate::looks::look;
use crate::settling::play_fabric;
use pl_frame::Memory;
use pl_host::Host;
use pl_journal::Entry;
use pl_node::{ManagerLogic, SwitchLogic};
use pl_schedule::World;
use pl_stage::{Nobody, Stage};
use pl_test_words::{first_word, is_remark, say};
use pl_wiring::Wiring;
use pl_world::{Event, Limits, StepError};
use std::alloc::{AllocError, Global};

/// Boots a world of this logic, and plays its lines.
pub(crate) fn play_world<S: SwitchLogic, M: ManagerLogic>(
    alloc: Global,
    wiring: Wiring,
    limits: Limits,
    lines: &[&str],
    out: &mut String,
) -> Result<bool, Memory>
    requires { limits.steps ≤ 4000000000 }
{
    let booted: World<S, M, Host> = World::boot(alloc, wiring, limits)?;
    let mut world = Stage::new(booted, Nobody);
    play_all(&mut world, alloc, lines, out)
}

fn play_all<S: SwitchLogic, M: ManagerLogic>(
    world: &mut Stage<S, M, Host, Nobody>,
    alloc: Global,
    lines: &[&str],
    out: &mut String,
) -> Result<bool, Memory>
    requires orderly { CanStep world.old }
{
    for at in 0..lines.len() {
        play(world, alloc, lines[at], out)?;
    }
    Ok(true)
}

// Plays a line in a world: each entry of the journal that it brings about is printed, and then what it
// answers.
fn play<S: SwitchLogic, M: ManagerLogic>(
    world: &mut Stage<S, M, Host, Nobody>,
    alloc: Global,
    line: &str,
    out: &mut String,
) -> Result<(), Memory>
    requires orderly { CanStep world.old }
    ensures orderly { OnOk result (CanStep world.new) }
{
    if is_remark(line) {
        return say(out, line);
    }
    let told = world.world().journal().len();
    let mut said = String::new(alloc);
    answer(world, alloc, line, &mut said)?;
    tell_entries(world.world(), alloc, told, out)?;
    out.push_str(&said)
}

fn answer<S: SwitchLogic, M: ManagerLogic>(
    world: &mut Stage<S, M, Host, Nobody>,
    alloc: Global,
    line: &str,
    said: &mut String,
) -> Result<(), Memory>
    requires orderly { CanStep world.old }
    ensures orderly { OnOk result (CanStep world.new) }
{
    let (verb, rest) = first_word(line);
    match verb {
        "mark" => mark(world, rest, said),
        "ticks" => ticks(world, alloc, rest, said),
        "settle" | "sweep" | "random" => play_fabric(world, alloc, verb, rest, said),
        "pending" | "steps" | "heard" | "len" | "next" | "usable" => look(
            world.world(),
            alloc,
            verb,
            rest,
            said,
        ),
        _ => step(world, alloc, line, said),
    }
}

// An event, which is made or refused.
fn step<S: SwitchLogic, M: ManagerLogic>(
    world: &mut Stage<S, M, Host, Nobody>,
    alloc: Global,
    line: &str,
    said: &mut String,
) -> Result<(), Memory>
    requires orderly { CanStep world.old }
    ensures orderly { OnOk result (CanStep world.new) }
{
    match event(alloc, world.wiring(), line)? {
        Some(event) => {
            let refused = make(world, &event)?;
            say_refused(alloc, refused, said)
        }
        None => say(said, "not understood"),
    }
}

// SWITCH TIMES
fn ticks<S: SwitchLogic, M: ManagerLogic>(
    world: &mut Stage<S, M, Host, Nobody>,
    alloc: Global,
    rest: &str,
    said: &mut String,
) -> Result<(), Memory>
    requires orderly { CanStep world.old }
    ensures orderly { OnOk result (CanStep world.new) }
{
    let (switch, times) = first_word(rest);
    let line = format!(in alloc; "tick {switch}")?;
    match event(alloc, world.wiring(), line.as_str())? {
        Some(event) => {
            make_often(world, &event, times.parse::<u32>().unwrap_or(0))?;
            say(said, "done")
        }
        None => say(said, "not understood"),
    }
}

fn make_often<S: SwitchLogic, M: ManagerLogic>(
    world: &mut Stage<S, M, Host, Nobody>,
    event: &Event,
    times: u32,
) -> Result<(), Memory>
    requires orderly { CanStep world.old }
    ensures orderly { OnOk result (CanStep world.new) }
{
    for _ in 0..times {
        let _refused = make(world, event)?;
    }
    Ok(())
}

// Makes a step, or answers why it is refused.
fn make<S: SwitchLogic, M: ManagerLogic>(
    world: &mut Stage<S, M, Host, Nobody>,
    event: &Event,
) -> Result<Option<StepError>, Memory>
    requires orderly { CanStep world.old }
    ensures orderly { OnOk result (CanStep world.new) }
{
    match world.refusal(event) {
        Some(_) => Ok(world.step(event).err()),
        None => match world.step(event) {
            Ok(()) => Ok(None),
            Err(_) => Err(AllocError),
        },
    }
}

fn say_refused(alloc: Global, refused: Option<StepError>, said: &mut String) -> Result<(), Memory> {
    match refused {
        None => say(said, "done"),
        Some(error) => {
            let line = format!(in alloc; "refused: {error}")?;
            say(said, line.as_str())
        }
    }
}

// line N, settled N or unsettled N
fn mark<S: SwitchLogic, M: ManagerLogic>(
    world: &mut Stage<S, M, Host, Nobody>,
    rest: &str,
    said: &mut String,
) -> Result<(), Memory>
    requires orderly { CanStep world.old }
    ensures orderly { OnOk result (CanStep world.new) }
{
    match marking(rest) {
        Some(entry) => {
            world.mark(entry)?;
            say(said, "done")
        }
        None => say(said, "not understood"),
    }
}

fn marking(rest: &str) -> Option<Entry>
    ensures { IfSome result IsMark }
{
    let (kind, number) = first_word(rest);
    let n = number.parse::<u32>().ok()?;
    match kind {
        "line" => Some(Entry::Line(n)),
        "settled" => Some(Entry::Settled(n)),
        "unsettled" => Some(Entry::Unsettled(n as u64)),
        _ => None,
    }
}
