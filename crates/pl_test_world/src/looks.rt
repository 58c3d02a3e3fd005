use crate::event::{host, queue, switch};
use pl_frame::Memory;
use pl_host::Host;
use pl_node::{ManagerLogic, SwitchLogic};
use pl_schedule::World;
use pl_test_words::say;
use pl_wiring::HostNo;
use std::alloc::Global;

/// What a world shows of itself, by a verb.
pub(crate) fn look<S: SwitchLogic, M: ManagerLogic>(
    world: &World<S, M, Host>,
    alloc: Global,
    verb: &str,
    rest: &str,
    said: &mut String,
) -> Result<(), Memory> {
    match verb {
        "pending" => say_number(alloc, "pending", world.pending(), said),
        "steps" => say_number(alloc, "steps", world.steps(), said),
        "heard" => heard(world, alloc, rest, said),
        "len" => len(world, alloc, rest, said),
        "usable" => usable(world, alloc, rest, said),
        _ => next(world, alloc, rest, said),
    }
}

fn say_number(alloc: Global, word: &str, n: u64, said: &mut String) -> Result<(), Memory> {
    let line = format!(in alloc; "{word} {n}")?;
    say(said, line.as_str())
}

// HOST
fn heard<S: SwitchLogic, M: ManagerLogic>(
    world: &World<S, M, Host>,
    alloc: Global,
    rest: &str,
    said: &mut String,
) -> Result<(), Memory> {
    match host(world.wiring(), rest) {
        Some(h) => heard_from(world, alloc, h, said),
        None => say(said, "not understood"),
    }
}

fn heard_from<S: SwitchLogic, M: ManagerLogic>(
    world: &World<S, M, Host>,
    alloc: Global,
    h: HostNo,
    said: &mut String,
) -> Result<(), Memory> {
    if h.0 >= world.wiring().host_count() {
        return say(said, "not understood");
    }
    match world.heard(h) {
        None => say(said, "not heard"),
        Some(ticks) => say_number(alloc, "heard", ticks as u64, said),
    }
}

// QUEUE
fn len<S: SwitchLogic, M: ManagerLogic>(
    world: &World<S, M, Host>,
    alloc: Global,
    rest: &str,
    said: &mut String,
) -> Result<(), Memory> {
    let Some(name) = queue(world.wiring(), rest) else {
        return say(said, "not understood");
    };
    match world.queue_len(name) {
        Some(len) => say_number(alloc, "waiting", len as u64, said),
        None => say(said, "no such queue"),
    }
}

// SWITCH: its usable ports, rising.
fn usable<S: SwitchLogic, M: ManagerLogic>(
    world: &World<S, M, Host>,
    alloc: Global,
    rest: &str,
    said: &mut String,
) -> Result<(), Memory> {
    match switch(world.wiring(), rest) {
        Some(s) if s.0 < world.wiring().switch_count() => {
            say_usable(alloc, world.switch(s), said)
        }
        _ => say(said, "not understood"),
    }
}

fn say_usable<S: SwitchLogic>(alloc: Global, device: &S, said: &mut String) -> Result<(), Memory> {
    said.push_str("usable")?;
    for port in 0..device.k() {
        if device.port(port).is_usable(device.id()) {
            let word = format!(in alloc; " {port}")?;
            said.push_str(word.as_str())?;
        }
    }
    said.push_str("\n")
}

// The first queue with items, of those from a number on.
fn next<S: SwitchLogic, M: ManagerLogic>(
    world: &World<S, M, Host>,
    alloc: Global,
    rest: &str,
    said: &mut String,
) -> Result<(), Memory> {
    match world.next_queue(rest.parse::<usize>().unwrap_or(0)) {
        Some(number) => say_number(alloc, "queue", number as u64, said),
        None => say(said, "nothing waits"),
    }
}
