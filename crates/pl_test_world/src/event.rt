use pl_frame::{Frame, Memory};
use pl_test_words::{first_word, frame, group};
use pl_wiring::{HostNo, SwitchNo, Wiring};
use pl_world::{Event, QueueName};
use std::alloc::Global;

/// The event that a line asks for; none where it asks for none.
pub(crate) fn event(alloc: Global, wiring: &Wiring, line: &str) -> Result<Option<Event>, Memory> {
    let (verb, rest) = first_word(line);
    match verb {
        "play" => play(alloc, wiring, false, rest),
        "raw" => play(alloc, wiring, true, rest),
        _ => Ok(at_host(wiring, verb, rest)),
    }
}

fn at_host(wiring: &Wiring, verb: &str, rest: &str) -> Option<Event> {
    match verb {
        "start" => start(wiring, rest),
        "retry" => retry(wiring, rest),
        "join" => join(wiring, rest),
        "leave" => leave(wiring, rest),
        "move" => move_host(wiring, rest),
        _ => in_fabric(wiring, verb, rest),
    }
}

fn in_fabric(wiring: &Wiring, verb: &str, rest: &str) -> Option<Event> {
    match verb {
        "tick" => tick(wiring, rest),
        "fail" => fail(wiring, rest),
        "repair" => repair(wiring, rest),
        "lose" => lose(wiring, rest),
        "deliver" => deliver(wiring, rest),
        "restart" => Some(Event::Restart),
        _ => None,
    }
}

// HOST
fn start(wiring: &Wiring, rest: &str) -> Option<Event> {
    let host = host(wiring, rest)?;
    Some(Event::Start(host))
}

// HOST
fn retry(wiring: &Wiring, rest: &str) -> Option<Event> {
    let host = host(wiring, rest)?;
    Some(Event::Retry(host))
}

// SWITCH
fn tick(wiring: &Wiring, rest: &str) -> Option<Event> {
    let s = switch(wiring, rest)?;
    Some(Event::Tick(s))
}

// QUEUE
fn deliver(wiring: &Wiring, rest: &str) -> Option<Event> {
    let name = queue(wiring, rest)?;
    Some(Event::Deliver(name))
}

// HOST ORIGINAL FRAME
fn play(alloc: Global, wiring: &Wiring, raw: bool, rest: &str) -> Result<Option<Event>, Memory> {
    let (name, rest) = first_word(rest);
    let (original, digits) = first_word(rest);
    let Some(host) = host(wiring, name) else {
        return Ok(None);
    };
    let Ok(original) = original.parse::<u32>() else {
        return Ok(None);
    };
    let Some(bytes) = frame(alloc, digits)? else {
        return Ok(None);
    };
    let frame = Frame::copy(alloc, &bytes)?;
    Ok(Some(Event::Play {
        host,
        frame,
        original,
        raw,
    }))
}

// HOST GROUP
fn join(wiring: &Wiring, rest: &str) -> Option<Event> {
    let (name, address) = first_word(rest);
    let host = host(wiring, name)?;
    let to = group(address)?;
    Some(Event::Join(host, to))
}

// HOST GROUP
fn leave(wiring: &Wiring, rest: &str) -> Option<Event> {
    let (name, address) = first_word(rest);
    let host = host(wiring, name)?;
    let to = group(address)?;
    Some(Event::Leave(host, to))
}

// HOST SWITCH PORT
fn move_host(wiring: &Wiring, rest: &str) -> Option<Event> {
    let (name, rest) = first_word(rest);
    let (edge, port) = first_word(rest);
    let host = host(wiring, name)?;
    let edge = switch(wiring, edge)?;
    let port = port.parse::<u8>().ok()?;
    Some(Event::Move(host, edge, port))
}

// SWITCH SWITCH
fn fail(wiring: &Wiring, rest: &str) -> Option<Event> {
    let (a, b) = first_word(rest);
    let a = switch(wiring, a)?;
    let b = switch(wiring, b)?;
    Some(Event::Fail(a, b))
}

// SWITCH SWITCH
fn repair(wiring: &Wiring, rest: &str) -> Option<Event> {
    let (a, b) = first_word(rest);
    let a = switch(wiring, a)?;
    let b = switch(wiring, b)?;
    Some(Event::Repair(a, b))
}

// SWITCH PORT
fn lose(wiring: &Wiring, rest: &str) -> Option<Event> {
    let (s, port) = first_word(rest);
    let s = switch(wiring, s)?;
    let port = port.parse::<u8>().ok()?;
    Some(Event::Lose(s, port))
}

/// A queue: `HOST`, `SWITCH PORT`, `SWITCH manager` or `manager SWITCH`.
pub(crate) fn queue(wiring: &Wiring, rest: &str) -> Option<QueueName> {
    let (first, second) = first_word(rest);
    if first == "manager" {
        return Some(QueueName::FromManager(switch(wiring, second)?));
    }
    if second == "manager" {
        return Some(QueueName::ToManager(switch(wiring, first)?));
    }
    if second.is_empty() {
        return Some(QueueName::FromHost(host(wiring, first)?));
    }
    let s = switch(wiring, first)?;
    let port = second.parse::<u8>().ok()?;
    Some(QueueName::Port(s, port))
}

/// A host by its name, or by its number behind `#`, be there one or not.
pub(crate) fn host(wiring: &Wiring, name: &str) -> Option<HostNo> {
    match name.strip_prefix('#') {
        Some(number) => Some(HostNo(number.parse::<u32>().ok()?)),
        None => wiring.host_named(name),
    }
}

/// A switch by its label, or by its number behind `#`, be there one or not.
pub(crate) fn switch(wiring: &Wiring, label: &str) -> Option<SwitchNo> {
    match label.strip_prefix('#') {
        Some(number) => Some(SwitchNo(number.parse::<u32>().ok()?)),
        None => wiring.switch_named(label),
    }
}
