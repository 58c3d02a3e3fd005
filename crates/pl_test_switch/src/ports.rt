//! `heard PORT MESSAGE`, `host PORT`, `tick`, `level`, `place`, `record PORT`; a message is the payload of a
//! control frame, in hexadecimal.
use crate::numbers::switch;
use pl_frame::Memory;
use pl_layouts::Control;
use pl_ldp::read_control;
use pl_ports::Ports;
use pl_test_words::{byte, first_word, frame, is_remark, say};
use std::alloc::Global;

pub(crate) fn play_ports(
    alloc: Global,
    words: &str,
    lines: &[&str],
    out: &mut String,
) -> Result<(), Memory> {
    let Some((id, k)) = switch(words) else {
        return say(out, "not understood");
    };
    let mut ports = Ports::new(id, k);
    for line in lines {
        play(&mut ports, alloc, line, out)?;
    }
    Ok(())
}

fn play(ports: &mut Ports, alloc: Global, line: &str, out: &mut String) -> Result<(), Memory> {
    if is_remark(line) {
        return say(out, line);
    }
    let (verb, rest) = first_word(line);
    match verb {
        "heard" => heard(ports, alloc, rest, out),
        "host" => host(ports, rest, out),
        "tick" => tick(ports, alloc, out),
        "level" => say_level(ports, alloc, out),
        "place" => say_place(ports, alloc, out),
        "record" => say_record(ports, alloc, rest, out),
        _ => say(out, "not understood"),
    }
}

// PORT MESSAGE: the record is replaced, and then come the level and the pod.
fn heard(ports: &mut Ports, alloc: Global, rest: &str, out: &mut String) -> Result<(), Memory> {
    let (port, digits) = first_word(rest);
    let (Some(port), Some(message)) = (byte(port), frame(alloc, digits)?) else {
        return say(out, "not understood");
    };
    if port >= ports.k() {
        return say(out, "no such port");
    }
    match read_control(&message) {
        Ok(Control::Ldm(from, ldm)) => {
            let changes = ports.heard(port, from, &ldm);
            ports.learn(ldm.place);
            say_whether(changes, "its use changes", "its use stays", out)
        }
        _ => say(out, "no such message"),
    }
}

fn say_whether(is: bool, yes: &str, no: &str, out: &mut String) -> Result<(), Memory> {
    if is { say(out, yes) } else { say(out, no) }
}

// PORT: a frame of a host comes.
fn host(ports: &mut Ports, rest: &str, out: &mut String) -> Result<(), Memory> {
    let Some(port) = byte(rest) else {
        return say(out, "not understood");
    };
    if port >= ports.k() {
        return say(out, "no such port");
    }
    let becomes = ports.host_frame(port);
    say_whether(becomes, "it becomes a host port", "it stays", out)
}

fn tick(ports: &mut Ports, alloc: Global, out: &mut String) -> Result<(), Memory> {
    let ceased = ports.tick();
    let count = ceased.len();
    let line = format!(in alloc; "{count} ceased")?;
    say(out, line.as_str())
}

fn say_level(ports: &Ports, alloc: Global, out: &mut String) -> Result<(), Memory> {
    let level = ports.level_of();
    let line = format!(in alloc; "{level:?}")?;
    say(out, line.as_str())
}

fn say_place(ports: &Ports, alloc: Global, out: &mut String) -> Result<(), Memory> {
    let place = ports.place();
    let line = format!(in alloc; "{place:?}")?;
    say(out, line.as_str())
}

// PORT
fn say_record(ports: &Ports, alloc: Global, rest: &str, out: &mut String) -> Result<(), Memory> {
    let Some(port) = byte(rest) else {
        return say(out, "not understood");
    };
    if port >= ports.k() {
        return say(out, "no such port");
    }
    let record = ports.record(port);
    let line = format!(in alloc; "{record:?}")?;
    say(out, line.as_str())
}
