//! `tables ID K`: a switch that keeps prefix tables. `receive PORT FRAME`; `avoid ID:POD.POSITION ..`, or `avoid nothing`: the
//! avoid list that the fabric manager says; `hello N`: it begins anew, and what it is told is printed; `tick`. `epoch`;
//! `up`; `avoided`, `down`: their rows, each by its index; `avoided KEY`, `down KEY`: the ports of a key.
use crate::acts::say_acts;
use crate::members::say_ports;
use crate::numbers::switch;
use pl_frame::SwitchId;
use pl_lists::Queue;
use pl_node::{AvoidList, Memory, Outbox, SwitchFacts, SwitchLogic, ToSwitch};
use pl_tables::{PortRow, PortRows, TableSwitch};
use pl_test_words::{byte, first_word, frame, id, is_remark, number, say};
use std::alloc::Global;

pub(crate) fn play_tables(
    alloc: Global,
    words: &str,
    lines: &[&str],
    out: &mut String,
) -> Result<(), Memory> {
    let Some((id, k)) = switch(words) else {
        return say(out, "not understood");
    };
    let mut device = TableSwitch::boot(alloc, id, k)?;
    play_all(&mut device, alloc, lines, out)
}

fn play_all(
    device: &mut TableSwitch,
    alloc: Global,
    lines: &[&str],
    out: &mut String,
) -> Result<(), Memory> {
    for line in lines {
        play(device, alloc, line, out)?;
    }
    Ok(())
}

fn play(
    device: &mut TableSwitch,
    alloc: Global,
    line: &str,
    out: &mut String,
) -> Result<(), Memory> {
    if is_remark(line) {
        return say(out, line);
    }
    let (verb, rest) = first_word(line);
    match verb {
        "receive" => receive(device, alloc, rest, out),
        "avoid" => avoid(device, alloc, rest, out),
        "hello" => hello(device, alloc, rest, out),
        "tick" => tick(device, alloc),
        "epoch" => say_epoch(device, alloc, out),
        "up" => say_ports(device.tables().up, alloc, out),
        "avoided" => say_rows(&device.tables().avoided, alloc, rest, out),
        "down" => say_rows(&device.tables().down, alloc, rest, out),
        _ => say(out, "not understood"),
    }
}

// PORT FRAME
fn receive(
    device: &mut TableSwitch,
    alloc: Global,
    rest: &str,
    out: &mut String,
) -> Result<(), Memory> {
    let (port, digits) = first_word(rest);
    match (byte(port), frame(alloc, digits)?) {
        (Some(port), Some(frame))
            if port < device.k() && frame.len() >= 14 && frame.len() <= 65_553 => {
            let mut done: Outbox = Queue::new(alloc);
            device.receive(port, &frame, &mut done)
        }
        _ => say(out, "not understood"),
    }
}

// ID:POD.POSITION .., or nothing
fn avoid(
    device: &mut TableSwitch,
    alloc: Global,
    rest: &str,
    out: &mut String,
) -> Result<(), Memory> {
    match avoid_list(alloc, rest)? {
        Some(list) => {
            let mut done: Outbox = Queue::new(alloc);
            device.manager_says(&ToSwitch::Avoid(list), &mut done)
        }
        None => say(out, "not understood"),
    }
}

fn avoid_list(alloc: Global, text: &str) -> Result<Option<AvoidList>, Memory> {
    let mut list = AvoidList::new(alloc);
    if text == "nothing" {
        return Ok(Some(list));
    }
    for word in text.split(' ') {
        let Some(entry) = entry(word) else {
            return Ok(None);
        };
        list.insert(entry)?;
    }
    Ok(Some(list))
}

// ID:POD.POSITION
fn entry(text: &str) -> Option<(SwitchId, u16, u8)> {
    let (neighbour, address) = text.split_once(':')?;
    let (pod, position) = address.split_once('.')?;
    let neighbour = id(neighbour)?;
    let pod = pod.parse::<u16>().ok()?;
    let position = byte(position)?;
    Some((neighbour, pod, position))
}

// N
fn hello(
    device: &mut TableSwitch,
    alloc: Global,
    rest: &str,
    out: &mut String,
) -> Result<(), Memory> {
    match number(rest) {
        Some(epoch) => {
            let mut done: Outbox = Queue::new(alloc);
            device.manager_says(&ToSwitch::Hello(epoch), &mut done)?;
            say_acts(alloc, &mut done, out)
        }
        None => say(out, "not understood"),
    }
}

fn say_epoch(device: &TableSwitch, alloc: Global, out: &mut String) -> Result<(), Memory> {
    let epoch = device.epoch();
    let line = format!(in alloc; "{epoch}")?;
    say(out, line.as_str())
}

fn tick(device: &mut TableSwitch, alloc: Global) -> Result<(), Memory> {
    let mut done: Outbox = Queue::new(alloc);
    device.tick(&mut done)
}

// All rows, or the ports of KEY
fn say_rows(rows: &PortRows, alloc: Global, rest: &str, out: &mut String) -> Result<(), Memory> {
    if rest.is_empty() {
        return say_all(rows, alloc, out);
    }
    match number(rest) {
        Some(key) => say_ports(rows.ports(key), alloc, out),
        None => say(out, "not understood"),
    }
}

// How many rows there are, and each of them up to the index that has none.
fn say_all(rows: &PortRows, alloc: Global, out: &mut String) -> Result<(), Memory> {
    let len = rows.len();
    let line = format!(in alloc; "{len} rows")?;
    say(out, line.as_str())?;
    for n in 0..usize::MAX {
        let Some(row) = rows.get(n) else {
            break;
        };
        say_row(row, alloc, out)?;
    }
    Ok(())
}

fn say_row(row: &PortRow, alloc: Global, out: &mut String) -> Result<(), Memory> {
    let key = row.key;
    let word = format!(in alloc; "key {key} ")?;
    out.push_str(word.as_str())?;
    say_ports(row.ports, alloc, out)
}
