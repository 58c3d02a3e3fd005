//! `join PORT MAC GROUP`, `leave PORT MAC GROUP`, `forget PORT MAC`, `ports GROUP`, `groups`; a group is
//! its number.
use pl_frame::{Mac, Memory};
use pl_members::Members;
use pl_node::PortSet;
use pl_test_words::{byte, first_word, is_remark, number, say};
use pl_wiring::text::mac;
use std::alloc::Global;

pub(crate) fn play_members(alloc: Global, lines: &[&str], out: &mut String) -> Result<(), Memory> {
    let mut members = Members::new(alloc);
    for line in lines {
        play(&mut members, alloc, line, out)?;
    }
    Ok(())
}

fn play(members: &mut Members, alloc: Global, line: &str, out: &mut String) -> Result<(), Memory> {
    if is_remark(line) {
        return say(out, line);
    }
    let (verb, rest) = first_word(line);
    match verb {
        "join" => join(members, rest, out),
        "leave" => leave(members, rest, out),
        "forget" => forget(members, rest, out),
        "ports" => say_ports_for(members, alloc, rest, out),
        "groups" => say_groups(members, alloc, out),
        _ => say(out, "not understood"),
    }
}

fn join(members: &mut Members, rest: &str, out: &mut String) -> Result<(), Memory> {
    let (host, group) = host(rest);
    match (host, number(group)) {
        (Some((port, amac)), Some(group)) if port < 24 => members.join(port, amac, group),
        _ => say(out, "not understood"),
    }
}

fn leave(members: &mut Members, rest: &str, out: &mut String) -> Result<(), Memory> {
    let (host, group) = host(rest);
    match (host, number(group)) {
        (Some((port, amac)), Some(group)) if port < 24 => {
            members.leave(port, amac, group);
            Ok(())
        }
        _ => say(out, "not understood"),
    }
}

fn forget(members: &mut Members, rest: &str, out: &mut String) -> Result<(), Memory> {
    match host(rest).0 {
        Some((port, amac)) => {
            members.forget(port, amac);
            Ok(())
        }
        None => say(out, "not understood"),
    }
}

// PORT MAC, and what stands behind them.
fn host(text: &str) -> (Option<(u8, Mac)>, &str) {
    let (port, rest) = first_word(text);
    let (amac, rest) = first_word(rest);
    match (byte(port), mac(amac)) {
        (Some(port), Some(amac)) => (Some((port, amac)), rest),
        _ => (None, rest),
    }
}

// GROUP
fn say_ports_for(
    members: &Members,
    alloc: Global,
    rest: &str,
    out: &mut String,
) -> Result<(), Memory> {
    match number(rest) {
        Some(group) => say_ports(members.ports_for(group), alloc, out),
        None => say(out, "not understood"),
    }
}

/// Prints the ports of a set, rising, in one line.
pub(crate) fn say_ports(ports: PortSet, alloc: Global, out: &mut String) -> Result<(), Memory> {
    out.push_str("ports")?;
    for n in 0..ports.len() {
        if let Some(port) = ports.nth(n) {
            let word = format!(in alloc; " {port}")?;
            out.push_str(word.as_str())?;
        }
    }
    out.push_str("\n")
}

// The groups that have members, rising.
fn say_groups(members: &Members, alloc: Global, out: &mut String) -> Result<(), Memory> {
    out.push_str("groups")?;
    for n in 0..usize::MAX {
        let Some(group) = members.nth_group(n) else {
            break;
        };
        let word = format!(in alloc; " {group}")?;
        out.push_str(word.as_str())?;
    }
    out.push_str("\n")
}
