//! `hash FRAME`, `bytes BYTES`, `choose HASH PORT..`; frames and bytes are in hexadecimal.
use pl_flow::{flow_hash, fnv1a};
use pl_forward::choose;
use pl_frame::{Memory, view};
use pl_node::PortSet;
use pl_test_words::{byte, first_word, frame, is_remark, number, say};
use std::alloc::Global;

pub(crate) fn play_flows(alloc: Global, lines: &[&str], out: &mut String) -> Result<(), Memory> {
    for line in lines {
        play(alloc, line, out)?;
    }
    Ok(())
}

fn play(alloc: Global, line: &str, out: &mut String) -> Result<(), Memory> {
    if is_remark(line) {
        return say(out, line);
    }
    let (verb, rest) = first_word(line);
    match verb {
        "hash" => say_hash(alloc, rest, out),
        "bytes" => say_bytes(alloc, rest, out),
        "choose" => say_chosen(alloc, rest, out),
        _ => say(out, "not understood"),
    }
}

// FRAME
fn say_hash(alloc: Global, rest: &str, out: &mut String) -> Result<(), Memory> {
    let Some(frame) = frame(alloc, rest)? else {
        return say(out, "not understood");
    };
    if frame.len() < 14 {
        return say(out, "no frame");
    }
    let hash = flow_hash(&frame);
    let line = format!(in alloc; "{hash:08x}")?;
    say(out, line.as_str())
}

// BYTES
fn say_bytes(alloc: Global, rest: &str, out: &mut String) -> Result<(), Memory> {
    let Some(bytes) = frame(alloc, rest)? else {
        return say(out, "not understood");
    };
    let hash = fnv1a(&bytes);
    let line = format!(in alloc; "{hash:08x}")?;
    say(out, line.as_str())
}

// HASH PORT..
fn say_chosen(alloc: Global, rest: &str, out: &mut String) -> Result<(), Memory> {
    let (hash, rest) = first_word(rest);
    let (Some(hash), Some(ports)) = (number(hash), ports(rest)) else {
        return say(out, "not understood");
    };
    let chosen = choose(ports, hash);
    let line = format!(in alloc; "{chosen:?}")?;
    say(out, line.as_str())
}

fn ports(text: &str) -> Option<PortSet> {
    let mut ports = PortSet::empty();
    for word in text.split(' ') {
        let port = byte(word)?;
        if port >= 24 {
            return None;
        }
        ports.insert(port);
    }
    Some(ports)
}
