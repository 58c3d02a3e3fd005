//! `gatherer SWITCHES`: of a tree of so many switches. `restart N`; `begin SWITCH N`, `end SWITCH N`; `tell SWITCH GROUP`: a
//! word, that the switch has members of a group; `take`: what is kept is handed out; `state`. A switch is its id.
use pl_frame::{Memory, SwitchId};
use pl_gatherer::Gatherer;
use pl_node::ToManager;
use pl_test_words::{first_word, id, is_remark, number, say};
use std::alloc::Global;

pub(crate) fn play_gatherer(
    alloc: Global,
    words: &str,
    lines: &[&str],
    out: &mut String,
) -> Result<(), Memory> {
    let Ok(many) = words.parse::<usize>() else {
        return say(out, "not understood");
    };
    let mut gatherer = Gatherer::new(alloc, many);
    for line in lines {
        play(&mut gatherer, alloc, line, out)?;
    }
    Ok(())
}

fn play(
    gatherer: &mut Gatherer,
    alloc: Global,
    line: &str,
    out: &mut String,
) -> Result<(), Memory> {
    if is_remark(line) {
        return say(out, line);
    }
    let (verb, rest) = first_word(line);
    match (verb, switch_and_number(rest)) {
        ("begin", Some((switch, epoch))) => gatherer.begin(switch, epoch),
        ("end", Some((switch, epoch))) => end(gatherer, switch, epoch, out),
        ("tell", Some((switch, group))) => tell(gatherer, switch, group, out),
        ("restart", _) => restart(gatherer, rest, out),
        ("take", _) => take(gatherer, alloc, out),
        ("state", _) => say_state(gatherer, alloc, out),
        _ => say(out, "not understood"),
    }
}

fn switch_and_number(text: &str) -> Option<(SwitchId, u32)> {
    let (switch, rest) = first_word(text);
    Some((id(switch)?, number(rest)?))
}

fn restart(gatherer: &mut Gatherer, rest: &str, out: &mut String) -> Result<(), Memory> {
    match number(rest) {
        Some(epoch) => {
            gatherer.restart(epoch);
            Ok(())
        }
        None => say(out, "not understood"),
    }
}

fn end(
    gatherer: &mut Gatherer,
    switch: SwitchId,
    epoch: u32,
    out: &mut String,
) -> Result<(), Memory> {
    if gatherer.end(switch, epoch)? {
        say(out, "ended")
    } else {
        say(out, "void")
    }
}

// A word that comes while no report is missing is treated at once.
fn tell(
    gatherer: &mut Gatherer,
    switch: SwitchId,
    group: u32,
    out: &mut String,
) -> Result<(), Memory> {
    if gatherer.is_whole() {
        return say(out, "at once");
    }
    gatherer.keep(switch, ToManager::Members { group, any: true })
}

fn take(gatherer: &mut Gatherer, alloc: Global, out: &mut String) -> Result<(), Memory> {
    for kept in &gatherer.take_kept() {
        let line = format!(in alloc; "{kept:?}")?;
        say(out, line.as_str())?;
    }
    Ok(())
}

fn say_state(gatherer: &Gatherer, alloc: Global, out: &mut String) -> Result<(), Memory> {
    let epoch = gatherer.epoch();
    let reported = gatherer.reported();
    let line = format!(in alloc; "epoch {epoch}, reports {reported}")?;
    say(out, line.as_str())?;
    say(
        out,
        if gatherer.is_whole() {
            "whole"
        } else {
            "missing"
        },
    )
}
