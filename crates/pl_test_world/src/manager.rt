//! `manager`: the fabric manager of the topology alone. A switch is its label.
//!
//! - `restart N`: it begins anew. `begin SWITCH N`, `end SWITCH N`: a report.
//! - `place SWITCH LEVEL POSITION POD`, `-` for what is unknown; `link SWITCH NEIGHBOUR up|down`, the neighbour by its id; `wish SWITCH`;
//!   `learn SWITCH PMAC MAC [IP]`; `aged SWITCH PMAC NUMBER`; `trapped SWITCH OLD NEW NUMBER`; `members SWITCH GROUP`;
//!   `ask SWITCH PMAC IP IP`.
//! - `state`: how often it began anew, and how many reports have ended.
ghost use Rattle.std.specs.Prelude.{◌<◌, ◌+◌, IfOk, IfSome, OnOk};
ghost use Rattle.pl_wiring.specs.Labels.{switch_count};
ghost use Rattle.pl_world.specs.Hearing.{HeardWithin};

use pl_frame::{Memory, SwitchId};
use pl_manager::Manager;
use pl_node::{ManagerAct, ManagerLogic, ManagerOutbox, Place, ToManager, ToSwitch};
use pl_pmac::pack;
use pl_test_words::{byte, first_word, id, is_remark, number, pmac, say};
use pl_wiring::text::{ip, mac};
use pl_wiring::{Label, SwitchNo, Wiring};
use std::alloc::Global;

// So many words it hears at most.
const MOST_WORDS: u64 = 4_000_000_000;

/// Reads a topology, and plays the lines of its manager; where there is none, false.
pub(crate) fn play_manager(
    alloc: Global,
    topology: &str,
    lines: &[&str],
    out: &mut String,
) -> Result<bool, Memory> {
    match pl_topology::read(alloc, topology.as_bytes()) {
        Ok(wiring) => {
            play_on::<Manager>(alloc, &wiring, lines, out)?;
            Ok(true)
        }
        Err(_) => {
            say(out, "not understood")?;
            Ok(false)
        }
    }
}

fn play_on<M: ManagerLogic>(
    alloc: Global,
    wiring: &Wiring,
    lines: &[&str],
    out: &mut String,
) -> Result<(), Memory> {
    let k = wiring.k();
    let mut manager: M = M::boot(alloc, k)?;
    let mut heard = 0;
    for line in lines {
        heard = play(&mut manager, alloc, wiring, heard, line, out)?;
    }
    Ok(())
}

// Plays a line, behind so many words. The answer is how many were heard then.
fn play<M: ManagerLogic>(
    manager: &mut M,
    alloc: Global,
    wiring: &Wiring,
    heard: u64,
    line: &str,
    out: &mut String,
) -> Result<u64, Memory>
    requires { HeardWithin wiring.now (M.view manager.old) heard }
    ensures { IfOk result (λ then. HeardWithin wiring.now (M.view manager.new) then) }
{
    if is_remark(line) {
        say(out, line)?;
        return Ok(heard);
    }
    let (verb, rest) = first_word(line);
    match verb {
        "restart" => {
            manager.restart(alloc, number(rest).unwrap_or(0))?;
            Ok(heard)
        }
        "state" => {
            say_state(manager, alloc, out)?;
            Ok(heard)
        }
        _ => tell(manager, alloc, wiring, heard, verb, rest, out),
    }
}

fn say_state<M: ManagerLogic>(manager: &M, alloc: Global, out: &mut String) -> Result<(), Memory> {
    let epoch = manager.epoch();
    let reported = manager.reported();
    let line = format!(in alloc; "epoch {epoch}, reports {reported}")?;
    say(out, line.as_str())
}

fn tell<M: ManagerLogic>(
    manager: &mut M,
    alloc: Global,
    wiring: &Wiring,
    heard: u64,
    verb: &str,
    rest: &str,
    out: &mut String,
) -> Result<u64, Memory>
    requires { HeardWithin wiring.now (M.view manager.old) heard }
    ensures { IfOk result (λ then. HeardWithin wiring.now (M.view manager.new) then) }
{
    let (switch, words) = first_word(rest);
    match (switch_of(wiring, switch), word_of(verb, words)) {
        (Some(switch), Some(word)) if heard < MOST_WORDS => {
            let mut done = ManagerOutbox::new(alloc);
            hear(manager, wiring, heard, switch, &word, &mut done)?;
            say_acts(alloc, &mut done, out)?;
            Ok(heard + 1)
        }
        _ => {
            say(out, "not understood")?;
            Ok(heard)
        }
    }
}

fn switch_of(wiring: &Wiring, text: &str) -> Option<SwitchNo>
    ensures { IfSome result (λ switch. switch.0 < switch_count wiring.now.k) }
{
    wiring.switch_of(Label::read(text)?)
}

fn hear<M: ManagerLogic>(
    manager: &mut M,
    wiring: &Wiring,
    heard: u64,
    switch: SwitchNo,
    word: &ToManager,
    done: &mut ManagerOutbox,
) -> Result<(), Memory>
    requires there { switch.0 < switch_count wiring.now.k }
    requires within { HeardWithin wiring.now (M.view manager.old) heard }
    requires few { heard < 4000000000 }
    ensures { OnOk result (HeardWithin wiring.now (M.view manager.new) (heard + 1)) }
{
    let _k = wiring.k();
    manager.hears(wiring.id(switch), word, done)
}

// What a switch tells, behind its label.
fn word_of(verb: &str, words: &str) -> Option<ToManager> {
    let (first, rest) = first_word(words);
    let (second, rest) = first_word(rest);
    let (third, _) = first_word(rest);
    match verb {
        "begin" => Some(ToManager::Begin(number(first)?)),
        "end" => Some(ToManager::End(number(first)?)),
        "place" => Some(ToManager::Place(Place {
            level: byte(first),
            position: byte(second),
            pod: third.parse::<u16>().ok(),
        })),
        "link" => Some(ToManager::Link {
            neighbour: id(first)?,
            usable: second == "up",
        }),
        "wish" => Some(ToManager::PodWanted),
        "members" => Some(ToManager::Members {
            group: number(first)?,
            any: true,
        }),
        _ => address_word(verb, first, second, third),
    }
}

// One that is of addresses.
fn address_word(verb: &str, first: &str, second: &str, third: &str) -> Option<ToManager> {
    let address = pmac(first)?;
    match verb {
        "learn" => Some(ToManager::Learned {
            pmac: address,
            amac: mac(second)?,
            ip: ip(third),
        }),
        "aged" => Some(ToManager::Aged {
            pmac: address,
            number: second.parse::<u64>().ok()?,
        }),
        "trapped" => Some(ToManager::Trapped {
            old: address,
            new: pmac(second)?,
            number: third.parse::<u64>().ok()?,
        }),
        "ask" => Some(ToManager::Query {
            asker: address,
            asker_ip: ip(second)?,
            ip: ip(third)?,
        }),
        _ => None,
    }
}

fn say_acts(alloc: Global, done: &mut ManagerOutbox, out: &mut String) -> Result<(), Memory> {
    for _ in 0..done.len() {
        if let Some(act) = done.take_first() {
            say_act(alloc, &act, out)?;
        }
    }
    Ok(())
}

fn say_act(alloc: Global, act: &ManagerAct, out: &mut String) -> Result<(), Memory> {
    match act {
        ManagerAct::Number(pmac, number) => {
            let pmac = pack(*pmac);
            let line = format!(in alloc; "number {pmac} {number}")?;
            say(out, line.as_str())
        }
        ManagerAct::Say(SwitchId(to), says) => {
            let line = order(alloc, *to, says)?;
            say(out, line.as_str())
        }
    }
}

fn order(alloc: Global, to: u64, says: &ToSwitch) -> Result<String, Memory> {
    match says {
        ToSwitch::Pod(pod) => format!(in alloc; "{to} pod {pod}"),
        ToSwitch::Answer { pmac, .. } => {
            let pmac = pack(*pmac);
            format!(in alloc; "{to} answer {pmac}")
        }
        ToSwitch::Flood { .. } => format!(in alloc; "{to} flood"),
        ToSwitch::Avoid(_) => format!(in alloc; "{to} avoid"),
        ToSwitch::Invalidate {
            old,
            new,
            number,
            ..
        } => {
            let old = pack(*old);
            let new = pack(*new);
            format!(in alloc; "{to} invalidate {old} {new} {number}")
        }
        ToSwitch::Release(pmac) => {
            let pmac = pack(*pmac);
            format!(in alloc; "{to} release {pmac}")
        }
        ToSwitch::Hello(epoch) => format!(in alloc; "{to} hello {epoch}"),
        ToSwitch::Tree { group, .. } => format!(in alloc; "{to} tree {group}"),
    }
}
