ghost use Rattle.std.specs.Prelude.{◌≤◌, IfSome};

use crate::fabric::play_world;
use crate::host::play_host;
use crate::manager::play_manager;
use crate::script::play_script;
use crate::topology::play_wiring;
use pl_arp::Me;
use pl_frame::Memory;
use pl_lists::Items;
use pl_manager::Manager;
use pl_node::HostTable;
use pl_switch::ReferenceSwitch;
use pl_tables::TableSwitch;
use pl_test_sample::{NextPort, PodAsker, PodGiver, Silent, TwoPorts};
use pl_test_words::{first_word, is_remark, say};
use pl_wiring::Wiring;
use pl_wiring::text::{ip, mac};
use pl_world::Limits;
use std::alloc::Global;

// So many steps a world makes at most.
const MOST_STEPS: u64 = 4_000_000_000;

/// Plays a scenario: its first lines say what a part needs, and one of them begins the part, which the
/// others are for.
pub(crate) fn play_scenario(alloc: Global, lines: &[&str], out: &mut String) -> Result<(), Memory> {
    let mut gathered = Gathered::new(alloc);
    for at in 0..lines.len() {
        if gathered.play(alloc, lines[at], &lines[at + 1..], out)? {
            return Ok(());
        }
    }
    Ok(())
}

/// What the first lines of a scenario say: the hosts that a host knows, or a topology.
#[derive(Drop)]
struct Gathered {
    known: HostTable,
    topology: String,
    in_topology: bool,
}

impl Gathered {
    fn new(alloc: Global) -> Gathered {
        Gathered {
            known: Items::new(alloc),
            topology: String::new(alloc),
            in_topology: false,
        }
    }

    // Plays a line. Where a part begins by it, that plays the rest, and the answer is true.
    fn play(
        &mut self,
        alloc: Global,
        line: &str,
        rest: &[&str],
        out: &mut String,
    ) -> Result<bool, Memory> {
        if is_remark(line) {
            say(out, line)?;
            return Ok(false);
        }
        if self.in_topology {
            self.read_topology(line)?;
            return Ok(false);
        }
        let (verb, words) = first_word(line);
        match verb {
            "topology" => {
                self.in_topology = true;
                Ok(false)
            }
            "known" => self.know(words, out),
            _ => self.begin(alloc, verb, words, rest, out),
        }
    }

    // A line of a topology, or its end.
    fn read_topology(&mut self, line: &str) -> Result<(), Memory> {
        if line == "end" {
            self.in_topology = false;
            return Ok(());
        }
        say(&mut self.topology, line)
    }

    // MAC IP
    fn know(&mut self, words: &str, out: &mut String) -> Result<bool, Memory> {
        match me(words) {
            Some(me) => {
                self.known.push(me)?;
                Ok(false)
            }
            None => refuse(out),
        }
    }

    // A part begins, unless something is missing.
    fn begin(
        &self,
        alloc: Global,
        verb: &str,
        words: &str,
        rest: &[&str],
        out: &mut String,
    ) -> Result<bool, Memory> {
        match verb {
            "host" => self.host(alloc, words, rest, out),
            "world" => self.world(alloc, words, rest, out),
            "wiring" => play_wiring(alloc, self.topology.as_str(), words, rest, out),
            "manager" => play_manager(alloc, self.topology.as_str(), rest, out),
            "script" => play_script(alloc, self.topology.as_str(), rest, out),
            _ => refuse(out),
        }
    }

    // MAC IP
    fn host(
        &self,
        alloc: Global,
        words: &str,
        rest: &[&str],
        out: &mut String,
    ) -> Result<bool, Memory> {
        match me(words) {
            Some(me) => play_host(alloc, me, &self.known, rest, out),
            None => refuse(out),
        }
    }

    // SWITCHES STEPS ENTRIES BYTES
    fn world(
        &self,
        alloc: Global,
        words: &str,
        rest: &[&str],
        out: &mut String,
    ) -> Result<bool, Memory> {
        let (switches, words) = first_word(words);
        match limits(words) {
            Some(limits) => {
                read_world(alloc, switches, self.topology.as_bytes(), limits, rest, out)
            }
            None => refuse(out),
        }
    }
}

fn read_world(
    alloc: Global,
    switches: &str,
    topology: &[u8],
    limits: Limits,
    rest: &[&str],
    out: &mut String,
) -> Result<bool, Memory>
    requires { limits.steps ≤ 4000000000 }
{
    match pl_topology::read(alloc, topology) {
        Ok(wiring) => begin_world(alloc, switches, wiring, limits, rest, out),
        Err(_) => refuse(out),
    }
}

fn begin_world(
    alloc: Global,
    switches: &str,
    wiring: Wiring,
    limits: Limits,
    rest: &[&str],
    out: &mut String,
) -> Result<bool, Memory>
    requires { limits.steps ≤ 4000000000 }
{
    match switches {
        "next-port" => play_world::<NextPort, Silent>(alloc, wiring, limits, rest, out),
        "two-ports" => play_world::<TwoPorts, Silent>(alloc, wiring, limits, rest, out),
        "pod-asker" => play_world::<PodAsker, PodGiver>(alloc, wiring, limits, rest, out),
        "reference" => play_world::<ReferenceSwitch, Manager>(alloc, wiring, limits, rest, out),
        "tables" => play_world::<TableSwitch, Manager>(alloc, wiring, limits, rest, out),
        _ => refuse(out),
    }
}

// No part begins.
fn refuse(out: &mut String) -> Result<bool, Memory> {
    say(out, "not understood")?;
    Ok(false)
}

// A hardware address and an IPv4 address.
fn me(text: &str) -> Option<Me> {
    let (first, second) = first_word(text);
    let mac = mac(first)?;
    let ip = ip(second)?;
    Some(Me { mac, ip })
}

// Steps, entries and bytes.
fn limits(text: &str) -> Option<Limits>
    ensures { IfSome result (λ limits. limits.steps ≤ 4000000000) }
{
    let (steps, rest) = first_word(text);
    let (entries, bytes) = first_word(rest);
    let steps = number(steps)?;
    let entries = number(entries)?;
    let bytes = number(bytes)?;
    if steps > MOST_STEPS {
        return None;
    }
    Some(Limits {
        steps,
        entries,
        bytes,
    })
}

fn number(text: &str) -> Option<u64> {
    text.parse::<u64>().ok()
}
