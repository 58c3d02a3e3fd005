//! What the manager knows of places and links, and of groups. A switch is its label or its id.
//!
//! - `all`: every switch tells its place, and that its links are usable. `place SWITCH LEVEL POSITION POD`, `-` for what is
//!   unknown. `link SWITCH NEIGHBOUR up|down`: one end tells. `both A B up|down`.
//! - `changed`, `list SWITCH`, `made SWITCH`, `each link fails`.
//! - `members SWITCH GROUP some|none`, `renew GROUP`, `part SWITCH GROUP`, `core GROUP`, `groups`.
use crate::naming::{named, say_list, say_part, say_switches, usable};
use crate::tree::{Tally, fail_links, tell_all, tell_both};
use pl_faults::Matrix;
use pl_frame::SwitchId;
use pl_groups::Groups;
use pl_node::{Memory, Place, SwitchList};
use pl_test_words::{first_word, is_remark, number, say};
use pl_topology::TopologyError;
use pl_wiring::{SwitchNo, Wiring};
use std::alloc::{AllocError, Global};

pub(crate) fn play_fabric(
    alloc: Global,
    words: &str,
    lines: &[&str],
    out: &mut String,
) -> Result<(), Memory> {
    let file = format!(in alloc; "k = {words}")?;
    match pl_topology::read(alloc, file.as_str().as_bytes()) {
        Ok(wiring) => play_on(alloc, &wiring, lines, out),
        Err(TopologyError::Memory) => Err(AllocError),
        Err(_) => say(out, "not understood"),
    }
}

fn play_on(alloc: Global, wiring: &Wiring, lines: &[&str], out: &mut String) -> Result<(), Memory> {
    let mut bench = Bench {
        matrix: Matrix::new(alloc),
        groups: Groups::new(alloc)?,
    };
    for line in lines {
        bench.play(alloc, wiring, line, out)?;
    }
    Ok(())
}

// So many groups are shown.
const MOST_GROUPS: usize = 8;

/// The faults, and the groups.
#[derive(Drop)]
struct Bench {
    matrix: Matrix,
    groups: Groups,
}

impl Bench {
    fn play(
        &mut self,
        alloc: Global,
        wiring: &Wiring,
        line: &str,
        out: &mut String,
    ) -> Result<(), Memory> {
        if is_remark(line) {
            return say(out, line);
        }
        let (verb, rest) = first_word(line);
        match verb {
            "all" => tell_all(wiring, &mut self.matrix),
            "place" => self.place(wiring, rest, out),
            "link" => self.link(wiring, rest, out),
            "both" => self.both(wiring, rest, out),
            "changed" => self.changed(alloc, out),
            "list" => self.list(alloc, wiring, rest, out),
            "made" => self.made(alloc, wiring, rest, out),
            "each" => self.each_link_fails(alloc, wiring, out),
            _ => self.play_group(alloc, wiring, verb, rest, out),
        }
    }

    fn play_group(
        &mut self,
        alloc: Global,
        wiring: &Wiring,
        verb: &str,
        rest: &str,
        out: &mut String,
    ) -> Result<(), Memory> {
        match verb {
            "members" => self.members(wiring, rest, out),
            "renew" => self.renew(alloc, rest, out),
            "part" => self.part(alloc, wiring, rest, out),
            "core" => self.core(alloc, rest, out),
            "groups" => self.say_groups(alloc, out),
            _ => say(out, "not understood"),
        }
    }

    // SWITCH LEVEL POSITION POD
    fn place(&mut self, wiring: &Wiring, rest: &str, out: &mut String) -> Result<(), Memory> {
        let (switch, rest) = first_word(rest);
        match named(wiring, switch) {
            Some(switch) => self.matrix.set_place(switch, place_in(rest)),
            None => say(out, "not understood"),
        }
    }

    // SWITCH NEIGHBOUR up|down
    fn link(&mut self, wiring: &Wiring, rest: &str, out: &mut String) -> Result<(), Memory> {
        match ends(wiring, rest) {
            Some((a, b, usable)) => self.matrix.report(a, b, usable),
            None => say(out, "not understood"),
        }
    }

    // A B up|down
    fn both(&mut self, wiring: &Wiring, rest: &str, out: &mut String) -> Result<(), Memory> {
        match ends(wiring, rest) {
            Some((a, b, usable)) => tell_both(&mut self.matrix, a, b, usable),
            None => say(out, "not understood"),
        }
    }

    fn changed(&mut self, alloc: Global, out: &mut String) -> Result<(), Memory> {
        let changed = self.matrix.changed()?;
        say_switches(alloc, "changed", changed.as_slice(), out)
    }

    // SWITCH
    fn list(
        &self,
        alloc: Global,
        wiring: &Wiring,
        rest: &str,
        out: &mut String,
    ) -> Result<(), Memory> {
        let Some(switch) = named(wiring, rest) else {
            return say(out, "not understood");
        };
        match self.matrix.list(switch) {
            Some(list) => say_list(alloc, list, out),
            None => say(out, "none"),
        }
    }

    // SWITCH: the list, made anew.
    fn made(
        &self,
        alloc: Global,
        wiring: &Wiring,
        rest: &str,
        out: &mut String,
    ) -> Result<(), Memory> {
        let Some(switch) = named(wiring, rest) else {
            return say(out, "not understood");
        };
        let list = self.matrix.avoid_for(switch)?;
        say_list(alloc, &list, out)
    }

    // Each link of the tree is told failed and usable again, and after each report the lists are compared.
    fn each_link_fails(
        &mut self,
        alloc: Global,
        wiring: &Wiring,
        out: &mut String,
    ) -> Result<(), Memory> {
        let mut tally = Tally::default();
        for s in 0..wiring.switch_count() {
            fail_links(wiring, SwitchNo(s), &mut self.matrix, &mut tally)?;
        }
        let Tally {
            reports,
            lists,
            other,
        } = tally;
        let line = format!(in alloc; "{reports} reports, {lists} lists compared, {other} differ")?;
        say(out, line.as_str())
    }

    // SWITCH GROUP some|none
    fn members(&mut self, wiring: &Wiring, rest: &str, out: &mut String) -> Result<(), Memory> {
        let (switch, rest) = first_word(rest);
        let (group, any) = first_word(rest);
        match (named(wiring, switch), number(group)) {
            (Some(switch), Some(group)) => self.groups.set(switch, group, any == "some"),
            _ => say(out, "not understood"),
        }
    }

    // GROUP
    fn renew(&mut self, alloc: Global, rest: &str, out: &mut String) -> Result<(), Memory> {
        let Some(group) = number(rest) else {
            return say(out, "not understood");
        };
        let changed: SwitchList = self.groups.renew(self.matrix.reports(), group)?;
        say_switches(alloc, "changed", changed.as_slice(), out)
    }

    // SWITCH GROUP
    fn part(
        &self,
        alloc: Global,
        wiring: &Wiring,
        rest: &str,
        out: &mut String,
    ) -> Result<(), Memory> {
        let (switch, group) = first_word(rest);
        match (named(wiring, switch), number(group)) {
            (Some(switch), Some(group)) => say_part(alloc, self.groups.part_of(group, switch), out),
            _ => say(out, "not understood"),
        }
    }

    // GROUP
    fn core(&self, alloc: Global, rest: &str, out: &mut String) -> Result<(), Memory> {
        let Some(group) = number(rest) else {
            return say(out, "not understood");
        };
        match self.groups.core_of(group) {
            Some(SwitchId(id)) => {
                let line = format!(in alloc; "core {id}")?;
                say(out, line.as_str())
            }
            None => say(out, "no core"),
        }
    }

    fn say_groups(&self, alloc: Global, out: &mut String) -> Result<(), Memory> {
        for n in 0..MOST_GROUPS {
            if let Some(group) = self.groups.group(n) {
                let line = format!(in alloc; "group {group}")?;
                say(out, line.as_str())?;
            }
        }
        Ok(())
    }
}

// A switch and its neighbour, and whether their link is usable.
fn ends(wiring: &Wiring, text: &str) -> Option<(SwitchId, SwitchId, bool)> {
    let (a, rest) = first_word(text);
    let (b, is) = first_word(rest);
    Some((named(wiring, a)?, named(wiring, b)?, usable(is)?))
}

// LEVEL POSITION POD
fn place_in(text: &str) -> Place {
    let (level, rest) = first_word(text);
    let (position, pod) = first_word(rest);
    Place {
        level: level.parse::<u8>().ok(),
        position: position.parse::<u8>().ok(),
        pod: pod.parse::<u16>().ok(),
    }
}
