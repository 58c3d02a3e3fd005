use pl_frame::SwitchId;
use pl_node::{AvoidList, Memory, SwitchList, TreePart};
use pl_test_words::say;
use pl_wiring::{Label, Wiring};
use std::alloc::Global;

/// A switch, by its label or by its id.
pub(crate) fn named(wiring: &Wiring, text: &str) -> Option<SwitchId> {
    match Label::read(text) {
        Some(label) => {
            let switch = wiring.switch_of(label)?;
            Some(wiring.id(switch))
        }
        None => Some(SwitchId(text.parse::<u64>().ok()?)),
    }
}

/// `up` or `down`: whether a link is usable.
pub(crate) fn usable(text: &str) -> Option<bool> {
    match text {
        "up" => Some(true),
        "down" => Some(false),
        _ => None,
    }
}

/// A line of switches behind a word.
pub(crate) fn say_switches(
    alloc: Global,
    word: &str,
    switches: &[SwitchId],
    out: &mut String,
) -> Result<(), Memory> {
    out.push_str(word)?;
    for SwitchId(id) in switches {
        let id = format!(in alloc; " {id}")?;
        out.push_str(id.as_str())?;
    }
    out.push_str("\n")
}

/// The items of an avoid list, each as its id, pod and position.
pub(crate) fn say_list(alloc: Global, list: &AvoidList, out: &mut String) -> Result<(), Memory> {
    out.push_str("avoids")?;
    let entries = list.entries()?;
    for (SwitchId(id), pod, position) in entries.as_slice() {
        let item = format!(in alloc; " {id}/{pod}/{position}")?;
        out.push_str(item.as_str())?;
    }
    out.push_str("\n")
}

/// The neighbour above and those below.
pub(crate) fn say_part(
    alloc: Global,
    part: Option<&TreePart>,
    out: &mut String,
) -> Result<(), Memory> {
    let Some(part) = part else {
        return say(out, "no part");
    };
    let up = match part.up {
        Some(SwitchId(id)) => format!(in alloc; "up {id} down")?,
        None => format!(in alloc; "up - down")?,
    };
    say_switches(alloc, up.as_str(), part.down.as_slice(), out)
}
