use pl_frame::Mac;
use pl_node::{Act, Memory, Outbox};
use pl_pmac::{Pmac, pack};
use pl_test_words::{say, say_frame};
use std::alloc::Global;

/// Prints what was done since the last line: frames in hexadecimal, addresses as hardware addresses.
pub(crate) fn say_acts(alloc: Global, done: &mut Outbox, out: &mut String) -> Result<(), Memory> {
    for _ in 0..done.len() {
        if let Some(act) = done.take_first() {
            say_act(alloc, &act, out)?;
        }
    }
    Ok(())
}

fn say_act(alloc: Global, act: &Act, out: &mut String) -> Result<(), Memory> {
    match act {
        Act::Control(port, frame) | Act::Pass(port, frame) => {
            let word = format!(in alloc; "pass {port}")?;
            say_frame(alloc, word.as_str(), frame.bytes(), out)
        }
        Act::Make(frame) => say_frame(alloc, "make", frame.bytes(), out),
        Act::Redirect { old, new } => say_redirect(alloc, *old, *new, out),
        _ => {
            let line = format!(in alloc; "{act:?}")?;
            say(out, line.as_str())
        }
    }
}

fn say_redirect(alloc: Global, old: Pmac, new: Pmac, out: &mut String) -> Result<(), Memory> {
    let old: Mac = pack(old);
    let new: Mac = pack(new);
    let line = format!(in alloc; "redirect {old} {new}")?;
    say(out, line.as_str())
}
