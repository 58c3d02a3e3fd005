ghost use Rattle.std.specs.Prelude.{IsTrue};
ghost use Rattle.pl_journal.specs.Text.{IsNamed};

use pl_frame::Memory;
use pl_host::Host;
use pl_journal::{Entry, write_line};
use pl_node::{ManagerLogic, SwitchLogic};
use pl_schedule::World;
use pl_test_words::say;
use pl_wiring::Wiring;
use std::alloc::Global;

/// Prints the entries of a world's journal behind the first ones, which were told before.
pub(crate) fn tell_entries<S: SwitchLogic, M: ManagerLogic>(
    world: &World<S, M, Host>,
    alloc: Global,
    told: usize,
    out: &mut String,
) -> Result<(), Memory> {
    say_entries(alloc, world.wiring(), world.journal().as_slice(), told, out)
}

fn say_entries(
    alloc: Global,
    wiring: &Wiring,
    entries: &[Entry],
    told: usize,
    out: &mut String,
) -> Result<(), Memory> {
    if told > entries.len() {
        return Ok(());
    }
    for entry in &entries[told..] {
        say_entry(alloc, wiring, entry, out)?;
    }
    Ok(())
}

fn say_entry(
    alloc: Global,
    wiring: &Wiring,
    entry: &Entry,
    out: &mut String,
) -> Result<(), Memory> {
    if !is_named(wiring, entry) {
        return say(out, "an entry names what is not there");
    }
    let mut line = String::new(alloc);
    write_line(&mut line, wiring, entry)?;
    out.push_str(&line)
}

// Whether the wiring has the hosts and switches that an entry names.
fn is_named(wiring: &Wiring, entry: &Entry) -> bool
    ensures { IsTrue result → IsNamed wiring.now entry.now }
{
    let hosts = wiring.host_count();
    let switches = wiring.switch_count();
    match entry {
        Entry::Sent(_, h, _) | Entry::Arrived(_, h, _) => h.0 < hosts,
        Entry::Skipped(h, _) => h.0 < hosts,
        Entry::Made(_, s, _) => s.0 < switches,
        Entry::Crossed(_, s) | Entry::Taken(_, s) => s.0 < switches,
        Entry::Placed(s, _) => s.0 < switches,
        Entry::Granted(_, h, s, _) => h.0 < hosts && s.0 < switches,
        Entry::Moved(h, s, _) => h.0 < hosts && s.0 < switches,
        Entry::LinkDown(a, b) | Entry::LinkUp(a, b) => a.0 < switches && b.0 < switches,
        _ => true,
    }
}
