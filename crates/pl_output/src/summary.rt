ghost use Rattle.std.specs.Prelude.{◌≡◌, ◌++◌, ℕ, List, length, string_bytes, IfOk, OnOk};
ghost use Rattle.std.specs.List.{flat_map};
ghost use Rattle.pl_journal.specs.declared.entry.Entry.{Entry};
ghost use Rattle.pl_output.specs.Summary.{all_causes, cause_line, count_of, crossings_line, ending_of, fabric_line, frames_line, host_line, host_lines, index_of, settled_line, steps_line, summary_text};
ghost use Rattle.pl_output.specs.Tallied.{IsTallyOf};

use crate::summary::lines::{
    CauseLine, CrossingsLine, FabricLine, HostLine, StepsLine, settled_line,
};
use crate::summary::tally::Tally;
use crate::summary::totals::Totals;
use pl_frame::Memory;
use pl_journal::{Cause, Journal};
use pl_wiring::{Host, Wiring};
use std::alloc::Global;

mod host_counts;
mod lines;
mod tally;
mod totals;

/// The causes for which a frame ends, in their order.
const CAUSES: [Cause; 9] = [
    Cause::NotPlaced,
    Cause::NoNextHop,
    Cause::NoAddress,
    Cause::HostGone,
    Cause::LinkDown,
    Cause::Lost,
    Cause::Spent,
    Cause::BadArp,
    Cause::NoMember,
];

/// What is left of a host at the end of a run.
#[derive(Clone, Copy, Debug)]
pub struct Rest {
    /// How many frames wait for an address.
    pub held: u64,
    /// How many records no line asked for.
    pub unread: u64,
    /// How many bytes its capture has behind the last whole record.
    pub tail: u64,
}

/// The text of the summary. The journal is read once.
pub fn summary(
    alloc: Global,
    wiring: &Wiring,
    journal: &Journal,
    steps: u64,
    rests: &[Rest],
    settled: bool,
) -> Result<String, Memory>
    requires { length rests.now ≡ length wiring.now.hosts }
    ensures { IfOk result (λ text. string_bytes text
        ≡ summary_text wiring.now journal.now steps rests.now settled) }
{
    let hosts = wiring.hosts();
    let entries = journal.as_slice();
    let tally = Tally::of(alloc, hosts.len(), entries)?;
    let mut text = first_lines(alloc, wiring, tally.totals, steps, entries.len())?;
    add_cause_lines(alloc, &mut text, &tally)?;
    add_host_lines(alloc, &mut text, hosts, &tally, rests)?;
    add_last_lines(alloc, &mut text, tally.totals.crossed, settled)?;
    Ok(text)
}

// The lines of the fabric, the steps and the frames.
fn first_lines(
    alloc: Global,
    wiring: &Wiring,
    totals: Totals,
    steps: u64,
    entries: usize,
) -> Result<String, Memory>
    ensures { IfOk result (λ text. string_bytes text
        ≡ fabric_line wiring.now ++ steps_line totals.lines steps entries ++ frames_line totals) }
{
    let fabric = FabricLine(wiring);
    let lines = totals.lines;
    let steps = StepsLine {
        lines,
        steps,
        entries,
    };
    format!(in alloc; "{fabric}{steps}{totals}")
}

// A line for each cause for which frames ended.
fn add_cause_lines(alloc: Global, text: &mut String, tally: &Tally) -> Result<(), Memory>
    ensures { OnOk result ((hosts : ℕ) (journal : List Entry) → IsTallyOf tally.now hosts journal →
        string_bytes text.new ≡ string_bytes text.old
        ++ flat_map (λ cause. cause_line cause (count_of ending_of (index_of cause) journal)) all_causes) }
{
    for cause in CAUSES.as_slice() {
        let line = CauseLine {
            cause: *cause,
            ended: tally.ended_for(*cause),
        };
        add_cause_line(alloc, text, line)?;
    }
    Ok(())
}

fn add_cause_line(alloc: Global, text: &mut String, line: CauseLine) -> Result<(), Memory>
    ensures { OnOk result (string_bytes text.new ≡ string_bytes text.old ++ cause_line line.cause line.ended) }
{
    let line = format!(in alloc; "{line}")?;
    text.push_str(&line)
}

// A line for each host.
fn add_host_lines(
    alloc: Global,
    text: &mut String,
    hosts: &[Host],
    tally: &Tally,
    rests: &[Rest],
) -> Result<(), Memory>
    requires { length rests.now ≡ length hosts.now }
    ensures { OnOk result ((journal : List Entry) → IsTallyOf tally.now (length hosts.now) journal →
        string_bytes text.new ≡ string_bytes text.old ++ host_lines journal 0 hosts.now rests.now) }
{
    for (n, host) in hosts.iter().enumerate() {
        let line = HostLine {
            host,
            counts: tally.of_host(n),
            rest: rests[n],
        };
        add_host_line(alloc, text, &line)?;
    }
    Ok(())
}

fn add_host_line(alloc: Global, text: &mut String, line: &HostLine) -> Result<(), Memory>
    ensures { OnOk result (string_bytes text.new ≡ string_bytes text.old
        ++ host_line line.now.host.now line.now.counts line.now.rest) }
{
    let line = format!(in alloc; "{line}")?;
    text.push_str(&line)
}

// How many switches were crossed, and whether the network is settled.
fn add_last_lines(
    alloc: Global,
    text: &mut String,
    crossed: u64,
    settled: bool,
) -> Result<(), Memory>
    ensures { OnOk result (string_bytes text.new ≡ string_bytes text.old ++ crossings_line crossed ++ settled_line settled) }
{
    let line = CrossingsLine(crossed);
    let line = format!(in alloc; "{line}")?;
    text.push_str(&line)?;
    text.push_str(settled_line(settled))
}
