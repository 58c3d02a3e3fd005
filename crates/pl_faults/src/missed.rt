ghost use Rattle.std.specs.Prelude.{◌≡◌, ◌&&◌, ℕ, [], IfOk, IsTrue, OnOk, false, is_some, true, if◌then◌else◌, unwrap_or};
ghost use Rattle.std.specs.List.{list_all, list_any};
ghost use Rattle.std.specs.Option.{option_copied};
ghost use Rattle.pl_bits.specs.Bits.{has_bit};
ghost use Rattle.pl_faults.specs.Listed.{is_in};
ghost use Rattle.pl_frame.specs.declared.address.SwitchId.{SwitchId};
ghost use Rattle.pl_node.specs.ManagerViews.{id_cmp, place_of};
ghost use Rattle.std.specs.BTreeMap.{is_at};
ghost use Rattle.pl_faults.specs.Missed.{AreMissesRenewed, is_upper, missed_at, missed_by, missed_in, with_unled};
ghost use Rattle.pl_faults.specs.Numbered.{has_bit_at, has_number};
ghost use Rattle.pl_faults.specs.Rows.{IsReach};

use crate::edges::{Edge, with_number};
use crate::missed_edges::Missed;
use crate::reach::{Reach, leads_at};
use pl_frame::SwitchId;
use pl_node::{AvoidRow, Memory, Place, SwitchList};
use pl_reports::Reports;
use std::alloc::Global;
use std::collections::BTreeMap;

/// For each switch the placed edge switches to which it does not lead on.
pub(crate) type Misses = BTreeMap<SwitchId, Missed>;

impl Missed {
    fn none(alloc: Global, switch: SwitchId) -> Missed
        ensures { result ≡ [] }
    {
        Missed {
            edges: Vec::new(alloc),
            bits: AvoidRow::of(switch),
            is_all: true,
        }
    }

    // One more edge switch, unless it is led to.
    fn add(&mut self, edge: Edge, leads: bool) -> Result<(), Memory>
        ensures { OnOk result (self.new ≡ with_unled leads self.old edge) }
    {
        if leads {
            return Ok(());
        }
        let number = edge.number();
        self.edges.push(edge)?;
        self.bits = with_number(self.bits, number);
        self.is_all = are_all(self.is_all, number);
        Ok(())
    }

    fn is_empty(&self) -> bool
        ensures { IsTrue result → self.now ≡ [] }
    {
        self.edges.is_empty()
    }

    /// All of them.
    pub(crate) fn as_slice(&self) -> &[Edge]
        ensures { result.now ≡ self.now }
    {
        self.edges.as_slice()
    }

    /// The bits of those that have one, as a row of a neighbour.
    pub(crate) fn row(&self, neighbour: SwitchId) -> AvoidRow
        ensures neighbour { result.neighbour ≡ neighbour }
        ensures bits { (n : ℕ) → has_bit result.words n ≡ list_any (has_bit_at n) self.now }
    {
        AvoidRow {
            neighbour,
            words: self.bits.words,
        }
    }

    /// Whether each of them has a bit.
    pub(crate) fn has_all(&self) -> bool
        ensures { result ≡ list_all has_number self.now }
    {
        self.is_all
    }
}

// Whether each has a bit, with one more that may have one.
fn are_all(is_all: bool, number: Option<usize>) -> bool
    ensures { result ≡ (is_all && is_some number) }
{
    is_all && number.is_some()
}

/// Puts down anew what these switches miss. Answers those that miss others than before.
pub(crate) fn renew_misses(
    misses: &mut Misses,
    alloc: Global,
    reports: &Reports,
    edges: &[Edge],
    reach: &Reach,
    asked: &[SwitchId],
) -> Result<SwitchList, Memory>
    ensures { IfOk result (λ changed. IsReach reports.now edges.now reach.now →
        AreMissesRenewed reports.now edges.now asked.now misses.old.entries misses.new.entries changed) }
{
    let mut changed = SwitchList::new(alloc);
    for switch in asked {
        let missed = missed_at(alloc, reports, edges, reach, *switch)?;
        put_missed(misses, &mut changed, *switch, missed)?;
    }
    Ok(changed)
}

// Puts in what a switch misses, and the switch among those that changed, unless it misses just these.
fn put_missed(
    misses: &mut Misses,
    changed: &mut SwitchList,
    switch: SwitchId,
    missed: Missed,
) -> Result<(), Memory>
    ensures now { OnOk result ((t : SwitchId) →
        missed_in misses.new.entries t ≡ (if is_at (id_cmp switch) t then missed else missed_in misses.old.entries t)) }
    ensures stays { OnOk result ((t : SwitchId) → is_in changed.old t ≡ true → is_in changed.new t ≡ true) }
    ensures same { OnOk result ((t : SwitchId) → is_in changed.new t ≡ false →
        missed_in misses.new.entries t ≡ missed_in misses.old.entries t) }
{
    if misses_just(misses, switch, &missed) {
        return Ok(());
    }
    set_missed(misses, switch, missed)?;
    changed.insert(switch)?;
    Ok(())
}

fn misses_just(misses: &Misses, switch: SwitchId, missed: &Missed) -> bool
    ensures { IsTrue result → missed_in misses.now.entries switch ≡ missed.now }
{
    are_same(missed_in(misses, switch), missed.as_slice())
}

// A switch that misses none has no entry.
fn set_missed(misses: &mut Misses, switch: SwitchId, missed: Missed) -> Result<(), Memory>
    ensures { OnOk result ((t : SwitchId) →
        missed_in misses.new.entries t ≡ (if is_at (id_cmp switch) t then missed else missed_in misses.old.entries t)) }
{
    if missed.is_empty() {
        let _gone = misses.remove(&switch);
        return Ok(());
    }
    misses.insert(switch, missed)?;
    Ok(())
}

fn missed_at(
    alloc: Global,
    reports: &Reports,
    edges: &[Edge],
    reach: &Reach,
    switch: SwitchId,
) -> Result<Missed, Memory>
    ensures { IfOk result (λ missed. IsReach reports.now edges.now reach.now →
        missed ≡ missed_at reports.now edges.now switch) }
{
    if !is_upper(reports.place_of(switch)) {
        return Ok(Missed::none(alloc, switch));
    }
    let missed = missed_by(alloc, reports, edges, reach, switch)?;
    Ok(missed)
}

fn missed_by(
    alloc: Global,
    reports: &Reports,
    edges: &[Edge],
    reach: &Reach,
    switch: SwitchId,
) -> Result<Missed, Memory>
    requires { is_upper (place_of reports.now switch).level ≡ true }
    ensures { IfOk result (λ missed. IsReach reports.now edges.now reach.now →
        missed ≡ missed_by reports.now edges.now switch) }
{
    let place = reports.place_of(switch);
    let down = reach.down(switch);
    let core = reach.core(switch);
    let up = reach.up(switch);
    let mut missed = Missed::none(alloc, switch);
    for i in 0..edges.len() {
        let edge = edges[i];
        let leads = leads_at(place, down, core, up, &edge, i);
        missed.add(edge, leads)?;
    }
    Ok(missed)
}

// Whether a switch at this place is above the edge switches.
fn is_upper(place: Place) -> bool
    ensures { result ≡ is_upper place.level }
{
    match place.level {
        Some(level) => level != 0,
        None => false,
    }
}

/// Those that a switch misses, if it misses any.
pub(crate) fn missed_of(misses: &Misses, switch: SwitchId) -> Option<&Missed>
    ensures { unwrap_or (option_copied result) [] ≡ missed_in misses.now.entries switch }
{
    misses.get(&switch)
}

/// Those that a switch misses.
pub(crate) fn missed_in(misses: &Misses, switch: SwitchId) -> &[Edge]
    ensures { result.now ≡ missed_in misses.now.entries switch }
{
    match misses.get(&switch) {
        Some(missed) => missed.as_slice(),
        None => &[],
    }
}

fn are_same(a: &[Edge], b: &[Edge]) -> bool
    ensures { IsTrue result → a.now ≡ b.now }
{
    a == b
}
