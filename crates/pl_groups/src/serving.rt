ghost use Rattle.std.specs.Prelude.{◌≡◌, ◌||◌, Bool, IfOk, map, slice_get, slice_set, true};
ghost use Rattle.std.specs.List.{list_any};
ghost use Rattle.std.specs.List.Sorted.{IsStrictlySortedBy};
ghost use Rattle.std.specs.Option.{option_and_then, option_copied};
ghost use Rattle.pl_frame.specs.declared.address.SwitchId.{SwitchId};
ghost use Rattle.pl_layouts.specs.Equality.{same_switch};
ghost use Rattle.pl_node.specs.ManagerViews.{Told, alive_neighbours, id_cmp, is_alive};
ghost use Rattle.pl_reports.specs.Kept.{report_of};
ghost use Rattle.pl_groups.specs.Serving.{all_served, many_served, served_at};

use crate::place_tests::is_on_level;
use crate::positions::position;
use pl_bits::Row;
use pl_frame::SwitchId;
use pl_node::Memory;
use pl_reports::{Reports, SwitchReport};
use std::alloc::Global;

/// Which needed edge switches, which rise, each aggregation switch serves: a row for each switch that told
/// something, by rising id.
pub(crate) fn served_edges(
    alloc: Global,
    reports: &Reports,
    needed: &[SwitchId],
) -> Result<Vec<Option<Row>>, Memory>
    requires { IsStrictlySortedBy id_cmp needed.now }
    ensures { IfOk result (λ served. served.items ≡ all_served reports.now needed.now) }
{
    let mut served = Vec::new(alloc);
    for report in reports.of_switches() {
        let row = row_at(alloc, needed, report)?;
        served.push(row)?;
    }
    Ok(served)
}

// The row of a switch that told this, if it is an aggregation switch.
fn row_at(alloc: Global, needed: &[SwitchId], report: &SwitchReport) -> Result<Option<Row>, Memory>
    requires { IsStrictlySortedBy id_cmp needed.now }
    ensures { IfOk result (λ row. (told : Told) (s : SwitchId) → report.now ≡ report_of told s → row ≡ served_at told needed.now s) }
{
    if !is_on_level(report.place, 1) {
        return Ok(None);
    }
    let row = row_of(alloc, needed, report.alive.as_slice())?;
    Ok(Some(row))
}

// To which needed edge switches a switch with these neighbours has an alive link.
fn row_of(alloc: Global, needed: &[SwitchId], alive: &[SwitchId]) -> Result<Row, Memory>
    requires { IsStrictlySortedBy id_cmp needed.now }
    ensures { IfOk result (λ row. (told : Told) (s : SwitchId) → alive.now ≡ alive_neighbours told s → row ≡ map (is_alive told s) needed.now) }
{
    let mut row = Row::new(alloc, needed.len())?;
    let mut near = 0;
    for neighbour in alive {
        near = mark(&mut row, needed, near, *neighbour);
    }
    Ok(row)
}

// The value of a switch, if it is a needed one, becomes true. Answers where the next one may stand.
fn mark(row: &mut Row, needed: &[SwitchId], near: usize, switch: SwitchId) -> usize
    requires { IsStrictlySortedBy id_cmp needed.now }
    ensures { (test : SwitchId → Bool) → row.old ≡ map test needed.now → row.new ≡ map (λ e. test e || same_switch e switch) needed.now }
{
    match position(needed, near, switch) {
        Some(at) => {
            set(row, at);
            at.saturating_add(1)
        }
        None => near,
    }
}

// Value number i of a row becomes true, if there is one.
fn set(row: &mut Row, i: usize)
    ensures { row.new ≡ slice_set row.old i true }
{
    if i < row.len() {
        row.set(i);
    }
}

/// Row number n, if there is one.
pub(crate) fn row_in(served: &[Option<Row>], n: usize) -> Option<&Row>
    ensures { option_copied result ≡ option_and_then (λ row. row) (slice_get served.now n) }
{
    match served.get(n) {
        Some(row) => row.as_ref(),
        None => None,
    }
}

/// The row of a switch, if it is an aggregation switch.
pub(crate) fn row_for<'a>(
    reports: &Reports,
    needed: &[SwitchId],
    served: &'a [Option<Row>],
    switch: SwitchId,
) -> Option<&'a Row>
    requires { served.now ≡ all_served reports.now needed.now }
    ensures { option_copied result ≡ served_at reports.now needed.now switch }
{
    match position(reports.switches(), 0, switch) {
        Some(at) => row_in(served, at),
        None => None,
    }
}

/// How many needed edge switches a switch serves, if it is an aggregation switch.
pub(crate) fn many_served(
    reports: &Reports,
    needed: &[SwitchId],
    served: &[Option<Row>],
    switch: SwitchId,
) -> usize
    requires { served.now ≡ all_served reports.now needed.now }
    ensures { result ≡ many_served (served_at reports.now needed.now switch) }
{
    match row_for(reports, needed, served, switch) {
        Some(row) => row.count(),
        None => 0,
    }
}
