ghost use Rattle.std.specs.Prelude.{◌≡◌, [], IfOk, IsTrue, OnOk, false, if◌then◌else◌, true};
ghost use Rattle.std.specs.BTreeMap.{is_at};
ghost use Rattle.std.specs.Option.{option_copied};
ghost use Rattle.pl_frame.specs.declared.address.SwitchId.{SwitchId};
ghost use Rattle.pl_node.specs.ManagerViews.{Told, alive_neighbours, has_level, id_cmp, value_at};
ghost use Rattle.pl_layouts.specs.Placement.{is_known};
ghost use Rattle.pl_faults.specs.Kept.{IsWordWithin};
ghost use Rattle.pl_faults.specs.Listed.{is_in};
ghost use Rattle.pl_faults.specs.Rows.{AreLevelRows, AreRowsRenewed, IsReach, IsReachRenewed, RowOfSwitch, leads_at, leads_by, leads_down, row_at_level, row_in, row_of, row_or_none, value_of, with_row};

use crate::edges::Edge;
use crate::listed::{beside, put_all};
use crate::row::{linked_down, none_reached};
use pl_bits::Row;
use pl_frame::SwitchId;
use pl_node::{Memory, Place, SwitchList};
use pl_reports::Reports;
use std::alloc::Global;
use std::collections::BTreeMap;

/// For each switch a value for each placed edge switch.
pub(crate) type Rows = BTreeMap<SwitchId, Row>;

/// To which placed edge switches each switch leads on.
#[derive(Debug, Drop)]
pub(crate) struct Reach {
    pub(crate) down: Rows,
    pub(crate) core: Rows,
    pub(crate) up: Rows,
}

/// Of no edge switches.
pub(crate) fn no_reach(alloc: Global) -> Reach
    ensures down { result.down.entries ≡ [] }
    ensures core { result.core.entries ≡ [] }
    ensures up { result.up.entries ≡ [] }
{
    Reach {
        down: BTreeMap::new(alloc),
        core: BTreeMap::new(alloc),
        up: BTreeMap::new(alloc),
    }
}

/// It, by what was told.
pub(crate) fn reach_of(alloc: Global, reports: &Reports, edges: &[Edge]) -> Result<Reach, Memory>
    ensures { IfOk result (λ reach. IsReach reports.now edges.now reach) }
{
    let all = reports.switches();
    let mut down = BTreeMap::new(alloc);
    renew_down(&mut down, alloc, reports, edges, all)?;
    let mut core = BTreeMap::new(alloc);
    renew_by(&mut core, alloc, reports, edges, &down, 2, 1, all)?;
    let mut up = BTreeMap::new(alloc);
    renew_by(&mut up, alloc, reports, edges, &core, 1, 2, all)?;
    Ok(Reach { down, core, up })
}

/// Brings it up to a word, which was told already and left all switches but these. Answers the switches that
/// have other rows.
pub(crate) fn renew_reach(
    reach: &mut Reach,
    alloc: Global,
    reports: &Reports,
    edges: &[Edge],
    ends: &SwitchList,
) -> Result<SwitchList, Memory>
    ensures { IfOk result (λ turned. (told : Told) → IsWordWithin ends.now alive_neighbours told reports.now →
        IsReach told edges.now reach.old → IsReachRenewed reports.now edges.now reach.old reach.new turned) }
{
    let mut turned = renew_down(&mut reach.down, alloc, reports, edges, ends.as_slice())?;
    let asked = beside(alloc, reports, ends, turned.as_slice())?;
    let cores = renew_by(
        &mut reach.core,
        alloc,
        reports,
        edges,
        &reach.down,
        2,
        1,
        asked.as_slice(),
    )?;
    put_all(&mut turned, cores.as_slice())?;
    let asked_above = beside(alloc, reports, ends, cores.as_slice())?;
    let above = renew_by(
        &mut reach.up,
        alloc,
        reports,
        edges,
        &reach.core,
        1,
        2,
        asked_above.as_slice(),
    )?;
    put_all(&mut turned, above.as_slice())?;
    Ok(turned)
}

// Makes the rows of aggregation switches anew by their links down to edge switches of the own pod.
fn renew_down(
    rows: &mut Rows,
    alloc: Global,
    reports: &Reports,
    edges: &[Edge],
    asked: &[SwitchId],
) -> Result<SwitchList, Memory>
    ensures { IfOk result (λ changed. AreRowsRenewed (row_at_level reports.now 1 (leads_down reports.now) edges.now) asked.now rows.old.entries rows.new.entries changed) }
{
    let mut changed = SwitchList::new(alloc);
    for switch in asked {
        let row = row_down(alloc, reports, edges, *switch)?;
        put_row(rows, &mut changed, *switch, row)?;
    }
    Ok(changed)
}

fn row_down(
    alloc: Global,
    reports: &Reports,
    edges: &[Edge],
    switch: SwitchId,
) -> Result<Row, Memory>
    ensures { IfOk result (λ row. row ≡ row_at_level reports.now 1 (leads_down reports.now) edges.now switch) }
{
    if !has_level(reports.place_of(switch), 1) {
        return Ok(Row::none(alloc));
    }
    let row = linked_down(alloc, reports, edges, switch)?;
    Ok(row)
}

// Makes the rows of a level anew by neighbours of another, each with its row.
fn renew_by(
    rows: &mut Rows,
    alloc: Global,
    reports: &Reports,
    edges: &[Edge],
    by: &Rows,
    own: u8,
    level: u8,
    asked: &[SwitchId],
) -> Result<SwitchList, Memory>
    ensures { IfOk result (λ changed. (f : RowOfSwitch) → AreLevelRows reports.now level edges.now f by.now.entries →
        AreRowsRenewed (row_at_level reports.now own (leads_by reports.now level f) edges.now) asked.now rows.old.entries rows.new.entries changed) }
{
    let mut changed = SwitchList::new(alloc);
    for switch in asked {
        let row = row_at_level(alloc, reports, edges, by, own, level, *switch)?;
        put_row(rows, &mut changed, *switch, row)?;
    }
    Ok(changed)
}

fn row_at_level(
    alloc: Global,
    reports: &Reports,
    edges: &[Edge],
    by: &Rows,
    own: u8,
    level: u8,
    switch: SwitchId,
) -> Result<Row, Memory>
    ensures { IfOk result (λ row. (f : RowOfSwitch) → AreLevelRows reports.now level edges.now f by.now.entries →
        row ≡ row_at_level reports.now own (leads_by reports.now level f) edges.now switch) }
{
    if !has_level(reports.place_of(switch), own) {
        return Ok(Row::none(alloc));
    }
    let row = row_by(alloc, reports, edges, by, level, switch)?;
    Ok(row)
}

fn row_by(
    alloc: Global,
    reports: &Reports,
    edges: &[Edge],
    by: &Rows,
    level: u8,
    switch: SwitchId,
) -> Result<Row, Memory>
    ensures { IfOk result (λ row. (f : RowOfSwitch) → AreLevelRows reports.now level edges.now f by.now.entries →
        row ≡ row_of (leads_by reports.now level f) edges.now switch) }
{
    let mut row = none_reached(alloc, edges)?;
    for neighbour in reports.alive_neighbours(switch) {
        add_row(alloc, reports, &mut row, by, level, *neighbour);
    }
    Ok(row)
}

// Adds the row of a neighbour of the level.
fn add_row(
    alloc: Global,
    reports: &Reports,
    row: &mut Row,
    by: &Rows,
    level: u8,
    neighbour: SwitchId,
)
    ensures { row.new ≡ with_row (has_level reports.now neighbour level) (row_in by.now.entries neighbour) row.old }
{
    if !has_level(reports.place_of(neighbour), level) {
        return;
    }
    match by.get(&neighbour) {
        Some(more) => row.add(more),
        None => row.add(&Row::none(alloc)),
    }
}

// Puts in a new row of a switch, and the switch among those that changed, unless it has this row.
fn put_row(
    rows: &mut Rows,
    changed: &mut SwitchList,
    switch: SwitchId,
    row: Row,
) -> Result<(), Memory>
    ensures now { OnOk result ((t : SwitchId) →
        row_in rows.new.entries t ≡ (if is_at (id_cmp switch) t then row else row_in rows.old.entries t)) }
    ensures stays { OnOk result ((t : SwitchId) → is_in changed.old t ≡ true → is_in changed.new t ≡ true) }
    ensures same { OnOk result ((t : SwitchId) → is_in changed.new t ≡ false →
        row_in rows.new.entries t ≡ row_in rows.old.entries t) }
{
    if has_row(rows, switch, &row) {
        return Ok(());
    }
    rows.insert(switch, row)?;
    changed.insert(switch)?;
    Ok(())
}

fn has_row(rows: &Rows, switch: SwitchId, row: &Row) -> bool
    ensures { IsTrue result → row_in rows.now.entries switch ≡ row.now }
{
    match rows.get(&switch) {
        Some(was) => was.is(row),
        None => row.is_empty(),
    }
}

impl Reach {
    /// The row of a switch by its links down, if there is one.
    pub(crate) fn down(&self, switch: SwitchId) -> Option<&Row>
        ensures { option_copied result ≡ value_at id_cmp self.now.down.entries switch }
    {
        self.down.get(&switch)
    }

    /// The row by aggregation switches.
    pub(crate) fn core(&self, switch: SwitchId) -> Option<&Row>
        ensures { option_copied result ≡ value_at id_cmp self.now.core.entries switch }
    {
        self.core.get(&switch)
    }

    /// The row by core switches.
    pub(crate) fn up(&self, switch: SwitchId) -> Option<&Row>
        ensures { option_copied result ≡ value_at id_cmp self.now.up.entries switch }
    {
        self.up.get(&switch)
    }
}

/// Whether a switch at this place with these rows leads on to edge switch number i.
pub(crate) fn leads_at(
    place: Place,
    down: Option<&Row>,
    core: Option<&Row>,
    up: Option<&Row>,
    edge: &Edge,
    i: usize,
) -> bool
    ensures { result ≡ leads_at place edge.now (value_of (row_or_none (option_copied down.entry)) i) (value_of (row_or_none (option_copied core.entry)) i) (value_of (row_or_none (option_copied up.entry)) i) }
{
    if has_level(place, 1) {
        if has_pod(place, edge.pod) {
            return value_of(down, i);
        }
        return value_of(up, i);
    }
    if has_level(place, 2) {
        return value_of(core, i);
    }
    false
}

fn value_of(row: Option<&Row>, i: usize) -> bool
    ensures { result ≡ value_of (row_or_none (option_copied row.entry)) i }
{
    match row {
        Some(row) => row.value(i),
        None => false,
    }
}

pub(crate) fn has_level(place: Place, level: u8) -> bool
    ensures { result ≡ is_known place.level level }
{
    match place.level {
        Some(known) => known == level,
        None => false,
    }
}

pub(crate) fn has_pod(place: Place, pod: u16) -> bool
    ensures { result ≡ is_known place.pod pod }
{
    match place.pod {
        Some(known) => known == pod,
        None => false,
    }
}
