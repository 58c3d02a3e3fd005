ghost use Rattle.std.specs.Prelude.{◌≡◌, ◌==◌, [], ◌∷◌, ◌++◌, if◌then◌else◌, IfOk, IsTrue, OnOk, filter, map};
ghost use Rattle.std.specs.Option.{option_copied};
ghost use Rattle.pl_frame.specs.declared.address.SwitchId.{SwitchId};
ghost use Rattle.pl_node.specs.ManagerViews.{alive_neighbours, has_level, place_of};
ghost use Rattle.pl_node.specs.Trees.{best_cores, core_for, core_reaches, cores, largest, reach, turn};
ghost use Rattle.pl_groups.specs.Reaching.{IsReachOf, reach_at, with_row};
ghost use Rattle.pl_groups.specs.Serving.{all_reports, all_served, served_at};

use crate::place_tests::is_on_level;
use crate::positions::position;
use crate::serving::row_in;
use pl_bits::Row;
use pl_frame::SwitchId;
use pl_node::{Memory, Place};
use pl_reports::{Reports, SwitchReport};
use std::alloc::Global;

/// A core switch, and how many needed edge switches it reaches.
#[derive(Clone, Copy, Debug)]
pub(crate) struct CoreReach {
    pub(crate) core: SwitchId,
    pub(crate) edges: usize,
}

/// The core switch of a group, if it has one.
pub(crate) fn core_for(
    alloc: Global,
    reports: &Reports,
    group: u32,
    all: &[SwitchReport],
    needed: &[SwitchId],
    served: &[Option<Row>],
) -> Result<Option<SwitchId>, Memory>
    requires all { all.now ≡ all_reports reports.now }
    requires served { served.now ≡ all_served reports.now needed.now }
    ensures { IfOk result (λ core. core ≡ core_for reports.now group needed.now) }
{
    if needed.is_empty() {
        return Ok(None);
    }
    let reaches = reaches(alloc, reports, all, needed, served)?;
    let best = best_of(alloc, &reaches)?;
    Ok(turn(&best, group))
}

// The core switches, rising, each with its reach.
fn reaches(
    alloc: Global,
    reports: &Reports,
    all: &[SwitchReport],
    needed: &[SwitchId],
    served: &[Option<Row>],
) -> Result<Vec<CoreReach>, Memory>
    requires all { all.now ≡ all_reports reports.now }
    requires served { served.now ≡ all_served reports.now needed.now }
    ensures { IfOk result (λ reaches. reaches.items ≡ map (reach_at reports.now needed.now) (cores reports.now)) }
{
    let switches = reports.switches();
    let mut reaches = Vec::new(alloc);
    let mut last = None;
    for i in 0..switches.len() {
        let switch = switches[i];
        last = rank(
            &mut reaches,
            alloc,
            reports,
            needed,
            served,
            switch,
            all[i].place,
            last,
        )?;
    }
    Ok(reaches)
}

// One more switch, if its place is that of a core switch. The answer is the last core switch.
fn rank(
    reaches: &mut Vec<CoreReach>,
    alloc: Global,
    reports: &Reports,
    needed: &[SwitchId],
    served: &[Option<Row>],
    switch: SwitchId,
    place: Place,
    last: Option<CoreReach>,
) -> Result<Option<CoreReach>, Memory>
    requires served { served.now ≡ all_served reports.now needed.now }
    requires place { place ≡ place_of reports.now switch }
    requires last { IsReachOf reports.now needed.now last }
    ensures ranked { OnOk result (reaches.new.items
        ≡ (if has_level reports.now switch 2 then reaches.old.items ++ reach_at reports.now needed.now switch ∷ [] else reaches.old.items)) }
    ensures last { IfOk result (λ now. IsReachOf reports.now needed.now now) }
{
    if !is_on_level(place, 2) {
        return Ok(last);
    }
    let reach = reach_after(alloc, reports, needed, served, switch, last)?;
    reaches.push(reach)?;
    Ok(Some(reach))
}

// The reach of a core switch. It is that of the last one where both have the same links.
fn reach_after(
    alloc: Global,
    reports: &Reports,
    needed: &[SwitchId],
    served: &[Option<Row>],
    core: SwitchId,
    last: Option<CoreReach>,
) -> Result<CoreReach, Memory>
    requires served { served.now ≡ all_served reports.now needed.now }
    requires last { IsReachOf reports.now needed.now last }
    ensures { IfOk result (λ now. now ≡ reach_at reports.now needed.now core) }
{
    match last {
        Some(before) => reach_beside(alloc, reports, needed, served, core, before),
        None => reach_anew(alloc, reports, needed, served, core),
    }
}

fn reach_beside(
    alloc: Global,
    reports: &Reports,
    needed: &[SwitchId],
    served: &[Option<Row>],
    core: SwitchId,
    before: CoreReach,
) -> Result<CoreReach, Memory>
    requires served { served.now ≡ all_served reports.now needed.now }
    requires before { before.edges ≡ reach reports.now needed.now before.core }
    ensures { IfOk result (λ now. now ≡ reach_at reports.now needed.now core) }
{
    if has_same_links(reports, before.core, core) {
        return Ok(CoreReach {
            core,
            edges: before.edges,
        });
    }
    reach_anew(alloc, reports, needed, served, core)
}

fn reach_anew(
    alloc: Global,
    reports: &Reports,
    needed: &[SwitchId],
    served: &[Option<Row>],
    core: SwitchId,
) -> Result<CoreReach, Memory>
    requires served { served.now ≡ all_served reports.now needed.now }
    ensures { IfOk result (λ now. now ≡ reach_at reports.now needed.now core) }
{
    let edges = reach(alloc, reports, needed, served, core)?;
    Ok(CoreReach { core, edges })
}

// Whether two switches are linked to the same switches, over links that are alive.
fn has_same_links(reports: &Reports, a: SwitchId, b: SwitchId) -> bool
    ensures { IsTrue result → alive_neighbours reports.now a ≡ alive_neighbours reports.now b }
{
    are_same(reports.alive_neighbours(a), reports.alive_neighbours(b))
}

fn are_same(a: &[SwitchId], b: &[SwitchId]) -> bool
    ensures { IsTrue result → a.now ≡ b.now }
{
    a == b
}

// How many needed edge switches a core switch reaches.
fn reach(
    alloc: Global,
    reports: &Reports,
    needed: &[SwitchId],
    served: &[Option<Row>],
    core: SwitchId,
) -> Result<usize, Memory>
    requires served { served.now ≡ all_served reports.now needed.now }
    ensures { IfOk result (λ edges. edges ≡ reach reports.now needed.now core) }
{
    let reached = reached(alloc, reports, needed, served, core)?;
    Ok(reached.count())
}

// Which of them its aggregation switches serve.
fn reached(
    alloc: Global,
    reports: &Reports,
    needed: &[SwitchId],
    served: &[Option<Row>],
    core: SwitchId,
) -> Result<Row, Memory>
    requires served { served.now ≡ all_served reports.now needed.now }
    ensures { IfOk result (λ reached. reached ≡ map (core_reaches reports.now core) needed.now) }
{
    let mut reached = Row::new(alloc, needed.len())?;
    let mut last = 0;
    let mut near = 0;
    for switch in reports.alive_neighbours(core) {
        let at = reach_by(&mut reached, reports, needed, served, near, *switch);
        near = one_further(last, at);
        last = at;
    }
    Ok(reached)
}

// Where the next neighbour of a core switch may stand: there is one in each pod.
fn one_further(last: usize, at: usize) -> usize {
    at.saturating_add(at.saturating_sub(last))
}

// With what a neighbour serves, if it is one of these. Answers where it stands.
fn reach_by(
    reached: &mut Row,
    reports: &Reports,
    needed: &[SwitchId],
    served: &[Option<Row>],
    near: usize,
    neighbour: SwitchId,
) -> usize
    requires { served.now ≡ all_served reports.now needed.now }
    ensures { reached.new ≡ with_row reached.old (served_at reports.now needed.now neighbour) }
{
    match position(reports.switches(), near, neighbour) {
        Some(at) => {
            add_row(reached, row_in(served, at));
            at
        }
        None => near,
    }
}

fn add_row(reached: &mut Row, more: Option<&Row>)
    ensures { reached.new ≡ with_row reached.old (option_copied more.entry) }
{
    if let Some(row) = more {
        reached.add(row);
    }
}

// Those of the largest reach.
fn best_of(alloc: Global, reaches: &[CoreReach]) -> Result<Vec<SwitchId>, Memory>
    ensures { IfOk result (λ best. best.items
        ≡ map (λ r. r.core) (filter (λ r. r.edges == largest (map (λ r. r.edges) reaches.now)) reaches.now)) }
{
    let largest = largest(reaches);
    let mut best = Vec::new(alloc);
    for reach in reaches {
        if reach.edges == largest {
            best.push(reach.core)?;
        }
    }
    Ok(best)
}

fn largest(reaches: &[CoreReach]) -> usize
    ensures { result ≡ largest (map (λ r. r.edges) reaches.now) }
{
    let mut largest = 0;
    for reach in reaches {
        largest = largest.max(reach.edges);
    }
    largest
}

// The group takes its turn among them.
fn turn(best: &[SwitchId], group: u32) -> Option<SwitchId>
    ensures { result ≡ turn group best.now }
{
    if best.is_empty() {
        return None;
    }
    best.get(group as usize % best.len()).copied()
}
