ghost use Rattle.std.specs.Prelude.{◌≡◌, ◌==◌, ◌&&◌, IfOk, filter, find, not, option_map, true};
ghost use Rattle.std.specs.BTreeMap.{is_at};
ghost use Rattle.std.specs.Cmp.Lexicographic.{pointwise};
ghost use Rattle.std.specs.List.{list_any};
ghost use Rattle.std.specs.List.Sorted.{IsStrictlySortedBy};
ghost use Rattle.std.specs.Option.{option_copied};
ghost use Rattle.pl_frame.specs.declared.address.SwitchId.{SwitchId};
ghost use Rattle.pl_layouts.specs.Equality.{same_switch};
ghost use Rattle.pl_layouts.specs.Placement.{is_known};
ghost use Rattle.pl_node.specs.ManagerViews.{alive_at_level, alive_neighbours, edge_at, has_level, has_pod, id_cmp, is_alive};
ghost use Rattle.pl_reports.specs.Kept.{report_of};
ghost use Rattle.pl_node.specs.Trees.{aggregation_part, core_part, edge_part, part_under};
ghost use Rattle.pl_manager_rule.specs.ManagerRule.{same_part, same_up};
ghost use Rattle.pl_groups.specs.Rooted.{IsRoot};
ghost use Rattle.pl_groups.specs.Serving.{all_served, many_served, served_at};

use crate::needs::{add_if, edges_in};
use crate::place_tests::{is_adjacent, is_of_pod, is_on_level};
use crate::root::{Root, is_linked};
use crate::serving::{many_served, row_for};
use pl_bits::Row;
use pl_frame::SwitchId;
use pl_node::{Memory, Place, SwitchList, TreePart};
use pl_reports::{Reports, SwitchReport};
use std::alloc::Global;

/// The part of a switch in a tree under a core switch.
pub(crate) fn part_under(
    alloc: Global,
    reports: &Reports,
    needed: &[SwitchId],
    served: &[Option<Row>],
    root: &Root,
    switch: SwitchId,
    report: &SwitchReport,
) -> Result<Option<TreePart>, Memory>
    requires rising { IsStrictlySortedBy id_cmp needed.now }
    requires served { served.now ≡ all_served reports.now needed.now }
    requires root { IsRoot reports.now root.now }
    requires report { report.now ≡ report_of reports.now switch }
    ensures { IfOk result (λ part. part ≡ part_under reports.now needed.now switch root.now.core) }
{
    if switch == root.core {
        return Ok(Some(core_part(alloc, reports, needed, served, root.core)?));
    }
    if is_under(root, switch, report.place) {
        let part = aggregation_part(alloc, reports, needed, served, root.core, switch)?;
        return Ok(Some(part));
    }
    Ok(edge_part(alloc, reports, root, switch, report))
}

// Whether a switch at this place is an aggregation switch that is linked to the core switch.
fn is_under(root: &Root, switch: SwitchId, place: Place) -> bool
    ensures { result ≡ (is_known place.level 1 && list_any (is_at (id_cmp switch)) root.now.near) }
{
    is_on_level(place, 1) && is_linked(root, switch)
}

// The core switch sends to its aggregation switches that serve a needed edge switch.
fn core_part(
    alloc: Global,
    reports: &Reports,
    needed: &[SwitchId],
    served: &[Option<Row>],
    core: SwitchId,
) -> Result<TreePart, Memory>
    requires served { served.now ≡ all_served reports.now needed.now }
    ensures { IfOk result (λ part. part ≡ core_part reports.now needed.now core) }
{
    let mut down = SwitchList::new(alloc);
    for switch in reports.neighbours(core) {
        let passes = is_below(reports, needed, served, core, *switch);
        add_if(&mut down, *switch, passes)?;
    }
    Ok(TreePart { up: None, down })
}

// Whether a neighbour of the core switch is one of these.
fn is_below(
    reports: &Reports,
    needed: &[SwitchId],
    served: &[Option<Row>],
    core: SwitchId,
    neighbour: SwitchId,
) -> bool
    requires { served.now ≡ all_served reports.now needed.now }
    ensures { result ≡ ((is_alive reports.now core neighbour && has_level reports.now neighbour 1)
        && not (many_served (served_at reports.now needed.now neighbour) == 0)) }
{
    is_adjacent(reports, core, neighbour) && many_served(reports, needed, served, neighbour) != 0
}

// An aggregation switch sends up to the core switch, and down to the edge switches that it serves.
fn aggregation_part(
    alloc: Global,
    reports: &Reports,
    needed: &[SwitchId],
    served: &[Option<Row>],
    core: SwitchId,
    switch: SwitchId,
) -> Result<TreePart, Memory>
    requires rising { IsStrictlySortedBy id_cmp needed.now }
    requires served { served.now ≡ all_served reports.now needed.now }
    requires level { has_level reports.now switch 1 ≡ true }
    ensures { IfOk result (λ part. part ≡ aggregation_part reports.now needed.now core switch) }
{
    let down = edges_of(alloc, reports, needed, served, switch)?;
    Ok(TreePart {
        up: Some(core),
        down,
    })
}

// The needed edge switches that an aggregation switch serves.
fn edges_of(
    alloc: Global,
    reports: &Reports,
    needed: &[SwitchId],
    served: &[Option<Row>],
    switch: SwitchId,
) -> Result<SwitchList, Memory>
    requires rising { IsStrictlySortedBy id_cmp needed.now }
    requires served { served.now ≡ all_served reports.now needed.now }
    requires level { has_level reports.now switch 1 ≡ true }
    ensures { IfOk result (λ edges. edges ≡ filter (is_alive reports.now switch) needed.now) }
{
    match row_for(reports, needed, served, switch) {
        Some(row) => edges_in(alloc, needed, row),
        None => Ok(SwitchList::new(alloc)),
    }
}

// A placed edge switch sends up to the first aggregation switch of its pod that is linked to the core switch.
fn edge_part(
    alloc: Global,
    reports: &Reports,
    root: &Root,
    switch: SwitchId,
    report: &SwitchReport,
) -> Option<TreePart>
    requires root { IsRoot reports.now root.now }
    requires report { report.now ≡ report_of reports.now switch }
    ensures { result ≡ option_map (edge_part reports.now root.now.core) (edge_at switch report.now.place) }
{
    let place = report.place;
    match (place.level, place.position, place.pod) {
        (Some(0), Some(_), Some(pod)) => Some(TreePart {
            up: first_up(reports, root, report.alive.as_slice(), pod),
            down: SwitchList::new(alloc),
        }),
        _ => None,
    }
}

// The first of the neighbours of an edge switch that is above it, of its pod and linked to the core switch.
fn first_up(reports: &Reports, root: &Root, alive: &[SwitchId], pod: u16) -> Option<SwitchId>
    requires { IsRoot reports.now root.now }
    ensures { (s : SwitchId) → alive.now ≡ alive_neighbours reports.now s →
        result ≡ find (λ a. has_pod reports.now a pod && is_alive reports.now a root.now.core) (alive_at_level reports.now s 1) }
{
    for neighbour in alive {
        if leads_up(reports, root, *neighbour, pod) {
            return Some(*neighbour);
        }
    }
    None
}

// Whether a neighbour is an aggregation switch of a pod and linked to the core switch.
fn leads_up(reports: &Reports, root: &Root, neighbour: SwitchId, pod: u16) -> bool
    requires { IsRoot reports.now root.now }
    ensures { result ≡ (has_level reports.now neighbour 1 && (has_pod reports.now neighbour pod && is_alive reports.now neighbour root.now.core)) }
{
    if !is_linked(root, neighbour) {
        return false;
    }
    is_above(reports, neighbour, pod)
}

// Whether a switch is an aggregation switch of a pod.
fn is_above(reports: &Reports, switch: SwitchId, pod: u16) -> bool
    ensures { result ≡ (has_level reports.now switch 1 && has_pod reports.now switch pod) }
{
    let place = reports.place_of(switch);
    is_on_level(place, 1) && is_of_pod(place, pod)
}

/// Whether two parts are the same.
pub(crate) fn same_part(x: Option<&TreePart>, y: Option<&TreePart>) -> bool
    ensures { result ≡ same_part (option_copied x.entry) (option_copied y.entry) }
{
    match (x, y) {
        (None, None) => true,
        (Some(x), Some(y)) => same_up(x.up, y.up) && same_down(&x.down, &y.down),
        _ => false,
    }
}

fn same_up(x: Option<SwitchId>, y: Option<SwitchId>) -> bool
    ensures { result ≡ same_up x y }
{
    match (x, y) {
        (None, None) => true,
        (Some(x), Some(y)) => x == y,
        _ => false,
    }
}

fn same_down(x: &SwitchList, y: &SwitchList) -> bool
    ensures { result ≡ pointwise same_switch x.now y.now }
{
    x.as_slice() == y.as_slice()
}
