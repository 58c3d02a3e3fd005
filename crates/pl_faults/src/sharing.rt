ghost use Rattle.std.specs.Prelude.{◌≡◌, ◌≤◌, [], IfOk, IsTrue, length, take};
ghost use Rattle.std.specs.List.{filter};
ghost use Rattle.pl_node.specs.AvoidLists.{avoid_list, is_above, is_level_above};
ghost use Rattle.pl_node.specs.Hidden.{shown};
ghost use Rattle.pl_node.specs.ManagerViews.{neighbours, place_of};
ghost use Rattle.pl_faults.specs.Missed.{missed_above};
ghost use Rattle.pl_faults.specs.Sharing.{CanShare, IsShared, MayBeShared, hidden_of};

use crate::leading::Leading;
use crate::making::{avoid_list_of, is_level_above, missed_above};
use pl_frame::SwitchId;
use pl_node::{AvoidList, Hidden, Memory, Place};
use pl_reports::Reports;
use std::alloc::Global;

/// All that the neighbours above a switch miss, whoever it is: the list of each switch that has the same
/// neighbours above leaves out of it what that switch does not avoid.
#[derive(Debug, Drop)]
pub(crate) struct Shared {
    pub(crate) switch: SwitchId,
    pub(crate) list: AvoidList,
}

/// The list of a switch, which shares its rows with the last one where both have the same neighbours above,
/// and what the next one may share.
pub(crate) fn list_after(
    alloc: Global,
    reports: &Reports,
    leading: &Leading,
    apart: bool,
    switch: SwitchId,
    last: Option<Shared>,
) -> Result<(AvoidList, Option<Shared>), Memory>
    ensures list { IfOk result (λ made. CanShare reports.now leading.now apart last → made.0 ≡ avoid_list reports.now switch) }
    ensures next { IfOk result (λ made. CanShare reports.now leading.now apart last → CanShare reports.now leading.now apart made.1) }
{
    if !apart {
        let own = avoid_list_of(alloc, reports, leading, switch)?;
        return Ok((own, last));
    }
    let shared = shared_after(alloc, reports, leading, switch, last)?;
    let list = list_in(alloc, reports, &shared, switch)?;
    Ok((list, Some(shared)))
}

// What a switch shares with the last one, or what is made anew.
fn shared_after(
    alloc: Global,
    reports: &Reports,
    leading: &Leading,
    switch: SwitchId,
    last: Option<Shared>,
) -> Result<Shared, Memory>
    ensures { IfOk result (λ shared. MayBeShared reports.now leading.now last → (IsShared reports.now leading.now.misses.entries shared)
        × (shared.list ≡ missed_above reports.now leading.now.misses.entries (place_of reports.now switch).level switch)) }
{
    match last {
        Some(last) => {
            let shared = shared_beside(alloc, reports, leading, switch, last)?;
            Ok(shared)
        }
        None => {
            let shared = shared_anew(alloc, reports, leading, switch)?;
            Ok(shared)
        }
    }
}

fn shared_beside(
    alloc: Global,
    reports: &Reports,
    leading: &Leading,
    switch: SwitchId,
    last: Shared,
) -> Result<Shared, Memory>
    ensures { IfOk result (λ shared. IsShared reports.now leading.now.misses.entries last → (IsShared reports.now leading.now.misses.entries shared)
        × (shared.list ≡ missed_above reports.now leading.now.misses.entries (place_of reports.now switch).level switch)) }
{
    if !is_beside(reports, last.switch, switch) {
        let shared = shared_anew(alloc, reports, leading, switch)?;
        return Ok(shared);
    }
    Ok(last)
}

fn shared_anew(
    alloc: Global,
    reports: &Reports,
    leading: &Leading,
    switch: SwitchId,
) -> Result<Shared, Memory>
    ensures { IfOk result (λ shared. (IsShared reports.now leading.now.misses.entries shared)
        × (shared.list ≡ missed_above reports.now leading.now.misses.entries (place_of reports.now switch).level switch)) }
{
    let level = reports.place_of(switch).level;
    let list = missed_above(alloc, reports, &leading.misses, level, switch)?;
    Ok(Shared { switch, list })
}

// What a switch avoids of what it shares.
fn list_in(
    alloc: Global,
    reports: &Reports,
    shared: &Shared,
    switch: SwitchId,
) -> Result<AvoidList, Memory>
    ensures { IfOk result (λ list. list ≡ shown (hidden_of (place_of reports.now switch)) shared.now.list) }
{
    match hidden_of(reports.place_of(switch)) {
        Some(hidden) => {
            let list = shared.list.hiding(hidden)?;
            Ok(list)
        }
        None => {
            let list = shared.list.copied(alloc)?;
            Ok(list)
        }
    }
}

// What a switch at this place does not avoid: its own address, or its own pod.
fn hidden_of(place: Place) -> Option<Hidden>
    ensures { result ≡ hidden_of place }
{
    match (place.level, place.pod, place.position) {
        (Some(0), Some(pod), Some(position)) => Some(Hidden {
            pod,
            position: Some(position),
        }),
        (Some(1), Some(pod), _) => Some(Hidden {
            pod,
            position: None,
        }),
        _ => None,
    }
}

// Whether two switches are known to be on one level, with the same neighbours above.
fn is_beside(reports: &Reports, other: SwitchId, switch: SwitchId) -> bool
    ensures level { IsTrue result → (place_of reports.now other).level ≡ (place_of reports.now switch).level }
    ensures above { IsTrue result → filter (is_above reports.now switch) (neighbours reports.now other)
        ≡ filter (is_above reports.now switch) (neighbours reports.now switch) }
{
    let level = reports.place_of(switch).level;
    if !is_same_level(reports.place_of(other).level, level) {
        return false;
    }
    are_alike(
        reports,
        level,
        reports.neighbours(other),
        reports.neighbours(switch),
    )
}

fn is_same_level(a: Option<u8>, b: Option<u8>) -> bool
    ensures { IsTrue result → a ≡ b }
{
    a == b
}

// Whether two lists are known to have the same switches above a level.
fn are_alike(reports: &Reports, level: Option<u8>, a: &[SwitchId], b: &[SwitchId]) -> bool
    ensures { IsTrue result → filter (λ u. is_level_above level (place_of reports.now u).level) a.now
        ≡ filter (λ u. is_level_above level (place_of reports.now u).level) b.now }
{
    are_same(a, b)
        || are_same(
            &a[first_above(reports, level, a)..],
            &b[first_above(reports, level, b)..],
        )
}

// Where the first switch above a level stands; behind the last where there is none.
fn first_above(reports: &Reports, level: Option<u8>, switches: &[SwitchId]) -> usize
    ensures within { result ≤ length switches.now }
    ensures above { filter (λ u. is_level_above level (place_of reports.now u).level) (take result switches.now) ≡ [] }
{
    for i in 0..switches.len() {
        if is_level_above(level, reports.place_of(switches[i]).level) {
            return i;
        }
    }
    switches.len()
}

fn are_same(a: &[SwitchId], b: &[SwitchId]) -> bool
    ensures { IsTrue result → a.now ≡ b.now }
{
    a == b
}
