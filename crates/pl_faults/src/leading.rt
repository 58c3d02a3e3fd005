ghost use Rattle.std.specs.Prelude.{◌≡◌, ◌&&◌, ◌||◌, IfOk, OnOk, [], false, is_some, not};
ghost use Rattle.std.specs.List.{list_any};
ghost use Rattle.pl_layouts.specs.Equality.{same_switch};
ghost use Rattle.pl_frame.specs.declared.address.SwitchId.{SwitchId};
ghost use Rattle.pl_node.specs.ManagerViews.{Told, alive_neighbours, edge_at, place_of, placed_edges};
ghost use Rattle.pl_faults.specs.Kept.{IsLinkWord, IsPlaceWord, IsWordWithin};
ghost use Rattle.pl_faults.specs.Listed.{is_in};
ghost use Rattle.pl_faults.specs.Missed.{AreMissed, AreMissedAnew, IsLeading, IsTurned, is_some_edge};
ghost use Rattle.pl_faults.specs.Rows.{IsReach};

use crate::edges::{Edge, edge_at, placed_edges};
use crate::listed::{Hearers, around, ends_of, hear, put_all};
use crate::missed::{Misses, renew_misses};
use crate::reach::{Reach, no_reach, reach_of, renew_reach};
use pl_frame::SwitchId;
use pl_node::{Memory, SwitchList};
use pl_reports::Reports;
use std::alloc::Global;
use std::collections::BTreeMap;

/// The placed edge switches, to which of them each switch leads on, which of them it misses, and who told of
/// a link to it.
#[derive(Debug, Drop)]
pub(crate) struct Leading {
    pub(crate) edges: Vec<Edge>,
    pub(crate) reach: Reach,
    pub(crate) misses: Misses,
    pub(crate) hearers: Hearers,
}

/// No edge switch is placed.
pub(crate) fn no_leading(alloc: Global) -> Leading
    ensures edges { result.edges.items ≡ [] }
    ensures down { result.reach.down.entries ≡ [] }
    ensures core { result.reach.core.entries ≡ [] }
    ensures up { result.reach.up.entries ≡ [] }
    ensures misses { result.misses.entries ≡ [] }
    ensures hearers { result.hearers.entries ≡ [] }
{
    Leading {
        edges: Vec::new(alloc),
        reach: no_reach(alloc),
        misses: BTreeMap::new(alloc),
        hearers: BTreeMap::new(alloc),
    }
}

/// Brings it up to a word on a link, which was told already. Answers the switches that miss others.
pub(crate) fn link_leading(
    leading: &mut Leading,
    alloc: Global,
    reports: &Reports,
    switch: SwitchId,
    neighbour: SwitchId,
) -> Result<SwitchList, Memory>
    ensures { IfOk result (λ turned. (told : Told) → IsLinkWord switch neighbour told reports.now →
        IsLeading told leading.old → IsTurned reports.now leading.old leading.new turned) }
{
    hear(&mut leading.hearers, alloc, switch, neighbour)?;
    let ends = ends_of(alloc, switch, neighbour)?;
    let turned = renew_beside(
        &mut leading.reach,
        &mut leading.misses,
        alloc,
        reports,
        leading.edges.as_slice(),
        &ends,
        &[],
    )?;
    Ok(turned)
}

/// Brings it up to a word of a switch on its place, which was told already. Answers the switches that
/// miss others.
pub(crate) fn place_leading(
    leading: &mut Leading,
    alloc: Global,
    reports: &Reports,
    switch: SwitchId,
) -> Result<SwitchList, Memory>
    ensures { IfOk result (λ turned. (told : Told) → IsPlaceWord switch told reports.now →
        IsLeading told leading.old → IsTurned reports.now leading.old leading.new turned) }
{
    if is_placed(reports, leading.edges.as_slice(), switch) {
        let turned = renew_leading(leading, alloc, reports)?;
        return Ok(turned);
    }
    let turned = move_leading(leading, alloc, reports, switch)?;
    Ok(turned)
}

// Makes it anew, but for who told of a link, whatever the switch was and is. Answers those that miss others.
fn renew_leading(
    leading: &mut Leading,
    alloc: Global,
    reports: &Reports,
) -> Result<SwitchList, Memory>
    ensures { IfOk result (λ turned. (switch : SwitchId) (told : Told) → IsPlaceWord switch told reports.now →
        IsLeading told leading.old → IsTurned reports.now leading.old leading.new turned) }
{
    let edges = placed_edges(alloc, reports)?;
    let reach = reach_of(alloc, reports, edges.as_slice())?;
    let turned = renew_misses(
        &mut leading.misses,
        alloc,
        reports,
        edges.as_slice(),
        &reach,
        reports.switches(),
    )?;
    leading.edges = edges;
    leading.reach = reach;
    Ok(turned)
}

// Brings it up to the word of a switch that was no placed edge switch and is none.
fn move_leading(
    leading: &mut Leading,
    alloc: Global,
    reports: &Reports,
    switch: SwitchId,
) -> Result<SwitchList, Memory>
    ensures { IfOk result (λ turned. (told : Told) → IsPlaceWord switch told reports.now →
        placed_edges reports.now ≡ placed_edges told →
        IsLeading told leading.old → IsTurned reports.now leading.old leading.new turned) }
{
    let ends = around(alloc, reports, switch)?;
    let turned = renew_beside(
        &mut leading.reach,
        &mut leading.misses,
        alloc,
        reports,
        leading.edges.as_slice(),
        &ends,
        &[switch],
    )?;
    Ok(turned)
}

// Brings the rows and what is missed up to a word, which was told already, left all switches but `ends`, and
// left all but those that moved where they are. Answers the switches that miss others.
fn renew_beside(
    reach: &mut Reach,
    misses: &mut Misses,
    alloc: Global,
    reports: &Reports,
    edges: &[Edge],
    ends: &SwitchList,
    moved: &[SwitchId],
) -> Result<SwitchList, Memory>
    ensures { IfOk result (λ turned. (told : Told) → IsWordWithin ends.now alive_neighbours told reports.now →
        ((t : SwitchId) → is_in moved.now t ≡ false → place_of reports.now t ≡ place_of told t) →
        IsReach told edges.now reach.old → AreMissed told edges.now misses.old.entries →
        AreMissedAnew reports.now edges.now reach.new misses.old.entries misses.new.entries turned) }
{
    let mut near = renew_reach(reach, alloc, reports, edges, ends)?;
    put_all(&mut near, moved)?;
    let turned = renew_misses(misses, alloc, reports, edges, reach, near.as_slice())?;
    Ok(turned)
}

/// Whether no edge switch was placed, nor is this switch one now.
pub(crate) fn is_none_placed(reports: &Reports, edges: &[Edge], switch: SwitchId) -> bool
    ensures { result ≡ (not (is_some_edge edges.now) && not (is_some (edge_at switch (place_of reports.now switch)))) }
{
    !has_some(edges) && !is_edge(reports, switch)
}

// Whether a switch was a placed edge switch, or is one now.
fn is_placed(reports: &Reports, edges: &[Edge], switch: SwitchId) -> bool
    ensures { result ≡ (list_any (λ e. same_switch e.switch switch) edges.now || is_some (edge_at switch (place_of reports.now switch))) }
{
    was_placed(edges, switch) || is_edge(reports, switch)
}

fn was_placed(edges: &[Edge], switch: SwitchId) -> bool
    ensures { result ≡ list_any (λ e. same_switch e.switch switch) edges.now }
{
    edges.iter().any(|e| e.switch.0 == switch.0)
}

fn has_some(edges: &[Edge]) -> bool
    ensures { result ≡ is_some_edge edges.now }
{
    match edges {
        [] => false,
        [_, ..] => true,
    }
}

fn is_edge(reports: &Reports, switch: SwitchId) -> bool
    ensures { result ≡ is_some (edge_at switch (place_of reports.now switch)) }
{
    edge_at(switch, reports.place_of(switch)).is_some()
}
