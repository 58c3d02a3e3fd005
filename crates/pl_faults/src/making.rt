ghost use Rattle.std.specs.Prelude.{◌≡◌, [], ℕ, ◌||◌, if◌then◌else◌, IfOk, IsTrue, OnOk, fold, map};
ghost use Rattle.std.specs.BTreeSet.{insert_key};
ghost use Rattle.std.specs.List.{list_any};
ghost use Rattle.pl_bits.specs.Bits.{has_bit};
ghost use Rattle.pl_node.specs.AvoidLists.{avoid_list, avoided_cmp, is_level_above};
ghost use Rattle.pl_node.specs.ManagerViews.{place_of};
ghost use Rattle.pl_faults.specs.Making.{entry_at, with_neighbour};
ghost use Rattle.pl_faults.specs.Missed.{IsLeading, avoided_of, is_avoided, is_numbered, is_other, missed_above, sends_down, with_above, with_other, with_unnumbered};

use crate::edges::{Edge, with_number};
use crate::leading::Leading;
use crate::missed::{Misses, missed_in, missed_of};
use crate::missed_edges::Missed;
use crate::reach::{has_level, has_pod};
use pl_frame::SwitchId;
use pl_node::{AvoidBits, AvoidList, AvoidRow, Memory, Place};
use pl_reports::Reports;
use std::alloc::Global;

/// All that a switch avoids.
pub(crate) fn avoid_list_of(
    alloc: Global,
    reports: &Reports,
    leading: &Leading,
    switch: SwitchId,
) -> Result<AvoidList, Memory>
    ensures { IfOk result (λ list. IsLeading reports.now leading.now → list ≡ avoid_list reports.now switch) }
{
    let bits = avoided_by(alloc, reports, leading, switch)?;
    let list = AvoidList::of(alloc, bits)?;
    Ok(list)
}

// The same, as it is made.
fn avoided_by(
    alloc: Global,
    reports: &Reports,
    leading: &Leading,
    switch: SwitchId,
) -> Result<AvoidBits, Memory>
    ensures { IfOk result (λ list. IsLeading reports.now leading.now → list ≡ avoid_list reports.now switch) }
{
    let place = reports.place_of(switch);
    let mut list = AvoidBits::new(alloc);
    for neighbour in reports.neighbours(switch) {
        add_neighbour(&mut list, reports, leading, place, switch, *neighbour)?;
    }
    Ok(list)
}

// Puts in for which addresses a switch at this place avoids a neighbour.
fn add_neighbour(
    list: &mut AvoidBits,
    reports: &Reports,
    leading: &Leading,
    place: Place,
    switch: SwitchId,
    neighbour: SwitchId,
) -> Result<(), Memory>
    ensures { OnOk result (place ≡ place_of reports.now switch → IsLeading reports.now leading.now →
        list.new ≡ with_neighbour reports.now switch list.old neighbour) }
{
    let missed = missed_in(&leading.misses, neighbour);
    if is_none(missed) {
        return Ok(());
    }
    let level = reports.place_of(neighbour).level;
    if is_level_above(place.level, level) {
        add_missed(list, missed, place, switch, neighbour)?;
    }
    Ok(())
}

fn is_none(missed: &[Edge]) -> bool
    ensures { IsTrue result → missed.now ≡ [] }
{
    missed.is_empty()
}

// Puts in those that a neighbour above misses: by a row of bits, and one by one where they have no bit.
fn add_missed(
    list: &mut AvoidBits,
    missed: &[Edge],
    place: Place,
    switch: SwitchId,
    neighbour: SwitchId,
) -> Result<(), Memory>
    ensures { OnOk result (list.new ≡ fold (insert_key avoided_cmp) list.old (avoided_of place switch neighbour missed.now)) }
{
    let row = row_of(missed, place, switch, neighbour);
    list.insert_row(row)?;
    add_others(list, missed, place, switch, neighbour)?;
    Ok(())
}

// The bits of those that a switch at this place avoids a neighbour for.
fn row_of(missed: &[Edge], place: Place, switch: SwitchId, neighbour: SwitchId) -> AvoidRow
    ensures neighbour { result.neighbour ≡ neighbour }
    ensures bits { (n : ℕ) → has_bit result.words n ≡ list_any (is_numbered place switch n) missed.now }
{
    let mut row = AvoidRow::of(neighbour);
    for edge in missed {
        row = with_edge(row, edge, place, switch);
    }
    row
}

fn with_edge(row: AvoidRow, edge: &Edge, place: Place, switch: SwitchId) -> AvoidRow
    ensures neighbour { result.neighbour ≡ row.neighbour }
    ensures bits { (n : ℕ) → has_bit result.words n ≡ (is_numbered place switch n edge.now || has_bit row.words n) }
{
    if !is_avoided(place, switch, edge) {
        return row;
    }
    with_number(row, edge.number())
}

// Puts in those that have no bit.
fn add_others(
    list: &mut AvoidBits,
    missed: &[Edge],
    place: Place,
    switch: SwitchId,
    neighbour: SwitchId,
) -> Result<(), Memory>
    ensures { OnOk result (list.new ≡ fold (with_other place switch neighbour) list.old missed.now) }
{
    for edge in missed {
        add_other(list, edge, place, switch, neighbour)?;
    }
    Ok(())
}

fn add_other(
    list: &mut AvoidBits,
    edge: &Edge,
    place: Place,
    switch: SwitchId,
    neighbour: SwitchId,
) -> Result<(), Memory>
    ensures { OnOk result (list.new ≡ with_other place switch neighbour list.old edge.now) }
{
    if is_other(place, switch, edge) {
        list.insert((neighbour, edge.pod, edge.position))?;
    }
    Ok(())
}

// Whether a switch at this place avoids a neighbour for an edge switch, and that has no bit.
fn is_other(place: Place, switch: SwitchId, edge: &Edge) -> bool
    ensures { result ≡ is_other place switch edge.now }
{
    !edge.has_number() && is_avoided(place, switch, edge)
}

// Whether a switch at this place avoids a neighbour for an edge switch that the neighbour misses.
fn is_avoided(place: Place, switch: SwitchId, edge: &Edge) -> bool
    ensures { result ≡ is_avoided place switch edge.now }
{
    edge.switch != switch && !sends_down(place, edge.pod)
}

/// Whether the second of two levels is one above the first.
pub(crate) fn is_level_above(low: Option<u8>, high: Option<u8>) -> bool
    ensures { result ≡ is_level_above low high }
{
    match (low, high) {
        (Some(low), Some(high)) => u16::from(high) == u16::from(low) + 1,
        _ => false,
    }
}

// Whether a switch at this place sends down for a pod.
fn sends_down(place: Place, pod: u16) -> bool
    ensures { result ≡ sends_down place pod }
{
    has_level(place, 1) && has_pod(place, pod)
}

/// All that the neighbours of a switch miss that are above this level.
pub(crate) fn missed_above(
    alloc: Global,
    reports: &Reports,
    misses: &Misses,
    level: Option<u8>,
    switch: SwitchId,
) -> Result<AvoidList, Memory>
    ensures { IfOk result (λ list. list ≡ missed_above reports.now misses.now.entries level switch) }
{
    let mut bits = AvoidBits::new(alloc);
    for neighbour in reports.neighbours(switch) {
        add_above(&mut bits, reports, misses, level, *neighbour)?;
    }
    let list = AvoidList::of(alloc, bits)?;
    Ok(list)
}

// Puts in what a neighbour misses, if it is above this level.
fn add_above(
    list: &mut AvoidBits,
    reports: &Reports,
    misses: &Misses,
    level: Option<u8>,
    neighbour: SwitchId,
) -> Result<(), Memory>
    ensures { OnOk result (list.new ≡ with_above reports.now misses.now.entries level list.old neighbour) }
{
    match missed_of(misses, neighbour) {
        Some(missed) => {
            add_if_above(list, reports, level, missed, neighbour)?;
            Ok(())
        }
        None => Ok(()),
    }
}

fn add_if_above(
    list: &mut AvoidBits,
    reports: &Reports,
    level: Option<u8>,
    missed: &Missed,
    neighbour: SwitchId,
) -> Result<(), Memory>
    ensures { OnOk result (list.new ≡ (if is_level_above level (place_of reports.now neighbour).level
        then fold (insert_key avoided_cmp) list.old (map (entry_at neighbour) missed.now) else list.old)) }
{
    if is_level_above(level, reports.place_of(neighbour).level) {
        add_all(list, missed, neighbour)?;
    }
    Ok(())
}

// Puts in all that a neighbour misses: its bits, and one by one those that have none.
fn add_all(list: &mut AvoidBits, missed: &Missed, neighbour: SwitchId) -> Result<(), Memory>
    ensures { OnOk result (list.new ≡ fold (insert_key avoided_cmp) list.old (map (entry_at neighbour) missed.now)) }
{
    list.insert_row(missed.row(neighbour))?;
    if missed.has_all() {
        return Ok(());
    }
    add_unnumbered(list, missed.as_slice(), neighbour)?;
    Ok(())
}

fn add_unnumbered(list: &mut AvoidBits, missed: &[Edge], neighbour: SwitchId) -> Result<(), Memory>
    ensures { OnOk result (list.new ≡ fold (with_unnumbered neighbour) list.old missed.now) }
{
    for edge in missed {
        put_unnumbered(list, edge, neighbour)?;
    }
    Ok(())
}

fn put_unnumbered(list: &mut AvoidBits, edge: &Edge, neighbour: SwitchId) -> Result<(), Memory>
    ensures { OnOk result (list.new ≡ with_unnumbered neighbour list.old edge.now) }
{
    if !edge.has_number() {
        list.insert((neighbour, edge.pod, edge.position))?;
    }
    Ok(())
}
