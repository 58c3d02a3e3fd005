ghost use Rattle.std.specs.Prelude.{◌≡◌, ◌<◌, ◌||◌, ℕ, IfOk, IfSome, IsTrue, OnOk, Some, false, map};
ghost use Rattle.std.specs.Option.{option_map};
ghost use Rattle.pl_node.specs.ManagerViews.{edge_at, placed_edges};
ghost use Rattle.pl_bits.specs.Bits.{has_bit};
ghost use Rattle.pl_node.specs.AvoidRows.{number_of};
ghost use Rattle.pl_faults.specs.Making.{placed_as, with_placed};
ghost use Rattle.pl_faults.specs.Missed.{AreApart};
ghost use Rattle.pl_faults.specs.Numbered.{has_number, is_number};

use pl_frame::SwitchId;
use pl_node::{AvoidRow, Memory, Place};
use pl_reports::Reports;
use std::alloc::Global;

/// An edge switch that told its pod and its position.
#[derive(Clone, Copy, Debug, PartialEq, Eq)]
pub struct Edge {
    pub switch: SwitchId,
    pub pod: u16,
    pub position: u8,
}

impl Edge {
    /// The number of its bit, if it has one.
    pub(crate) fn number(&self) -> Option<usize>
        ensures number { result ≡ number_of self.now.pod self.now.position }
        ensures below { IfSome result (λ n. n < 288) }
    {
        AvoidRow::number_of(self.pod, self.position)
    }

    /// Whether it has one.
    pub(crate) fn has_number(&self) -> bool
        ensures { result ≡ has_number self.now }
    {
        self.number().is_some()
    }
}

/// A row with one more bit, if there is one.
pub(crate) fn with_number(row: AvoidRow, number: Option<usize>) -> AvoidRow
    requires { IfSome number (λ n. n < 288) }
    ensures neighbour { result.neighbour ≡ row.neighbour }
    ensures bits { (n : ℕ) → has_bit result.words n ≡ (is_number n number || has_bit row.words n) }
{
    match number {
        Some(number) => row.with(number),
        None => row,
    }
}

/// All of them, by rising id.
pub(crate) fn placed_edges(alloc: Global, reports: &Reports) -> Result<Vec<Edge>, Memory>
    ensures { IfOk result (λ edges. map placed_as edges.items ≡ placed_edges reports.now) }
{
    let mut edges = Vec::new(alloc);
    for switch in reports.placed_edges() {
        add_placed(&mut edges, *switch, reports.place_of(*switch))?;
    }
    Ok(edges)
}

// Puts a switch behind them if it is one.
fn add_placed(edges: &mut Vec<Edge>, switch: SwitchId, place: Place) -> Result<(), Memory>
    ensures { OnOk result (map placed_as edges.new.items ≡ with_placed (map placed_as edges.old.items) (edge_at switch place)) }
{
    match edge_at(switch, place) {
        Some(edge) => {
            edges.push(edge)?;
            Ok(())
        }
        None => Ok(()),
    }
}

/// A switch as a placed edge switch, if it is one.
pub(crate) fn edge_at(switch: SwitchId, place: Place) -> Option<Edge>
    ensures { option_map placed_as result ≡ edge_at switch place }
{
    match (place.level, place.position, place.pod) {
        (Some(0), Some(position), Some(pod)) => Some(Edge {
            switch,
            pod,
            position,
        }),
        _ => None,
    }
}

/// Whether each of these has a bit of its own.
pub(crate) fn are_apart(edges: &[Edge]) -> bool
    ensures { IsTrue result → AreApart edges.now }
{
    let mut seen = AvoidRow::of(SwitchId(0));
    for edge in edges {
        match unseen(&seen, edge) {
            Some(number) => seen = seen.with(number),
            None => return false,
        }
    }
    true
}

// The number of an edge switch, if it has one that was not seen.
fn unseen(seen: &AvoidRow, edge: &Edge) -> Option<usize>
    ensures { IfSome result (λ n. (n < 288) × (number_of edge.now.pod edge.now.position ≡ Some n) × (has_bit seen.now.words n ≡ false)) }
{
    let number = edge.number()?;
    if seen.has(number) {
        return None;
    }
    Some(number)
}
