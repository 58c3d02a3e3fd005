ghost use Rattle.std.specs.Prelude.{◌≡◌, ◌&&◌, ◌<◌, IfOk, false, if◌then◌else◌, length, map, slice_set, true};
ghost use Rattle.pl_node.specs.ManagerViews.{is_alive};
ghost use Rattle.pl_layouts.specs.Placement.{is_known};
ghost use Rattle.pl_faults.specs.Rows.{leads_down, row_of};

use crate::edges::Edge;
use crate::reach::has_pod;
use pl_bits::Row;
use pl_frame::SwitchId;
use pl_node::{Memory, Place};
use pl_reports::Reports;
use std::alloc::Global;

/// No edge switch is reached.
pub(crate) fn none_reached(alloc: Global, edges: &[Edge]) -> Result<Row, Memory>
    ensures { IfOk result (λ row. row ≡ map (λ e. false) edges.now) }
{
    let row = Row::new(alloc, edges.len())?;
    Ok(row)
}

/// The edge switches of its pod to which a switch has a link that is alive.
pub(crate) fn linked_down(
    alloc: Global,
    reports: &Reports,
    edges: &[Edge],
    switch: SwitchId,
) -> Result<Row, Memory>
    ensures { IfOk result (λ row. row ≡ row_of (leads_down reports.now) edges.now switch) }
{
    let place = reports.place_of(switch);
    let mut row = none_reached(alloc, edges)?;
    for i in 0..edges.len() {
        let leads = is_linked_down(reports, place, &edges[i], switch);
        set_if(&mut row, i, leads);
    }
    Ok(row)
}

// Edge switch number i is reached, if it is to be.
fn set_if(row: &mut Row, i: usize, leads: bool)
    requires { i < length row.old }
    ensures { row.new ≡ (if leads then slice_set row.old i true else row.old) }
{
    if leads {
        row.set(i);
    }
}

// Whether a switch at this place has a link that is alive to an edge switch of its pod.
fn is_linked_down(reports: &Reports, place: Place, edge: &Edge, switch: SwitchId) -> bool
    ensures { result ≡ (is_known place.pod edge.now.pod && is_alive reports.now switch edge.now.switch) }
{
    has_pod(place, edge.pod) && reports.is_alive(switch, edge.switch)
}
