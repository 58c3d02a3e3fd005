ghost use Rattle.std.specs.Prelude.{◌≡◌, ◌<◌, OnOk, Some, length, slice_get, slice_set};
ghost use Rattle.std.specs.BTreeSet.{insert_key};
ghost use Rattle.std.specs.List.Sorted.{IsStrictlySortedBy};
ghost use Rattle.pl_node.specs.ManagerViews.{id_cmp};
ghost use Rattle.pl_reports.specs.Kept.{RenewedAt, RenewedBeside};
ghost use Rattle.pl_reports.specs.declared.switch_report.SwitchReport.{SwitchReport};

use crate::living::{Links, living_of};
use crate::positions::position;
use crate::switch_report::SwitchReport;
use pl_frame::SwitchId;
use pl_node::{Memory, Place};
use std::alloc::Global;

/// One of the switches told its place.
pub(crate) fn move_to(all: &mut Vec<SwitchReport>, at: usize, place: Place)
    requires { at < length all.old.items }
    ensures { (report : SwitchReport) → slice_get all.old.items at ≡ Some report →
        all.new.items ≡ slice_set all.old.items at (record report { place = place }) }
{
    all[at].place = place;
}

/// One of the switches told of one more neighbour.
pub(crate) fn add_neighbour(
    all: &mut Vec<SwitchReport>,
    at: usize,
    neighbour: SwitchId,
) -> Result<(), Memory>
    requires { at < length all.old.items }
    ensures even { length all.new.items ≡ length all.old.items }
    ensures added { OnOk result ((report : SwitchReport) → slice_get all.old.items at ≡ Some report →
        all.new.items ≡ slice_set all.old.items at (record report { neighbours = insert_key id_cmp report.neighbours neighbour })) }
{
    all[at].neighbours.insert(neighbour)
}

/// Puts down anew which neighbours of one of the switches are over links that are alive.
pub(crate) fn renew_alive(
    all: &mut Vec<SwitchReport>,
    alloc: Global,
    links: &Links,
    at: usize,
    switch: SwitchId,
) -> Result<(), Memory>
    requires { at < length all.old.items }
    ensures even { length all.new.items ≡ length all.old.items }
    ensures renewed { OnOk result (RenewedAt links.now.entries all.old.items at switch all.new.items) }
{
    all[at].alive = living_of(alloc, links, switch, all[at].neighbours.as_slice())?;
    Ok(())
}

/// The same for a switch that may have told nothing.
pub(crate) fn renew_beside(
    all: &mut Vec<SwitchReport>,
    alloc: Global,
    links: &Links,
    speakers: &[SwitchId],
    switch: SwitchId,
) -> Result<(), Memory>
    requires rising { IsStrictlySortedBy id_cmp speakers.now }
    requires even { length all.old.items ≡ length speakers.now }
    ensures { OnOk result (RenewedBeside links.now.entries speakers.now all.old.items switch all.new.items) }
{
    match position(speakers, switch) {
        Ok(at) => {
            renew_alive(all, alloc, links, at, switch)?;
            Ok(())
        }
        Err(_) => Ok(()),
    }
}
