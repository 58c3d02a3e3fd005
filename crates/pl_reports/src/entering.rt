ghost use Rattle.std.specs.Prelude.{◌≡◌, ◌<◌, IfOk, OnOk, Some, length, slice_get};
ghost use Rattle.std.specs.BTreeSet.{insert_key};
ghost use Rattle.std.specs.List.Sorted.{IsStrictlySortedBy};
ghost use Rattle.pl_node.specs.ManagerViews.{id_cmp};
ghost use Rattle.pl_reports.specs.Kept.{Enters, no_report};

use crate::positions::position;
use crate::switch_report::SwitchReport;
use pl_frame::SwitchId;
use pl_node::{Memory, Place, SwitchList};
use std::alloc::Global;

/// A place of which nothing is known.
pub(crate) const NOWHERE: Place = Place {
    level: None,
    position: None,
    pod: None,
};

/// Where a switch stands among those that told something. One that told nothing takes its place there, with
/// nothing known of it.
pub(crate) fn enter(
    speakers: &mut Vec<SwitchId>,
    all: &mut Vec<SwitchReport>,
    alloc: Global,
    switch: SwitchId,
) -> Result<usize, Memory>
    requires rising { IsStrictlySortedBy id_cmp speakers.old.items }
    requires even { length all.old.items ≡ length speakers.old.items }
    ensures at { OnOk result (speakers.new.items ≡ insert_key id_cmp speakers.old.items switch) }
    ensures even { OnOk result (length all.new.items ≡ length speakers.new.items) }
    ensures rising { OnOk result (IsStrictlySortedBy id_cmp speakers.new.items) }
    ensures there { IfOk result (λ at. slice_get speakers.new.items at ≡ Some switch) }
    ensures within { IfOk result (λ at. at < length all.new.items) }
    ensures all { OnOk result (Enters speakers.old.items all.old.items switch speakers.new.items all.new.items) }
{
    match position(speakers.as_slice(), switch) {
        Ok(at) => Ok(at),
        Err(at) => {
            speakers.insert(at, switch)?;
            all.insert(at, unheard(alloc))?;
            Ok(at)
        }
    }
}

// Of a switch that told nothing.
fn unheard(alloc: Global) -> SwitchReport
    ensures { result ≡ no_report }
{
    SwitchReport {
        place: NOWHERE,
        neighbours: SwitchList::new(alloc),
        alive: SwitchList::new(alloc),
    }
}
