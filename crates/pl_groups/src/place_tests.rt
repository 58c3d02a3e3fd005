ghost use Rattle.std.specs.Prelude.{◌≡◌, ◌&&◌};
ghost use Rattle.pl_layouts.specs.Placement.{is_known};
ghost use Rattle.pl_node.specs.ManagerViews.{has_level, is_alive};

use pl_frame::SwitchId;
use pl_node::Place;
use pl_reports::Reports;

/// Whether a switch told that it has this level.
pub(crate) fn has_level(reports: &Reports, switch: SwitchId, level: u8) -> bool
    ensures { result ≡ has_level reports.now switch level }
{
    reports.place_of(switch).level == Some(level)
}

/// Whether a place is on this level.
pub(crate) fn is_on_level(place: Place, level: u8) -> bool
    ensures { result ≡ is_known place.level level }
{
    place.level == Some(level)
}

/// Whether a place is of this pod.
pub(crate) fn is_of_pod(place: Place, pod: u16) -> bool
    ensures { result ≡ is_known place.pod pod }
{
    place.pod == Some(pod)
}

/// Whether a neighbour of a switch is an aggregation switch over an alive link.
pub(crate) fn is_adjacent(reports: &Reports, switch: SwitchId, neighbour: SwitchId) -> bool
    ensures { result ≡ (is_alive reports.now switch neighbour && has_level reports.now neighbour 1) }
{
    reports.is_alive(switch, neighbour) && has_level(reports, neighbour, 1)
}
