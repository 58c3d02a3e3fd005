ghost use Rattle.std.specs.Prelude.{◌≡◌};
ghost use Rattle.pl_switch_rule.specs.Forwarding.{came_between};
ghost use Rattle.pl_switch_rule.specs.GroupForwarding.{way_of};

use pl_layouts::Place;

/// Where a frame comes from that a switch is to pass on: a host, or the switch itself; a switch of a
/// lower level; or one of a higher level.
#[derive(Clone, Copy, Debug, PartialEq, Eq)]
pub enum Came {
    FromHost,
    FromBelow,
    FromAbove,
}

impl Came {
    /// Where a frame of a neighbour comes from, by the switch's own level and the neighbour's; none
    /// where these are equal, or one is not known.
    pub fn between(own: Option<u8>, other: Option<u8>) -> Option<Came>
        ensures { result ≡ came_between own other }
    {
        match (own, other) {
            (Some(own), Some(other)) if other < own => Some(Came::FromBelow),
            (Some(own), Some(other)) if own < other => Some(Came::FromAbove),
            _ => None,
        }
    }
}

/// Which way a switch passes a frame to a group on.
#[derive(Clone, Copy, Debug, PartialEq, Eq)]
pub enum Way {
    Up,
    Down,
    ToHosts,
    Nowhere,
}

impl Way {
    /// The way of a frame to a group from a switch at this place: up to the core switch of its tree, from
    /// there down, and at an edge switch to the hosts.
    pub fn of_group(place: Place, came: Option<Came>) -> Way
        ensures { result ≡ way_of place came }
    {
        match (place.level, came) {
            (_, Some(Came::FromHost)) => Way::Up,
            (Some(2), Some(Came::FromBelow)) | (Some(2), None) => Way::Down,
            (Some(1), Some(Came::FromBelow)) => Way::Up,
            (Some(1), Some(Came::FromAbove)) => Way::Down,
            (Some(0), Some(Came::FromAbove)) => Way::ToHosts,
            _ => Way::Nowhere,
        }
    }
}
