ghost use Rattle.std.specs.Prelude.{◌≡◌, replicate};
ghost use Rattle.pl_tables.specs.Leads.{above, key_below, lead_of, no_lead};

use pl_frame::SwitchId;
use pl_layouts::Place;
use pl_node::{Neighbour, PortRecord};

/// What the neighbour at a usable port is to a switch: one above, by its id, or one below, by the key of
/// its row.
#[derive(Clone, Copy, Debug, PartialEq, Eq)]
pub struct Lead {
    pub up: Option<SwitchId>,
    pub down: Option<u32>,
}

impl Lead {
    /// A neighbour that is neither, or none.
    pub(crate) const NONE: Lead = Lead {
        up: None,
        down: None,
    };
}

/// No port has one.
pub(crate) fn no_leads() -> [Lead; 24]
    ensures { result ≡ replicate 24 no_lead }
{
    [Lead::NONE; 24]
}

/// The lead at a port, by the level and the id of the switch and by the port's record.
pub(crate) fn lead_of(level: Option<u8>, me: SwitchId, port: PortRecord) -> Lead
    ensures { result ≡ lead_of level me port }
{
    match port.heard {
        Some(neighbour) if port.is_usable(me) => Lead {
            up: above(level, neighbour),
            down: key_below(level, neighbour.place),
        },
        _ => Lead::NONE,
    }
}

fn above(level: Option<u8>, neighbour: Neighbour) -> Option<SwitchId>
    ensures { result ≡ above level neighbour }
{
    match (level, neighbour.place.level) {
        (Some(low), Some(high)) if u16::from(high) == u16::from(low) + 1 => Some(neighbour.id),
        _ => None,
    }
}

fn key_below(level: Option<u8>, place: Place) -> Option<u32>
    ensures { result ≡ key_below level place }
{
    match (level, place.level) {
        (Some(1), Some(0)) => place.position.map(u32::from),
        (Some(2), Some(1)) => place.pod.map(u32::from),
        _ => None,
    }
}
