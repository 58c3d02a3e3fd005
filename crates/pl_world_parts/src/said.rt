ghost use Rattle.std.specs.Prelude.{◌≡◌, ◌<◌, ℕ, slice_get, IsTrue, Some};
ghost use Rattle.pl_node.specs.PortRecords.{heard_id, heard_place};
ghost use Rattle.pl_world_parts.specs.StaleCounts.{direction_by, said_at};

use pl_frame::SwitchId;
use pl_layouts::{Ldm, Place};
use pl_node::{PortRecord, SwitchFacts};

/// What a switch announces out of a port, and whether a host is there, so that it announces nothing.
#[derive(Clone, Copy, Debug, PartialEq, Eq)]
pub struct Said {
    pub host: bool,
    pub id: SwitchId,
    pub ldm: Ldm,
}

// Stands where nothing was looked at.
const NOTHING: Said = Said {
    host: true,
    id: SwitchId(0),
    ldm: Ldm {
        place: Place {
            level: None,
            position: None,
            pod: None,
        },
        direction: 0,
        echo: None,
    },
};

/// What a switch announces out of each port now.
pub fn all_said<S: SwitchFacts>(device: &S) -> [Said; 24]
    ensures { (port : ℕ) → port < (S.view device.now).k → slice_get result port ≡ Some (said_at (S.view device.now) port) }
{
    let mut said = [NOTHING; 24];
    for port in 0..device.k() {
        said[port as usize] = said_at(device, port);
    }
    said
}

/// Whether it announces out of a port what it did.
pub fn says_still<S: SwitchFacts>(device: &S, port: u8, said: &Said) -> bool
    requires { port < (S.view device.now).k }
    ensures { IsTrue result → said.now ≡ said_at (S.view device.now) port }
{
    is_same(said, &said_at(device, port))
}

fn is_same(a: &Said, b: &Said) -> bool
    ensures { IsTrue result → a.now ≡ b.now }
{
    a == b
}

fn said_at<S: SwitchFacts>(device: &S, port: u8) -> Said
    requires { port < (S.view device.now).k }
    ensures { result ≡ said_at (S.view device.now) port }
{
    let record = device.port(port);
    let place = device.place();
    Said {
        host: record.host,
        id: device.id(),
        ldm: Ldm {
            place,
            direction: direction(place.level, heard_level(&record)),
            echo: heard_id(&record),
        },
    }
}

// Which way the neighbour at a port lies: 1 up, 2 down, 0 unknown.
fn direction(level: Option<u8>, heard: Option<u8>) -> u8
    ensures { result ≡ direction_by level heard }
{
    match (level, heard) {
        (Some(0), _) | (Some(1), Some(2)) => 1,
        (Some(2), _) | (Some(1), Some(0)) => 2,
        _ => 0,
    }
}

fn heard_level(known: &PortRecord) -> Option<u8>
    ensures { result ≡ (heard_place known.now.heard).level }
{
    match known.heard {
        Some(neighbour) => neighbour.place.level,
        None => None,
    }
}

fn heard_id(known: &PortRecord) -> Option<SwitchId>
    ensures { result ≡ heard_id known.now.heard }
{
    match known.heard {
        Some(neighbour) => Some(neighbour.id),
        None => None,
    }
}
