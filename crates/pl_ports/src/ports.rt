ghost use Rattle.std.specs.Prelude.{◌≡◌, ◌<◌, length, map, replicate, slice_set};
ghost use Rattle.pl_node.specs.PortRecords.{aged, is_usable, is_usable_to, new_port, port_of};
ghost use Rattle.pl_node.specs.SwitchFacts.{CanBoot, IsTreeSize};
ghost use Rattle.pl_layouts.specs.Placement.{nowhere};
ghost use Rattle.pl_ldp.specs.Writable.{IsWritableId};
ghost use Rattle.pl_ports.specs.PortsViews.{ports_alone};
ghost use Rattle.pl_ports.specs.SoundPorts.{AreSound, IsSoundPlace, IsSoundRecord};

use pl_frame::SwitchId;
use pl_layouts::Place;
use pl_node::PortRecord;
use std::marker::Model;

// The most ports that a switch has.
const MOST: usize = 24;

// A port at which nothing was heard, and no host.
const NEW_PORT: PortRecord = PortRecord {
    host: false,
    heard: None,
    silent: 0,
};

/// What a switch knows of itself and of its ports. Contracts see that part of its view: the id, k, the
/// place and the record of each port. No call takes memory, unless it is given an allocator or an
/// outbox.
#[derive(Drop)]
pub struct Ports {
    id: SwitchId,
    k: u8,
    place: Place,
    // Those past the first k are new ports.
    records: [PortRecord; MOST],
}

impl Model for Ports {
    ghost use Rattle.std.specs.Prelude.{take};
    ghost use Rattle.pl_ports.specs.PortsViews.{PortsView};
    ghost use Rattle.pl_ports.specs.SoundPorts.{ArePorts};

    ghost Value = { PortsView };

    ghost view = { λ p. record { id = p.id; k = p.k; place = p.place; ports = take p.k p.records } };

    ghost invariant = { λ p. ArePorts p.id p.k p.place p.records };
}

impl Ports {
    /// A switch that knows its id and the number of its ports, and nothing else.
    pub fn new(id: SwitchId, k: u8) -> Ports
        requires { CanBoot id k }
        ensures { result ≡ record { id = id; k = k; place = nowhere; ports = replicate k new_port } }
    {
        Ports {
            id,
            k,
            place: Place {
                level: None,
                position: None,
                pod: None,
            },
            records: [NEW_PORT; MOST],
        }
    }

    pub fn id(&self) -> SwitchId
        ensures id { result ≡ self.now.id }
        ensures named { IsWritableId self.now.id }
    {
        self.id
    }

    pub fn k(&self) -> u8
        ensures k { result ≡ self.now.k }
        ensures size { IsTreeSize self.now.k }
    {
        self.k
    }

    pub fn place(&self) -> Place
        ensures place { result ≡ self.now.place }
        ensures sound { IsSoundPlace self.now.place }
    {
        self.place
    }

    /// The records of all ports, the first one first.
    pub fn records(&self) -> &[PortRecord]
        ensures records { result.now ≡ self.now.ports }
        ensures many { length self.now.ports ≡ self.now.k }
        ensures sound { AreSound self.now.ports }
    {
        &self.records[..usize::from(self.k)]
    }

    /// What is known of a port.
    pub fn record(&self, port: u8) -> PortRecord
        requires { port < self.now.k }
        ensures known { result ≡ port_of (ports_alone self.now) port }
        ensures sound { IsSoundRecord result }
        ensures within { port < 24 }
        ensures many { length self.now.ports ≡ self.now.k }
    {
        self.records[usize::from(port)]
    }

    /// Whether the last message at a port, at most two ticks ago, says that this switch was heard.
    pub fn is_usable(&self, port: u8) -> bool
        requires { port < self.now.k }
        ensures usable { result ≡ is_usable (ports_alone self.now) port }
        ensures within { port < 24 }
    {
        self.record(port).is_usable(self.id)
    }

    /// Whether a port is usable and its neighbour has this level.
    pub fn is_usable_to(&self, level: u8, port: u8) -> bool
        requires { port < self.now.k }
        ensures { result ≡ is_usable_to (ports_alone self.now) level port }
    {
        let record = self.record(port);
        match record.heard {
            Some(neighbour) => { record.is_usable(self.id) && neighbour.place.level == Some(level) }
            None => false,
        }
    }

    // The record of a port is replaced.
    pub(crate) fn put(&mut self, port: u8, heard: PortRecord)
        requires port { port < self.old.k }
        requires sound { IsSoundRecord heard }
        ensures { self.new ≡ record self.old { ports = slice_set self.old.ports port heard } }
    {
        self.records[usize::from(port)] = heard;
    }

    // The switch is at another place.
    pub(crate) fn stand(&mut self, place: Place)
        requires { IsSoundPlace place }
        ensures { self.new ≡ record self.old { place = place } }
    {
        self.place = place;
    }

    // Each port ages.
    pub(crate) fn age(&mut self)
        ensures { self.new ≡ record self.old { ports = map aged self.old.ports } }
    {
        age_all(&mut self.records);
    }
}

fn age_all(records: &mut [PortRecord])
    ensures { records.new ≡ map aged records.old }
{
    for i in 0..records.len() {
        records[i] = records[i].aged();
    }
}
