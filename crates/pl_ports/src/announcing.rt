ghost use Rattle.std.specs.Prelude.{◌≡◌, ◌<◌, ◌≤◌, ◌↔◌, ◌++◌, map, IfOk, IsTrue, OnOk};
ghost use Rattle.pl_node.specs.declared.acts.Act.{Act};
ghost use Rattle.pl_node.specs.Announcements.{announcement, direction_of};
ghost use Rattle.pl_node.specs.PortRecords.{heard_id, heard_place, ports_where};
ghost use Rattle.pl_node.specs.SwitchFacts.{IsAnnounced};
ghost use Rattle.pl_node.specs.SwitchViews.{SwitchView};
ghost use Rattle.pl_layouts.specs.Control.{control_frame};
ghost use Rattle.pl_ldp.specs.Writable.{IsWritableControl};
ghost use Rattle.pl_switch_rule.specs.Announcing.{announces_at};
ghost use Rattle.pl_ports.specs.PortsViews.{ports_alone, put_ports};

use crate::Ports;
use pl_frame::{Frame, SwitchId};
use pl_layouts::{Control, Ldm};
use pl_ldp::write_control;
use pl_node::{Memory, Outbox, PortRecord};
use pl_steps::{SendsAtPort, send_at_each_port};
use std::alloc::Global;

// Which way a neighbour lies.
const UNKNOWN: u8 = 0;

const UP: u8 = 1;

const DOWN: u8 = 2;

impl Ports {
    /// The location discovery message that the switch would send out of a port now.
    pub fn announced(&self, port: u8) -> Control
        requires { port < self.now.k }
        ensures frame { control_frame result ≡ announcement (ports_alone self.now) port }
        ensures writable { IsWritableControl result }
    {
        let ldm = Ldm {
            place: self.place(),
            direction: self.direction(port),
            echo: heard_id(&self.record(port)),
        };
        Control::Ldm(self.id(), ldm)
    }

    /// Its frame.
    pub fn announcement(&self, alloc: Global, port: u8) -> Result<Frame, Memory>
        requires { port < self.now.k }
        ensures { IfOk result (λ frame. frame ≡ announcement (ports_alone self.now) port) }
    {
        let mut bytes = [0; 35];
        let length = write_control(&self.announced(port), &mut bytes);
        Frame::copy(alloc, &bytes[..length])
    }

    /// Whether a frame is that message, at a port that is no host port. Takes no memory.
    pub fn announces(&self, port: u8, frame: &[u8]) -> bool
        requires { port < self.now.k }
        ensures { (v : SwitchView) → IsTrue result ↔ IsAnnounced (put_ports self.now v) port frame.now }
    {
        if self.record(port).host {
            return false;
        }
        let mut bytes = [0; 35];
        let length = write_control(&self.announced(port), &mut bytes);
        frame == &bytes[..length]
    }

    /// Sends it out of each port that is no host port, rising.
    pub fn announce(&self, alloc: Global, out: &mut Outbox) -> Result<(), Memory>
        ensures { OnOk result (out.new ≡ out.old ++ map (λ port. Act.Control port (announcement (ports_alone self.now) port)) (ports_where (ports_alone self.now) (announces_at (ports_alone self.now)))) }
    {
        send_at_each_port(&Announcing { ports: self, alloc }, self.k(), out)
    }

    // Which way the neighbour at a port lies.
    fn direction(&self, port: u8) -> u8
        requires { port < self.now.k }
        ensures toward { result ≡ direction_of (ports_alone self.now) port }
        ensures within { result ≤ 2 }
    {
        match (self.place().level, heard_level(&self.record(port))) {
            (Some(0), _) | (Some(1), Some(2)) => UP,
            (Some(2), _) | (Some(1), Some(0)) => DOWN,
            _ => UNKNOWN,
        }
    }
}

// The announcements of a switch, port by port.
#[derive(Drop)]
struct Announcing<'a> {
    ports: &'a Ports,
    alloc: Global,
}

impl SendsAtPort for Announcing<'_> {
    ghost use Rattle.pl_node.specs.Announcements.{announcement};
    ghost use Rattle.pl_switch_rule.specs.Announcing.{announces_at};
    ghost use Rattle.pl_ports.specs.PortsViews.{ports_alone};

    ghost ports = { λ announcing. announcing.ports.now.k };

    ghost sends = { λ announcing. announces_at (ports_alone announcing.ports.now) };

    ghost frame_at = { λ announcing. announcement (ports_alone announcing.ports.now) };

    fn frame(&self, port: u8) -> Result<Option<Frame>, Memory> {
        if self.ports.record(port).host {
            Ok(None)
        } else {
            let frame = self.ports.announcement(self.alloc, port)?;
            Ok(Some(frame))
        }
    }
}

fn heard_level(known: &PortRecord) -> Option<u8>
    ensures { result ≡ (heard_place known.now.heard).level }
{
    match known.heard {
        Some(neighbour) => neighbour.place.level,
        None => None,
    }
}

fn heard_id(known: &PortRecord) -> Option<SwitchId>
    ensures { result ≡ heard_id known.now.heard }
{
    match known.heard {
        Some(neighbour) => Some(neighbour.id),
        None => None,
    }
}
