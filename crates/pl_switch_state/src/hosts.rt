ghost use Rattle.std.specs.Prelude.{◌≡◌, ◌<◌, ◌≤◌, ◌&&◌, not, true, length, IfOk, OnOk};
ghost use Rattle.pl_frame.specs.Ethernet.{source_of};
ghost use Rattle.pl_node.specs.PortRecords.{port_of};
ghost use Rattle.pl_layouts.specs.Placement.{is_known};
ghost use Rattle.pl_steps.specs.Taken.{IsTaken};
ghost use Rattle.pl_switch_rule.specs.Granting.{has_no_address, learns_source};
ghost use Rattle.pl_switch_rule.specs.Levels.{finds_host};
ghost use Rattle.pl_ports.specs.Changes.{takes_host};
ghost use Rattle.pl_ports.specs.PortsViews.{ports_alone};
ghost use Rattle.pl_ports.specs.SoundPorts.{IsSoundPlace};

use crate::SwitchState;
use crate::settling::settle;
use pl_frame::Frame;
use pl_node::{Memory, Outbox};
use pl_ports::Ports;

impl SwitchState {
    /// A frame of a host comes at a port: a host is there, and this is an edge switch. Where that is known
    /// nothing is done.
    pub fn find_host(&mut self, port: u8, out: &mut Outbox) -> Result<(), Memory>
        requires port { port < self.old.k }
        requires host { takes_host self.old port ≡ true }
        ensures taken { OnOk result (IsTaken (finds_host self.old port) self.new out.old out.new) }
        ensures id { self.new.id ≡ self.old.id }
        ensures k { self.new.k ≡ self.old.k }
        ensures edge { OnOk result (is_known self.new.place.level 0 ≡ true) }
        ensures avoid { self.new.avoid ≡ self.old.avoid }
    {
        if knows_host(&self.ports, port) {
            return Ok(());
        }
        let before = self.ports.standing();
        self.ports.host_frame(port);
        settle(
            &mut self.ports,
            &mut self.proposer,
            &mut self.edge,
            &before,
            out,
        )
    }

    /// The source of a frame that a host sent is learnt. False exactly where it has no address and can get
    /// none, so that the frame ends.
    pub fn learn(&mut self, port: u8, frame: &Frame, out: &mut Outbox) -> Result<bool, Memory>
        requires port { port < self.old.k }
        requires long { 14 ≤ length frame.now }
        requires edge { is_known self.old.place.level 0 ≡ true }
        ensures taken { OnOk result (IsTaken (learns_source self.old port frame.now) self.new out.old out.new) }
        ensures known { IfOk result (λ known. not known ≡ has_no_address self.new port (source_of frame.now)) }
        ensures id { self.new.id ≡ self.old.id }
        ensures k { self.new.k ≡ self.old.k }
        ensures place { self.new.place ≡ self.old.place }
        ensures ports { self.new.ports ≡ self.old.ports }
        ensures avoid { self.new.avoid ≡ self.old.avoid }
    {
        self.edge.learn(port, frame, out)
    }
}

// Whether this is an edge switch that knows of a host at a port.
fn knows_host(ports: &Ports, port: u8) -> bool
    requires { port < ports.now.k }
    ensures known { result ≡ (is_known ports.now.place.level 0 && (port_of (ports_alone ports.now) port).host) }
    ensures sound { IsSoundPlace ports.now.place }
{
    ports.place().level == Some(0) && ports.record(port).host
}
