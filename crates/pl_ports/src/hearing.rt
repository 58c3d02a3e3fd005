ghost use Rattle.std.specs.Prelude.{◌≡◌, ◌<◌, if◌then◌else◌};
ghost use Rattle.pl_node.specs.SwitchViews.{SwitchView};
ghost use Rattle.pl_ldp.specs.Writable.{IsWritableControl};
ghost use Rattle.pl_lists.specs.Ports.{ports_of};
ghost use Rattle.pl_switch_rule.specs.Announcing.{with_aged_ports};
ghost use Rattle.pl_switch_rule.specs.Levels.{becomes_edge, with_message};
ghost use Rattle.pl_ports.specs.Changes.{becomes_host_port, ceased, takes_host, usability_changes, with_host};
ghost use Rattle.pl_ports.specs.PortsViews.{ports_alone, put_ports};

use crate::Ports;
use pl_frame::SwitchId;
use pl_layouts::{Control, Ldm};
use pl_lists::PortSet;
use pl_node::{Neighbour, PortRecord};

impl Ports {
    /// A location discovery message comes at a port, and the port's record is replaced. The answer is
    /// whether the port became usable or ceased to be. Level and pod stay until `learn`.
    pub fn heard(&mut self, port: u8, from: SwitchId, ldm: &Ldm) -> bool
        requires port { port < self.old.k }
        requires message { IsWritableControl (Control.Ldm from ldm.now) }
        ensures told { result ≡ usability_changes (ports_alone self.old) (ports_alone self.new) port }
        ensures view { (v : SwitchView) → put_ports self.new v ≡ with_message (put_ports self.old v) port from ldm.now }
    {
        let was_usable = self.is_usable(port);
        let record = PortRecord {
            host: self.record(port).host,
            heard: Some(Neighbour {
                id: from,
                place: ldm.place,
                echo: ldm.echo,
            }),
            silent: 0,
        };
        self.put(port, record);
        was_usable != self.is_usable(port)
    }

    /// A frame of a host comes at a port. Where no neighbour was heard there, and this is no aggregation
    /// or core switch, a host is there and this is an edge switch; else nothing changes. The answer is
    /// whether the port became a host port.
    pub fn host_frame(&mut self, port: u8) -> bool
        requires { port < self.old.k }
        ensures told { result ≡ becomes_host_port (ports_alone self.old) (ports_alone self.new) port }
        ensures view { (v : SwitchView) → put_ports self.new v ≡ (if takes_host (put_ports self.old v) port then becomes_edge (with_host (put_ports self.old v) port) else put_ports self.old v) }
    {
        if !self.takes_host(port) {
            return false;
        }
        let record = self.record(port);
        self.put(
            port,
            PortRecord {
                host: true,
                ..record
            },
        );
        self.become_edge();
        !record.host
    }

    fn takes_host(&self, port: u8) -> bool
        requires { port < self.now.k }
        ensures { result ≡ takes_host (ports_alone self.now) port }
    {
        match self.place().level {
            Some(1 | 2) => false,
            _ => self.record(port).is_open_to_hosts(),
        }
    }

    /// Each port at which a neighbour was heard has been silent for one tick more. The answer is the
    /// ports that ceased to be usable.
    pub fn tick(&mut self) -> PortSet
        ensures told { ports_of result ≡ ceased (ports_alone self.old) (ports_alone self.new) }
        ensures view { (v : SwitchView) → put_ports self.new v ≡ with_aged_ports (put_ports self.old v) }
    {
        let ceasing = self.ceasing();
        self.age();
        ceasing
    }
}
