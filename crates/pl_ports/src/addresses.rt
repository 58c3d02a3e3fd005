ghost use Rattle.std.specs.Prelude.{◌≡◌, ◌<◌};
ghost use Rattle.pl_node.specs.PortRecords.{place_at};
ghost use Rattle.pl_switch_rule.specs.Forwarding.{came_by};
ghost use Rattle.pl_switch_rule.specs.Granting.{address_at_port, is_local};
ghost use Rattle.pl_switch_rule.specs.Levels.{has_become_placed};
ghost use Rattle.pl_ports.specs.PortsViews.{ports_alone};

use crate::Ports;
use pl_layouts::Place;
use pl_pmac::Pmac;
use pl_switch_rule::Came;

impl Ports {
    /// Whether an address has the pod and the position of this edge switch.
    pub fn is_local(&self, address: Pmac) -> bool
        ensures { result ≡ is_local (ports_alone self.now) address }
    {
        let place = self.place();
        place.level == Some(0)
            && place.pod == Some(address.pod)
            && place.position == Some(address.position)
    }

    /// The address number vmid of a port, with 0 for a pod or position that is not known.
    pub fn address(&self, port: u8, vmid: u16) -> Pmac
        ensures { result ≡ address_at_port (ports_alone self.now) port vmid }
    {
        let place = self.place();
        Pmac {
            pod: place.pod.unwrap_or(0),
            position: place.position.unwrap_or(0),
            port,
            vmid,
        }
    }

    /// Whether this is an edge switch that is placed, and was not placed where it was before.
    pub fn has_become_placed(&self, before: Place) -> bool
        ensures { result ≡ has_become_placed before self.now.place }
    {
        let place = self.place();
        place.level == Some(0) && place.is_placed() && !before.is_placed()
    }

    /// The place of the neighbour at a port, as far as it was told.
    pub fn place_at(&self, port: u8) -> Place
        requires { port < self.now.k }
        ensures { result ≡ place_at (ports_alone self.now) port }
    {
        match self.record(port).heard {
            Some(neighbour) => neighbour.place,
            None => Place {
                level: None,
                position: None,
                pod: None,
            },
        }
    }

    /// Where a frame comes from that comes at a port; none where that is not known.
    pub fn came_by(&self, port: u8) -> Option<Came>
        requires { port < self.now.k }
        ensures { result ≡ came_by (ports_alone self.now) port }
    {
        Came::between(self.place().level, self.place_at(port).level)
    }
}
