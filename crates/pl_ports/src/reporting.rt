//! What a fabric manager that begins anew is told of a switch and of its ports.
ghost use Rattle.std.specs.Prelude.{◌≡◌, ◌++◌, OnOk};
ghost use Rattle.pl_node.specs.SwitchViews.{SwitchView};
ghost use Rattle.pl_switch_rule.specs.Reporting.{each_told, own_reported, wish_reported};
ghost use Rattle.pl_ports.specs.PortsViews.{put_ports};

use crate::Ports;
use pl_layouts::Place;
use pl_node::{Act, Memory, Outbox, ToManager};
use pl_steps::{TellsAtPort, tell_at_each_port};

impl Ports {
    /// The fabric manager is told all that it has to know of them: the place, then the link at each port
    /// where a switch was heard, rising, then the wish for the number of a pod.
    pub fn report(&self, out: &mut Outbox) -> Result<(), Memory>
        ensures { OnOk result ((v : SwitchView) → out.new ≡ out.old ++ each_told (own_reported (put_ports self.now v))) }
    {
        out.push(Act::Tell(ToManager::Place(self.place())))?;
        tell_at_each_port(&HeardLinks { ports: self }, self.k(), out)?;
        tell_wish(self.place(), out)?;
        Ok(())
    }
}

// The links of a switch, be they usable or not.
#[derive(Drop)]
struct HeardLinks<'a> {
    ports: &'a Ports,
}

impl TellsAtPort for HeardLinks<'_> {
    ghost use Rattle.pl_ports.specs.PortsViews.{ports_alone};
    ghost use Rattle.pl_ports.specs.Standings.{link_known};

    ghost ports = { λ links. links.ports.now.k };

    ghost told = { λ links. link_known (ports_alone links.ports.now) };

    fn tell(&self, port: u8, out: &mut Outbox) -> Result<(), Memory> {
        match self.ports.record(port).heard {
            Some(neighbour) => out.push(Act::Tell(ToManager::Link {
                neighbour: neighbour.id,
                usable: self.ports.is_usable(port),
            })),
            None => Ok(()),
        }
    }
}

fn tell_wish(place: Place, out: &mut Outbox) -> Result<(), Memory>
    ensures { OnOk result (out.new ≡ out.old ++ each_told (wish_reported place)) }
{
    if place.level == Some(0) && place.position == Some(0) && place.pod.is_none() {
        return out.push(Act::Tell(ToManager::PodWanted));
    }
    Ok(())
}
