ghost use Rattle.std.specs.Prelude.{◌≡◌, ◌==◌, not};
ghost use Rattle.std.specs.List.{filter};
ghost use Rattle.pl_node.specs.PortRecords.{ports_where};
ghost use Rattle.pl_lists.specs.Ports.{ports_of};
ghost use Rattle.pl_switch_rule.specs.Granting.{is_local};
ghost use Rattle.pl_switch_rule.specs.GroupForwarding.{host_ports, is_reached};

use crate::GroupFacts;
use crate::port_test::{PortTest, ports_that_pass};
use pl_lists::PortSet;
use pl_multicast::FLOOD;
use pl_node::SwitchFacts;
use pl_pmac::Pmac;

/// Whether an address has the pod and the position of this edge switch.
pub fn is_local<F: SwitchFacts>(facts: &F, address: Pmac) -> bool
    ensures { result ≡ is_local (F.view facts.now) address }
{
    let place = facts.place();
    place.level == Some(0)
        && place.pod == Some(address.pod)
        && place.position == Some(address.position)
}

/// The ports of an edge switch at which a frame to a group goes out to hosts: a flood at each host port, a
/// routed group at each port with a member, and neither at that of its source.
pub fn host_ports<F: GroupFacts>(facts: &F, group: u32, source: Pmac) -> PortSet
    ensures { ports_of result ≡ host_ports (F.view facts.now) group source }
{
    let reached = reached_ports(facts, group);
    if is_local(facts, source) {
        without_port(reached, source.port)
    } else {
        reached
    }
}

// The ports that a group reaches, whoever sent to it.
fn reached_ports<F: GroupFacts>(facts: &F, group: u32) -> PortSet
    ensures { ports_of result ≡ ports_where (F.view facts.now) (is_reached (F.view facts.now) group) }
{
    if group == FLOOD {
        ports_that_pass(&HasHost { facts }, facts.k())
    } else {
        facts.member_ports(group)
    }
}

// The set without a port, which may be none that a set can hold.
fn without_port(ports: PortSet, port: u8) -> PortSet
    ensures { ports_of result ≡ filter (λ p. not (port == p)) (ports_of ports) }
{
    if port >= 32 {
        return ports;
    }
    let mut ports = ports;
    ports.remove(port);
    ports
}

// Whether a port is a host port.
#[derive(Drop)]
struct HasHost<'a, F: SwitchFacts> {
    facts: &'a F,
}

impl<F: SwitchFacts> PortTest for HasHost<'_, F> {
    ghost use Rattle.pl_node.specs.PortRecords.{port_of};

    ghost ports = { λ has. (F.view has.facts.now).k };

    ghost passes = { λ has port. (port_of (F.view has.facts.now) port).host };

    fn test(&self, port: u8) -> bool {
        self.facts.port(port).host
    }
}
