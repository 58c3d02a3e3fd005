ghost use Rattle.std.specs.Prelude.{◌≡◌, ◌==◌};
ghost use Rattle.std.specs.List.{list_any};
ghost use Rattle.pl_node.specs.PortRecords.{id_at};
ghost use Rattle.pl_lists.specs.Ports.{ports_of};
ghost use Rattle.pl_switch_rule.specs.GroupForwarding.{group_ports, group_ports_down, group_ports_up, is_on_its_way_down, no_way, way_of};

use crate::port_test::{PortTest, first_that_passes, ports_that_pass};
use crate::{GroupFacts, host_ports};
use pl_frame::SwitchId;
use pl_lists::PortSet;
use pl_multicast::FLOOD;
use pl_node::{Cause, SwitchFacts, TreePart};
use pl_pmac::Pmac;
use pl_switch_rule::{Came, Way};

/// The ports by which a frame to a group leaves a switch: upwards one, and downwards each that leads on.
/// At an edge switch none leads back to its source.
pub fn group_ports<F: GroupFacts>(
    facts: &F,
    came: Option<Came>,
    group: u32,
    source: Pmac,
) -> PortSet
    ensures { ports_of result ≡ group_ports (F.view facts.now) (way_of (F.view facts.now).place came) group source }
{
    match Way::of_group(facts.place(), came) {
        Way::Up => group_port_up(facts, group),
        Way::Down => group_ports_down(facts, group),
        Way::ToHosts => host_ports(facts, group, source),
        Way::Nowhere => PortSet::empty(),
    }
}

/// The one port upwards in a group's tree, if there is one.
pub fn group_port_up<F: SwitchFacts>(facts: &F, group: u32) -> PortSet
    ensures { ports_of result ≡ group_ports_up (F.view facts.now) group }
{
    match facts.part(group) {
        Some(part) => first_that_passes(&LeadsUp { facts, part }, facts.k()),
        None => PortSet::empty(),
    }
}

/// The ports downwards in a group's tree.
pub fn group_ports_down<F: SwitchFacts>(facts: &F, group: u32) -> PortSet
    ensures { ports_of result ≡ group_ports_down (F.view facts.now) group }
{
    match facts.part(group) {
        Some(part) => ports_that_pass(&LeadsDown { facts, part }, facts.k()),
        None => PortSet::empty(),
    }
}

/// Why a frame to a group ends where it has no port to leave by: a routed group has no member that way, or
/// the frame has no next hop.
pub fn cause_of_no_way<F: SwitchFacts>(facts: &F, came: Option<Came>, group: u32) -> Cause
    ensures { result ≡ no_way (F.view facts.now) came group }
{
    let is_routed = group != FLOOD;
    if is_routed && (facts.part(group).is_none() || is_on_its_way_down(facts, came)) {
        Cause::NoMember
    } else {
        Cause::NoNextHop
    }
}

// Whether a frame to a group has come to a core switch, or comes from above.
fn is_on_its_way_down<F: SwitchFacts>(facts: &F, came: Option<Came>) -> bool
    ensures { result ≡ is_on_its_way_down (F.view facts.now) came }
{
    match came {
        Some(Came::FromAbove) => true,
        Some(Came::FromHost | Came::FromBelow) | None => facts.place().level == Some(2),
    }
}

// Whether a usable port leads to the neighbour above.
#[derive(Drop)]
struct LeadsUp<'a, F: SwitchFacts> {
    facts: &'a F,
    part: &'a TreePart,
}

impl<F: SwitchFacts> PortTest for LeadsUp<'_, F> {
    ghost use Rattle.std.specs.Prelude.{◌&&◌, Some};
    ghost use Rattle.pl_node.specs.PortRecords.{id_at, is_usable};
    ghost use Rattle.pl_switch_rule.specs.GroupForwarding.{is_up};

    ghost ports = { λ leads. (F.view leads.facts.now).k };

    ghost passes = { λ leads port. is_usable (F.view leads.facts.now) port && is_up (Some leads.part.now) (id_at (F.view leads.facts.now) port) };

    fn test(&self, port: u8) -> bool {
        let record = self.facts.port(port);
        match (self.part.up, record.heard) {
            (Some(up), Some(neighbour)) => {
                record.is_usable(self.facts.id()) && up == neighbour.id
            }
            _ => false,
        }
    }
}

// Whether a usable port leads to a neighbour below.
#[derive(Drop)]
struct LeadsDown<'a, F: SwitchFacts> {
    facts: &'a F,
    part: &'a TreePart,
}

impl<F: SwitchFacts> PortTest for LeadsDown<'_, F> {
    ghost use Rattle.std.specs.Prelude.{◌&&◌, Some};
    ghost use Rattle.pl_node.specs.PortRecords.{id_at, is_usable};
    ghost use Rattle.pl_switch_rule.specs.GroupForwarding.{is_down};

    ghost ports = { λ leads. (F.view leads.facts.now).k };

    ghost passes = { λ leads port. is_usable (F.view leads.facts.now) port && is_down (Some leads.part.now) (id_at (F.view leads.facts.now) port) };

    fn test(&self, port: u8) -> bool {
        let record = self.facts.port(port);
        match record.heard {
            Some(neighbour) => {
                record.is_usable(self.facts.id()) && is_below(self.part, neighbour.id)
            }
            None => false,
        }
    }
}

// Whether a neighbour is one of those below.
fn is_below(part: &TreePart, id: SwitchId) -> bool
    ensures { result ≡ list_any (λ down. down.0 == id.0) part.now.down }
{
    part.down.as_slice().contains(&id)
}
