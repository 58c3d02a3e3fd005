ghost use Rattle.std.specs.Prelude.{◌≡◌, ◌≤◌, ◌++◌, length, map, OnOk};
ghost use Rattle.pl_node.specs.declared.acts.Act.{Act};
ghost use Rattle.pl_lists.specs.Ports.{ports_of};
ghost use Rattle.pl_steps.specs.Taken.{IsTaken};
ghost use Rattle.pl_switch_rule.specs.GroupForwarding.{destination_group, forwards_group};

use crate::{GroupFacts, cause_of_no_way, group_ports};
use pl_frame::{Frame, Mac};
use pl_lists::PortSet;
use pl_multicast::{FLOOD, group_of};
use pl_node::{Act, Memory, Outbox};
use pl_steps::{TellsAtPort, one_act_where, tell_at_each_port};
use pl_switch_rule::Came;
use std::alloc::Global;

/// Passes a frame to a group on by each port by which it leaves, or drops it where there is none.
pub fn forward_to_group<F: GroupFacts>(
    facts: &F,
    alloc: Global,
    came: Option<Came>,
    frame: &[u8],
    out: &mut Outbox,
) -> Result<(), Memory>
    requires { 14 ≤ length frame.now }
    ensures { OnOk result (IsTaken (forwards_group (F.view facts.now) came frame.now) (F.view facts.now) out.old out.new) }
{
    let group = destination_group(frame);
    let source = pl_pmac::unpack(Mac::read_at(frame, 6));
    let ports = group_ports(facts, came, group, source);
    if ports.len() == 0 {
        return out.push(Act::Drop(cause_of_no_way(facts, came, group)));
    }
    pass_by_each(ports, alloc, frame, out)
}

// The group that a frame goes to.
fn destination_group(frame: &[u8]) -> u32
    requires { 14 ≤ length frame.now }
    ensures { result ≡ destination_group frame.now }
{
    group_of(Mac::read_at(frame, 0)).unwrap_or(FLOOD)
}

// Passes a frame on by each port of a set, rising.
fn pass_by_each(ports: PortSet, alloc: Global, frame: &[u8], out: &mut Outbox) -> Result<(), Memory>
    ensures { OnOk result (out.new ≡ out.old ++ map (λ port. Act.Pass port frame.now) (ports_of ports)) }
{
    one_act_where();
    let copies = Copies {
        ports,
        alloc,
        frame,
    };
    tell_at_each_port(&copies, 32, out)
}

// A copy of a frame for each port of a set.
#[derive(Drop)]
struct Copies<'a> {
    ports: PortSet,
    alloc: Global,
    frame: &'a [u8],
}

impl TellsAtPort for Copies<'_> {
    ghost use Rattle.pl_node.specs.declared.acts.Act.TheVariants.{Pass};
    ghost use Rattle.std.specs.Prelude.{◌==◌};
    ghost use Rattle.std.specs.List.{list_any};
    ghost use Rattle.pl_lists.specs.Ports.{ports_of};
    ghost use Rattle.pl_steps.specs.PortsTold.{done_where};

    ghost ports = { λ copies. 32 };

    ghost told = { λ copies. done_where (λ port. list_any (λ p. p == port) (ports_of copies.ports)) (λ port. Pass port copies.frame.now) };

    fn tell(&self, port: u8, out: &mut Outbox) -> Result<(), Memory> {
        if !self.ports.contains(port) {
            return Ok(());
        }
        out.push(Act::Pass(port, Frame::copy(self.alloc, self.frame)?))
    }
}
