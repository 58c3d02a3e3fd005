ghost use Rattle.std.specs.Prelude.{◌≡◌, ◌++◌, ℕ, List, Option, is_some, OnOk};
ghost use Rattle.pl_frame.specs.declared.address.SwitchId.{SwitchId};
ghost use Rattle.pl_node.specs.declared.messages.TreePart.{TreePart};
ghost use Rattle.pl_node.specs.declared.switch_records.Hold.{Hold};
ghost use Rattle.pl_steps.specs.Taken.{IsTaken};
ghost use Rattle.pl_switch_rule.specs.Announcing.{tells_neighbours, ticks};
ghost use Rattle.pl_node.specs.SwitchViews.{SwitchView};
ghost use Rattle.pl_switch_rule.specs.Telling.{changes_told};
ghost use Rattle.pl_ports.specs.PortsViews.{ports_alone, put_ports};
ghost use Rattle.pl_ports.specs.Standings.{IsStandingOf};
ghost use Rattle.pl_position.specs.Candidacy.{with_candidacy};
ghost use Rattle.pl_edge.specs.EdgeViews.{EdgeView, place_by};
ghost use Rattle.pl_layouts.specs.declared.place.Place.{Place};
ghost use Rattle.pl_switch_state.specs.StateViews.{state_view};
ghost use Rattle.pl_switch_state.specs.Proposals.{announced, proposed};

use crate::SwitchState;
use crate::proposing::propose;
use pl_edge::EdgeTable;
use pl_node::{Memory, Outbox};
use pl_ports::{Ports, Standing};
use pl_position::Proposer;
use std::alloc::Global;

impl SwitchState {
    /// A tick: the ports age, what changed is told, and each neighbour hears of this switch, and is asked
    /// for a position; then the addresses of an edge switch age. Each message takes the memory of one small
    /// frame, and nothing else takes any.
    pub fn tick(&mut self, out: &mut Outbox) -> Result<(), Memory>
        ensures taken { OnOk result (IsTaken (ticks self.old) self.new out.old out.new) }
        ensures id { self.new.id ≡ self.old.id }
        ensures k { self.new.k ≡ self.old.k }
        ensures avoid { self.new.avoid ≡ self.old.avoid }
    {
        tick_both(
            self.alloc,
            &mut self.ports,
            &self.proposer,
            &mut self.edge,
            out,
        )
    }
}

// First the ports, and then the addresses.
fn tick_both(
    alloc: Global,
    ports: &mut Ports,
    proposer: &Proposer,
    edge: &mut EdgeTable,
    out: &mut Outbox,
) -> Result<(), Memory>
    requires { proposer.now.k ≡ ports.old.k }
    ensures taken { OnOk result ((holds : List (Option Hold)) (avoid : List (SwitchId × ℕ × ℕ)) (parts : List (ℕ × TreePart)) (epoch : ℕ) →
        proposer.now.position ≡ ports.old.place.position → place_by edge.old.address_table ports.old.place ≡ ports.old.place →
        IsTaken (ticks (state_view ports.old proposer.now holds edge.old avoid parts epoch)) (state_view ports.new proposer.now holds edge.new avoid parts epoch) out.old out.new) }
    ensures id { ports.new.id ≡ ports.old.id }
    ensures k { ports.new.k ≡ ports.old.k }
    ensures place { ports.new.place ≡ ports.old.place }
    ensures at { (place : Place) → place_by edge.new.address_table place ≡ place_by edge.old.address_table place }
    ensures booked { is_some edge.new.address_table ≡ is_some edge.old.address_table }
    ensures hosts { edge.new.k ≡ edge.old.k }
{
    tick_ports(alloc, ports, proposer, out)?;
    edge.tick(out)
}

// The ports age; what changed is told, and then the neighbours hear of it.
fn tick_ports(
    alloc: Global,
    ports: &mut Ports,
    proposer: &Proposer,
    out: &mut Outbox,
) -> Result<(), Memory>
    requires { proposer.now.k ≡ ports.old.k }
    ensures taken { OnOk result ((holds : List (Option Hold)) (edge : EdgeView) (avoid : List (SwitchId × ℕ × ℕ)) (parts : List (ℕ × TreePart)) (epoch : ℕ) →
        proposer.now.position ≡ ports.old.place.position →
        IsTaken (tells_neighbours (state_view ports.old proposer.now holds edge avoid parts epoch)) (state_view ports.new proposer.now holds edge avoid parts epoch) out.old out.new) }
    ensures id { ports.new.id ≡ ports.old.id }
    ensures k { ports.new.k ≡ ports.old.k }
    ensures place { ports.new.place ≡ ports.old.place }
{
    let before = ports.standing();
    ports.tick();
    tell_neighbours(alloc, ports, proposer, &before, out)
}

// What changed is told; then the neighbours hear of this switch, and are asked for a position.
fn tell_neighbours(
    alloc: Global,
    ports: &Ports,
    proposer: &Proposer,
    before: &Standing,
    out: &mut Outbox,
) -> Result<(), Memory>
    requires { proposer.now.k ≡ ports.now.k }
    ensures { OnOk result ((old v : SwitchView) → old.k ≡ ports.now.k → IsStandingOf before.now old →
        out.new ≡ out.old ++ changes_told old (put_ports ports.now v) ++ announced (ports_alone ports.now) ++ proposed (with_candidacy proposer.now (put_ports ports.now v))) }
{
    ports.tell_changes(before, out)?;
    ports.announce(alloc, out)?;
    propose(alloc, ports, proposer, out)?;
    Ok(())
}
