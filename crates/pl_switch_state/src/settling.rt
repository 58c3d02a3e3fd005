//! The end of a step that may have changed what a switch knows of its place and its ports.
ghost use Rattle.std.specs.Prelude.{◌≡◌, ℕ, List, Option, true, is_some, OnErr, OnOk};
ghost use Rattle.pl_frame.specs.declared.address.SwitchId.{SwitchId};
ghost use Rattle.pl_node.specs.declared.messages.TreePart.{TreePart};
ghost use Rattle.pl_node.specs.declared.switch_records.Hold.{Hold};
ghost use Rattle.pl_node.specs.SwitchViews.{SwitchView};
ghost use Rattle.pl_steps.specs.Taken.{IsTaken};
ghost use Rattle.pl_switch_rule.specs.Levels.{changes_to, settles_in};
ghost use Rattle.pl_ports.specs.PortsViews.{put_ports};
ghost use Rattle.pl_ports.specs.Standings.{IsStandingOf};
ghost use Rattle.pl_edge.specs.EdgeViews.{edge_in};
ghost use Rattle.pl_switch_state.specs.StateViews.{state_view, HasAddressTableAt};
ghost use Rattle.pl_switch_state.specs.Settling.{PlaceGrows};

use pl_edge::EdgeTable;
use pl_layouts::Place;
use pl_node::{Memory, Outbox};
use pl_ports::{Ports, Standing};
use pl_position::Proposer;

/// What has changed is told, and an edge switch that has become placed grants addresses to the sources
/// that it remembers. After want of memory an edge switch without an address table is as at its start:
/// a placed one has an address table.
pub(crate) fn settle(
    ports: &mut Ports,
    proposer: &mut Proposer,
    edge: &mut EdgeTable,
    before: &Standing,
    out: &mut Outbox,
) -> Result<(), Memory>
    requires address_table { HasAddressTableAt edge.old.address_table before.now.place }
    requires grows { PlaceGrows before.now.place ports.old.place }
    requires hosts { edge.old.k ≡ ports.old.k }
    requires votes { proposer.old.k ≡ ports.old.k }
    requires position { proposer.old.position ≡ ports.old.place.position }
    ensures taken { OnOk result ((old : SwitchView) (holds : List (Option Hold)) (avoid : List (SwitchId × ℕ × ℕ)) (parts : List (ℕ × TreePart)) (epoch : ℕ) →
        old.k ≡ ports.old.k → IsStandingOf before.now old →
        IsTaken (changes_to old (state_view ports.old proposer.old holds edge.old avoid parts epoch)) (state_view ports.new proposer.new holds edge.new avoid parts epoch) out.old out.new) }
    ensures same { OnOk result (ports.new ≡ ports.old) }
    ensures address_table { HasAddressTableAt edge.new.address_table ports.new.place }
    ensures id { ports.new.id ≡ ports.old.id }
    ensures k { ports.new.k ≡ ports.old.k }
    ensures hosts { edge.new.k ≡ ports.new.k }
    ensures votes { proposer.new.k ≡ ports.new.k }
    ensures position { proposer.new.position ≡ ports.new.place.position }
{
    match tell_and_grant(ports, edge, before, out) {
        Ok(()) => Ok(()),
        Err(memory) => {
            begin_anew(ports, proposer, edge);
            Err(memory)
        }
    }
}

// A switch without an address table knows no more than its id and k.
#[tactic(auto, using(crate::proofs::Settled::anew))]
fn begin_anew(ports: &mut Ports, proposer: &mut Proposer, edge: &EdgeTable)
    requires address_table { is_some edge.now.address_table ≡ true → HasAddressTableAt edge.now.address_table ports.old.place }
    requires votes { proposer.old.k ≡ ports.old.k }
    requires position { proposer.old.position ≡ ports.old.place.position }
    ensures address_table { HasAddressTableAt edge.now.address_table ports.new.place }
    ensures id { ports.new.id ≡ ports.old.id }
    ensures k { ports.new.k ≡ ports.old.k }
    ensures votes { proposer.new.k ≡ ports.new.k }
    ensures position { proposer.new.position ≡ ports.new.place.position }
{
    if edge.is_placed() {
        return;
    }
    *ports = Ports::new(ports.id(), ports.k());
    *proposer = Proposer::new(ports.k());
}

// What has changed is told, and then addresses are granted.
fn tell_and_grant(
    ports: &Ports,
    edge: &mut EdgeTable,
    before: &Standing,
    out: &mut Outbox,
) -> Result<(), Memory>
    requires address_table { HasAddressTableAt edge.old.address_table before.now.place }
    requires grows { PlaceGrows before.now.place ports.now.place }
    requires hosts { edge.old.k ≡ ports.now.k }
    ensures taken { OnOk result ((old w : SwitchView) → old.k ≡ ports.now.k → IsStandingOf before.now old → put_ports ports.now w ≡ w → edge_in edge.old w ≡ w →
        IsTaken (changes_to old w) (edge_in edge.new w) out.old out.new) }
    ensures address_table { OnOk result (HasAddressTableAt edge.new.address_table ports.now.place) }
    ensures err { OnErr result (edge.new.address_table ≡ edge.old.address_table) }
    ensures k { edge.new.k ≡ edge.old.k }
{
    ports.tell_changes(before, out)?;
    settle_in(ports, edge, before.place, out)?;
    Ok(())
}

// An edge switch that has become placed grants addresses to the sources that it remembers.
fn settle_in(
    ports: &Ports,
    edge: &mut EdgeTable,
    was: Place,
    out: &mut Outbox,
) -> Result<(), Memory>
    requires address_table { HasAddressTableAt edge.old.address_table was }
    requires grows { PlaceGrows was ports.now.place }
    requires hosts { edge.old.k ≡ ports.now.k }
    ensures taken { OnOk result ((w : SwitchView) → w.place ≡ ports.now.place → w.k ≡ ports.now.k → edge_in edge.old w ≡ w →
        IsTaken (settles_in was w) (edge_in edge.new w) out.old out.new) }
    ensures address_table { OnOk result (HasAddressTableAt edge.new.address_table ports.now.place) }
    ensures err { OnErr result (edge.new.address_table ≡ edge.old.address_table) }
    ensures k { edge.new.k ≡ edge.old.k }
{
    if !ports.has_become_placed(was) {
        return Ok(());
    }
    let place = ports.place();
    let Some(pod) = place.pod else {
        return Ok(());
    };
    let Some(position) = place.position else {
        return Ok(());
    };
    edge.placed(pod, position, out)?;
    Ok(())
}
