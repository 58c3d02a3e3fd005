//! What votes and positions change of the parts of a switch.
ghost use Rattle.std.specs.Prelude.{◌≡◌, ◌<◌, ◌/◌, ℕ, List, length, IfOk, OnOk};
ghost use Rattle.pl_node.specs.declared.messages.TreePart.{TreePart};
ghost use Rattle.pl_node.specs.SwitchFacts.{is_answered};
ghost use Rattle.pl_node.specs.SwitchViews.{SwitchView};
ghost use Rattle.pl_layouts.specs.Control.{control_frame};
ghost use Rattle.pl_layouts.specs.Placement.{is_known};
ghost use Rattle.pl_ldp.specs.Writable.{IsWritableId, IsWritableControl};
ghost use Rattle.pl_switch_rule.specs.Levels.{notes_edge};
ghost use Rattle.pl_steps.specs.Taken.{IsTaken};
ghost use Rattle.pl_switch_rule.specs.Positions.{after_vote, hears_proposal};
ghost use Rattle.pl_edge.specs.EdgeViews.{EdgeView};
ghost use Rattle.pl_switch_state.specs.StateViews.{state_view};
ghost use Rattle.pl_ports.specs.PortsViews.{ports_alone, put_ports};
ghost use Rattle.pl_position.specs.Candidacy.{with_candidacy, Candidacy};
ghost use Rattle.pl_position.specs.Holding.{with_holds, AreHeldByIds};
ghost use Rattle.pl_switch_state.specs.Settling.{PlaceGrows};

use pl_frame::{Frame, SwitchId};
use pl_layouts::{Control, Place, Proposal, Vote};
use pl_ldp::write_control;
use pl_node::{Act, Memory, Outbox};
use pl_ports::Ports;
use pl_position::{Holder, Proposer};
use std::alloc::Global;

/// An aggregation switch notes the position that an edge switch says it has.
pub(crate) fn note_edge(ports: &Ports, holder: &mut Holder, edge: SwitchId, told: Place)
    requires positions { length holder.old ≡ ports.now.k / 2 }
    requires id { IsWritableId edge }
    requires holders { AreHeldByIds holder.old }
    ensures noted { (v : SwitchView) → with_holds holder.new (put_ports ports.now v) ≡ notes_edge (with_holds holder.old (put_ports ports.now v)) edge told }
    ensures positions { length holder.new ≡ ports.now.k / 2 }
    ensures holders { AreHeldByIds holder.new }
{
    if ports.place().level != Some(1) || told.level != Some(0) {
        return;
    }
    let Some(position) = told.position else {
        return;
    };
    if usize::from(position) < holder.positions() {
        holder.announced(edge, position);
    }
}

/// A vote is counted by an edge switch, and its position may be fixed by it.
pub(crate) fn count_vote(ports: &mut Ports, proposer: &mut Proposer, port: u8, vote: &Vote)
    requires port { port < ports.old.k }
    requires votes { proposer.old.k ≡ ports.old.k }
    requires position { proposer.old.position ≡ ports.old.place.position }
    ensures counted { (v : SwitchView) → with_candidacy proposer.new (put_ports ports.new v) ≡ after_vote (with_candidacy proposer.old (put_ports ports.old v)) port vote.now }
    ensures id { ports.new.id ≡ ports.old.id }
    ensures k { ports.new.k ≡ ports.old.k }
    ensures votes { proposer.new.k ≡ ports.new.k }
    ensures position { proposer.new.position ≡ ports.new.place.position }
    ensures grows { PlaceGrows ports.old.place ports.new.place }
{
    if !is_edge(ports.place()) {
        return;
    }
    if !proposer.on_vote(ports.id(), port, vote) {
        return;
    }
    if let Some(position) = proposer.fixed() {
        prove!(position < ports.k());
        ports.fix_position(position);
    }
}

fn is_edge(place: Place) -> bool
    ensures { result ≡ is_known place.level 0 }
{
    place.level == Some(0)
}

/// An aggregation switch answers an edge switch that proposes a position of the pod.
pub(crate) fn answer_proposal(
    alloc: Global,
    ports: &Ports,
    holder: &mut Holder,
    port: u8,
    edge: SwitchId,
    proposal: Proposal,
    out: &mut Outbox,
) -> Result<(), Memory>
    requires port { port < ports.now.k }
    requires message { IsWritableControl (Control.Proposal edge proposal) }
    requires positions { length holder.old ≡ ports.now.k / 2 }
    requires holders { AreHeldByIds holder.old }
    ensures taken { OnOk result ((candidacy : Candidacy) (table : EdgeView) (avoid : List (SwitchId × ℕ × ℕ)) (parts : List (ℕ × TreePart)) (epoch : ℕ) →
        IsTaken (hears_proposal (state_view ports.now candidacy holder.old table avoid parts epoch) port edge proposal) (state_view ports.now candidacy holder.new table avoid parts epoch) out.old out.new) }
    ensures positions { length holder.new ≡ ports.now.k / 2 }
    ensures holders { AreHeldByIds holder.new }
{
    if !answers(ports, port, &proposal) {
        return Ok(());
    }
    let vote = holder.vote(edge, proposal);
    let frame = vote_frame(alloc, ports.id(), vote)?;
    out.push(Act::Control(port, frame))?;
    Ok(())
}

// Whether an aggregation switch answers a proposal: an edge switch proposes a position of the pod.
fn answers(ports: &Ports, port: u8, proposal: &Proposal) -> bool
    requires { port < ports.now.k }
    ensures { result ≡ is_answered (ports_alone ports.now) port proposal.now.position }
{
    ports.place().level == Some(1)
        && ports.place_at(port).level == Some(0)
        && proposal.position < ports.k() / 2
}

// The frame of a vote.
fn vote_frame(alloc: Global, id: SwitchId, vote: Vote) -> Result<Frame, Memory>
    requires { IsWritableControl (Control.Vote id vote) }
    ensures { IfOk result (λ frame. frame ≡ control_frame (Control.Vote id vote)) }
{
    let mut bytes = [0; 35];
    let length = write_control(&Control::Vote(id, vote), &mut bytes);
    Frame::copy(alloc, &bytes[..length])
}
