//! What is held at each position, as a slice.
ghost use Rattle.std.specs.Prelude.{◌≡◌, ◌<◌, ℕ, [], ◌∷◌, length, IfSome};
ghost use Rattle.pl_node.specs.declared.acts.Act.TheVariants.{Control};
ghost use Rattle.pl_node.specs.SwitchViews.{SwitchView};
ghost use Rattle.pl_layouts.specs.declared.control.Control.TheVariants as control;
ghost use Rattle.pl_layouts.specs.Control.{control_frame};
ghost use Rattle.pl_position.specs.Holding.{with_holds, AreHeldByIds, HoldsFor, AnswersProposal, IsSwitchId, IsMarked, NamesHolderDuly};
ghost use Rattle.pl_steps.specs.Steps.{does};
ghost use Rattle.pl_switch_rule.specs.Positions.{answers_proposal, freed_but, frees_others, is_free_for, is_held_for, kept_or_new, marked_for, marks, vote_on};

use pl_frame::SwitchId;
use pl_node::{Hold, Proposal, Vote};

/// The answer to a proposal.
pub(crate) fn vote_in(holds: &mut [Option<Hold>], edge: SwitchId, proposal: Proposal) -> Vote
    requires { proposal.position < length holds.old }
    ensures step { (v : SwitchView) (port : ℕ) →
        answers_proposal (frees_others (with_holds holds.old v) edge proposal.position) port edge proposal
        ≡ does (with_holds holds.new v) (Control port (control_frame (control.Vote v.id result)) ∷ []) }
    ensures holds { HoldsFor edge proposal.position holds.old holds.new }
    ensures answer { AnswersProposal edge proposal holds.new result }
    ensures ids { IsSwitchId edge → AreHeldByIds holds.old → AreHeldByIds holds.new × IfSome result.holder IsSwitchId }
    ensures names { NamesHolderDuly result }
{
    let position = usize::from(proposal.position);
    free_others(holds, edge, position);
    let hold = holds[position];
    if is_free_for(edge, hold) {
        holds[position] = kept_or_new(edge, hold);
    }
    vote_on(edge, proposal, hold)
}

/// An edge switch has a position for good.
pub(crate) fn mark_in(holds: &mut [Option<Hold>], edge: SwitchId, position: u8)
    requires { position < length holds.old }
    ensures step { (v : SwitchView) → with_holds holds.new v ≡ marks (frees_others (with_holds holds.old v) edge position) edge position }
    ensures holds { HoldsFor edge position holds.old holds.new }
    ensures marked { IsMarked edge position holds.old holds.new }
    ensures ids { IsSwitchId edge → AreHeldByIds holds.old → AreHeldByIds holds.new }
{
    let position = usize::from(position);
    free_others(holds, edge, position);
    holds[position] = marked_for(edge, holds[position]);
}

// Frees each position but one that is held for an edge switch.
fn free_others(holds: &mut [Option<Hold>], edge: SwitchId, position: usize)
    ensures { holds.new ≡ freed_but position edge 0 holds.old }
{
    for n in 0..holds.len() {
        if n != position && is_held_for(edge, holds[n]) {
            holds[n] = None;
        }
    }
}

fn is_held_for(edge: SwitchId, hold: Option<Hold>) -> bool
    ensures { result ≡ is_held_for edge hold }
{
    match hold {
        Some(hold) => hold.edge == edge,
        None => false,
    }
}

fn is_free_for(edge: SwitchId, hold: Option<Hold>) -> bool
    ensures { result ≡ is_free_for edge hold }
{
    hold.is_none() || is_held_for(edge, hold)
}

// A hold as it is, and else a new one for this edge switch.
fn kept_or_new(edge: SwitchId, hold: Option<Hold>) -> Option<Hold>
    ensures { result ≡ kept_or_new edge hold }
{
    match hold {
        Some(hold) => Some(hold),
        None => Some(Hold { edge, fixed: false }),
    }
}

// The hold with its mark, unless another edge switch has it.
fn marked_for(edge: SwitchId, hold: Option<Hold>) -> Option<Hold>
    ensures { result ≡ marked_for edge hold }
{
    match hold {
        Some(hold) if hold.edge != edge => Some(hold),
        _ => Some(Hold { edge, fixed: true }),
    }
}

// A grant, or a refusal that names the other holder and whether its position is fixed.
fn vote_on(edge: SwitchId, proposal: Proposal, hold: Option<Hold>) -> Vote
    ensures vote { result ≡ vote_on edge proposal hold }
    ensures names { NamesHolderDuly result }
{
    match hold {
        Some(hold) if hold.edge != edge => Vote {
            attempt: proposal.attempt,
            position: proposal.position,
            granted: false,
            holder: Some(hold.edge),
            fixed: hold.fixed,
        },
        _ => Vote {
            attempt: proposal.attempt,
            position: proposal.position,
            granted: true,
            holder: None,
            fixed: false,
        },
    }
}
