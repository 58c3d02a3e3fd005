ghost use Rattle.std.specs.Prelude.{◌≡◌, ◌<◌, ◌≤◌, ℕ, ◌/◌, [], ◌∷◌, length, replicate, IfSome, None};
ghost use Rattle.pl_node.specs.declared.acts.Act.TheVariants.{Control};
ghost use Rattle.pl_node.specs.SwitchFacts.{holder_of, IsTreeSize};
ghost use Rattle.pl_node.specs.SwitchViews.{SwitchView};
ghost use Rattle.pl_layouts.specs.declared.control.Control.TheVariants as control;
ghost use Rattle.pl_layouts.specs.Control.{control_frame};
ghost use Rattle.pl_position.specs.Holding.{with_holds, AreHeldByIds, HoldsFor, AnswersProposal, IsSwitchId, IsMarked, NamesHolderDuly};
ghost use Rattle.pl_steps.specs.Steps.{does};
ghost use Rattle.pl_switch_rule.specs.Positions.{answers_proposal, frees_others, half, notes_position};

use crate::holds::{mark_in, vote_in};
use pl_frame::SwitchId;
use pl_node::{Hold, Proposal, Vote};
use std::marker::Model;

// The positions of a pod of the largest fat tree.
const MOST: usize = 12;

/// What an aggregation switch holds for the edge switches of its pod: each position for at most one of
/// them. Contracts see the list of them, one hold or none for each position; `with_holds` puts it into what
/// the whole switch knows.
#[derive(Debug, Drop)]
pub struct Holder {
    positions: usize,
    holds: [Option<Hold>; MOST],
}

impl Model for Holder {
    ghost use Rattle.std.specs.Prelude.{◌≤◌, List, Option, take};
    ghost use Rattle.pl_node.specs.declared.switch_records.Hold.{Hold};

    ghost Value = { List (Option Hold) };

    ghost view = { λ holder. take holder.positions holder.holds };

    ghost invariant = { λ holder. holder.positions ≤ 12 };
}

impl Holder {
    /// The holder of a switch of k ports, an even number from 4 to 24: all positions are free.
    pub fn new(k: u8) -> Holder
        requires { IsTreeSize k }
        ensures { result ≡ replicate (k / 2) None }
    {
        Holder {
            positions: usize::from(k / 2),
            holds: [None; MOST],
        }
    }

    /// How many positions there are: half as many as the switch has ports.
    pub fn positions(&self) -> usize
        ensures { result ≡ length self.now }
    {
        self.holds[..self.positions].len()
    }

    /// The answer to an edge switch that proposes a position. First all else is freed that is held for it.
    pub fn vote(&mut self, edge: SwitchId, proposal: Proposal) -> Vote
        requires { proposal.position < length self.old }
        ensures step { (v : SwitchView) (port : ℕ) →
            answers_proposal (frees_others (with_holds self.old v) edge proposal.position) port edge proposal
            ≡ does (with_holds self.new v) (Control port (control_frame (control.Vote v.id result)) ∷ []) }
        ensures holds { HoldsFor edge proposal.position self.old self.new }
        ensures answer { AnswersProposal edge proposal self.new result }
        ensures ids { IsSwitchId edge → AreHeldByIds self.old → AreHeldByIds self.new × IfSome result.holder IsSwitchId }
        ensures names { NamesHolderDuly result }
    {
        vote_in(&mut self.holds[..self.positions], edge, proposal)
    }

    /// An edge switch says that it has this position for good: it is held for it where it is free, and is
    /// marked where it is held for it. All else is freed that is held for it.
    pub fn announced(&mut self, edge: SwitchId, position: u8)
        requires { position < length self.old }
        ensures step { (v : SwitchView) → position < half v.k →
            with_holds self.new v ≡ notes_position (with_holds self.old v) edge (Some position) }
        ensures holds { HoldsFor edge position self.old self.new }
        ensures marked { IsMarked edge position self.old self.new }
        ensures ids { IsSwitchId edge → AreHeldByIds self.old → AreHeldByIds self.new }
    {
        mark_in(&mut self.holds[..self.positions], edge, position)
    }

    /// Who holds a position, and whether it is marked as fixed there; none exactly where it is free.
    pub fn hold(&self, position: u8) -> Option<(SwitchId, bool)>
        requires { position < length self.now }
        ensures { (v : SwitchView) → result ≡ holder_of (with_holds self.now v) position }
    {
        self.holds[usize::from(position)].map(|hold| (hold.edge, hold.fixed))
    }
}
