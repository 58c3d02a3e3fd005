ghost use Rattle.std.specs.Prelude.{◌≡◌, ◌<◌, ◌≤◌, ◌/◌, ℕ, None, Some, false};
ghost use Rattle.pl_wiring.specs.declared.label.Label.TheVariants.{Edge};
ghost use Rattle.pl_wiring.specs.Labels.{IsLabel};
ghost use Rattle.pl_node.specs.SwitchFacts.{holder_of, is_news};
ghost use Rattle.pl_node.specs.SwitchViews.{SwitchView};
ghost use Rattle.pl_manager_rule.specs.WholeRule.{whole_rule};
ghost use Rattle.pl_switch_rule.specs.SwitchRule.{Loose};
ghost use Rattle.pl_world.specs.declared.event.Event.{Event};
ghost use Rattle.pl_world.specs.Refusals.{refusal};
ghost use Rattle.pl_world.specs.Runs.{InEveryRun};
ghost use Rattle.pl_world.specs.WorldRule.{WorldStep};
ghost use Rattle.pl_world.specs.Worlds.{WorldView};
ghost use Rattle.pl_law_control_plane.specs.ControlPlanes.{control_plane};
ghost use Rattle.pl_law_votes.specs.Voting.{edge_no};
ghost use Rattle.pl_law_invariant.specs.ControlInvariant.{ControlInvariant};
ghost use Rattle.pl_law_placing.specs.Placing.{ArePlacing};
ghost use Rattle.pl_law_placing.specs.Resting.{FirstKnowsPod, HasFirst, HavePositions, ProposalIsAnswered, IsRestingPod, KnowPod};

use pl_node::HostLogic;

/// Each step keeps edge switches on their way to their places, a restart of the manager too.
pub fn each_step_keeps_edge_switches_placing<H: HostLogic>()
    ensures { (old : WorldView) (event : Event) (new : WorldView) → ControlInvariant old → ArePlacing old → refusal old event ≡ None →
        WorldStep Loose whole_rule H.rule old event new → ArePlacing new }
{}

/// So it is at each moment of each run from the beginning.
pub fn every_run_keeps_edge_switches_placing<H: HostLogic>()
    ensures { InEveryRun Loose whole_rule H.rule ArePlacing }
{}

/// In a pod at rest each edge switch that knows its level has a position.
pub fn edge_switches_of_a_pod_at_rest_have_positions()
    ensures { (w : WorldView) → ControlInvariant w → ArePlacing w → (pod : ℕ) → IsRestingPod (control_plane w) pod → HavePositions (control_plane w) pod }
{}

/// If there is such an edge switch, one of the pod has position 0.
pub fn one_of_a_pod_at_rest_has_position_0()
    ensures { (w : WorldView) → ControlInvariant w → ArePlacing w → (pod : ℕ) → IsRestingPod (control_plane w) pod →
        (i : ℕ) → IsLabel w.plan.k (Edge pod i) → ((control_plane w).view (edge_no w.plan.k pod i)).place.level ≡ Some 0 → HasFirst (control_plane w) pod }
{}

/// And if that one knows the number of the pod, they all do.
pub fn edge_switches_of_a_pod_at_rest_know_the_pod()
    ensures { (w : WorldView) → ControlInvariant w → ArePlacing w → (pod : ℕ) → IsRestingPod (control_plane w) pod →
        FirstKnowsPod (control_plane w) pod → KnowPod (control_plane w) pod }
{}

/// Where the proposal of an edge switch would bring no news, and it is not at its last attempt, it was
/// answered.
pub fn what_is_no_news_was_answered()
    ensures { (v u : SwitchView) (p : ℕ) → v.attempt < 4294967295 → is_news v p v.attempt (holder_of u v.proposed) ≡ false → ProposalIsAnswered v p u }
{}

/// No edge switch makes more attempts than its pod has positions: it goes on from one only where another edge
/// switch has it or, with a smaller id, tries it.
pub fn no_edge_switch_makes_more_attempts_than_there_are_positions()
    ensures { (w : WorldView) → ControlInvariant w → ArePlacing w → (pod i : ℕ) → IsLabel w.plan.k (Edge pod i) →
        ((control_plane w).view (edge_no w.plan.k pod i)).attempt ≤ w.plan.k / 2 }
{}
