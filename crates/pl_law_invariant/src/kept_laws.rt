ghost use Rattle.std.specs.Prelude.{◌≡◌, ◌<◌, ℕ, None, Some};
ghost use Rattle.pl_manager_rule.specs.WholeRule.{whole_rule};
ghost use Rattle.pl_switch_rule.specs.SwitchRule.{Loose};
ghost use Rattle.pl_world.specs.declared.event.Event.{Event};
ghost use Rattle.pl_world.specs.Refusals.{refusal};
ghost use Rattle.pl_world.specs.Runs.{InEveryRun};
ghost use Rattle.pl_world.specs.WorldRule.{WorldStep};
ghost use Rattle.pl_world.specs.Worlds.{WorldView};
ghost use Rattle.pl_law_control_plane.specs.ControlPlanes.{control_plane};
ghost use Rattle.pl_law_places.specs.Known.{IsZeroOf};
ghost use Rattle.pl_law_votes.specs.Voting.{FixedAreApart, FixedAreHeld};
ghost use Rattle.pl_law_invariant.specs.ControlInvariant.{ControlInvariant};

use pl_node::HostLogic;

/// Each step keeps all of it.
pub fn each_step_keeps_all_of_it<H: HostLogic>()
    ensures { (old : WorldView) (event : Event) (new : WorldView) → ControlInvariant old → refusal old event ≡ None →
        WorldStep Loose whole_rule H.rule old event new → ControlInvariant new }
{}

/// So it holds at each moment of each run from the beginning, whatever the wiring, the events and the
/// choices of the switches.
pub fn every_run_keeps_all_of_it<H: HostLogic>()
    ensures { InEveryRun Loose whole_rule H.rule ControlInvariant }
{}

/// In every run a fixed position is held for its edge switch by more than half of the aggregation switches
/// of its pod, and no two edge switches of a pod have one.
pub fn edge_switches_of_a_pod_differ_in_every_run<H: HostLogic>()
    ensures { InEveryRun Loose whole_rule H.rule (λ new. FixedAreHeld new.plan (control_plane new).view × FixedAreApart new.plan (control_plane new).view) }
{}

/// In every run a known pod is the one that the edge switch with position 0 of that pod knows, and is below how many
/// pods there are.
pub fn known_pods_are_those_of_edge_switches_with_position_0_in_every_run<H: HostLogic>()
    ensures { InEveryRun Loose whole_rule H.rule (λ new. (s n : ℕ) → ((control_plane new).view s).place.pod ≡ Some n →
        (z : ℕ) × IsZeroOf new.plan.k (control_plane new).view s n z × (n < new.plan.k)) }
{}
