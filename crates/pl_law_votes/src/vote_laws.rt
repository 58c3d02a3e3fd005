ghost use Rattle.std.specs.Prelude.{◌≡◌, None};
ghost use Rattle.pl_wiring.specs.Plan.{IsPlan, Plan};
ghost use Rattle.pl_switch_rule.specs.SwitchRule.{Loose};
ghost use Rattle.pl_world.specs.declared.event.Event.{Event};
ghost use Rattle.pl_world.specs.declared.limits.Limits.{Limits};
ghost use Rattle.pl_world.specs.Booting.{booted};
ghost use Rattle.pl_world.specs.Flying.{IsCounted};
ghost use Rattle.pl_world.specs.Refusals.{refusal};
ghost use Rattle.pl_world.specs.WorldRule.{WorldStep};
ghost use Rattle.pl_world.specs.Worlds.{WorldView};
ghost use Rattle.pl_law_control_plane.specs.ControlPlanes.{ControlPlane, control_plane};
ghost use Rattle.pl_law_control_plane.specs.HostsAtEdges.{HostsAtEdges};
ghost use Rattle.pl_law_votes.specs.Voting.{AreVoting, CanTell, FixedAreApart, FixedAreHeld};

use pl_node::{HostLogic, ManagerLogic};

/// At the beginning nothing is proposed, granted or held, so the votes are in order.
pub fn the_votes_begin_in_order()
    ensures { (plan : Plan) (limits : Limits) → AreVoting (control_plane (booted plan limits)) }
{}

/// Each step keeps the votes in order, where what is told can be read as it was written, whatever port a
/// switch chooses for a data frame.
pub fn each_step_keeps_the_votes_in_order<M: ManagerLogic, H: HostLogic>()
    ensures { (old : WorldView) (event : Event) (new : WorldView) → IsCounted old → HostsAtEdges old → CanTell (control_plane old) →
        refusal old event ≡ None → WorldStep Loose M.rule H.rule old event new →
        AreVoting (control_plane old) → AreVoting (control_plane new) }
{}

/// Where votes are in order, a fixed position is held for its edge switch by more than half of the
/// aggregation switches of its pod.
pub fn a_fixed_position_is_held_by_more_than_half_of_the_pod()
    ensures { (plane : ControlPlane) → IsPlan plane.plan → AreVoting plane → FixedAreHeld plane.plan plane.view }
{}

/// So no two edge switches of a pod have one fixed position.
pub fn edge_switches_of_a_pod_have_different_positions()
    ensures { (plane : ControlPlane) → IsPlan plane.plan → AreVoting plane → FixedAreApart plane.plan plane.view }
{}
