ghost use Rattle.std.specs.Prelude.{◌≡◌, None};
ghost use Rattle.pl_wiring.specs.Plan.{Plan};
ghost use Rattle.pl_switch_rule.specs.SwitchRule.{Loose};
ghost use Rattle.pl_world.specs.declared.event.Event.{Event};
ghost use Rattle.pl_world.specs.declared.limits.Limits.{Limits};
ghost use Rattle.pl_world.specs.Booting.{CanBegin, booted};
ghost use Rattle.pl_world.specs.Flying.{IsCounted};
ghost use Rattle.pl_world.specs.Refusals.{refusal};
ghost use Rattle.pl_world.specs.WorldRule.{WorldStep};
ghost use Rattle.pl_world.specs.Worlds.{WorldView};
ghost use Rattle.pl_law_control_plane.specs.ControlPlanes.{control_plane};
ghost use Rattle.pl_law_control_plane.specs.HostsAtEdges.{HostsAtEdges};
ghost use Rattle.pl_law_places.specs.Places.{ArePlaced, ArePodNumbers, PositionsDiffer};

use pl_node::{HostLogic, ManagerLogic};

/// At the beginning no switch knows a place, and nothing was told.
pub fn places_are_true_at_first()
    ensures { (plan : Plan) (limits : Limits) → CanBegin plan → ArePlaced plan (control_plane (booted plan limits)) }
{}

/// Each step keeps places true, whatever it is, where no two edge switches of a pod had one position before
/// it, and no order waited whose number of a pod is the code of an unknown one.
pub fn each_step_keeps_places_true<M: ManagerLogic, H: HostLogic>()
    ensures { (old : WorldView) (event : Event) (new : WorldView) → IsCounted old → HostsAtEdges old →
        PositionsDiffer old.plan (control_plane old) → ArePodNumbers (control_plane old) → refusal old event ≡ None →
        WorldStep Loose M.rule H.rule old event new →
        ArePlaced old.plan (control_plane old) → ArePlaced new.plan (control_plane new) }
{}
