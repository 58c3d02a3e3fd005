ghost use Rattle.std.specs.Prelude.{◌≡◌, ◌≤◌, ◌+◌, ℕ, List, None};
ghost use Rattle.std.specs.List.{AllByRecursion};
ghost use Rattle.pl_wiring.specs.Plan.{Plan};
ghost use Rattle.pl_journal.specs.Places.{EdgePort};
ghost use Rattle.pl_world.specs.declared.event.Event.{Event};
ghost use Rattle.pl_world.specs.declared.limits.Limits.{Limits};
ghost use Rattle.pl_world.specs.Booting.{CanBegin, booted};
ghost use Rattle.pl_world.specs.Refusals.{refusal};
ghost use Rattle.pl_world.specs.Runs.{InEveryRun, Moment, WorldRun};
ghost use Rattle.pl_world.specs.WorldRule.{WorldStep};
ghost use Rattle.pl_world.specs.Worlds.{WorldView};
ghost use Rattle.pl_bridge_rule.specs.BridgeRule.{AreAtOnePort, Bridges};
ghost use Rattle.pl_law_bridge.specs.GoingOut.{times_gone_out, waiting_at};
ghost use Rattle.pl_law_bridge.specs.TreeWorld.{AllowFailures, IsNoRepair, KeepsToTree, RepairsNothing, failures, tree_world};

use pl_node::{HostLogic, ManagerLogic, SwitchLogic};

/// The world in which all links but those of the tree have failed is counted, and keeps to the tree.
pub fn the_first_world_keeps_to_the_tree()
    ensures { (plan : Plan) (limits : Limits) → CanBegin plan → KeepsToTree (tree_world plan limits) }
{}

/// It is reached from boot by steps, none of which is refused: each link that is none of the tree fails.
pub fn the_first_world_is_reached_by_failures<S: SwitchLogic, M: ManagerLogic, H: HostLogic>()
    ensures { (plan : Plan) (limits : Limits) → CanBegin plan → AllowFailures plan limits →
        WorldRun S.rule M.rule H.rule (booted plan limits) (failures plan) (tree_world plan limits) }
{}

/// Each step of a world of bridges that repairs no link keeps to the tree, whatever the manager and the
/// hosts do.
pub fn each_step_keeps_to_the_tree<M: ManagerLogic, H: HostLogic>()
    ensures { (old : WorldView) (event : Event) (new : WorldView) → refusal old event ≡ None → IsNoRepair event →
        WorldStep Bridges M.rule H.rule old event new → KeepsToTree old → KeepsToTree new }
{}

/// So does each run.
pub fn each_run_keeps_to_the_tree<M: ManagerLogic, H: HostLogic>()
    ensures { (old : WorldView) (moments : List Moment) (new : WorldView) → AllByRecursion RepairsNothing moments →
        WorldRun Bridges M.rule H.rule old moments new → KeepsToTree old → KeepsToTree new }
{}

/// In every run of bridges an address is at one port at most of each of their tables.
pub fn an_address_is_at_one_port_in_every_run<M: ManagerLogic, H: HostLogic>()
    ensures { InEveryRun Bridges M.rule H.rule (λ w. AllByRecursion (λ v. AreAtOnePort v.members) w.switches) }
{}

/// In a run of bridges at most one frame of each root goes out of each port for hosts, whoever stands there
/// and whatever becomes of it; and once one has gone out none waits there.
pub fn one_copy_goes_out_of_each_port<M: ManagerLogic, H: HostLogic>()
    ensures gone { (old : WorldView) (moments : List Moment) (new : WorldView) (r : ℕ) (there : EdgePort) → AllByRecursion RepairsNothing moments →
        (run : WorldRun Bridges M.rule H.rule old moments new) → KeepsToTree old →
        times_gone_out Bridges M.rule H.rule old moments new run r there ≤ 1 }
    ensures waiting { (old : WorldView) (moments : List Moment) (new : WorldView) (r : ℕ) (there : EdgePort) → AllByRecursion RepairsNothing moments →
        (run : WorldRun Bridges M.rule H.rule old moments new) → KeepsToTree old →
        times_gone_out Bridges M.rule H.rule old moments new run r there + waiting_at new r there ≤ 1 }
{}
