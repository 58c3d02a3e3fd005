ghost use Rattle.std.specs.Prelude.{◌≡◌, ℕ, List, Option, None, Some, slice_get};
ghost use Rattle.std.specs.List.{AllByRecursion};
ghost use Rattle.pl_wiring.specs.declared.host.Host.{Host};
ghost use Rattle.pl_wiring.specs.Plan.{Plan};
ghost use Rattle.pl_script.specs.declared.script.ScriptLine.{ScriptLine};
ghost use Rattle.pl_script.specs.ForBridges.{LineRepairsNoLink};
ghost use Rattle.pl_inputs.specs.declared.words.Network.TheVariants.{Bridges};
ghost use Rattle.pl_inputs.specs.Records.{Recorded};
ghost use Rattle.pl_world.specs.declared.limits.Limits.{Limits};
ghost use Rattle.pl_world.specs.Booting.{CanBegin, booted};
ghost use Rattle.pl_world.specs.Runs.{Moment, WorldRun};
ghost use Rattle.pl_law_bridge.specs.TreeWorld.{AllowFailures, KeepsToTree};
ghost use Rattle.pl_script_rule.specs.declared.stop.Stop.{Stop};
ghost use Rattle.pl_script_rule.specs.Asked.{DoesAsAsked};
ghost use Rattle.pl_script_rule.specs.OnTree.{PlaysOn};
ghost use Rattle.pl_script_rule.specs.Scenes.{Scene};

use pl_bridge_rule::LearningBridge;
use pl_law_bridge::{
    each_run_keeps_to_the_tree, the_first_world_is_reached_by_failures,
    the_first_world_keeps_to_the_tree,
};
use pl_node::{HostLogic, ManagerLogic, SwitchLogic};

/// What a script does on the tree is a run from the beginning of the network on: first the other links fail,
/// for which there is room in the limits.
pub fn a_script_on_the_tree_is_a_run<S: SwitchLogic, M: ManagerLogic, H: HostLogic>()
    ensures { (plan : Plan) (limits : Limits) (records : List (List Recorded)) (lines : List ScriptLine) (end : Option (ℕ × Stop)) (scene : Scene) →
        CanBegin plan → AllowFailures plan limits → PlaysOn Bridges S.rule M.rule H.rule plan limits records lines end scene →
        (moments : List Moment) × WorldRun S.rule M.rule H.rule (booted plan limits) moments scene.world }
{
    the_first_world_is_reached_by_failures::<S, M, H>();
}

/// Where a script is played to its end on the tree, each host does just what the script asks of it and what
/// the frames that arrive bring about.
pub fn hosts_on_the_tree_do_what_is_asked<S: SwitchLogic, M: ManagerLogic, H: HostLogic>()
    ensures { (plan : Plan) (limits : Limits) (records : List (List Recorded)) (lines : List ScriptLine) (scene : Scene) (n : ℕ) (host : Host) →
        CanBegin plan → AllowFailures plan limits → PlaysOn Bridges S.rule M.rule H.rule plan limits records lines None scene → slice_get plan.hosts n ≡ Some host →
        DoesAsAsked H.rule plan records lines n host scene.world }
{
    the_first_world_is_reached_by_failures::<S, M, H>();
}

/// A script of bridges that repairs no link keeps to the tree.
pub fn a_script_on_the_tree_keeps_to_it<S: LearningBridge, M: ManagerLogic, H: HostLogic>()
    ensures { (plan : Plan) (limits : Limits) (records : List (List Recorded)) (lines : List ScriptLine) (end : Option (ℕ × Stop)) (scene : Scene) →
        CanBegin plan → AllByRecursion LineRepairsNoLink lines → PlaysOn Bridges S.rule M.rule H.rule plan limits records lines end scene → KeepsToTree scene.world }
{
    the_first_world_keeps_to_the_tree();
    each_run_keeps_to_the_tree::<M, H>();
}
