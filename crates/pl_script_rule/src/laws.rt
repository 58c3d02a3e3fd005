ghost use Rattle.std.specs.Prelude.{◌≡◌, ℕ, List, Option, None, Some, slice_get};
ghost use Rattle.pl_wiring.specs.declared.host.Host.{Host};
ghost use Rattle.pl_wiring.specs.Plan.{Plan};
ghost use Rattle.pl_script.specs.declared.script.ScriptLine.{ScriptLine};
ghost use Rattle.pl_inputs.specs.Records.{Recorded};
ghost use Rattle.pl_world.specs.declared.limits.Limits.{Limits};
ghost use Rattle.pl_world.specs.Booting.{CanBegin, booted};
ghost use Rattle.pl_world.specs.Runs.{Moment, WorldRun};
ghost use Rattle.pl_script_rule.specs.declared.stop.Stop.{Stop};
ghost use Rattle.pl_script_rule.specs.Asked.{DoesAsAsked};
ghost use Rattle.pl_script_rule.specs.Lines.{Plays};
ghost use Rattle.pl_script_rule.specs.Scenes.{Scene};

use pl_node::{HostLogic, ManagerLogic, SwitchLogic};

/// What a script does to a fabric is a run of it from its beginning on: steps, none of which is refused, and
/// marks. So what holds of each run holds of it.
pub fn a_script_is_a_run<S: SwitchLogic, M: ManagerLogic, H: HostLogic>()
    ensures { (plan : Plan) (limits : Limits) (records : List (List Recorded)) (lines : List ScriptLine) (end : Option (ℕ × Stop)) (scene : Scene) →
        Plays S.rule M.rule H.rule plan limits records lines end scene →
        (moments : List Moment) × WorldRun S.rule M.rule H.rule (booted plan limits) moments scene.world }
{}

/// Where a script is played to its end, each host does just what the script asks of it and what the frames
/// that arrive bring about: each record is played once, in order.
pub fn hosts_do_what_is_asked<S: SwitchLogic, M: ManagerLogic, H: HostLogic>()
    ensures { (plan : Plan) (limits : Limits) (records : List (List Recorded)) (lines : List ScriptLine) (scene : Scene) (n : ℕ) (host : Host) →
        CanBegin plan → Plays S.rule M.rule H.rule plan limits records lines None scene → slice_get plan.hosts n ≡ Some host →
        DoesAsAsked H.rule plan records lines n host scene.world }
{}
