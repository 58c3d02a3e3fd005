ghost use Rattle.std.specs.Prelude.{ℕ, List, Option};
ghost use Rattle.pl_wiring.specs.Plan.{Plan};
ghost use Rattle.pl_script.specs.declared.script.ScriptLine.{ScriptLine};
ghost use Rattle.pl_inputs.specs.Records.{Recorded};
ghost use Rattle.pl_world.specs.declared.limits.Limits.{Limits};
ghost use Rattle.pl_world.specs.Booting.{CanBegin};
ghost use Rattle.pl_fabric.specs.Settlings.{IsAtRest};
ghost use Rattle.pl_script_rule.specs.declared.stop.Stop.{Stop};
ghost use Rattle.pl_script_rule.specs.Lines.{Plays};
ghost use Rattle.pl_script_rule.specs.Scenes.{Scene};
ghost use Rattle.pl_law_registration.specs.Registering.{AreRegistered};

use pl_host_rule::LawfulHost;
use pl_manager_rule::LawfulManager;
use pl_switch_rule::LooseSwitch;

/// A script that is played on lawful logic and leaves the fabric at rest leaves its hosts registered so.
pub fn a_script_that_ends_at_rest_leaves_hosts_registered<
    S: LooseSwitch,
    M: LawfulManager,
    H: LawfulHost,
>()
    ensures { (plan : Plan) (limits : Limits) (records : List (List Recorded)) (lines : List ScriptLine) (end : Option (ℕ × Stop)) (scene : Scene) →
        CanBegin plan → Plays S.rule M.rule H.rule plan limits records lines end scene → IsAtRest scene.world → AreRegistered scene.world }
{}
