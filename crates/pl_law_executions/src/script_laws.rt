ghost use Rattle.std.specs.Prelude.{◌≡◌, ℕ, List, Option};
ghost use Rattle.pl_wiring.specs.Plan.{Plan};
ghost use Rattle.pl_script.specs.declared.script.ScriptLine.{ScriptLine};
ghost use Rattle.pl_inputs.specs.Records.{Recorded};
ghost use Rattle.pl_inputs.specs.declared.words.Network.TheVariants.{Bridges as on_tree};
ghost use Rattle.pl_bridge_rule.specs.BridgeRule.{Bridges};
ghost use Rattle.pl_bridge_rule.specs.QuietManager.{IsQuiet};
ghost use Rattle.pl_host_rule.specs.HostRule.{host_rule};
ghost use Rattle.pl_manager_rule.specs.WholeRule.{whole_rule};
ghost use Rattle.pl_switch_rule.specs.SwitchRule.{Exact};
ghost use Rattle.pl_world.specs.declared.limits.Limits.{Limits};
ghost use Rattle.pl_law_runs.specs.NoChoice.{LeavesHostNoChoice, LeavesManagerNoChoice, LeavesSwitchNoChoice};
ghost use Rattle.pl_script_rule.specs.declared.stop.Stop.{Stop};
ghost use Rattle.pl_script_rule.specs.Lines.{Plays};
ghost use Rattle.pl_script_rule.specs.OnTree.{PlaysOn};
ghost use Rattle.pl_script_rule.specs.Scenes.{Scene};

use pl_bridge_rule::a_bridge_has_no_choice;
use pl_node::{HostLogic, ManagerLogic, SwitchLogic};

/// With rules that leave no choice a script comes to one end, however often it is played: it is done, or it
/// is stopped at the same line for the same reason, and the fabric and its journal are the same then.
pub fn a_script_goes_one_way<S: SwitchLogic, M: ManagerLogic, H: HostLogic>()
    ensures { LeavesSwitchNoChoice S.rule → LeavesManagerNoChoice M.rule → LeavesHostNoChoice H.rule →
        (plan : Plan) (limits : Limits) (records : List (List Recorded)) (lines : List ScriptLine) (end other : Option (ℕ × Stop)) (scene another : Scene) →
        Plays S.rule M.rule H.rule plan limits records lines end scene → Plays S.rule M.rule H.rule plan limits records lines other another →
        (end ≡ other) × (scene ≡ another) }
{}

/// So it is with the exact rule of switches, the rule of the manager and that of hosts: the wiring, the
/// limits, the captures' records and the script determine all that a run comes to.
pub fn one_script_one_end()
    ensures { (plan : Plan) (limits : Limits) (records : List (List Recorded)) (lines : List ScriptLine) (end other : Option (ℕ × Stop)) (scene another : Scene) →
        Plays Exact whole_rule host_rule plan limits records lines end scene → Plays Exact whole_rule host_rule plan limits records lines other another →
        (end ≡ other) × (scene ≡ another) }
{}

/// And so with learning bridges, a manager that says nothing and hosts, on the tree of the links.
pub fn one_script_one_end_of_bridges()
    ensures { (plan : Plan) (limits : Limits) (records : List (List Recorded)) (lines : List ScriptLine) (end other : Option (ℕ × Stop)) (scene another : Scene) →
        PlaysOn on_tree Bridges IsQuiet host_rule plan limits records lines end scene → PlaysOn on_tree Bridges IsQuiet host_rule plan limits records lines other another →
        (end ≡ other) × (scene ≡ another) }
{
    a_bridge_has_no_choice();
}
