ghost use Rattle.std.specs.Prelude.{List};
ghost use Rattle.pl_switch_rule.specs.SwitchRule.{Loose};
ghost use Rattle.pl_world.specs.Runs.{Moment, WorldRun};
ghost use Rattle.pl_world.specs.Worlds.{WorldView};

use pl_node::{HostLogic, ManagerLogic};
use pl_switch_rule::LooseSwitch;

/// Each run of switches that choose among the candidate ports as they like is one under the loose rule.
/// So what holds of each run under that rule holds of each run of theirs.
pub fn each_run_is_a_loose_run<S: LooseSwitch, M: ManagerLogic, H: HostLogic>()
    ensures { (old : WorldView) (moments : List Moment) (new : WorldView) →
        WorldRun S.rule M.rule H.rule old moments new → WorldRun Loose M.rule H.rule old moments new }
{}
