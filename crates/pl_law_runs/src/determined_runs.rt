ghost use Rattle.std.specs.Prelude.{◌≡◌, List};
ghost use Rattle.pl_host_rule.specs.HostRule.{host_rule};
ghost use Rattle.pl_manager_rule.specs.WholeRule.{whole_rule};
ghost use Rattle.pl_switch_rule.specs.SwitchRule.{Exact};
ghost use Rattle.pl_world.specs.declared.event.Event.{Event};
ghost use Rattle.pl_world.specs.Runs.{Moment, WorldRun};
ghost use Rattle.pl_world.specs.WorldRule.{WorldStep};
ghost use Rattle.pl_world.specs.Worlds.{WorldView};
ghost use Rattle.pl_law_runs.specs.NoChoice.{LeavesHostNoChoice, LeavesManagerNoChoice, LeavesSwitchNoChoice};

use pl_node::{HostLogic, ManagerLogic, SwitchLogic};

/// Rules that leave no choice determine each step: one event makes one world of a world.
pub fn rules_that_leave_no_choice_determine_a_step<S: SwitchLogic, M: ManagerLogic, H: HostLogic>()
    ensures { LeavesSwitchNoChoice S.rule → LeavesManagerNoChoice M.rule → LeavesHostNoChoice H.rule →
        (old : WorldView) (event : Event) (one other : WorldView) →
        WorldStep S.rule M.rule H.rule old event one → WorldStep S.rule M.rule H.rule old event other → one ≡ other }
{}

/// So they determine each run, by the events of its steps and the marks between them.
pub fn rules_that_leave_no_choice_determine_a_run<S: SwitchLogic, M: ManagerLogic, H: HostLogic>()
    ensures { LeavesSwitchNoChoice S.rule → LeavesManagerNoChoice M.rule → LeavesHostNoChoice H.rule →
        (old : WorldView) (moments : List Moment) (one other : WorldView) →
        WorldRun S.rule M.rule H.rule old moments one → WorldRun S.rule M.rule H.rule old moments other → one ≡ other }
{}

/// The exact rule of switches, the rule of the manager and that of hosts are such rules.
pub fn the_rules_of_the_fabric_leave_no_choice()
    ensures switches { LeavesSwitchNoChoice Exact }
    ensures manager { LeavesManagerNoChoice whole_rule }
    ensures hosts { LeavesHostNoChoice host_rule }
{}

/// So with them a step is determined by the world before it and its event.
pub fn a_step_is_determined()
    ensures { (old : WorldView) (event : Event) (one other : WorldView) →
        WorldStep Exact whole_rule host_rule old event one → WorldStep Exact whole_rule host_rule old event other → one ≡ other }
{}

/// And a run by the world at its beginning and its moments.
pub fn a_run_is_determined()
    ensures { (old : WorldView) (moments : List Moment) (one other : WorldView) →
        WorldRun Exact whole_rule host_rule old moments one → WorldRun Exact whole_rule host_rule old moments other → one ≡ other }
{}
