ghost use Rattle.std.specs.Prelude.{◌≡◌, List};
ghost use Rattle.pl_wiring.specs.Plan.{Plan};
ghost use Rattle.pl_world.specs.declared.limits.Limits.{Limits};
ghost use Rattle.pl_world.specs.Booting.{CanBegin, booted};
ghost use Rattle.pl_world.specs.Runs.{Moment, WorldRun};
ghost use Rattle.pl_world.specs.Worlds.{WorldView};
ghost use Rattle.pl_law_runs.specs.NoChoice.{LeavesHostNoChoice, LeavesManagerNoChoice, LeavesSwitchNoChoice};
ghost use Rattle.pl_log_lines.specs.declared.look.Look.{Look};
ghost use Rattle.pl_watch.specs.Logs.{IsLog, LogLine, entries_in};
ghost use Rattle.pl_log_lines.specs.Looks.{ShowsAll};

use pl_node::{HostLogic, ManagerLogic, SwitchLogic};

/// A log is one of a run: of its moments, from the same world to the same one.
pub fn a_log_is_of_a_run<S: SwitchLogic, M: ManagerLogic, H: HostLogic>()
    ensures { (look : Look) (old : WorldView) (moments : List Moment) (new : WorldView) (lines : List LogLine) →
        IsLog S.rule M.rule H.rule look old moments new lines → WorldRun S.rule M.rule H.rule old moments new }
{}

/// Each run has a log.
pub fn each_run_has_a_log<S: SwitchLogic, M: ManagerLogic, H: HostLogic>()
    ensures { (look : Look) (old : WorldView) (moments : List Moment) (new : WorldView) → WorldRun S.rule M.rule H.rule old moments new →
        (lines : List LogLine) × IsLog S.rule M.rule H.rule look old moments new lines }
{}

/// Where the rules leave no choice, the same moments have one log: it is a function of the run.
pub fn one_run_one_log<S: SwitchLogic, M: ManagerLogic, H: HostLogic>()
    ensures { LeavesSwitchNoChoice S.rule → LeavesManagerNoChoice M.rule → LeavesHostNoChoice H.rule → (look : Look) (old : WorldView)
        (moments : List Moment) (new : WorldView) (one other : List LogLine) →
        IsLog S.rule M.rule H.rule look old moments new one → IsLog S.rule M.rule H.rule look old moments new other → one ≡ other }
{}

/// The journal stands in a log from which nothing is left out: its entries are those of the log, in their order.
pub fn the_journal_stands_in_the_log<S: SwitchLogic, M: ManagerLogic, H: HostLogic>()
    ensures { (look : Look) (plan : Plan) (limits : Limits) (moments : List Moment) (new : WorldView) (lines : List LogLine) →
        CanBegin plan → ShowsAll look → IsLog S.rule M.rule H.rule look (booted plan limits) moments new lines → entries_in lines ≡ new.journal }
{}
