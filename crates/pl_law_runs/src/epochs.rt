ghost use Rattle.pl_world.specs.Restarting.{CountsRestarts};
ghost use Rattle.pl_world.specs.Runs.{InEveryRun};

use pl_node::{HostLogic, ManagerLogic, SwitchLogic};

/// In every run the manager knows how often it began anew: as often as the journal says, whatever the rules of
/// switches, manager and hosts are, as long as the manager answers duly.
pub fn restarts_are_counted_in_every_run<S: SwitchLogic, M: ManagerLogic, H: HostLogic>()
    ensures { InEveryRun S.rule M.rule H.rule CountsRestarts }
{}
