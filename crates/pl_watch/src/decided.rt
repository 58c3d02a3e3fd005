ghost use Rattle.pl_law_runs.proofs.Exports.{exact_leaves_no_choice, whole_rule_leaves_no_choice};
ghost use Rattle.pl_law_runs.specs.NoChoice.{LeavesManagerNoChoice, LeavesSwitchNoChoice};

use pl_manager::Manager;
use pl_node::{ManagerLogic, SwitchLogic};
use pl_tables::TableSwitch;

/// A switch whose rule leaves no choice: a second one that hears the same does the same.
pub trait DecidedSwitch: SwitchLogic {
    ghost no_choice: { LeavesSwitchNoChoice Self.rule };
}

/// A manager of whom the same holds.
pub trait DecidedManager: ManagerLogic {
    ghost no_choice: { LeavesManagerNoChoice Self.rule };
}

impl DecidedSwitch for TableSwitch {
    ghost no_choice = { exact_leaves_no_choice };
}

impl DecidedManager for Manager {
    ghost no_choice = { whole_rule_leaves_no_choice };
}
