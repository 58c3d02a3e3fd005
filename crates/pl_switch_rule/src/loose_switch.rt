ghost use Rattle.pl_node.specs.Accounting.{AllowsNoMore};
ghost use Rattle.pl_switch_rule.specs.SwitchRule.{Loose};

use pl_node::SwitchLogic;

/// A switch that chooses among the candidate ports as it likes, and does all else by the rule.
pub trait LooseSwitch: SwitchLogic {
    ghost obeys: { AllowsNoMore Self.rule Loose };
}
