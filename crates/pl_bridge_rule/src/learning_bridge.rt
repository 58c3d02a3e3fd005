ghost use Rattle.pl_node.specs.Accounting.{AllowsNoMore};
ghost use Rattle.pl_bridge_rule.specs.BridgeRule.{Bridges};

use pl_node::SwitchLogic;

/// A switch that does all by the rule of learning bridges.
pub trait LearningBridge: SwitchLogic {
    ghost bridges: { AllowsNoMore Self.rule Bridges };
}
