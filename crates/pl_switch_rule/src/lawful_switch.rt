ghost use Rattle.pl_node.specs.Accounting.{AreOneRule, AllowsNoMore};
ghost use Rattle.pl_switch_rule.specs.SwitchRule.{Exact, Loose};

use pl_node::SwitchLogic;

/// A switch that does all by the rule, and takes of the candidate ports the one that the flow names.
pub trait LawfulSwitch: SwitchLogic {
    ghost lawful: { AreOneRule Self.rule Exact };
}

/// Such a switch does no more than one that chooses among the candidate ports as it likes.
pub fn a_lawful_switch_is_loose<S: LawfulSwitch>()
    ensures { AllowsNoMore S.rule Loose }
{}
