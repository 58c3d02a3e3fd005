ghost use Rattle.pl_manager_rule.specs.Lawful.{IsManagerRule};

use pl_node::ManagerLogic;

/// A manager that does just what the rule of the fabric manager says.
pub trait LawfulManager: ManagerLogic {
    ghost lawful: { IsManagerRule Self.rule };
}
