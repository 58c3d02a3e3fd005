ghost use Rattle.pl_host_rule.specs.HostRule.{IsHostRule};

use pl_node::HostLogic;

/// A host that takes each step that a host is to take, and no other.
pub trait LawfulHost: HostLogic {
    ghost lawful: { IsHostRule Self.rule };
}
