ghost use Rattle.std.specs.Prelude.{reverse};
ghost use Rattle.pl_manager_rule.specs.WholeRule.{whole_rule};
ghost use Rattle.pl_switch_rule.specs.SwitchRule.{Loose};
ghost use Rattle.pl_world.specs.Runs.{InEveryRun};
ghost use Rattle.pl_law_registration.specs.Stood.{AreStoodFor};

use pl_node::HostLogic;

/// In every run each address is granted at its own port, to a host that stands there, or has stood there:
/// the journal says so, as the one lossy switch wants it of each grant.
pub fn addresses_are_granted_where_hosts_stood<H: HostLogic>()
    ensures { InEveryRun Loose whole_rule H.rule (λ new. AreStoodFor new.plan (reverse new.journal)) }
{}
