ghost use Rattle.std.specs.Prelude.{◌≡◌};
ghost use Rattle.pl_lists.specs.Ports.{ports_of};
ghost use Rattle.pl_switch_rule.specs.Forwarding.{candidates};

use pl_lists::PortSet;
use pl_node::SwitchFacts;
use pl_pmac::Pmac;
use pl_switch_rule::Came;

/// A switch that can be asked, besides, by which ports a unicast frame may leave.
pub trait UnicastFacts: SwitchFacts {
    /// The ports by which a unicast frame for this pod and position may leave.
    fn candidates(&self, to: Pmac, came: Came) -> PortSet
        ensures { ports_of result ≡ candidates (Self.view self.now) to came };
}
