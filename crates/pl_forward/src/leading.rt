ghost use Rattle.std.specs.Prelude.{◌≡◌};
ghost use Rattle.pl_lists.specs.Ports.{ports_of};
ghost use Rattle.pl_switch_rule.specs.Forwarding.{candidates};

use crate::port_test::{PortTest, ports_that_pass};
use pl_lists::PortSet;
use pl_node::SwitchFacts;
use pl_pmac::Pmac;
use pl_switch_rule::{Came, is_candidate};

/// The ports by which a unicast frame for this pod and position may leave.
#[tactic(auto, unfolding(pl_switch_rule::specs::Forwarding::candidates))]
pub fn candidates<F: SwitchFacts>(facts: &F, to: Pmac, came: Came) -> PortSet
    ensures { ports_of result ≡ candidates (F.view facts.now) to came }
{
    ports_that_pass(&LeadsOn { facts, to, came }, facts.k())
}

// Whether a port leads on for a frame to this pod and position.
#[derive(Drop)]
struct LeadsOn<'a, F: SwitchFacts> {
    facts: &'a F,
    to: Pmac,
    came: Came,
}

impl<F: SwitchFacts> PortTest for LeadsOn<'_, F> {
    ghost use Rattle.pl_switch_rule.specs.Forwarding.{is_candidate};

    ghost ports = { λ leads. (F.view leads.facts.now).k };

    ghost passes = { λ leads port. is_candidate (F.view leads.facts.now) leads.to leads.came port };

    fn test(&self, port: u8) -> bool {
        is_candidate(self.facts, self.to, self.came, port)
    }
}
