ghost use Rattle.std.specs.Prelude.{◌≡◌};
ghost use Rattle.pl_script_rule.specs.Queues.{between_switches, from_host, port_of, port_towards, queue_between, to_host};

use crate::player::Player;
use pl_node::{HostLogic, ManagerLogic, SwitchLogic};
use pl_script::End;
use pl_stage::Watcher;
use pl_wiring::{HostNo, Link, SwitchNo};
use pl_world::QueueName;
use pl_world_parts::link_of;

// The port at which a link leaves this one of its two switches.
fn port_of(a: SwitchNo, link: Link) -> u8
    ensures { result ≡ port_of a.0 link }
{
    if link.lower.0 == a.0 {
        link.lower_port
    } else {
        link.upper_port
    }
}

impl<S: SwitchLogic, M: ManagerLogic, H: HostLogic, W: Watcher<S, M, H>> Player<S, M, H, W> {
    /// The port of a switch whose link leads to another.
    pub(crate) fn port_towards(&self, a: SwitchNo, b: SwitchNo) -> Option<u8>
        ensures { result ≡ port_towards self.now.world.plan a.0 b.0 }
    {
        match link_of(self.wiring(), a, b) {
            None => None,
            Some(link) => Some(port_of(a, link)),
        }
    }

    /// The queue from one end to another; none where no queue joins them.
    pub(crate) fn queue_between(&self, from: End, to: End) -> Option<QueueName>
        ensures { result ≡ queue_between self.now.world from to }
    {
        match (from, to) {
            (End::Switch(a), End::Switch(b)) => self.between_switches(a, b),
            (End::Host(h), End::Switch(s)) => self.from_host(h, s),
            (End::Switch(s), End::Host(h)) => self.to_host(s, h),
            (End::Switch(s), End::Manager) => Some(QueueName::ToManager(s)),
            (End::Manager, End::Switch(s)) => Some(QueueName::FromManager(s)),
            _ => None,
        }
    }

    fn between_switches(&self, a: SwitchNo, b: SwitchNo) -> Option<QueueName>
        ensures { result ≡ between_switches self.now.world.plan a b }
    {
        let port = self.port_towards(a, b)?;
        Some(QueueName::Port(a, port))
    }

    // The queue from a host to the switch where it stands.
    fn from_host(&self, h: HostNo, s: SwitchNo) -> Option<QueueName>
        ensures { result ≡ from_host self.now.world h s }
    {
        let attachment = self.place_of_host(h)?;
        if attachment.edge.0 == s.0 {
            Some(QueueName::FromHost(h))
        } else {
            None
        }
    }

    // The queue to a host from the switch where it stands.
    fn to_host(&self, s: SwitchNo, h: HostNo) -> Option<QueueName>
        ensures { result ≡ to_host self.now.world s h }
    {
        let attachment = self.place_of_host(h)?;
        if attachment.edge.0 == s.0 {
            Some(QueueName::Port(s, attachment.port))
        } else {
            None
        }
    }
}
