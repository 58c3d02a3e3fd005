ghost use Rattle.pl_manager_rule.specs.WholeRule.{whole_rule};
ghost use Rattle.pl_switch_rule.specs.SwitchRule.{Loose};
ghost use Rattle.pl_world.specs.Runs.{InEveryRun};
ghost use Rattle.pl_law_registration.specs.BeingRegistered.{AreBeingRegistered, AreRemembered, AreAttachedApart};

use pl_host_rule::LawfulHost;
use pl_node::HostLogic;

/// In every run each host is attended to that is heard where it stands: its edge switch remembers it until it is
/// placed, and then has an address in use for it, with its IPv4 address, as long as vmid 65,535 of the port was not
/// given; or it is placed, and a probe of the host waits at its port, or an ARP frame that can be read in the host's
/// own queue. A host is heard from the moment on at which such a frame of it reached that switch since it came there,
/// until 300 ticks of that switch pass without a frame of it.
pub fn hosts_are_being_registered_in_every_run<H: LawfulHost>()
    ensures { InEveryRun Loose whole_rule H.rule AreBeingRegistered }
{}

/// So an edge switch that is not placed remembers, with its IPv4 address, each host that is heard there.
pub fn unplaced_edge_switches_remember_hosts<H: LawfulHost>()
    ensures { InEveryRun Loose whole_rule H.rule AreRemembered }
{}

/// In every run no two hosts stand at one place, whatever hosts do.
pub fn no_two_hosts_stand_at_one_place<H: HostLogic>()
    ensures { InEveryRun Loose whole_rule H.rule (λ new. AreAttachedApart new.attachments) }
{}
