ghost use Rattle.std.specs.Prelude.{◌≡◌};
ghost use Rattle.pl_topology.specs.Checks.{addresses_differ, names_differ};
ghost use Rattle.pl_topology.specs.Refusal.{ReadingGives};

use crate::TopologyError;
use crate::entries::HostEntry;
use pl_wiring::Name;
use std::alloc::Global;
use std::collections::HashSet;

/// The first host that has the name of an earlier one.
#[tactic(auto, unfolding(crate::specs::Checks::name_is_new))]
pub(crate) fn names_differ(alloc: Global, hosts: &[HostEntry]) -> Result<(), TopologyError>
    ensures { ReadingGives (λ u. u) result (names_differ hosts.now) }
{
    let mut seen = HashSet::new(alloc);
    for host in hosts {
        if !seen.insert(host.name.text())? {
            return Err(TopologyError::DoubleHost(Name::copy(alloc, host.name.text())?));
        }
    }
    Ok(())
}

/// The first host that has an address of an earlier one.
#[tactic(auto, unfolding(crate::specs::Checks::addresses_are_new))]
pub(crate) fn addresses_differ(alloc: Global, hosts: &[HostEntry]) -> Result<(), TopologyError>
    ensures { ReadingGives (λ u. u) result (addresses_differ hosts.now) }
{
    let mut macs = HashSet::new(alloc);
    let mut ips = HashSet::new(alloc);
    for host in hosts {
        let mac_is_new = macs.insert(host.mac.0)?;
        let ip_is_new = ips.insert(host.ip.0)?;
        if !mac_is_new || !ip_is_new {
            return Err(TopologyError::DoubleAddress(Name::copy(alloc, host.name.text())?));
        }
    }
    Ok(())
}
