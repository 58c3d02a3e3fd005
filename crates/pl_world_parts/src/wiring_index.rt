ghost use Rattle.std.specs.Prelude.{◌≡◌, ◌^◌, ◌<◌, length, option_map, IfOk, OnOk};
ghost use Rattle.std.specs.List.{position};
ghost use Rattle.pl_layouts.specs.Equality.{same_switch};
ghost use Rattle.pl_world.specs.Changes.{host_of};
ghost use Rattle.pl_world_parts.specs.WiringIndex.{AddsHost, AddsSwitch, FindsHostsByMac, FindsSwitches};

use indexmap::IndexMap;
use pl_frame::{Mac, Memory, SwitchId};
use pl_wiring::{Host, HostNo, SwitchNo, Wiring};
use std::alloc::Global;
use std::marker::Model;

/// A wiring whose switches are found by their ids, and its hosts by their hardware addresses. Contracts
/// see the plan of the wiring.
#[derive(Debug, Drop)]
pub struct WiringIndex {
    wiring: Wiring,
    by_id: IndexMap<SwitchId, SwitchNo>,
    by_mac: IndexMap<Mac, HostNo>,
}

impl Model for WiringIndex {
    ghost use Rattle.pl_wiring.specs.Plan.{Plan};
    ghost use Rattle.pl_world_parts.specs.WiringIndex.{IsWiringIndex};

    ghost Value = { Plan };

    ghost view = { λ wiring_index. wiring_index.wiring };

    ghost invariant = { λ wiring_index. IsWiringIndex wiring_index.wiring wiring_index.by_id.entries wiring_index.by_mac.entries };
}

impl WiringIndex {
    pub fn of_wiring(alloc: Global, wiring: Wiring) -> Result<WiringIndex, Memory>
        ensures { IfOk result (λ wiring_index. wiring_index ≡ wiring) }
    {
        let by_id = switches_by_id(alloc, &wiring)?;
        let by_mac = hosts_by_mac(alloc, wiring.hosts())?;
        Ok(WiringIndex {
            wiring,
            by_id,
            by_mac,
        })
    }

    pub fn wiring(&self) -> &Wiring
        ensures { result.now ≡ self.now }
    {
        &self.wiring
    }

    /// The switch that has an id.
    pub fn switch_with(&self, id: SwitchId) -> Option<SwitchNo>
        ensures { option_map (λ s. s.0) result ≡ position (same_switch id) self.now.ids }
    {
        self.by_id.get(&id).copied()
    }

    /// The host that has a hardware address.
    pub fn host_with(&self, mac: Mac) -> Option<HostNo>
        ensures { option_map (λ h. h.0) result ≡ host_of self.now mac }
    {
        self.by_mac.get(&mac).copied()
    }
}

fn switches_by_id(alloc: Global, wiring: &Wiring) -> Result<IndexMap<SwitchId, SwitchNo>, Memory>
    ensures { IfOk result (λ by_id. FindsSwitches wiring.now.ids by_id.entries) }
{
    let mut by_id = IndexMap::new(alloc);
    for n in 0..wiring.switch_count() {
        let s = SwitchNo(n);
        add_switch(&mut by_id, wiring.id(s), s)?;
    }
    Ok(by_id)
}

fn hosts_by_mac(alloc: Global, hosts: &[Host]) -> Result<IndexMap<Mac, HostNo>, Memory>
    requires { length hosts.now < 2 ^ 32 }
    ensures { IfOk result (λ by_mac. FindsHostsByMac hosts.now by_mac.entries) }
{
    let mut by_mac = IndexMap::new(alloc);
    for n in 0..hosts.len() {
        add_host(&mut by_mac, hosts[n].mac, HostNo(n as u32))?;
    }
    Ok(by_mac)
}

// Adds a switch, unless there is one with its id.
fn add_switch(
    by_id: &mut IndexMap<SwitchId, SwitchNo>,
    id: SwitchId,
    s: SwitchNo,
) -> Result<(), Memory>
    ensures { OnOk result (AddsSwitch by_id.old.entries id s by_id.new.entries) }
{
    if !by_id.contains_key(&id) {
        by_id.insert(id, s)?;
    }
    Ok(())
}

// Adds a host, unless there is one with its address.
fn add_host(by_mac: &mut IndexMap<Mac, HostNo>, mac: Mac, h: HostNo) -> Result<(), Memory>
    ensures { OnOk result (AddsHost by_mac.old.entries mac h by_mac.new.entries) }
{
    if !by_mac.contains_key(&mac) {
        by_mac.insert(mac, h)?;
    }
    Ok(())
}
