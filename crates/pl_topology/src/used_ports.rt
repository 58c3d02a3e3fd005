ghost use Rattle.std.specs.Prelude.{◌≡◌, ◌<◌, [], ◌∷◌, ◌++◌, List, map, pos, true, false, IfOk, IfSome, IfNone, OnOk, All};
ghost use Rattle.std.specs.List.{filter, flat_map};
ghost use Rattle.pl_topology.specs.declared.entries.PortUse.{PortUse};
ghost use Rattle.pl_topology.specs.Checks.{are_adjacent, canonical_uses, host_uses, is_port, is_unspoken, kept_uses, link_uses, port_is_free, ports_differ};
ghost use Rattle.pl_topology.specs.FileEntries.{FindEntries};
ghost use Rattle.pl_topology.specs.Entries.{HasEdge, NamesSwitches};
ghost use Rattle.pl_topology.specs.Found.{FindsLinkEntries, SeesPorts};
ghost use Rattle.pl_wiring.specs.Labels.{IsArity, label_of, switch_count};
ghost use Rattle.pl_topology.specs.Refusal.{ReadingGives, each_beside};
ghost use Rattle.pl_topology.specs.declared.entries.LinkEntry.{LinkEntry};

use crate::adjacent::are_adjacent;
use crate::canonical::canonical_links;
use crate::entries::{HostEntry, LinkEntry, PortUse};
use crate::file_entries::FileEntries;
use crate::link_tables::{EntryByEnds, entry_between};
use crate::{Memory, TopologyError};
use pl_wiring::{Link, label_at};
use std::alloc::Global;
use std::collections::HashSet;

/// The ports of switches that a link or a host is at.
pub(crate) type UsedPorts = HashSet<(u32, u8)>;

// The ports of the canonical links of which no table speaks.
fn kept_ports(alloc: Global, k: u8, by_ends: &EntryByEnds) -> Result<UsedPorts, Memory>
    requires { IsArity k }
    ensures { (given : List LinkEntry) → FindsLinkEntries by_ends.now given → IfOk result (λ used. SeesPorts used (kept_uses k given)) }
{
    let links = canonical_links(alloc, k)?;
    let mut used = HashSet::new(alloc);
    for link in &links {
        keep_ports(&mut used, by_ends, link)?;
    }
    Ok(used)
}

fn keep_ports(used: &mut UsedPorts, by_ends: &EntryByEnds, link: &Link) -> Result<(), Memory>
    ensures { (given : List LinkEntry) (before : List PortUse) → FindsLinkEntries by_ends.now given → SeesPorts used.old before →
        OnOk result (SeesPorts used.new (before ++ flat_map canonical_uses (filter (is_unspoken given) (link.now ∷ [])))) }
{
    match entry_between(by_ends, link.lower, link.upper) {
        Some(_) => {}
        None => {
            used.insert((link.lower.0, link.lower_port))?;
            used.insert((link.upper.0, link.upper_port))?;
        }
    }
    Ok(())
}

// The number of a port, where a switch has it.
fn number(k: u8, taken: &PortUse) -> Option<u8>
    ensures found { IfSome result (λ n. taken.now.port ≡ pos n) }
    ensures below { IfSome result (λ n. n < k) }
    ensures none { IfNone result (is_port k taken.now.port ≡ false) }
{
    match u8::try_from(taken.port) {
        Ok(number) if number < k => Some(number),
        _ => None,
    }
}

fn bad_port(k: u8, taken: &PortUse) -> TopologyError
    requires arity { IsArity k }
    requires in_range { taken.now.switch.0 < switch_count k }
    ensures { result ≡ TopologyError.BadPort (label_of k taken.now.switch.0) taken.now.port }
{
    TopologyError::BadPort(label_at(k, taken.switch), taken.port)
}

fn take_port(k: u8, used: &mut UsedPorts, taken: &PortUse) -> Result<(), TopologyError>
    requires arity { IsArity k }
    requires in_range { taken.now.switch.0 < switch_count k }
    ensures exact { (before : List PortUse) → SeesPorts used.old before → ReadingGives (λ u. u) result (port_is_free k before taken.now) }
    ensures sees { (before : List PortUse) → SeesPorts used.old before → OnOk result (SeesPorts used.new (before ++ taken.now ∷ [])) }
{
    let Some(number) = number(k, taken) else {
        return Err(bad_port(k, taken));
    };
    if !taken.counts {
        return Ok(());
    }
    if !used.insert((taken.switch.0, number))? {
        return Err(bad_port(k, taken));
    }
    Ok(())
}

fn take_ports(k: u8, used: &mut UsedPorts, uses: &[PortUse]) -> Result<(), TopologyError>
    requires arity { IsArity k }
    requires in_range { All (λ taken. taken.switch.0 < switch_count k) uses.now }
    ensures exact { (before : List PortUse) → SeesPorts used.old before → ReadingGives (λ u. u) result (each_beside (port_is_free k) before uses.now) }
    ensures sees { (before : List PortUse) → SeesPorts used.old before → OnOk result (SeesPorts used.new (before ++ uses.now)) }
{
    for taken in uses {
        take_port(k, used, taken)?;
    }
    Ok(())
}

fn link_uses(k: u8, entry: &LinkEntry) -> [PortUse; 2]
    requires arity { IsArity k }
    requires in_range { NamesSwitches k entry.now }
    ensures { result ≡ link_uses k entry.now }
{
    let counts = are_adjacent(k, entry.a, entry.b);
    [
        PortUse {
            switch: entry.a,
            port: entry.port_a,
            counts,
        },
        PortUse {
            switch: entry.b,
            port: entry.port_b,
            counts,
        },
    ]
}

fn host_uses(host: &HostEntry) -> [PortUse; 1]
    ensures { result ≡ host_uses host.now }
{
    [PortUse {
        switch: host.edge,
        port: host.port,
        counts: true,
    }]
}

// The first port of a `link` table that is not there or that another link is at.
fn link_ports(k: u8, used: &mut UsedPorts, entries: &[LinkEntry]) -> Result<(), TopologyError>
    requires arity { IsArity k }
    requires in_range { All (NamesSwitches k) entries.now }
    ensures exact { (before : List PortUse) → SeesPorts used.old before →
        ReadingGives (λ u. u) result (each_beside (port_is_free k) before (flat_map (link_uses k) entries.now)) }
    ensures sees { (before : List PortUse) → SeesPorts used.old before → OnOk result (SeesPorts used.new (before ++ flat_map (link_uses k) entries.now)) }
{
    for entry in entries {
        take_ports(k, used, &link_uses(k, entry))?;
    }
    Ok(())
}

// The first port of a `host` table that is not there or that a link or an earlier host is at.
fn host_ports(k: u8, used: &mut UsedPorts, hosts: &[HostEntry]) -> Result<(), TopologyError>
    requires arity { IsArity k }
    requires in_range { All (HasEdge k) hosts.now }
    ensures { (before : List PortUse) → SeesPorts used.old before → ReadingGives (λ u. u) result (each_beside (port_is_free k) before (flat_map host_uses hosts.now)) }
{
    for host in hosts {
        take_ports(k, used, &host_uses(host))?;
    }
    Ok(())
}

/// The first port of a table that is not there or that something before has.
#[tactic(auto, unfolding(crate::specs::Checks::ports_differ))]
pub(crate) fn ports_differ(alloc: Global, k: u8, entries: &FileEntries) -> Result<(), TopologyError>
    requires arity { IsArity k }
    requires found { FindEntries entries.now }
    requires links_in_range { All (NamesSwitches k) entries.now.links.entries.items }
    requires hosts_in_range { All (HasEdge k) entries.now.hosts.items }
    ensures { ReadingGives (λ u. u) result (ports_differ k entries.now.links.entries.items entries.now.hosts.items) }
{
    let mut used = kept_ports(alloc, k, &entries.links.by_ends)?;
    link_ports(k, &mut used, &entries.links.entries)?;
    host_ports(k, &mut used, &entries.hosts)
}
