ghost use Rattle.std.specs.Prelude.{◌≡◌, ◌<◌, List, IfOk, map, All};
ghost use Rattle.pl_topology.specs.Checks.{is_port};
ghost use Rattle.pl_topology.specs.FileEntries.{FindEntries, HasPort, NamesPorts, PortsFit, entries_view};
ghost use Rattle.pl_topology.specs.Found.{FindsIds, FindsLinkEntries};
ghost use Rattle.pl_wiring.specs.Labels.{IsArity};
ghost use Rattle.pl_topology.specs.Meaning.{at_ports, host_of, port_number, id_of, ids_of, link_of, links_of, plan_of_entries};
ghost use Rattle.pl_wiring.specs.Plan.{IsPlan};
ghost use Rattle.pl_topology.specs.declared.entries.LinkEntry.{LinkEntry};
ghost use Rattle.pl_topology.specs.declared.entries.SwitchEntry.{SwitchEntry};

use crate::Memory;
use crate::canonical::canonical_links;
use crate::entries::{HostEntry, LinkEntry};
use crate::file_entries::FileEntries;
use crate::link_tables::{EntryByEnds, entry_between};
use pl_frame::SwitchId;
use pl_wiring::{Host, Link, Wiring, switches};
use std::alloc::Global;
use std::collections::HashMap;

/// The wiring that the entries of a file make.
pub(crate) fn wiring(alloc: Global, k: u8, entries: FileEntries) -> Result<Wiring, Memory>
    requires plan { IsPlan (plan_of_entries k (entries_view entries)) }
    requires found { FindEntries entries }
    requires links { All (NamesPorts k) entries.links.entries.items }
    requires hosts { All (HasPort k) entries.hosts.items }
    ensures { IfOk result (λ w. w ≡ plan_of_entries k (entries_view entries)) }
{
    let ids = switch_ids(alloc, k, &entries.switches.ids)?;
    let links = tree_links(alloc, k, &entries.links.by_ends)?;
    let hosts = placed_hosts(alloc, k, entries.hosts)?;
    Wiring::new(alloc, k, ids, links, hosts)
}

fn switch_ids(alloc: Global, k: u8, given: &HashMap<u32, SwitchId>) -> Result<Vec<SwitchId>, Memory>
    requires { IsArity k }
    ensures { (entries : List SwitchEntry) → FindsIds given.now entries → IfOk result (λ ids. ids.items ≡ ids_of k entries) }
{
    let count = switches(k);
    let mut ids = Vec::with_capacity(alloc, count as usize)?;
    for number in 0..count {
        ids.push(switch_id(given, number))?;
    }
    Ok(ids)
}

fn switch_id(given: &HashMap<u32, SwitchId>, number: u32) -> SwitchId
    ensures { (entries : List SwitchEntry) → FindsIds given.now entries → result ≡ id_of entries number }
{
    match given.get(&number) {
        Some(id) => *id,
        None => SwitchId(u64::from(number) + 1),
    }
}

// The canonical links, at the ports that tables give them.
fn tree_links(alloc: Global, k: u8, by_ends: &EntryByEnds) -> Result<Vec<Link>, Memory>
    requires arity { IsArity k }
    requires ports { PortsFit k by_ends.now }
    ensures { (given : List LinkEntry) → FindsLinkEntries by_ends.now given → IfOk result (λ links. links.items ≡ links_of k given) }
{
    let canonical = canonical_links(alloc, k)?;
    let mut links = Vec::with_capacity(alloc, canonical.len())?;
    for link in &canonical {
        links.push(tree_link(k, by_ends, link))?;
    }
    Ok(links)
}

fn tree_link(k: u8, by_ends: &EntryByEnds, link: &Link) -> Link
    requires { PortsFit k by_ends.now }
    ensures { (given : List LinkEntry) → FindsLinkEntries by_ends.now given → result ≡ link_of given link.now }
{
    match entry_between(by_ends, link.lower, link.upper) {
        Some(entry) => at_ports(k, link, &entry),
        None => *link,
    }
}

// The link at the ports of an entry for the same two switches.
fn at_ports(k: u8, link: &Link, entry: &LinkEntry) -> Link
    requires { NamesPorts k entry.now }
    ensures { result ≡ at_ports link.now entry.now }
{
    let (port_a, port_b) = entry_ports(k, entry);
    let (lower_port, upper_port) = if entry.a.0 == link.lower.0 {
        (port_a, port_b)
    } else {
        (port_b, port_a)
    };
    Link {
        lower: link.lower,
        lower_port,
        upper: link.upper,
        upper_port,
    }
}

fn entry_ports(k: u8, entry: &LinkEntry) -> (u8, u8)
    requires { NamesPorts k entry.now }
    ensures { result ≡ (port_number entry.now.port_a, port_number entry.now.port_b) }
{
    let _ = k;
    (entry.port_a as u8, entry.port_b as u8)
}

fn placed_hosts(alloc: Global, k: u8, entries: Vec<HostEntry>) -> Result<Vec<Host>, Memory>
    requires { All (HasPort k) entries.items }
    ensures { IfOk result (λ hosts. hosts.items ≡ map host_of entries.items) }
{
    let mut hosts = Vec::with_capacity(alloc, entries.len())?;
    for entry in entries {
        hosts.push(placed_host(k, entry))?;
    }
    Ok(hosts)
}

fn placed_host(k: u8, entry: HostEntry) -> Host
    requires { HasPort k entry }
    ensures { result ≡ host_of entry }
{
    let _ = k;
    Host {
        name: entry.name,
        mac: entry.mac,
        ip: entry.ip,
        edge: entry.edge,
        port: entry.port as u8,
        capture: entry.capture,
    }
}
