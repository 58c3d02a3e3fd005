ghost use Rattle.std.specs.Prelude.{◌≡◌, [], IfOk, option_map};
ghost use Rattle.toml.specs.View.{table_view};
ghost use Rattle.pl_topology.specs.Document.{lent_tables};
ghost use Rattle.pl_topology.specs.Entries.{host_entry};
ghost use Rattle.pl_wiring.specs.Labels.{IsArity};
ghost use Rattle.pl_topology.specs.Refusal.{ReadingGives, all_beside};

use crate::document::integer_at;
use crate::entries::HostEntry;
use crate::values::{capture_value, edge_value, ip_value, mac_value, name_value};
use crate::{Key, Memory, TopologyError};
use pl_wiring::Name;
use std::alloc::Global;
use toml::Table;

/// Reads the `host` tables, in their order.
pub(crate) fn read_hosts(
    alloc: Global,
    k: u8,
    tables: &[&Table],
) -> Result<Vec<HostEntry>, TopologyError>
    requires { IsArity k }
    ensures { ReadingGives (λ hosts. hosts.items) result (all_beside (λ _. host_entry k) [] (lent_tables tables.now)) }
{
    let mut hosts = Vec::new(alloc);
    for table in tables {
        let host = read_host(alloc, k, table)?;
        hosts.push(host)?;
    }
    Ok(hosts)
}

#[tactic(auto, unfolding(crate::specs::Entries::host_entry))]
fn read_host(alloc: Global, k: u8, table: &Table) -> Result<HostEntry, TopologyError>
    requires { IsArity k }
    ensures { ReadingGives (λ host. host) result (host_entry k (table_view table.now)) }
{
    let Some(name) = name_value(table, Key::Name) else {
        return Err(TopologyError::BadValue(Key::Name));
    };
    let Some(mac) = mac_value(table, Key::Mac) else {
        return Err(TopologyError::BadValue(Key::Mac));
    };
    let Some(ip) = ip_value(table, Key::Ip) else {
        return Err(TopologyError::BadValue(Key::Ip));
    };
    let Some(edge) = edge_value(k, table, Key::Edge) else {
        return Err(TopologyError::BadValue(Key::Edge));
    };
    let Some(port) = integer_at(table, Key::Port) else {
        return Err(TopologyError::BadValue(Key::Port));
    };
    let Some(capture) = capture_value(table, Key::Capture) else {
        return Err(TopologyError::BadValue(Key::Capture));
    };
    Ok(HostEntry {
        name: Name::copy(alloc, name)?,
        mac,
        ip,
        edge,
        port,
        capture: copied(alloc, capture)?,
    })
}

fn copied(alloc: Global, name: Option<&str>) -> Result<Option<Name>, Memory>
    ensures { IfOk result (λ copy. copy ≡ option_map (λ n. n.now) name.entry) }
{
    match name {
        Some(name) => Ok(Some(Name::copy(alloc, name)?)),
        None => Ok(None),
    }
}
