ghost use Rattle.std.specs.Prelude.{◌≡◌, [], IfOk, unwrap_or};
ghost use Rattle.toml.specs.View.{table_view};
ghost use Rattle.pl_topology.specs.Complete.{has_keys, has_all_keys};
ghost use Rattle.pl_topology.specs.Document.{lent_tables, tables_at};
ghost use Rattle.pl_topology.specs.FileEntries.{FindEntries, entries_of, entries_view, host_entries, link_entries, switch_entries};
ghost use Rattle.pl_topology.specs.Found.{FindsIds, FindsLinkEntries};
ghost use Rattle.pl_wiring.specs.Labels.{IsArity};
ghost use Rattle.pl_topology.specs.Meaning.{topology_of};
ghost use Rattle.pl_topology.specs.Refusal.{ReadingGives, each, or_refused};

use crate::adjacent::join_the_tree;
use crate::building::wiring;
use crate::complete::tables_have;
use crate::document::{arity, document, tables_at};
use crate::double_hosts::{addresses_differ, names_differ};
use crate::double_ids::ids_differ;
use crate::entries::HostEntry;
use crate::file_entries::FileEntries;
use crate::host_tables::read_hosts;
use crate::link_tables::{LinkTables, read_links};
use crate::switch_tables::{SwitchTables, read_switches};
use crate::used_ports::ports_differ;
use crate::{Key, TopologyError};
use pl_wiring::Wiring;
use std::alloc::Global;
use toml::Table;

const SWITCH_KEYS: [Key; 2] = [Key::Label, Key::Id];

const LINK_KEYS: [Key; 4] = [Key::A, Key::PortA, Key::B, Key::PortB];

const HOST_KEYS: [Key; 5] = [Key::Name, Key::Mac, Key::Ip, Key::Edge, Key::Port];

/// Reads a topology file, a TOML document. Its `k`, an even number from 4 to 24, is the number of
/// ports of each switch. A `[[switch]]` table with `label` and `id` gives a switch another id than
/// its number in label order plus 1, a `[[link]]` table with `a`, `port_a`, `b` and `port_b` gives a
/// link other ports than the canonical ones, and a `[[host]]` table with `name`, `mac`, `ip`,
/// `edge`, `port` and, if wanted, `capture` adds a host. Other keys are ignored.
#[tactic(auto, unfolding(crate::specs::Meaning::topology_of))]
pub fn read(alloc: Global, file: &[u8]) -> Result<Wiring, TopologyError>
    ensures { ReadingGives (λ wiring. wiring) result (topology_of file.now) }
{
    let document = document(alloc, file)?;
    let Some(k) = arity(&document) else {
        return Err(TopologyError::BadK);
    };
    have_all_keys(alloc, &document)?;
    let entries = read_entries(alloc, k, &document)?;
    ids_differ(alloc, k, &entries.switches.entries, &entries.switches.ids)?;
    names_differ(alloc, &entries.hosts)?;
    addresses_differ(alloc, &entries.hosts)?;
    ports_differ(alloc, k, &entries)?;
    join_the_tree(k, &entries.links.entries)?;
    Ok(wiring(alloc, k, entries)?)
}

// The first key that a table of the file lacks.
#[tactic(auto, unfolding(crate::specs::Complete::has_all_keys))]
fn have_all_keys(alloc: Global, document: &Table) -> Result<(), TopologyError>
    ensures { ReadingGives (λ u. u) result (has_all_keys (table_view document.now)) }
{
    have_keys(alloc, document, Key::Switch, &SWITCH_KEYS)?;
    have_keys(alloc, document, Key::Link, &LINK_KEYS)?;
    have_keys(alloc, document, Key::Host, &HOST_KEYS)
}

// What is no array of tables has no table that could lack a key.
fn have_keys(alloc: Global, document: &Table, key: Key, keys: &[Key]) -> Result<(), TopologyError>
    ensures { ReadingGives (λ u. u) result (each (has_keys keys.now) (unwrap_or (tables_at key (table_view document.now)) [])) }
{
    match tables_at(alloc, document, key)? {
        Some(tables) => tables_have(&tables, keys),
        None => Ok(()),
    }
}

// What the tables say, one by one.
#[tactic(auto, unfolding(crate::specs::FileEntries::entries_of))]
fn read_entries(alloc: Global, k: u8, document: &Table) -> Result<FileEntries, TopologyError>
    requires { IsArity k }
    ensures exact { ReadingGives entries_view result (entries_of k (table_view document.now)) }
    ensures found { IfOk result FindEntries }
{
    let switches = file_switches(alloc, k, document)?;
    let links = file_links(alloc, k, document)?;
    let hosts = file_hosts(alloc, k, document)?;
    Ok(FileEntries {
        switches,
        links,
        hosts,
    })
}

#[tactic(auto, unfolding(crate::specs::FileEntries::switch_entries))]
fn file_switches(alloc: Global, k: u8, document: &Table) -> Result<SwitchTables, TopologyError>
    requires { IsArity k }
    ensures exact { ReadingGives (λ s. s.entries.items) result (switch_entries k (table_view document.now)) }
    ensures found { IfOk result (λ s. FindsIds s.ids s.entries.items) }
{
    read_switches(alloc, k, &listed(alloc, document, Key::Switch)?)
}

#[tactic(auto, unfolding(crate::specs::FileEntries::link_entries))]
fn file_links(alloc: Global, k: u8, document: &Table) -> Result<LinkTables, TopologyError>
    requires { IsArity k }
    ensures exact { ReadingGives (λ l. l.entries.items) result (link_entries k (table_view document.now)) }
    ensures found { IfOk result (λ l. FindsLinkEntries l.by_ends l.entries.items) }
{
    read_links(alloc, k, &listed(alloc, document, Key::Link)?)
}

#[tactic(auto, unfolding(crate::specs::FileEntries::host_entries))]
fn file_hosts(alloc: Global, k: u8, document: &Table) -> Result<Vec<HostEntry>, TopologyError>
    requires { IsArity k }
    ensures { ReadingGives (λ hosts. hosts.items) result (host_entries k (table_view document.now)) }
{
    read_hosts(alloc, k, &listed(alloc, document, Key::Host)?)
}

fn listed<'a>(alloc: Global, document: &'a Table, key: Key) -> Result<Vec<&'a Table>, TopologyError>
    ensures { ReadingGives (λ tables. lent_tables tables.items) result (or_refused (tables_at key (table_view document.now)) (TopologyError.BadValue key)) }
{
    match tables_at(alloc, document, key)? {
        Some(tables) => Ok(tables),
        None => Err(TopologyError::BadValue(key)),
    }
}
