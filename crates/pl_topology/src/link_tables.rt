ghost use Rattle.std.specs.Prelude.{◌≡◌, [], List, IfOk, Option};
ghost use Rattle.std.specs.HashMap.{get};
ghost use Rattle.std.specs.List.{find};
ghost use Rattle.toml.specs.View.{table_view};
ghost use Rattle.pl_topology.specs.Document.{lent_tables};
ghost use Rattle.pl_topology.specs.Entries.{is_again, is_between, link_entry};
ghost use Rattle.pl_wiring.specs.Labels.{IsArity};
ghost use Rattle.pl_topology.specs.Refusal.{ReadingGives, all_beside};
ghost use Rattle.pl_topology.specs.Found.{FindsLinkEntries, ends_of, same_pair};
ghost use Rattle.pl_topology.specs.declared.entries.LinkEntry.{LinkEntry};

use crate::document::integer_at;
use crate::entries::LinkEntry;
use crate::values::switch_value;
use crate::{Key, TopologyError};
use pl_wiring::SwitchNo;
use std::alloc::Global;
use std::collections::HashMap;
use toml::Table;

/// What a link table says of the link between two switches, the smaller number first.
pub(crate) type EntryByEnds = HashMap<(u32, u32), LinkEntry>;

/// What the `link` tables say, in their order, and by the two switches that they name.
#[derive(Debug, Drop)]
pub(crate) struct LinkTables {
    pub(crate) entries: Vec<LinkEntry>,
    pub(crate) by_ends: EntryByEnds,
}

/// Reads the `link` tables.
pub(crate) fn read_links(
    alloc: Global,
    k: u8,
    tables: &[&Table],
) -> Result<LinkTables, TopologyError>
    requires { IsArity k }
    ensures exact { ReadingGives (λ l. l.entries.items) result (all_beside (link_entry k) [] (lent_tables tables.now)) }
    ensures found { IfOk result (λ l. FindsLinkEntries l.by_ends l.entries.items) }
{
    let mut entries = Vec::new(alloc);
    let mut by_ends = HashMap::new(alloc);
    for table in tables {
        let entry = read_link(k, table, &by_ends)?;
        by_ends.insert(ends(entry.a, entry.b), entry)?;
        entries.push(entry)?;
    }
    Ok(LinkTables { entries, by_ends })
}

#[tactic(auto, unfolding(crate::specs::Entries::link_entry))]
fn read_link(k: u8, table: &Table, by_ends: &EntryByEnds) -> Result<LinkEntry, TopologyError>
    requires { IsArity k }
    ensures { (before : List LinkEntry) → FindsLinkEntries by_ends.now before → result ≡ link_entry k before (table_view table.now) }
{
    let Some(a) = switch_value(k, table, Key::A) else {
        return Err(TopologyError::BadValue(Key::A));
    };
    let b = switch_value(k, table, Key::B);
    if is_again(by_ends, a, b) {
        return Err(TopologyError::BadValue(Key::A));
    }
    let Some(port_a) = integer_at(table, Key::PortA) else {
        return Err(TopologyError::BadValue(Key::PortA));
    };
    let Some(b) = b else {
        return Err(TopologyError::BadValue(Key::B));
    };
    match integer_at(table, Key::PortB) {
        Some(port_b) => Ok(LinkEntry {
            a,
            port_a,
            b,
            port_b,
        }),
        None => Err(TopologyError::BadValue(Key::PortB)),
    }
}

// Whether a table before spoke of the same two switches.
fn is_again(by_ends: &EntryByEnds, a: SwitchNo, b: Option<SwitchNo>) -> bool
    ensures { (before : List LinkEntry) → FindsLinkEntries by_ends.now before → result ≡ is_again a b before }
{
    match b {
        Some(b) => entry_between(by_ends, a, b).is_some(),
        None => false,
    }
}

/// What a table says of the link between two switches.
pub(crate) fn entry_between(by_ends: &EntryByEnds, a: SwitchNo, b: SwitchNo) -> Option<LinkEntry>
    ensures has { result ≡ get same_pair by_ends.now (ends_of a b) }
    ensures found { (entries : List LinkEntry) → FindsLinkEntries by_ends.now entries → result ≡ find (is_between a b) entries }
{
    by_ends.get(&ends(a, b)).copied()
}

// The two numbers, the smaller first.
fn ends(a: SwitchNo, b: SwitchNo) -> (u32, u32)
    ensures { result ≡ ends_of a b }
{
    if a.0 <= b.0 { (a.0, b.0) } else { (b.0, a.0) }
}
