ghost use Rattle.std.specs.Prelude.{◌≡◌, option_map, IfOk, codes};
ghost use Rattle.std.specs.Option.{option_copied};
ghost use Rattle.toml.specs.Data.{get_member};
ghost use Rattle.toml.specs.View.{view, table_view, items_view};
ghost use Rattle.pl_topology.specs.Refusal.{ReadingGives, or_refused};
ghost use Rattle.pl_topology.specs.Document.{document_of, value_at, has, text_at, integer_at, tables_in, tables_at, arity_of, lent_tables};

use crate::{Key, Memory, TopologyError};
use std::alloc::Global;
use toml::{Table, Value};

/// The TOML document that the bytes are.
pub(crate) fn document(alloc: Global, file: &[u8]) -> Result<Table, TopologyError>
    ensures { ReadingGives table_view result (or_refused (document_of file.now) TopologyError.NotToml) }
{
    match toml::table_from_slice(alloc, file) {
        Ok(table) => Ok(table),
        Err(e) if e.is_memory() => Err(TopologyError::Memory),
        Err(_) => Err(TopologyError::NotToml),
    }
}

fn member_at<'a>(table: &'a Table, key: &str) -> Option<&'a Value>
    ensures { option_map (λ v. view v.now) result ≡ get_member key.now (table_view table.now) }
{
    table.get(key)
}

pub(crate) fn value_at<'a>(table: &'a Table, key: Key) -> Option<&'a Value>
    ensures { option_map (λ v. view v.now) result ≡ value_at key (table_view table.now) }
{
    member_at(table, key.text())
}

pub(crate) fn has(table: &Table, key: Key) -> bool
    ensures { result ≡ has (table_view table.now) key }
{
    value_at(table, key).is_some()
}

pub(crate) fn text_at<'a>(table: &'a Table, key: Key) -> Option<&'a str>
    ensures { option_copied result ≡ text_at key (table_view table.now) }
{
    match value_at(table, key) {
        Some(value) => value.as_str(),
        None => None,
    }
}

pub(crate) fn integer_at(table: &Table, key: Key) -> Option<i64>
    ensures { result ≡ integer_at key (table_view table.now) }
{
    match value_at(table, key) {
        Some(value) => value.as_integer(),
        None => None,
    }
}

/// How many ports each switch has.
pub(crate) fn arity(document: &Table) -> Option<u8>
    ensures { result ≡ arity_of (table_view document.now) }
{
    let k = match member_at(document, "k") {
        Some(value) => value.as_integer()?,
        None => return None,
    };
    match u8::try_from(k) {
        Ok(k) if 4 <= k && k <= 24 && k % 2 == 0 => Some(k),
        _ => None,
    }
}

// The tables of an array, where it has nothing else.
fn tables_in<'a>(alloc: Global, items: &'a [Value]) -> Result<Option<Vec<&'a Table>>, Memory>
    ensures { IfOk result (λ found. option_map (λ tables. lent_tables tables.items) found ≡ tables_in (items_view items.now)) }
{
    let mut tables = Vec::new(alloc);
    for item in items {
        match item.as_table() {
            Some(table) => tables.push(table)?,
            None => return Ok(None),
        }
    }
    Ok(Some(tables))
}

/// The tables of the array at a key: none where the key is absent, and `None` where something else
/// stands there.
pub(crate) fn tables_at<'a>(
    alloc: Global,
    document: &'a Table,
    key: Key,
) -> Result<Option<Vec<&'a Table>>, Memory>
    ensures { IfOk result (λ found. option_map (λ tables. lent_tables tables.items) found ≡ tables_at key (table_view document.now)) }
{
    match value_at(document, key) {
        None => Ok(Some(Vec::new(alloc))),
        Some(value) => match value.as_array() {
            Some(items) => tables_in(alloc, items.as_slice()),
            None => Ok(None),
        },
    }
}
