ghost use Rattle.std.specs.Prelude.{◌≡◌, ◌<◌, IfSome, option_map, option_and_then};
ghost use Rattle.toml.specs.View.{table_view};
ghost use Rattle.pl_topology.specs.Document.{integer_at, text_at, value_at};
ghost use Rattle.pl_wiring.specs.Labels.{IsArity, switch_count};
ghost use Rattle.pl_topology.specs.Entries.{switch_at as switch_value_at, id_if, edge_if, name_if, capture_of};
ghost use Rattle.pl_wiring.specs.SwitchNames.{switch_named};
ghost use Rattle.pl_wiring.specs.Texts.{ip_of_text, is_name, mac_of_text};

use crate::Key;
use crate::document::{integer_at, text_at, value_at};
use pl_frame::{Ip4, Mac, SwitchId};
use pl_wiring::{SwitchNo, edges, switch_named, text};
use toml::Table;

/// The switch whose label stands at a key.
pub(crate) fn switch_value(k: u8, table: &Table, key: Key) -> Option<SwitchNo>
    requires { IsArity k }
    ensures { result ≡ switch_value_at k key (table_view table.now) }
{
    switch_named(k, text_at(table, key)?)
}

/// The edge switch whose label stands at a key.
pub(crate) fn edge_value(k: u8, table: &Table, key: Key) -> Option<SwitchNo>
    requires { IsArity k }
    ensures { result ≡ option_and_then (edge_if k) (switch_value_at k key (table_view table.now)) }
{
    let switch = switch_value(k, table, key)?;
    if switch.0 < edges(k) {
        Some(switch)
    } else {
        None
    }
}

/// The id that stands at a key: 1 to 2^48 - 1.
pub(crate) fn id_value(table: &Table, key: Key) -> Option<SwitchId>
    ensures { result ≡ option_and_then id_if (integer_at key (table_view table.now)) }
{
    match u64::try_from(integer_at(table, key)?) {
        Ok(id) if 1 <= id && id < 1 << 48 => Some(SwitchId(id)),
        _ => None,
    }
}

pub(crate) fn mac_value(table: &Table, key: Key) -> Option<Mac>
    ensures { result ≡ option_and_then mac_of_text (text_at key (table_view table.now)) }
{
    text::mac(text_at(table, key)?)
}

pub(crate) fn ip_value(table: &Table, key: Key) -> Option<Ip4>
    ensures { result ≡ option_and_then ip_of_text (text_at key (table_view table.now)) }
{
    text::ip(text_at(table, key)?)
}

/// The name of a host that stands at a key.
pub(crate) fn name_value<'a>(table: &'a Table, key: Key) -> Option<&'a str>
    ensures { option_map (λ name. name.now) result ≡ option_and_then name_if (text_at key (table_view table.now)) }
{
    let name = text_at(table, key)?;
    if text::is_name(name) {
        Some(name)
    } else {
        None
    }
}

/// The name of a capture file that stands at a key: `Some(None)` where the key is absent.
pub(crate) fn capture_value<'a>(table: &'a Table, key: Key) -> Option<Option<&'a str>>
    ensures { option_map (λ capture. option_map (λ name. name.now) capture) result ≡ capture_of (value_at key (table_view table.now)) }
{
    let value = match value_at(table, key) {
        Some(value) => value,
        None => return Some(None),
    };
    match value.as_str() {
        Some(name) if text::is_capture(name) => Some(Some(name)),
        _ => None,
    }
}
