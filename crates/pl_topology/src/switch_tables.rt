ghost use Rattle.std.specs.Prelude.{◌≡◌, [], List, IfOk, option_map};
ghost use Rattle.std.specs.List.{find};
ghost use Rattle.toml.specs.View.{table_view};
ghost use Rattle.pl_topology.specs.Document.{lent_tables};
ghost use Rattle.pl_topology.specs.Entries.{switch_entry};
ghost use Rattle.pl_wiring.specs.Labels.{IsArity};
ghost use Rattle.pl_topology.specs.Refusal.{ReadingGives, all_beside};
ghost use Rattle.pl_topology.specs.Found.{FindsIds};
ghost use Rattle.pl_topology.specs.declared.entries.SwitchEntry.{SwitchEntry};

use crate::entries::SwitchEntry;
use crate::values::{id_value, switch_value};
use crate::{Key, TopologyError};
use pl_frame::SwitchId;
use std::alloc::Global;
use std::collections::HashMap;
use toml::Table;

/// What the `switch` tables say, in their order, and the id of each switch that they name.
#[derive(Debug, Drop)]
pub(crate) struct SwitchTables {
    pub(crate) entries: Vec<SwitchEntry>,
    pub(crate) ids: HashMap<u32, SwitchId>,
}

/// Reads the `switch` tables. `ids` has the id of each switch that they name.
pub(crate) fn read_switches(
    alloc: Global,
    k: u8,
    tables: &[&Table],
) -> Result<SwitchTables, TopologyError>
    requires { IsArity k }
    ensures exact { ReadingGives (λ s. s.entries.items) result (all_beside (switch_entry k) [] (lent_tables tables.now)) }
    ensures found { IfOk result (λ s. FindsIds s.ids s.entries.items) }
{
    let mut entries = Vec::new(alloc);
    let mut ids = HashMap::new(alloc);
    for table in tables {
        let entry = read_switch(k, table, &ids)?;
        ids.insert(entry.switch.0, entry.id)?;
        entries.push(entry)?;
    }
    Ok(SwitchTables { entries, ids })
}

#[tactic(auto, using(crate::proofs::FoundLemmas::is_some_find), unfolding(crate::specs::Entries::switch_entry))]
fn read_switch(
    k: u8,
    table: &Table,
    ids: &HashMap<u32, SwitchId>,
) -> Result<SwitchEntry, TopologyError>
    requires { IsArity k }
    ensures { (before : List SwitchEntry) → FindsIds ids.now before → result ≡ switch_entry k before (table_view table.now) }
{
    let Some(switch) = switch_value(k, table, Key::Label) else {
        return Err(TopologyError::BadValue(Key::Label));
    };
    if ids.contains_key(&switch.0) {
        return Err(TopologyError::BadValue(Key::Label));
    }
    match id_value(table, Key::Id) {
        Some(id) => Ok(SwitchEntry { switch, id }),
        None => Err(TopologyError::BadValue(Key::Id)),
    }
}
