ghost use Rattle.std.specs.Prelude.{◌≡◌};
ghost use Rattle.toml.specs.View.{table_view};
ghost use Rattle.pl_topology.specs.Refusal.{each};
ghost use Rattle.pl_topology.specs.Complete.{has_key, has_keys};
ghost use Rattle.pl_topology.specs.Document.{lent_tables};

use crate::document::has;
use crate::{Key, TopologyError};
use toml::Table;

// The first of the keys that the table lacks.
#[tactic(auto, unfolding(crate::specs::Complete::has_keys))]
fn table_has(table: &Table, keys: &[Key]) -> Result<(), TopologyError>
    ensures { result ≡ has_keys keys.now (table_view table.now) }
{
    for key in keys {
        if !has(table, *key) {
            return Err(TopologyError::Missing(*key));
        }
    }
    Ok(())
}

/// The first key that one of the tables lacks.
pub(crate) fn tables_have(tables: &[&Table], keys: &[Key]) -> Result<(), TopologyError>
    ensures { result ≡ each (has_keys keys.now) (lent_tables tables.now) }
{
    for table in tables {
        table_has(table, keys)?;
    }
    Ok(())
}
