ghost use Rattle.std.specs.Prelude.{◌≡◌, List, IfOk};
ghost use Rattle.pl_topology.specs.Checks.{ids_differ, kept_ids};
ghost use Rattle.pl_topology.specs.Found.{FindsIds, SeesIds};
ghost use Rattle.pl_wiring.specs.Labels.{IsArity};
ghost use Rattle.pl_topology.specs.Refusal.{ReadingGives};
ghost use Rattle.pl_topology.specs.declared.entries.SwitchEntry.{SwitchEntry};

use crate::entries::SwitchEntry;
use crate::{Memory, TopologyError};
use pl_frame::SwitchId;
use pl_wiring::switches;
use std::alloc::Global;
use std::collections::{HashMap, HashSet};

/// The first table whose id another switch has.
#[tactic(auto, unfolding(crate::specs::Checks::id_is_new))]
pub(crate) fn ids_differ(
    alloc: Global,
    k: u8,
    entries: &[SwitchEntry],
    ids: &HashMap<u32, SwitchId>,
) -> Result<(), TopologyError>
    requires arity { IsArity k }
    requires found { FindsIds ids.now entries.now }
    ensures { ReadingGives (λ u. u) result (ids_differ k entries.now) }
{
    let mut seen = kept_ids(alloc, k, ids)?;
    for entry in entries {
        if !seen.insert(entry.id.0)? {
            return Err(TopologyError::DoubleId(entry.id));
        }
    }
    Ok(())
}

// The canonical ids of the switches that no table names.
fn kept_ids(alloc: Global, k: u8, ids: &HashMap<u32, SwitchId>) -> Result<HashSet<u64>, Memory>
    requires { IsArity k }
    ensures { (given : List SwitchEntry) → FindsIds ids.now given → IfOk result (λ seen. SeesIds seen (kept_ids k given)) }
{
    let mut seen = HashSet::new(alloc);
    for number in 0..switches(k) {
        if !ids.contains_key(&number) {
            seen.insert(u64::from(number) + 1)?;
        }
    }
    Ok(seen)
}
