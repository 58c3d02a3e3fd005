ghost use Rattle.std.specs.Prelude.{◌≡◌, [], if◌then◌else◌, Some, OnOk};
ghost use Rattle.std.specs.Map.{lookup};

use indexmap::IndexMap;
use pl_journal::Memory;
use std::alloc::Global;
use std::hash::Hash;

/// What was said last of each key.
#[derive(Debug, Drop)]
pub(crate) struct Last<K: Eq + Hash, V> {
    pub(crate) said: IndexMap<K, V>,
}

impl<K: Copy + Eq + Hash + Drop, V: Copy + Drop> Last<K, V> {
    pub(crate) fn new(alloc: Global) -> Self
        ensures { result.said.entries ≡ [] }
    {
        Last {
            said: IndexMap::new(alloc),
        }
    }

    pub(crate) fn get(&self, key: K) -> Option<V>
        ensures { result ≡ lookup (K.eq key) self.now.said.entries }
    {
        self.said.get(&key).copied()
    }

    pub(crate) fn put(&mut self, key: K, value: V) -> Result<(), Memory>
        ensures { OnOk result ((k : K) → lookup (K.eq k) self.new.said.entries
            ≡ (if K.eq key k then Some value else lookup (K.eq k) self.old.said.entries)) }
    {
        self.said.insert(key, value)?;
        Ok(())
    }
}
