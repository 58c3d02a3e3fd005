ghost use Rattle.std.specs.Prelude.{◌≡◌, [], ◌∷◌, ◌++◌, length, OnErr, OnOk};
ghost use Rattle.pl_world.specs.Refusals.{frame_bytes, is_journal_full};

use pl_frame::Memory;
use pl_journal::{Entry, Journal};
use pl_lists::Items;
use pl_world::Limits;
use std::alloc::Global;
use std::marker::Model;

/// The journal of a world. Contracts see the list of its entries. The bytes of their frames are counted
/// along, up to the largest number of 64 bits.
#[derive(Debug, Drop)]
pub struct WorldJournal {
    journal: Journal,
    bytes: u64,
}

impl Model for WorldJournal {
    ghost use Rattle.std.specs.Prelude.{◌≡◌, ◌-◌, ◌^◌, List, min, sum_by};
    ghost use Rattle.pl_journal.specs.declared.entry.Entry.{Entry};
    ghost use Rattle.pl_world.specs.Refusals.{frame_bytes};

    ghost Value = { List Entry };

    ghost view = { λ world_journal. world_journal.journal };

    ghost invariant = { λ world_journal. world_journal.bytes ≡ min (sum_by frame_bytes world_journal.journal) (2 ^ 64 - 1) };
}

impl WorldJournal {
    pub fn new(alloc: Global) -> WorldJournal
        ensures { result ≡ [] }
    {
        WorldJournal {
            journal: Items::new(alloc),
            bytes: 0,
        }
    }

    pub fn journal(&self) -> &Journal
        ensures { result.now ≡ self.now }
    {
        &self.journal
    }

    pub fn write(&mut self, entry: Entry) -> Result<(), Memory>
        ensures ok { OnOk result (self.new ≡ self.old ++ entry ∷ []) }
        ensures err { OnErr result (self.new ≡ self.old) }
    {
        let bytes = self.bytes.saturating_add(frame_bytes(&entry) as u64);
        self.journal.push(entry)?;
        self.bytes = bytes;
        Ok(())
    }

    /// Whether there are as many entries, or as many bytes, as there may be.
    pub fn is_full(&self, limits: &Limits) -> bool
        ensures { result ≡ is_journal_full limits.now self.now }
    {
        self.journal.len() as u64 >= limits.entries || self.bytes >= limits.bytes
    }
}

fn frame_bytes(entry: &Entry) -> usize
    ensures { result ≡ frame_bytes entry.now }
{
    match entry {
        Entry::Sent(_, _, frame) => frame.bytes().len(),
        Entry::Made(_, _, frame) => frame.bytes().len(),
        Entry::Arrived(_, _, frame) => frame.bytes().len(),
        _ => 0,
    }
}
