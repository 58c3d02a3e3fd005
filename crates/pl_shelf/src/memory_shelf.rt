ghost use Rattle.std.specs.Prelude.{◌≡◌, ◌≢◌, ◌-◌, ◌<◌, ◌≤◌, ◌↔◌, ◌⊎◌, [], ◌∷◌, ◌++◌, length, take, drop, min, None, Contains, IsTrue, IsErr, IfOk, IfSome, OnOk, OnErr};
ghost use Rattle.std.specs.Option.{option_copied};
ghost use Rattle.std.specs.FinMap.{get};
ghost use Rattle.pl_shelf.specs.Held.{Same, Changes, IsRead, created, with_end, standard_output};
ghost use Rattle.pl_shelf.specs.Capacity.{IsFull, IsReadable};
ghost use Rattle.pl_shelf.specs.Faults.{Counts};
ghost use Rattle.pl_shelf.specs.MemoryShelf.{IsToFail, allowed, capacity_of, content_in, counted, created_memory, empty_memory, held_in, longer_memory, memory_moment, one_more, placed, read_failed, room_in, write_failed};

use crate::kept::Kept;
use crate::places::{add_at, content_of, empty_at, put};
use crate::{Memory, ReadFailed, STANDARD_OUTPUT, Shelf, WriteFailed};
use std::alloc::Global;
use std::collections::BTreeMap;
use std::marker::Model;

/// A shelf in memory, which tells all that it holds. Its three calls take no memory, and they fail
/// exactly where their contracts say: at a call whose number was named to `fail_at`, at a name that
/// is not there, and where a name has no room left.
#[derive(Drop)]
pub struct MemoryShelf {
    alloc: Global,
    files: BTreeMap<String, Kept>,
    piece: usize,
    failing: Vec<u64>,
    calls: u64,
    read_faults: u64,
    write_faults: u64,
}

impl Model for MemoryShelf {
    ghost use Rattle.std.specs.Prelude.{◌<◌};
    ghost use Rattle.pl_shelf.specs.MemoryShelf.{MemoryState, memory_code, places_of};

    ghost Value = { MemoryState };

    ghost coded = { memory_code };

    ghost view = { λ s. record {
      places = places_of s.files;
      piece = s.piece;
      failing = s.failing.items;
      calls = s.calls;
      read_faults = s.read_faults;
      write_faults = s.write_faults;
    } };

    ghost invariant = { λ s. 0 < s.piece };
}

impl MemoryShelf {
    /// No name is there yet. A write takes at most `piece` bytes.
    pub fn new(alloc: Global, piece: usize) -> Self
        requires { 0 < piece }
        ensures { result ≡ empty_memory piece }
    {
        MemoryShelf {
            alloc,
            files: BTreeMap::new(alloc),
            piece,
            failing: Vec::new(alloc),
            calls: 0,
            read_faults: 0,
            write_faults: 0,
        }
    }

    /// The name then holds these bytes, and has room for as many.
    pub fn hold(&mut self, name: &str, bytes: &[u8]) -> Result<(), Memory>
        ensures ok { OnOk result (self.new ≡
            placed self.old name.now (record { content = Some bytes.now; room = length bytes.now })) }
        ensures err { OnErr result (self.new ≡ self.old) }
    {
        let kept = Kept::with_content(self.alloc, bytes)?;
        put(self.alloc, &mut self.files, name, kept)
    }

    /// The name is then absent, may be created, and has room for that many bytes. Standard output is
    /// there at once, with nothing in it.
    pub fn allow(&mut self, name: &str, room: usize) -> Result<(), Memory>
        ensures ok { OnOk result (self.new ≡ placed self.old name.now (allowed name.now room)) }
        ensures err { OnErr result (self.new ≡ self.old) }
    {
        let kept = Kept::with_room(self.alloc, name == STANDARD_OUTPUT, room)?;
        put(self.alloc, &mut self.files, name, kept)
    }

    /// The call of that number is to fail. `read_at`, `create` and `write` are counted together,
    /// from 1.
    pub fn fail_at(&mut self, call: u64) -> Result<(), Memory>
        ensures ok { OnOk result (self.new ≡ record self.old { failing = self.old.failing ++ call ∷ [] }) }
        ensures err { OnErr result (self.new ≡ self.old) }
    {
        self.failing.push(call)?;
        Ok(())
    }

    /// How many calls of `read_at`, `create` and `write` were made.
    pub fn calls(&self) -> u64
        ensures { result ≡ self.now.calls }
    {
        self.calls
    }

    /// What the name holds. None where it is absent.
    pub fn content(&self, name: &str) -> Option<&[u8]>
        ensures { option_copied result ≡ content_in self.now.places name.now }
    {
        content_of(&self.files, name)
    }
}

// Counts a call, and says whether it is to fail.
fn count_call(calls: &mut u64, failing: &[u64]) -> bool
    ensures fails { IsTrue result ↔ Contains failing.now calls.new }
    ensures counted { calls.new ≡ one_more calls.old }
{
    *calls = calls.saturating_add(1);
    failing.contains(calls)
}

// Copies what stands from an offset on to the front of a buffer, and answers how much.
fn copy_from(content: &[u8], at: u64, buf: &mut [u8]) -> usize
    ensures number { result ≡ min (length buf.new) (length content.now - at) }
    ensures bytes { take result buf.new ≡ take result (drop at content.now) }
{
    let start = at.min(content.len() as u64) as usize;
    let rest = content.split_at(start).1;
    let n = rest.len().min(buf.len());
    buf[..n].copy_from_slice(&rest[..n]);
    n
}

impl Shelf for MemoryShelf {
    ghost moment = { memory_moment };

    ghost capacity = { λ m. capacity_of m };

    /// Reads as much as there is, up to the buffer's length.
    fn read_at(&mut self, name: &str, at: u64, buf: &mut [u8]) -> Result<usize, ReadFailed>
        ensures fails { IsErr result ↔ (IsToFail self.old ⊎ (content_in self.old.places name.now ≡ None)) }
        ensures number { IfOk result (λ n. IfSome (content_in self.old.places name.now)
            (λ bs. n ≡ min (length buf.new) (length bs - at))) }
        ensures ok { OnOk result (self.new ≡ counted self.old) }
        ensures err { OnErr result (self.new ≡ read_failed self.old) }

        // of every shelf
        ensures within { IfOk result (λ n. n ≤ length buf.new) }
        ensures read { IfOk result (λ n. IsRead (held_in self.old.places name.now) at n buf.new) }
        ensures same { Same (held_in self.old.places) (held_in self.new.places) }
        ensures faults { Counts result self.old.read_faults self.new.read_faults
            self.old.write_faults self.new.write_faults }
        ensures capacity { capacity_of self.new ≡ capacity_of self.old }
        ensures unreadable { OnErr result (IsReadable (capacity_of self.new name.now) (held_in self.new.places name.now) → ⊥) }
    {
        if !count_call(&mut self.calls, &self.failing)
            && let Some(content) = content_of(&self.files, name)
        {
            return Ok(copy_from(content, at, buf));
        }
        self.read_faults = self.read_faults.saturating_add(1);
        Err(ReadFailed)
    }

    fn create(&mut self, name: &str) -> Result<(), WriteFailed>
        ensures fails { IsErr result ↔ (IsToFail self.old
            ⊎ ((name.now ≢ standard_output) × (get self.old.places name.now ≡ None))) }
        ensures created { OnOk result (self.new ≡ created_memory self.old name.now) }
        ensures not_created { OnErr result (self.new ≡ write_failed self.old) }

        // of every shelf
        ensures ok { OnOk result (Changes (held_in self.old.places) (held_in self.new.places) name.now
            (created name.now (held_in self.old.places name.now))) }
        ensures err { OnErr result (Same (held_in self.old.places) (held_in self.new.places)) }
        ensures faults { Counts result self.old.write_faults self.new.write_faults
            self.old.read_faults self.new.read_faults }
        ensures capacity { capacity_of self.new ≡ capacity_of self.old }
        ensures unpromised { OnErr result (capacity_of self.new name.now ≡ None) }
    {
        if !count_call(&mut self.calls, &self.failing)
            && (name == STANDARD_OUTPUT || empty_at(&mut self.files, name))
        {
            return Ok(());
        }
        self.write_faults = self.write_faults.saturating_add(1);
        Err(WriteFailed)
    }

    /// Takes as many bytes as are given, at most `piece` and at most the room that is left.
    fn write(&mut self, name: &str, bytes: &[u8]) -> Result<usize, WriteFailed>
        ensures fails { IsErr result ↔ (IsToFail self.old
            ⊎ ((bytes.now ≢ []) × (room_in self.old.places name.now ≡ 0))) }
        ensures number { IfOk result (λ n. n ≡
            min (min (length bytes.now) self.old.piece) (room_in self.old.places name.now)) }
        ensures written { IfOk result (λ n. self.new ≡ longer_memory self.old name.now (take n bytes.now)) }
        ensures not_written { OnErr result (self.new ≡ write_failed self.old) }

        // of every shelf
        ensures within { IfOk result (λ n. n ≤ length bytes.now) }
        ensures some { IfOk result (λ n. 0 < length bytes.now → 0 < n) }
        ensures ok { IfOk result (λ n. Changes (held_in self.old.places) (held_in self.new.places) name.now
            (with_end (held_in self.old.places name.now) (take n bytes.now))) }
        ensures err { OnErr result (Same (held_in self.old.places) (held_in self.new.places)) }
        ensures faults { Counts result self.old.write_faults self.new.write_faults
            self.old.read_faults self.new.read_faults }
        ensures capacity { capacity_of self.new ≡ capacity_of self.old }
        ensures full { OnErr result (IsFull (capacity_of self.new name.now) (held_in self.new.places name.now)) }
    {
        if count_call(&mut self.calls, &self.failing) {
            self.write_faults = self.write_faults.saturating_add(1);
            return Err(WriteFailed);
        }
        let n = add_at(&mut self.files, name, bytes, self.piece);
        if n == 0 && !bytes.is_empty() {
            self.write_faults = self.write_faults.saturating_add(1);
            return Err(WriteFailed);
        }
        Ok(n)
    }
}
