// The names of a memory shelf.
ghost use Rattle.std.specs.Prelude.{◌≡◌, ◌↔◌, length, min, take, IsTrue, IsSome, OnOk, OnErr};
ghost use Rattle.std.specs.Option.{option_copied};
ghost use Rattle.std.specs.FinMap.{get, insert};
ghost use Rattle.pl_shelf.specs.Held.{Changes, emptied, with_end};
ghost use Rattle.pl_shelf.specs.MemoryShelf.{places_of, capacity_in, content_in, held_in, room_in, with_change, emptied_place, longer_place};

use crate::kept::Kept;
use std::alloc::{AllocError, Global};
use std::collections::BTreeMap;

pub fn put(
    alloc: Global,
    files: &mut BTreeMap<String, Kept>,
    name: &str,
    kept: Kept,
) -> Result<(), AllocError>
    ensures ok { OnOk result (places_of files.new ≡ insert (places_of files.old) name.now kept) }
    ensures err { OnErr result (places_of files.new ≡ places_of files.old) }
{
    files.insert(String::from_str(alloc, name)?, kept)?;
    Ok(())
}

pub fn content_of<'a>(files: &'a BTreeMap<String, Kept>, name: &str) -> Option<&'a [u8]>
    ensures { option_copied result ≡ content_in (places_of files.now) name.now }
{
    match files.get(name) {
        Some(kept) => kept.content(),
        None => None,
    }
}

// Empties a name, if there is one, and says whether there is.
pub fn empty_at(files: &mut BTreeMap<String, Kept>, name: &str) -> bool
    ensures there { IsTrue result ↔ IsSome (get (places_of files.old) name.now) }
    ensures after { places_of files.new ≡ with_change (places_of files.old) name.now emptied_place }
    ensures held { IsTrue result → Changes (held_in (places_of files.old)) (held_in (places_of files.new)) name.now
        (emptied (held_in (places_of files.old) name.now)) }
    ensures capacity { capacity_in (places_of files.new) ≡ capacity_in (places_of files.old) }
{
    match files.get_mut(name) {
        Some(kept) => {
            kept.empty();
            true
        }
        None => false,
    }
}

// Adds as many of the bytes at the end of a name as it has room for, at most `piece`, and answers
// how many: none where there is no such name.
pub fn add_at(files: &mut BTreeMap<String, Kept>, name: &str, bytes: &[u8], piece: usize) -> usize
    ensures number { result ≡ min (min (length bytes.now) piece) (room_in (places_of files.old) name.now) }
    ensures after { places_of files.new ≡
        with_change (places_of files.old) name.now (longer_place (take result bytes.now)) }
    ensures held { Changes (held_in (places_of files.old)) (held_in (places_of files.new)) name.now
        (with_end (held_in (places_of files.old) name.now) (take result bytes.now)) }
    ensures none { result ≡ 0 → places_of files.new ≡ places_of files.old }
    ensures capacity { capacity_in (places_of files.new) ≡ capacity_in (places_of files.old) }
{
    match files.get_mut(name) {
        Some(kept) => kept.take(bytes, piece),
        None => 0,
    }
}
