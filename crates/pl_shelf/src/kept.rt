// The bytes of one name of a memory shelf, in memory that was taken before.
ghost use Rattle.std.specs.Prelude.{◌≡◌, [], length, min, take, IfOk, if◌then◌else◌};
ghost use Rattle.std.specs.Option.{option_copied};
ghost use Rattle.pl_shelf.specs.MemoryShelf.{Place, emptied_place, longer_place, room_behind};

use std::alloc::{AllocError, Global};
use std::marker::Model;

#[derive(Drop)]
pub struct Kept {
    is_there: bool,
    bytes: Vec<u8>,
    room: usize,
}

impl Model for Kept {
    ghost use Rattle.std.specs.Prelude.{◌≤◌, Some, None, if◌then◌else◌, vec_capacity};
    ghost use Rattle.pl_shelf.specs.MemoryShelf.{Place, place_code};

    ghost Value = { Place };

    ghost coded = { place_code };

    ghost view = { λ k. record { content = if k.is_there then Some k.bytes.items else None; room = k.room } };

    ghost invariant = { λ k. k.room ≤ vec_capacity k.bytes };
}

impl Kept {
    pub fn with_content(alloc: Global, bytes: &[u8]) -> Result<Self, AllocError>
        ensures { IfOk result (λ k. k ≡ record { content = Some bytes.now; room = length bytes.now }) }
    {
        Ok(Kept {
            is_there: true,
            bytes: Vec::from_slice(alloc, bytes)?,
            room: bytes.len(),
        })
    }

    pub fn with_room(alloc: Global, is_there: bool, room: usize) -> Result<Self, AllocError>
        ensures { IfOk result (λ k. k ≡ record { content = if is_there then Some [] else None; room = room }) }
    {
        Ok(Kept {
            is_there,
            bytes: Vec::with_capacity(alloc, room)?,
            room,
        })
    }

    pub fn content(&self) -> Option<&[u8]>
        ensures { option_copied result ≡ self.now.content }
    {
        if self.is_there {
            Some(&self.bytes)
        } else {
            None
        }
    }

    pub fn empty(&mut self)
        ensures { self.new ≡ emptied_place self.old }
    {
        self.is_there = true;
        self.bytes.clear();
    }

    // Adds as many of the bytes as there is room for, at most `piece`, and answers how many.
    pub fn take(&mut self, bytes: &[u8], piece: usize) -> usize
        ensures number { result ≡ min (min (length bytes.now) piece) (room_behind self.old.room self.old.content) }
        ensures after { self.new ≡ longer_place (take result bytes.now) self.old }
    {
        if !self.is_there {
            return 0;
        }
        let left = self.room.saturating_sub(self.bytes.len());
        let n = bytes.len().min(piece).min(left);
        self.bytes.extend_from_slice(&bytes[..n]).unwrap();
        n
    }
}
