ghost use Rattle.std.specs.Prelude.{◌≡◌, ◌+◌, ◌<◌, ◌≤◌, [], ◌∷◌, ◌++◌, length, IfOk, OnOk, OnErr};
ghost use Rattle.pl_shelf.specs.Held.{Changes, IsCutOff, with_end};
ghost use Rattle.pl_shelf.specs.Capacity.{IsFull};
ghost use Rattle.pl_shelf.specs.Faults.{CountsWrites};
ghost use Rattle.pl_output.specs.Printed.{BreaksOff, IsPrinted};

use pl_frame::Memory;
use pl_shelf::{SaveError, Shelf, append};
use std::alloc::Global;
use std::marker::Model;

/// How many bytes go out at a time.
const PIECE_LEN: usize = 65_536;

/// The text that was printed last and is not on the shelf yet, in memory that was taken before: the first
/// `used` of its bytes.
#[derive(Drop)]
pub struct Piece {
    bytes: Vec<u8>,
    used: usize,
}

impl Model for Piece {
    ghost use Rattle.std.specs.Prelude.{◌≡◌, ◌≤◌, List, ℕ, length, take};

    ghost Value = { List ℕ };

    ghost view = { λ piece. take piece.used piece.bytes.items };

    ghost invariant = { λ piece. (length piece.bytes.items ≡ 65536) × (piece.used ≤ 65536) };
}

impl Piece {
    pub fn new(alloc: Global) -> Result<Piece, Memory>
        ensures { IfOk result (λ piece. piece ≡ []) }
    {
        Ok(Piece {
            bytes: vec![in alloc; 0; PIECE_LEN]?,
            used: 0,
        })
    }

    pub fn clear(&mut self)
        ensures { self.new ≡ [] }
    {
        self.used = 0;
    }

    /// Prints bytes behind what was printed before.
    pub fn print<S: Shelf>(
        &mut self,
        shelf: &mut S,
        name: &str,
        text: &[u8],
    ) -> Result<(), SaveError>
        ensures ok { OnOk result (IsPrinted (S.moment shelf.old).held (S.moment shelf.new).held name.now
            self.old self.new text.now) }
        ensures err { OnErr result (BreaksOff (S.moment shelf.old).held (S.moment shelf.new).held name.now
            self.old text.now) }
        ensures faults { CountsWrites result (S.moment shelf.old) (S.moment shelf.new) }
        ensures capacity { S.capacity shelf.new ≡ S.capacity shelf.old }
        ensures full { OnErr result (IsFull (S.capacity shelf.new name.now) ((S.moment shelf.new).held name.now)) }
    {
        let mut rest = text;
        while rest.len() > self.room() {
            let (front, behind) = rest.split_at(self.room());
            self.put(front);
            self.send(shelf, name)?;
            rest = behind;
        }
        self.put(rest);
        Ok(())
    }

    /// Adds the piece at the end of what the name holds, and empties it.
    pub fn send<S: Shelf>(&mut self, shelf: &mut S, name: &str) -> Result<(), SaveError>
        ensures ok { OnOk result (Changes (S.moment shelf.old).held (S.moment shelf.new).held name.now
            (with_end ((S.moment shelf.old).held name.now) self.old)) }
        ensures empty { OnOk result (self.new ≡ []) }
        ensures err { OnErr result (IsCutOff (S.moment shelf.old).held (S.moment shelf.new).held name.now
            ((S.moment shelf.old).held name.now) self.old) }
        ensures faults { CountsWrites result (S.moment shelf.old) (S.moment shelf.new) }
        ensures capacity { S.capacity shelf.new ≡ S.capacity shelf.old }
        ensures full { OnErr result (IsFull (S.capacity shelf.new name.now) ((S.moment shelf.new).held name.now)) }
    {
        append(shelf, name, &self.bytes[..self.used])?;
        self.clear();
        Ok(())
    }

    /// Sends the piece, unless there is room for so many bytes behind it.
    pub fn make_room<S: Shelf>(
        &mut self,
        shelf: &mut S,
        name: &str,
        len: usize,
    ) -> Result<(), SaveError>
        requires { len ≤ 65536 }
        ensures room { OnOk result (length self.new + len ≤ 65536) }
        ensures ok { OnOk result (IsPrinted (S.moment shelf.old).held (S.moment shelf.new).held name.now
            self.old self.new []) }
        ensures err { OnErr result (BreaksOff (S.moment shelf.old).held (S.moment shelf.new).held name.now
            self.old []) }
        ensures faults { CountsWrites result (S.moment shelf.old) (S.moment shelf.new) }
        ensures capacity { S.capacity shelf.new ≡ S.capacity shelf.old }
        ensures full { OnErr result (IsFull (S.capacity shelf.new name.now) ((S.moment shelf.new).held name.now)) }
    {
        if len <= self.room() {
            return Ok(());
        }
        self.send(shelf, name)
    }

    /// Prints one byte.
    pub fn print_byte<S: Shelf>(
        &mut self,
        shelf: &mut S,
        name: &str,
        byte: u8,
    ) -> Result<(), SaveError>
        ensures ok { OnOk result (IsPrinted (S.moment shelf.old).held (S.moment shelf.new).held name.now
            self.old self.new (byte ∷ [])) }
        ensures err { OnErr result (BreaksOff (S.moment shelf.old).held (S.moment shelf.new).held name.now
            self.old (byte ∷ [])) }
        ensures faults { CountsWrites result (S.moment shelf.old) (S.moment shelf.new) }
        ensures capacity { S.capacity shelf.new ≡ S.capacity shelf.old }
        ensures full { OnErr result (IsFull (S.capacity shelf.new name.now) ((S.moment shelf.new).held name.now)) }
    {
        self.make_room(shelf, name, 1)?;
        self.put_byte(byte);
        Ok(())
    }

    // How many bytes there is room for.
    fn room(&self) -> usize
        ensures { result + length self.now ≡ 65536 }
    {
        PIECE_LEN - self.used
    }

    /// Puts bytes behind what was printed before.
    pub fn put(&mut self, bytes: &[u8])
        requires { length self.old + length bytes.now ≤ 65536 }
        ensures { self.new ≡ self.old ++ bytes.now }
    {
        let end = self.used + bytes.len();
        self.bytes[self.used..end].copy_from_slice(bytes);
        self.used = end;
    }

    /// Puts one byte there.
    pub fn put_byte(&mut self, byte: u8)
        requires { length self.old < 65536 }
        ensures { self.new ≡ self.old ++ byte ∷ [] }
    {
        self.bytes[self.used] = byte;
        self.used += 1;
    }
}
