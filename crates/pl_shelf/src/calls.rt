// The three calls of a shelf.
ghost use Rattle.std.specs.Prelude.{◌≡◌, ℕ, ◌<◌, ◌≤◌, List, Option, None, length, take, IfOk, OnOk, OnErr};
ghost use Rattle.pl_shelf.specs.Held.{Changes, IsRead, Same, ShelfMoment, created, with_end};
ghost use Rattle.pl_shelf.specs.Capacity.{IsFull, IsReadable};
ghost use Rattle.pl_shelf.specs.Faults.{CountsReads, CountsWrites};

use crate::{ReadFailed, WriteFailed};

/// Bytes by name. The name `-` is standard output.
pub trait Shelf {
    /// What it tells at a moment: what each name holds, where it tells that, and how many of its calls
    /// failed so far (calls of `read_at`; calls of `create` and `write`; each count ends at 2^64 - 1).
    ghost moment: { Self → ShelfMoment };

    /// How many bytes a name may hold, where the shelf promises that no call of it fails but for want
    /// of room: what is held can be read, and the name can be created. None where nothing is promised.
    ghost capacity: { Self → List ℕ → Option ℕ };

    /// Reads the bytes from offset `at` on into the front of the buffer, as many as the answer says.
    /// 0 with room in the buffer is the end of what the name holds. A name that is absent cannot be
    /// read.
    fn read_at(&mut self, name: &str, at: u64, buf: &mut [u8]) -> Result<usize, ReadFailed>
        ensures within { IfOk result (λ n. n ≤ length buf.new) }
        ensures read { IfOk result (λ n. IsRead ((moment self.old).held name.now) at n buf.new) }
        ensures same { Same (moment self.old).held (moment self.new).held }
        ensures faults { CountsReads result (moment self.old) (moment self.new) }
        ensures capacity { capacity self.new ≡ capacity self.old }
        ensures unreadable { OnErr result (IsReadable (capacity self.new name.now) ((moment self.new).held name.now) → ⊥) };

    /// Leaves the name there with nothing in it. Standard output keeps what it has.
    fn create(&mut self, name: &str) -> Result<(), WriteFailed>
        ensures ok { OnOk result (Changes (moment self.old).held (moment self.new).held name.now
            (created name.now ((moment self.old).held name.now))) }
        ensures err { OnErr result (Same (moment self.old).held (moment self.new).held) }
        ensures faults { CountsWrites result (moment self.old) (moment self.new) }
        ensures capacity { capacity self.new ≡ capacity self.old }
        ensures unpromised { OnErr result (capacity self.new name.now ≡ None) };

    /// Adds a first part of the bytes at the end of what the name holds, and answers how many. It is
    /// not 0 unless there are none.
    fn write(&mut self, name: &str, bytes: &[u8]) -> Result<usize, WriteFailed>
        ensures within { IfOk result (λ n. n ≤ length bytes.now) }
        ensures some { IfOk result (λ n. 0 < length bytes.now → 0 < n) }
        ensures ok { IfOk result (λ n. Changes (moment self.old).held (moment self.new).held name.now
            (with_end ((moment self.old).held name.now) (take n bytes.now))) }
        ensures err { OnErr result (Same (moment self.old).held (moment self.new).held) }
        ensures faults { CountsWrites result (moment self.old) (moment self.new) }
        ensures capacity { capacity self.new ≡ capacity self.old }
        ensures full { OnErr result (IsFull (capacity self.new name.now) ((moment self.new).held name.now)) };
}
