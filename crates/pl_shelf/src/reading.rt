ghost use Rattle.std.specs.Prelude.{◌≡◌, ◌+◌, ◌≤◌, ◌<◌, length, vec_len, take, IfOk, OnOk, Err};
ghost use Rattle.pl_shelf.specs.Held.{Same, HoldsExactly, IsLonger};
ghost use Rattle.pl_shelf.specs.Capacity.{IsReadable};
ghost use Rattle.pl_shelf.specs.Faults.{ReadCount};

use crate::{LoadError, Shelf};
use std::alloc::{AllocError, Global};
use std::marker::Model;

// `load` makes room for as many bytes again as it has read, within these bounds: a small file takes
// little memory, and a large one is read in large pieces.
const LEAST_ROOM: usize = 1 << 12;

const MOST_ROOM: usize = 1 << 16;

static ZEROS: [u8; MOST_ROOM] = [0; MOST_ROOM];

/// The content of a name, as `load` found it.
#[derive(Debug, Drop)]
pub struct Bytes {
    bytes: Vec<u8>,
}

impl Model for Bytes {
    ghost use Rattle.std.specs.Prelude.{List, ℕ};

    ghost Value = { List ℕ };

    ghost view = { λ b. b.bytes.items };
}

impl Bytes {
    pub fn bytes(&self) -> &[u8]
        ensures { result.now ≡ self.now }
    {
        &self.bytes
    }

    /// The same as a vector, without a copy.
    pub fn into_vec(self) -> Vec<u8>
        ensures { result.items ≡ self }
    {
        let Bytes { bytes } = self;
        bytes
    }
}

/// Reads all that the name holds, at most `limit` bytes. `TooLong` comes where one byte more was
/// read, `Fault` where a read failed, and `Memory` where there was no room for what was read or for
/// the next piece.
pub fn load<S: Shelf>(
    alloc: Global,
    shelf: &mut S,
    name: &str,
    limit: u64,
) -> Result<Bytes, LoadError>
    ensures whole { IfOk result (λ found. HoldsExactly ((S.moment shelf.old).held name.now) found) }
    ensures limit { IfOk result (λ found. length found ≤ limit) }
    ensures too_long { result ≡ Err LoadError.TooLong → IsLonger ((S.moment shelf.old).held name.now) limit }
    ensures same { Same (S.moment shelf.old).held (S.moment shelf.new).held }
    ensures faults { ReadCount result (S.moment shelf.old).read_faults (S.moment shelf.new).read_faults }
    ensures write_faults { (S.moment shelf.new).write_faults ≡ (S.moment shelf.old).write_faults }
    ensures capacity { S.capacity shelf.new ≡ S.capacity shelf.old }
    ensures unreadable { result ≡ Err LoadError.Fault →
        IsReadable (S.capacity shelf.new name.now) ((S.moment shelf.new).held name.now) → ⊥ }
{
    let mut bytes = Vec::new(alloc);
    let mut filled = 0;
    while filled as u64 <= limit {
        make_room(&mut bytes, filled, limit)?;
        let n = shelf.read_at(name, filled as u64, &mut bytes[filled..])?;
        if n == 0 {
            bytes.truncate(filled);
            return Ok(Bytes { bytes });
        }
        filled += n;
    }
    Err(LoadError::TooLong)
}

// Leaves room for at least one byte behind those that were read, and none past one byte more than
// the limit.
fn make_room(bytes: &mut Vec<u8>, filled: usize, limit: u64) -> Result<(), AllocError>
    requires filled { filled ≤ vec_len bytes.old }
    requires below { filled ≤ limit }
    requires within { vec_len bytes.old ≤ limit + 1 }
    ensures ok { OnOk result (filled < vec_len bytes.new) }
    ensures within { vec_len bytes.new ≤ limit + 1 }
    ensures kept { take filled bytes.new.items ≡ take filled bytes.old.items }
{
    if filled < bytes.len() {
        return Ok(());
    }
    let room = filled.clamp(LEAST_ROOM, MOST_ROOM);
    let more = (limit - filled as u64).min(room as u64 - 1) as usize + 1;
    bytes.extend_from_slice(&ZEROS[..more])
}
