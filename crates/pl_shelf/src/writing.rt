ghost use Rattle.std.specs.Prelude.{◌≡◌, ◌⊎◌, OnOk, OnErr};
ghost use Rattle.pl_shelf.specs.Held.{Same, Changes, IsCutOff, created, with_end};
ghost use Rattle.pl_shelf.specs.Capacity.{FitsBehind, IsFull};
ghost use Rattle.pl_shelf.specs.Faults.{CountsWrites};

use crate::{SaveError, Shelf};

/// Adds all of the bytes at the end of what the name holds, and takes no memory. After a `Fault` a
/// proper front of them stands there, which may be empty.
pub fn append<S: Shelf>(shelf: &mut S, name: &str, bytes: &[u8]) -> Result<(), SaveError>
    ensures ok { OnOk result (Changes (S.moment shelf.old).held (S.moment shelf.new).held name.now
        (with_end ((S.moment shelf.old).held name.now) bytes.now)) }
    ensures err { OnErr result (IsCutOff (S.moment shelf.old).held (S.moment shelf.new).held name.now
        ((S.moment shelf.old).held name.now) bytes.now) }
    ensures faults { CountsWrites result (S.moment shelf.old) (S.moment shelf.new) }
    ensures capacity { S.capacity shelf.new ≡ S.capacity shelf.old }
    ensures full { OnErr result (IsFull (S.capacity shelf.new name.now) ((S.moment shelf.new).held name.now)) }
{
    let mut rest = bytes;
    while !rest.is_empty() {
        let n = shelf.write(name, rest)?;
        rest = rest.split_at(n).1;
    }
    Ok(())
}

/// Creates the name and appends the bytes, and takes no memory. A `Fault` may come of either: the
/// name is as it was, or a proper front of the bytes stands in it.
pub fn save<S: Shelf>(shelf: &mut S, name: &str, bytes: &[u8]) -> Result<(), SaveError>
    ensures ok { OnOk result (Changes (S.moment shelf.old).held (S.moment shelf.new).held name.now
        (with_end (created name.now ((S.moment shelf.old).held name.now)) bytes.now)) }
    ensures err { OnErr result (Same (S.moment shelf.old).held (S.moment shelf.new).held
        ⊎ IsCutOff (S.moment shelf.old).held (S.moment shelf.new).held name.now
        (created name.now ((S.moment shelf.old).held name.now)) bytes.now) }
    ensures faults { CountsWrites result (S.moment shelf.old) (S.moment shelf.new) }
    ensures capacity { S.capacity shelf.new ≡ S.capacity shelf.old }
    ensures unfit { OnErr result (FitsBehind (S.capacity shelf.old name.now)
        (created name.now ((S.moment shelf.old).held name.now)) bytes.now → ⊥) }
{
    shelf.create(name)?;
    append(shelf, name, bytes)
}
