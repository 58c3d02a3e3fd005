ghost use Rattle.std.specs.Prelude.{◌≡◌, IfOk, IfErr};
ghost use Rattle.pl_shelf.specs.Held.{Same};
ghost use Rattle.pl_inputs.specs.Inputs.{IsLoaded};
ghost use Rattle.pl_inputs.specs.Loads.{IsUnloaded, IsUnpromised, Reads};

use crate::status::Status;
use pl_shelf::{Bytes, LoadError, Shelf, load};
use pl_wiring::Name;
use std::alloc::Global;

/// Reads all that the name holds. The name itself was made before, so that a failed read can tell it.
pub(crate) fn load_named<S: Shelf>(
    alloc: Global,
    shelf: &mut S,
    name: Name,
    limit: u64,
) -> Result<Bytes, Status>
    ensures ok { IfOk result (λ found. IsLoaded (S.moment shelf.old).held name limit found) }
    ensures err { IfErr result (λ e. IsUnloaded (S.moment shelf.old).held name limit e) }
    ensures same { Same (S.moment shelf.old).held (S.moment shelf.new).held }
    ensures reads { Reads result (S.moment shelf.old).read_faults (S.moment shelf.new).read_faults }
    ensures writes { (S.moment shelf.new).write_faults ≡ (S.moment shelf.old).write_faults }
    ensures capacity { S.capacity shelf.new ≡ S.capacity shelf.old }
    ensures unpromised { IfErr result (λ e. IsUnpromised (S.capacity shelf.new) (S.moment shelf.new).held e) }
{
    match load(alloc, shelf, name.text(), limit) {
        Ok(bytes) => Ok(bytes),
        Err(LoadError::Fault) => Err(Status::ReadFault(name)),
        Err(LoadError::TooLong) => Err(Status::TooLong(name)),
        Err(LoadError::Memory) => Err(Status::OutOfMemory),
    }
}
