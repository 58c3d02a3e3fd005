ghost use Rattle.std.specs.Prelude.{◌≡◌, [], Some};
ghost use Rattle.pl_shelf.specs.MemoryShelf.{capacity_in, held_in};
ghost use Rattle.pl_inputs.specs.Met.{texts};
ghost use Rattle.pl_inputs.specs.Words.{Task as Asking, task_of};
ghost use Rattle.pl_playing.specs.Prepared.{NamesNoFault};
ghost use Rattle.pl_run.specs.Prepared.{IsPrepared};

use crate::program::portland;
use pl_inputs::Status;
use pl_shelf::MemoryShelf;
use std::alloc::Global;

/// `portland` over a shelf in memory. With no call named to fail, each file that is read held, and each
/// name that is saved held or allowed with room for its text, no read fails and no write.
pub fn portland_in_memory(alloc: Global, words: &[&str], shelf: &mut MemoryShelf) -> Status
    ensures { (t : Asking) → task_of (texts words.now) ≡ Some t → shelf.old.failing ≡ [] →
        IsPrepared (capacity_in shelf.old.places) (held_in shelf.old.places) t → NamesNoFault result }
{
    portland(alloc, words, shelf)
}
