// Files and standard output: the trusted edge.
ghost use Rattle.std.specs.Prelude.{◌≡◌, None};
ghost use Rattle.pl_shelf.specs.Held.{unknown};

use crate::files::Handles;
use crate::{ReadFailed, Shelf, WriteFailed};
use std::alloc::Global;
use std::rt::Files;

/// The system's files by their paths, and standard output as `-`. Both counts are 0 at first. It
/// tells nothing of what a name holds, and promises nothing.
///
/// A file stays open from one call to the next: the one that was read last, until a read comes to
/// its end, and the one that was created or written last. `create` makes the folders above a file
/// that are missing. Standard output cannot be read. Where the program began with one of its three
/// standard descriptors closed, no file takes its place: what is written there fails.
#[derive(Drop)]
pub struct DiskShelf<R: Files + Print + Drop> {
    handles: Handles<R>,
    read_faults: u64,
    write_faults: u64,
}

impl<R: Files + Print + Drop> DiskShelf<R> {
    pub fn new(alloc: Global, rt: R) -> Self
        ensures read_faults { (⟦<DiskShelf<R> as Shelf>⟧.moment result).read_faults ≡ 0 }
        ensures write_faults { (⟦<DiskShelf<R> as Shelf>⟧.moment result).write_faults ≡ 0 }
    {
        DiskShelf {
            handles: Handles::new(alloc, rt),
            read_faults: 0,
            write_faults: 0,
        }
    }
}

impl<R: Files + Print + Drop> Shelf for DiskShelf<R> {
    ghost moment = { λ s. record { held = λ _. unknown; read_faults = s.read_faults; write_faults = s.write_faults } };

    ghost capacity = { λ _ _. None };

    fn read_at(&mut self, name: &str, at: u64, buf: &mut [u8]) -> Result<usize, ReadFailed> {
        match self.handles.read_at(name, at, buf) {
            Ok(n) => Ok(n),
            Err(_) => {
                self.read_faults = self.read_faults.saturating_add(1);
                Err(ReadFailed)
            }
        }
    }

    fn create(&mut self, name: &str) -> Result<(), WriteFailed> {
        match self.handles.create(name) {
            Ok(()) => Ok(()),
            Err(_) => {
                self.write_faults = self.write_faults.saturating_add(1);
                Err(WriteFailed)
            }
        }
    }

    fn write(&mut self, name: &str, bytes: &[u8]) -> Result<usize, WriteFailed> {
        match self.handles.write(name, bytes) {
            Ok(n) => Ok(n),
            Err(_) => {
                self.write_faults = self.write_faults.saturating_add(1);
                Err(WriteFailed)
            }
        }
    }
}
