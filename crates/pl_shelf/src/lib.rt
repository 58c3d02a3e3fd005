//! Files by name: what a program reads and saves, with each failed call counted.
//!
//! A `Shelf` holds bytes by name. Its three calls read a piece, empty a name and add a piece at a
//! name's end. A contract can say what a call did as far as the shelf tells what it holds, and no
//! body can make up a failure: an `Err` comes only where the shelf's count of faults rose in that
//! call. `load`, `append` and `save` go over whole files, and promise the same of any shelf.
//!
//! `MemoryShelf` tells all that it holds and fails exactly where it was told to, for tests and for
//! theorems. `DiskShelf` is files and standard output. It is the trusted edge: it counts its faults,
//! and what the system does with the bytes no clause says.
//!
//! What the bytes mean is left to the crates above.
#![tactic(auto)]

mod calls;
mod disk_shelf;
mod errors;
mod files;
mod kept;
mod memory_shelf;
mod places;
mod reading;
mod writing;

pub use calls::Shelf;
pub use disk_shelf::DiskShelf;
pub use errors::{LoadError, Memory, ReadFailed, SaveError, WriteFailed};
pub use memory_shelf::MemoryShelf;
pub use reading::{Bytes, load};
pub use writing::{append, save};

// The name of standard output.
const STANDARD_OUTPUT: &str = "-";
