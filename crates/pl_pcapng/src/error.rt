ghost use Rattle.std.specs.Prelude.{◌≡◌};
ghost use Rattle.pl_pcapng.specs.BlockError.{offset_of};
ghost use Rattle.pl_pcapng.specs.declared.error.BlockError.TheVariants.{Memory as memory};

use std::alloc::{AllocError, AllocFailed};
use thiserror::Error;

/// Why a file is refused: the first fault of its first faulty block, with the offset of that block
/// in the file.
#[derive(Clone, Copy, Debug, PartialEq, Eq, Error)]
pub enum BlockError {
    /// A section header has no magic number, in neither byte order.
    #[error("BadMagic {0}")]
    BadMagic(u64),
    /// The total length is no multiple of 4 or too small for the block's type, or the captured
    /// bytes of a packet do not fit into it.
    #[error("BadBlock {0}")]
    BadBlock(u64),
    /// The total length at the end of the block is another than that at its beginning.
    #[error("BadTrailer {0}")]
    BadTrailer(u64),
    /// The major version of a section is not 1.
    #[error("BadVersion {0}")]
    BadVersion(u64),
    /// A packet names an interface that its section does not have.
    #[error("BadInterface {0}")]
    BadInterface(u64),
    /// The captured length of a packet is above 262,144.
    #[error("BadRecord {0}")]
    BadRecord(u64),
    /// Memory ran out.
    #[error("out of memory")]
    Memory,
}

impl BlockError {
    /// The offset in the file of the block that is refused.
    pub fn offset(self) -> Option<u64>
        ensures { result ≡ offset_of self }
    {
        match self {
            BlockError::BadMagic(at)
            | BlockError::BadBlock(at)
            | BlockError::BadTrailer(at)
            | BlockError::BadVersion(at)
            | BlockError::BadInterface(at)
            | BlockError::BadRecord(at) => Some(at),
            BlockError::Memory => None,
        }
    }
}

impl From<AllocError> for BlockError {
    ghost from_gives = { λ _ e. e ≡ memory };

    fn from(_e: AllocError) -> BlockError {
        BlockError::Memory
    }
}

impl<T: Drop> From<AllocFailed<T>> for BlockError {
    ghost from_gives = { λ _ e. e ≡ memory };

    fn from(_e: AllocFailed<T>) -> BlockError {
        BlockError::Memory
    }
}
