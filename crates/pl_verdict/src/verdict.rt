ghost use Rattle.std.specs.Prelude.{◌≡◌};
ghost use Rattle.pl_verdict.specs.declared.verdict.VerifyError.TheVariants.{Memory as memory};

use std::alloc::{AllocError, AllocFailed};
use thiserror::Error;

/// What is found of a text whose lines are all lines of entries.
#[derive(Clone, Copy, Debug, PartialEq, Eq)]
pub enum Verdict {
    /// Its entries, which are so many, are a run of the lossy switch with good trails.
    Legal(u64),
    /// The first entry that may not follow those before it, counted from 1.
    Illegal(u64),
}

/// Why there is no verdict.
#[derive(Clone, Copy, Debug, PartialEq, Eq, Error)]
pub enum VerifyError {
    /// The first line that is no entry's, counted from 1; a last line without a newline is none.
    #[error("bad line {0}")]
    BadLine(u64),
    /// Memory ran out.
    #[error("out of memory")]
    Memory,
}

impl From<AllocError> for VerifyError {
    ghost from_gives = { λ _ e. e ≡ memory };

    fn from(_e: AllocError) -> VerifyError {
        VerifyError::Memory
    }
}

impl<T: Drop> From<AllocFailed<T>> for VerifyError {
    ghost from_gives = { λ _ e. e ≡ memory };

    fn from(_e: AllocFailed<T>) -> VerifyError {
        VerifyError::Memory
    }
}
