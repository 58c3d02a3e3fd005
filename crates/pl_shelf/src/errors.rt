ghost use Rattle.std.specs.Prelude.{◌≡◌};
ghost use Rattle.pl_shelf.specs.declared.errors.LoadError.TheVariants as load_error;
ghost use Rattle.pl_shelf.specs.declared.errors.SaveError.TheVariants as save_error;

use std::alloc::{AllocError, AllocFailed};
use thiserror::Error;

/// The error of a call that only want of memory can refuse.
pub type Memory = AllocError;

/// A `read_at` that failed.
#[derive(Clone, Copy, Debug, PartialEq, Eq, Error)]
#[error("a read failed")]
pub struct ReadFailed;

/// A `create` or a `write` that failed.
#[derive(Clone, Copy, Debug, PartialEq, Eq, Error)]
#[error("a write failed")]
pub struct WriteFailed;

/// Why `load` gave no content.
#[derive(Clone, Copy, Debug, PartialEq, Eq, Error)]
pub enum LoadError {
    #[error("a read failed")]
    Fault,
    /// There was at least one byte more than the limit.
    #[error("the content is longer than allowed")]
    TooLong,
    #[error("out of memory")]
    Memory,
}

/// Why `append` or `save` did not write the whole.
#[derive(Clone, Copy, Debug, PartialEq, Eq, Error)]
pub enum SaveError {
    #[error("a write failed")]
    Fault,
}

impl From<ReadFailed> for LoadError {
    ghost from_gives = { λ _ e. e ≡ load_error.Fault };

    fn from(_: ReadFailed) -> Self {
        LoadError::Fault
    }
}

impl From<AllocError> for LoadError {
    ghost from_gives = { λ _ e. e ≡ load_error.Memory };

    fn from(_: AllocError) -> Self {
        LoadError::Memory
    }
}

impl<T: Drop> From<AllocFailed<T>> for LoadError {
    ghost from_gives = { λ _ e. e ≡ load_error.Memory };

    fn from(_: AllocFailed<T>) -> Self {
        LoadError::Memory
    }
}

impl From<WriteFailed> for SaveError {
    ghost from_gives = { λ _ e. e ≡ save_error.Fault };

    fn from(_: WriteFailed) -> Self {
        SaveError::Fault
    }
}
