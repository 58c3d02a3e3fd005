ghost use Rattle.std.specs.Prelude.{◌≡◌};
ghost use Rattle.pl_migrate.specs.declared.error.GrantError.TheVariants as grant_error;

use std::alloc::AllocError;
use thiserror::Error;

/// Why a host got no address.
#[derive(Clone, Copy, Debug, PartialEq, Eq, Error)]
pub enum GrantError {
    /// Every vmid of the port was given.
    #[error("every address of the port was given")]
    Spent,
    #[error("out of memory")]
    Memory,
}

impl From<AllocError> for GrantError {
    ghost from_gives = { λ _ e. e ≡ grant_error.Memory };

    fn from(_e: AllocError) -> GrantError {
        GrantError::Memory
    }
}
