//! Why a store did not do what it was told.

use std::alloc::{AllocError, AllocFailed};
use thiserror::Error;

/// Why a store did not do what it was told: nothing is promised of it then.
#[derive(Debug, Drop, Error)]
pub enum PackedError {
    #[error("out of memory")]
    OutOfMemory,
    /// So many entries were applied that their number has no 64 bits.
    #[error("too many entries")]
    TooManyEntries,
}

impl From<AllocError> for PackedError {
    ghost use Rattle.std.specs.Prelude.{◌≡◌};
    ghost use Rattle.raft_packed.specs.declared.error.PackedError.TheVariants.{OutOfMemory};

    ghost from_gives = { λ _ e. e ≡ OutOfMemory };

    fn from(_: AllocError) -> Self {
        PackedError::OutOfMemory
    }
}

impl<T: Drop> From<AllocFailed<T>> for PackedError {
    ghost use Rattle.std.specs.Prelude.{◌≡◌};
    ghost use Rattle.raft_packed.specs.declared.error.PackedError.TheVariants.{OutOfMemory};

    ghost from_gives = { λ _ e. e ≡ OutOfMemory };

    fn from(_: AllocFailed<T>) -> Self {
        PackedError::OutOfMemory
    }
}
