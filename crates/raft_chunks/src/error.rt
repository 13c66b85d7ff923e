//! Why a chunk was not taken.

use std::alloc::{AllocError, AllocFailed};
use thiserror::Error;

/// Why a chunk is refused.
#[derive(Clone, Copy, PartialEq, Eq, Debug, Error)]
pub enum Refusal {
    /// A snapshot of as many entries or more is there.
    #[error("as much is there already")]
    Held,
    /// It doesn't begin where the chunks before it end.
    #[error("the chunk is out of place")]
    Misplaced,
    /// It goes past the snapshot's end.
    #[error("the chunk goes past the snapshot's end")]
    TooLong,
    /// With this chunk all bytes were there, and have another sum than the title says.
    #[error("the snapshot's bytes are damaged")]
    Damaged,
}

/// Why a chunk was not taken.
#[derive(Debug, Drop, Error)]
pub enum TakeError {
    #[error("{0}")]
    Refused(Refusal),
    #[error("out of memory")]
    OutOfMemory,
}

impl From<AllocError> for TakeError {
    ghost use Rattle.std.specs.Prelude.{◌≡◌};
    ghost use Rattle.raft_chunks.specs.declared.error.TakeError.TheVariants.{OutOfMemory};

    ghost from_gives = { λ _ e. e ≡ OutOfMemory };

    fn from(_: AllocError) -> Self {
        TakeError::OutOfMemory
    }
}

impl From<Refusal> for TakeError {
    ghost use Rattle.std.specs.Prelude.{◌≡◌};
    ghost use Rattle.raft_chunks.specs.declared.error.TakeError.TheVariants.{Refused};

    ghost from_gives = { λ refusal e. e ≡ Refused refusal };

    fn from(refusal: Refusal) -> Self {
        TakeError::Refused(refusal)
    }
}
