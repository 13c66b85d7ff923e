//! How much may wait.

use std::alloc::AllocError;
use thiserror::Error;

/// What is taken of requests, and no more.
#[derive(Clone, Copy, PartialEq, Eq, Debug)]
pub struct Limits {
    /// The most bytes of a value.
    pub value_bytes: usize,
    /// The most bytes of values that wait to be proposed.
    pub waiting_bytes: usize,
    /// The most requests without an answer.
    pub requests: usize,
    /// A batch takes no further request once its values have so many bytes.
    pub batch_bytes: usize,
}

/// Why a request was not taken: it has no answer but this one.
#[derive(Clone, Copy, PartialEq, Eq, Debug, Error)]
pub enum Refusal {
    /// Its value has too many bytes.
    #[error("too large")]
    TooLarge,
    /// Too many requests, or too many bytes of them, wait: the client may try again.
    #[error("busy")]
    Busy,
    /// Memory ran out.
    #[error("out of memory")]
    OutOfMemory,
}

impl From<AllocError> for Refusal {
    ghost use Rattle.std.specs.Prelude.{◌≡◌};
    ghost use Rattle.raft_answers.specs.declared.limits.Refusal.TheVariants.{OutOfMemory};

    ghost from_gives = { λ _ e. e ≡ OutOfMemory };

    fn from(_: AllocError) -> Self {
        Refusal::OutOfMemory
    }
}
