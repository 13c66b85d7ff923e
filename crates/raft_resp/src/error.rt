//! Why bytes are no request.

use std::alloc::{AllocError, AllocFailed};
use thiserror::Error;

/// What is wrong with a client's bytes, in Redis' words: `-ERR Protocol error: ` stands before them, and the connection is
/// closed behind them.
#[derive(Clone, Copy, PartialEq, Eq, Debug, Error)]
pub enum Fault {
    /// Behind `*` stands no number, or a larger one than is allowed.
    #[error("invalid multibulk length")]
    Count,
    /// Behind `$` stands no number, or a larger one than is allowed.
    #[error("invalid bulk length")]
    Length,
    /// A word doesn't begin with `$`, but with this character.
    #[error("expected '$', got '{0}'")]
    Mark(char),
    /// The number of words has no end.
    #[error("too big mbulk count string")]
    LongCount,
    /// The length of a word has no end.
    #[error("too big bulk count string")]
    LongLength,
    /// A line has no end.
    #[error("too big inline request")]
    LongLine,
    /// A line has quotes, which only words with a length may have.
    #[error("unbalanced quotes in request")]
    Quotes,
    /// A line or a word isn't followed by CR and LF.
    #[error("expected CRLF")]
    End,
}

/// Why no request was read.
#[derive(Clone, Copy, PartialEq, Eq, Debug, Error)]
pub enum RequestError {
    #[error("out of memory")]
    OutOfMemory,
    /// What stands at the front is no request, and no beginning of one.
    #[error("Protocol error: {0}")]
    Protocol(Fault),
}

/// What stands in a request's place, as contracts say it: callers see it as a [`RequestError`], or as no request yet.
#[derive(Clone, Copy, Debug)]
pub enum Stop {
    OutOfMemory,
    /// More bytes have to come.
    Unfinished,
    Malformed(Fault),
}

impl From<AllocError> for Stop {
    ghost use Rattle.std.specs.Prelude.{◌≡◌};
    ghost use Rattle.raft_resp.specs.declared.error.Stop.TheVariants.{OutOfMemory};

    ghost from_gives = { λ _ e. e ≡ OutOfMemory };

    fn from(_: AllocError) -> Self {
        Stop::OutOfMemory
    }
}

impl<T: Drop> From<AllocFailed<T>> for Stop {
    ghost use Rattle.std.specs.Prelude.{◌≡◌};
    ghost use Rattle.raft_resp.specs.declared.error.Stop.TheVariants.{OutOfMemory};

    ghost from_gives = { λ _ e. e ≡ OutOfMemory };

    fn from(_: AllocFailed<T>) -> Self {
        Stop::OutOfMemory
    }
}
