//! Why bytes are no value.

use std::alloc::{AllocError, AllocFailed};
use thiserror::Error;

/// What is wrong with bytes.
#[derive(Clone, Copy, PartialEq, Eq, Debug, Error)]
pub enum Fault {
    /// The bytes end within a value, or a length says that more follow than do.
    #[error("the bytes end early")]
    TooShort,
    /// Bytes follow the value.
    #[error("bytes follow the value")]
    TooLong,
    /// A number has a shorter form.
    #[error("a number is not in its shortest form")]
    NotShortest,
    /// A number is 2^64 or more.
    #[error("a number is too large")]
    TooLarge,
    /// No value begins with this byte.
    #[error("an unknown tag")]
    UnknownTag,
    /// The bytes are of another version of the format.
    #[error("another version of the format")]
    UnknownVersion,
    /// A text is not UTF-8.
    #[error("a text is not UTF-8")]
    NotUtf8,
    /// Items that are to ascend, as the ids of a membership, don't, or repeat.
    #[error("items are out of order")]
    Disordered,
    /// The parts of a value can't stand together.
    #[error("parts that cannot stand together")]
    Inconsistent,
}

/// Why bytes were not read.
#[derive(Clone, Copy, PartialEq, Eq, Debug, Error)]
pub enum DecodeError {
    #[error("out of memory")]
    OutOfMemory,
    /// No value stands at the front: what is wrong, and how many bytes are left from the one at which the wrong item begins.
    #[error("{fault}, {left} bytes before the end")]
    Malformed { fault: Fault, left: usize },
}

impl From<AllocError> for DecodeError {
    ghost use Rattle.std.specs.Prelude.{◌≡◌};
    ghost use Rattle.raft_codec.specs.declared.error.DecodeError.TheVariants.{OutOfMemory};

    ghost from_gives = { λ _ e. e ≡ OutOfMemory };

    fn from(_: AllocError) -> Self {
        DecodeError::OutOfMemory
    }
}

impl<T: Drop> From<AllocFailed<T>> for DecodeError {
    ghost use Rattle.std.specs.Prelude.{◌≡◌};
    ghost use Rattle.raft_codec.specs.declared.error.DecodeError.TheVariants.{OutOfMemory};

    ghost from_gives = { λ _ e. e ≡ OutOfMemory };

    fn from(_: AllocFailed<T>) -> Self {
        DecodeError::OutOfMemory
    }
}
