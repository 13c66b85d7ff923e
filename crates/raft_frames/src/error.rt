//! Why a log was not read, or a frame not written.

use std::alloc::{AllocError, AllocFailed};
use thiserror::Error;

/// Why a file is not read as the log of a node.
#[derive(Clone, Copy, PartialEq, Eq, Debug, Error)]
pub enum Fault {
    /// The file doesn't begin as a log does.
    #[error("the file is no log")]
    Format,
    /// The log has a format of another version.
    #[error("the log's format has version {0}")]
    Version(u32),
    /// The header is cut short, or its sum is wrong.
    #[error("the log's header is damaged")]
    Header,
    /// The log is of a node of this other cluster.
    #[error("the log is of cluster {0}")]
    Cluster(u64),
    /// The log is of this other node.
    #[error("the log is of node {0}")]
    Node(u64),
    /// The frame at this position, in bytes from the file's start, is damaged, and others stand behind it.
    #[error("the log is damaged at byte {0}")]
    Damaged(u64),
}

/// Why a log was not read.
#[derive(Debug, Drop, Error)]
pub enum ReadError {
    #[error("{0}")]
    Fault(Fault),
    #[error("out of memory")]
    OutOfMemory,
}

/// Why a frame was not written.
#[derive(Debug, Drop, Error)]
pub enum PushError {
    /// A payload has at least one byte.
    #[error("a frame has no bytes")]
    Empty,
    /// A payload has at most [`MAX_FRAME`](crate::MAX_FRAME) bytes.
    #[error("a frame has too many bytes")]
    TooLong,
    /// The frame would end behind the last position that has a number.
    #[error("the log is full")]
    Full,
    #[error("out of memory")]
    OutOfMemory,
}

impl From<AllocError> for ReadError {
    ghost use Rattle.std.specs.Prelude.{◌≡◌};
    ghost use Rattle.raft_frames.specs.declared.error.ReadError.TheVariants.{OutOfMemory};

    ghost from_gives = { λ _ e. e ≡ OutOfMemory };

    fn from(_: AllocError) -> Self {
        ReadError::OutOfMemory
    }
}

impl<T: Drop> From<AllocFailed<T>> for ReadError {
    ghost use Rattle.std.specs.Prelude.{◌≡◌};
    ghost use Rattle.raft_frames.specs.declared.error.ReadError.TheVariants.{OutOfMemory};

    ghost from_gives = { λ _ e. e ≡ OutOfMemory };

    fn from(_: AllocFailed<T>) -> Self {
        ReadError::OutOfMemory
    }
}

impl From<Fault> for ReadError {
    ghost use Rattle.std.specs.Prelude.{◌≡◌};
    ghost use Rattle.raft_frames.specs.declared.error.ReadError.TheVariants.{Fault};

    ghost from_gives = { λ fault e. e ≡ Fault fault };

    fn from(fault: Fault) -> Self {
        ReadError::Fault(fault)
    }
}

impl From<AllocError> for PushError {
    ghost use Rattle.std.specs.Prelude.{◌≡◌};
    ghost use Rattle.raft_frames.specs.declared.error.PushError.TheVariants.{OutOfMemory};

    ghost from_gives = { λ _ e. e ≡ OutOfMemory };

    fn from(_: AllocError) -> Self {
        PushError::OutOfMemory
    }
}
