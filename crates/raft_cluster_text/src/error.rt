//! Why a text is not played.

use raft_cluster::ClusterError;
use raft_schedule::schedule::ScheduleError;
use raft_world::Failure;
use std::alloc::{AllocError, AllocFailed};
use std::io;
use thiserror::Error;

/// Why a text is not played, or not to its end.
#[derive(Debug, Drop, Error)]
pub enum TextError {
    /// The first line, counted from 1, that is wrong in its place.
    #[error("line {0}: bad line")]
    BadLine(u64),
    /// There is no cluster as the text's head says.
    #[error(transparent)]
    Cluster(#[from] ClusterError),
    #[error("read failed")]
    Read,
    #[error("write failed")]
    Write,
    #[error("out of memory")]
    OutOfMemory,
}

impl TextError {
    /// The exit status: 1 for a text that is refused, 2 for a read or a write that failed.
    pub fn status(&self) -> u8 {
        match self {
            TextError::BadLine(_) | TextError::Cluster(_) | TextError::OutOfMemory => 1,
            TextError::Read | TextError::Write => 2,
        }
    }
}

impl From<AllocError> for TextError {
    fn from(_: AllocError) -> Self {
        TextError::OutOfMemory
    }
}

impl<T: Drop> From<AllocFailed<T>> for TextError {
    fn from(_: AllocFailed<T>) -> Self {
        TextError::OutOfMemory
    }
}

/// Printing into memory fails only when out of memory.
impl From<io::Error> for TextError {
    fn from(_: io::Error) -> Self {
        TextError::OutOfMemory
    }
}

impl From<ScheduleError> for TextError {
    fn from(error: ScheduleError) -> Self {
        match error {
            ScheduleError::BadLine(line) => TextError::BadLine(line),
            ScheduleError::OutOfMemory => TextError::OutOfMemory,
        }
    }
}

impl From<Failure> for TextError {
    fn from(failure: Failure) -> Self {
        match failure {
            Failure::Read => TextError::Read,
            Failure::Write => TextError::Write,
            _ => TextError::OutOfMemory,
        }
    }
}
