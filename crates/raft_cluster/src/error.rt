//! Why there is no cluster.

use raft_world::WorldError;
use std::alloc::AllocError;
use thiserror::Error;

/// Why there is no cluster.
#[derive(Debug, Drop, Error)]
pub enum ClusterError {
    /// There is none of these nodes and voters.
    #[error("{0}")]
    Given(WorldError),
    #[error("out of memory")]
    OutOfMemory,
}

impl From<AllocError> for ClusterError {
    fn from(_: AllocError) -> Self {
        ClusterError::OutOfMemory
    }
}
