//! Why a call was refused.

use std::alloc::AllocError;
use thiserror::Error;

/// Why a service was not opened.
#[derive(Debug, Drop, Error)]
pub enum OpenError {
    /// Its server was not.
    #[error("{0}")]
    Server(raft_core::raft_packed_server::OpenError),
    #[error("out of memory")]
    OutOfMemory,
}

impl From<AllocError> for OpenError {
    ghost use Rattle.std.specs.Prelude.{◌≡◌};
    ghost use Rattle.raft_service.specs.declared.error.OpenError.TheVariants.{OutOfMemory};

    ghost from_gives = { λ _ e. e ≡ OutOfMemory };

    fn from(_: AllocError) -> Self {
        OpenError::OutOfMemory
    }
}
