//! Why a client was not connected.

use std::alloc::AllocError;
use thiserror::Error;

/// Why a client was not connected: nothing was done.
#[derive(Clone, Copy, PartialEq, Eq, Debug, Error)]
pub enum ConnectError {
    /// A client with this number, or a greater one, was connected before.
    #[error("clients' numbers must ascend")]
    NotNew,
    /// As many clients are connected as may be.
    #[error("too many clients")]
    TooMany,
    #[error("out of memory")]
    OutOfMemory,
}

impl From<AllocError> for ConnectError {
    ghost use Rattle.std.specs.Prelude.{◌≡◌};
    ghost use Rattle.raft_clients.specs.declared.error.ConnectError.TheVariants.{OutOfMemory};

    ghost from_gives = { λ _ e. e ≡ OutOfMemory };

    fn from(_: AllocError) -> Self {
        ConnectError::OutOfMemory
    }
}
