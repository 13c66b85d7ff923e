//! Why a call was refused.

ghost use Rattle.std.specs.Prelude.{◌≡◌, ◌≤◌};
ghost use Rattle.service_host.specs.Errors.{ends, number_of};

use raft_service::raft_core::{CoreError, FrameError, RequestError};
use raft_service::{ConnectError, OpenError};
use std::alloc::AllocError;
use thiserror::Error;

/// Why a call was refused, or ended the service.
#[derive(Debug, Drop, Error)]
pub enum HostError {
    /// Memory ran out. A service that was open is gone: it is to be opened again.
    #[error("out of memory")]
    OutOfMemory,
    /// The bytes are no settings.
    #[error("these bytes are no settings")]
    BadSettings,
    /// The service wasn't opened.
    #[error("{0}")]
    Open(OpenError),
    /// There is no such input, or its bytes are none.
    #[error("no such input")]
    BadInput,
    /// No service is open, or one is.
    #[error("no service is open, or one is already")]
    Misplaced,
    /// A client isn't connected.
    #[error("{0}")]
    Connect(ConnectError),
    /// Members aren't changed.
    #[error("{0}")]
    Members(RequestError),
    /// A peer's frame isn't taken: its connection should be closed.
    #[error("{0}")]
    Frame(FrameError),
    /// A peer's frame isn't taken: it counts as lost.
    #[error("busy")]
    Busy,
    /// The service has stopped: it is gone, and to be opened again.
    #[error("{0}")]
    Stopped(CoreError),
}

impl HostError {
    /// The number of the error, as callers get it.
    pub fn code(&self) -> u32
        ensures number { result ≡ number_of self.now }
        ensures least { 1 ≤ result }
        ensures most { result ≤ 10 }
    {
        match self {
            HostError::OutOfMemory => 1,
            HostError::BadSettings => 2,
            HostError::Open(_) => 3,
            HostError::BadInput => 4,
            HostError::Misplaced => 5,
            HostError::Connect(_) => 6,
            HostError::Members(_) => 7,
            HostError::Frame(_) => 8,
            HostError::Busy => 9,
            HostError::Stopped(_) => 10,
        }
    }

    /// Whether the service is gone.
    pub(crate) fn ends(&self) -> bool
        ensures { result ≡ ends (number_of self.now) }
    {
        matches!(self, HostError::OutOfMemory | HostError::Stopped(_))
    }
}

impl From<AllocError> for HostError {
    ghost use Rattle.std.specs.Prelude.{◌≡◌};
    ghost use Rattle.service_host.specs.declared.error.HostError.TheVariants.{OutOfMemory};

    ghost from_gives = { λ _ e. e ≡ OutOfMemory };

    fn from(_: AllocError) -> Self {
        HostError::OutOfMemory
    }
}

impl From<CoreError> for HostError {
    ghost use Rattle.std.specs.Prelude.{◌≡◌};
    ghost use Rattle.service_host.specs.declared.error.HostError.TheVariants.{Stopped};

    ghost from_gives = { λ x e. e ≡ Stopped x };

    fn from(error: CoreError) -> Self {
        HostError::Stopped(error)
    }
}
