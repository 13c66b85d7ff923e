//! Why a call was refused.

use raft_answers::Refusal;
use raft_codec::DecodeError;
use raft_peers::raft_packed_server::ServerError;
use std::alloc::AllocError;
use thiserror::Error;

/// Why a server does nothing more: it is opened again on its log.
#[derive(Debug, Drop, Error)]
pub enum CoreError {
    /// The server has stopped.
    #[error("{0}")]
    Server(ServerError),
    /// Memory ran out.
    #[error("out of memory: open the server again on its log")]
    OutOfMemory,
}

impl From<AllocError> for CoreError {
    ghost use Rattle.std.specs.Prelude.{◌≡◌};
    ghost use Rattle.raft_core.specs.declared.error.CoreError.TheVariants.{OutOfMemory};

    ghost from_gives = { λ _ e. e ≡ OutOfMemory };

    fn from(_: AllocError) -> Self {
        CoreError::OutOfMemory
    }
}

impl From<ServerError> for CoreError {
    ghost use Rattle.std.specs.Prelude.{◌≡◌};
    ghost use Rattle.raft_core.specs.declared.error.CoreError.TheVariants.{Server};

    ghost from_gives = { λ x e. e ≡ Server x };

    fn from(error: ServerError) -> Self {
        CoreError::Server(error)
    }
}

/// Why a client's request was not taken: nothing was done, and no answer follows.
#[derive(Clone, Copy, PartialEq, Eq, Debug, Error)]
pub enum RequestError {
    /// Another server leads, or none is known to.
    #[error("not the leader")]
    NotLeader { leader: Option<u64> },
    /// It is too large, or too much waits.
    #[error("{0}")]
    Refused(Refusal),
}

/// Why bytes of a peer were not taken: nothing was done. The connection should be closed unless the server is busy.
#[derive(Debug, Drop, Error)]
pub enum FrameError {
    /// They have too many bytes.
    #[error("too large")]
    TooLarge,
    /// They are no frame.
    #[error("{0}")]
    Decode(DecodeError),
    /// They are for another server.
    #[error("for server {to}")]
    Misdirected { to: u64 },
    /// They are a part of a snapshot of a term that is over.
    #[error("a part of term {term}, which is over")]
    Stale { term: u64 },
    /// Their term is further above this server's than elections explain.
    #[error("term {term} is too far above {own}")]
    TermJump { term: u64, own: u64 },
    /// Too many bytes wait to be written: the frame counts as lost.
    #[error("busy")]
    Busy,
    /// The server does nothing more.
    #[error("{0}")]
    Core(CoreError),
}

impl From<CoreError> for FrameError {
    ghost use Rattle.std.specs.Prelude.{◌≡◌};
    ghost use Rattle.raft_core.specs.declared.error.FrameError.TheVariants.{Core};

    ghost from_gives = { λ x e. e ≡ Core x };

    fn from(error: CoreError) -> Self {
        FrameError::Core(error)
    }
}

impl From<AllocError> for FrameError {
    ghost use Rattle.std.specs.Prelude.{◌≡◌};
    ghost use Rattle.raft_core.specs.declared.error.CoreError.TheVariants.{OutOfMemory};
    ghost use Rattle.raft_core.specs.declared.error.FrameError.TheVariants.{Core};

    ghost from_gives = { λ _ e. e ≡ Core OutOfMemory };

    fn from(_: AllocError) -> Self {
        FrameError::Core(CoreError::OutOfMemory)
    }
}
