//! Why a node takes no further step.

use raft_packed::PackedError;
use std::alloc::AllocError;
use thiserror::Error;

/// Why a step of a node failed: the node takes no further one.
#[derive(Clone, Copy, PartialEq, Eq, Debug, Error)]
pub enum StepError {
    #[error("out of memory: start the node again on its store")]
    OutOfMemory,
    /// The index behind the last entry that was to be applied has no 64 bits.
    #[error("too many entries")]
    TooManyEntries,
    /// What is noted for a snapshot doesn't end with a committed id of the engine's log. This befalls no node that is at rest.
    #[error("what is noted for a snapshot does not fit the log: the store is not to be trusted")]
    StrayNote,
    /// The state that the store gives to a start isn't sound. This befalls no node that is at rest.
    #[error("the stored state is not sound: the store is not to be trusted")]
    UnsoundState,
}

impl From<AllocError> for StepError {
    ghost use Rattle.std.specs.Prelude.{◌≡◌};
    ghost use Rattle.raft_packed_node.specs.declared.error.StepError.TheVariants.{OutOfMemory};

    ghost from_gives = { λ _ e. e ≡ OutOfMemory };

    fn from(_: AllocError) -> Self {
        StepError::OutOfMemory
    }
}

impl From<PackedError> for StepError {
    ghost use Rattle.raft_packed_node.specs.Held.{RunsOut};

    ghost from_gives = { λ _ e. RunsOut e };

    fn from(error: PackedError) -> Self {
        match error {
            PackedError::OutOfMemory => StepError::OutOfMemory,
            PackedError::TooManyEntries => StepError::TooManyEntries,
        }
    }
}
