//! Why nodes don't go on.

use raft_world::WorldError;
use std::alloc::{AllocError, AllocFailed};
use std::error::Error;
use std::fmt;

/// What ran out.
#[derive(Clone, Copy, PartialEq, Eq, Debug)]
pub enum Failure {
    /// The world takes no further event: W4. So too if a log had an index that is no `u64`, which none has.
    Full,
    /// W5.
    OutOfMemory,
}

impl fmt::Display for Failure {
    ghost use Rattle.std.specs.Prelude.{Some};
    ghost use Rattle.raft_recovery.specs.Told.{failure_text};

    ghost output = { λ failure. Some (failure_text failure) };

    fn fmt<W: fmt::Write>(&self, f: &mut fmt::Formatter<W>) -> fmt::Result {
        match self {
            Failure::Full => f.write_str("W4"),
            Failure::OutOfMemory => f.write_str("W5"),
        }
    }
}

impl Error for Failure {}

impl From<AllocError> for Failure {
    fn from(_: AllocError) -> Self {
        Failure::OutOfMemory
    }
}

impl<T: Drop> From<AllocFailed<T>> for Failure {
    fn from(_: AllocFailed<T>) -> Self {
        Failure::OutOfMemory
    }
}

impl From<WorldError> for Failure {
    fn from(error: WorldError) -> Self {
        match error {
            WorldError::LimitReached => Failure::Full,
            _ => Failure::OutOfMemory,
        }
    }
}

/// Why nodes don't go on: the premise that lacks, by name.
#[derive(Clone, Copy, PartialEq, Eq, Debug)]
pub enum RecoveryError {
    /// This id stands twice among them.
    Repeated(u64),
    /// There is no node with this id.
    NoNode(u64),
    /// No request may carry an entry.
    NoPayload,
    /// None of them has a log.
    NoLog,
    /// None of them is a voter of its own membership whose log isn't behind those of voters that are with it a majority
    /// of each group (Raft paper, section 5.4.1).
    NoMajority,
    /// Of the first node's log is purged what the second one's own snapshot doesn't have. It was tried nevertheless.
    NeedsSnapshot(u64, u64),
    /// No way on was found, although no premise is known to lack.
    Stuck,
    /// Memory ended, or the world's limits are reached.
    Failed(Failure),
}

impl fmt::Display for RecoveryError {
    ghost use Rattle.std.specs.Prelude.{Some};
    ghost use Rattle.raft_recovery.specs.Told.{error_text};

    ghost output = { λ error. Some (error_text error) };

    fn fmt<W: fmt::Write>(&self, f: &mut fmt::Formatter<W>) -> fmt::Result {
        match self {
            RecoveryError::Repeated(id) => write!(f, "node {id} stands twice"),
            RecoveryError::NoNode(id) => write!(f, "there is no node {id}"),
            RecoveryError::NoPayload => f.write_str("no request may carry an entry"),
            RecoveryError::NoLog => f.write_str("no node has a log"),
            RecoveryError::NoMajority => {
                f.write_str("no voter can be elected by a majority of its groups")
            }
            RecoveryError::NeedsSnapshot(id, other) => {
                write!(f, "node {other} needs a snapshot of node {id}")
            }
            RecoveryError::Stuck => f.write_str("no way on was found"),
            RecoveryError::Failed(failure) => write!(f, "{failure}"),
        }
    }
}

impl Error for RecoveryError {}

impl From<Failure> for RecoveryError {
    ghost use Rattle.std.specs.Prelude.{◌≡◌};
    ghost use Rattle.raft_recovery.specs.declared.error.RecoveryError.TheVariants.{Failed};

    ghost from_gives = { λ failure e. e ≡ Failed failure };

    fn from(failure: Failure) -> Self {
        RecoveryError::Failed(failure)
    }
}
