//! Why a world can't be made, or can't go on.

use std::error::Error;
use std::fmt;

/// Why a world can't be made, or can't go on.
#[derive(Clone, Copy, PartialEq, Eq, Debug)]
pub enum WorldError {
    /// W1: two nodes have the same id.
    DuplicateId,
    /// W2: there are more than 16 nodes.
    TooManyNodes,
    /// W3: there is no group of voters, an empty one, or more than four.
    NoVoters,
    /// W4: 100,000 events were applied, or there are more than 999,936 messages.
    LimitReached,
    /// W5: out of memory.
    OutOfMemory,
}

impl fmt::Display for WorldError {
    ghost use Rattle.std.specs.Prelude.{Some};
    ghost use Rattle.raft_world.specs.Limits.{error_text};

    ghost output = { λ error. Some (error_text error) };

    fn fmt<W: fmt::Write>(&self, f: &mut fmt::Formatter<W>) -> fmt::Result {
        match self {
            WorldError::DuplicateId => f.write_str("W1"),
            WorldError::TooManyNodes => f.write_str("W2"),
            WorldError::NoVoters => f.write_str("W3"),
            WorldError::LimitReached => f.write_str("W4"),
            WorldError::OutOfMemory => f.write_str("W5"),
        }
    }
}

impl Error for WorldError {}
