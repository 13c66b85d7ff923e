//! Requests.

ghost use Rattle.std.specs.Prelude.{◌≡◌};
ghost use Rattle.raft_answers.specs.Requests.{len_of};

use raft_state::{Items, LogId};

/// By which a caller knows a request again.
#[derive(Clone, Copy, PartialEq, Eq, PartialOrd, Ord, Hash, Debug)]
pub struct Token(pub u64);

/// What a client asks for.
#[derive(PartialEq, Eq, Debug, Drop)]
pub enum Operation {
    /// These bytes are to be executed.
    Write(Items<u8>),
    /// What was executed is to be read, all of it that was answered before.
    Read,
}

/// A request that isn't proposed yet.
#[derive(Debug, Drop)]
pub struct Request {
    pub token: Token,
    /// When it came, in milliseconds.
    pub since: u64,
    pub operation: Operation,
}

/// A request that was proposed: of a write its own entry, of a read the one that it waits for.
#[derive(Clone, Copy, PartialEq, Eq, Debug)]
pub struct Proposal {
    pub token: Token,
    /// When it came, in milliseconds.
    pub since: u64,
    pub log_id: LogId<u64>,
}

impl Operation {
    /// How many bytes it has.
    pub fn len(&self) -> usize
        ensures { result ≡ len_of self.now }
    {
        match self {
            Operation::Write(bytes) => bytes.as_slice().len(),
            Operation::Read => 0,
        }
    }
}
