//! What happens in a cluster.

ghost use Rattle.std.specs.Prelude.{◌≡◌, ◌-◌, ◌++◌, IfOk, replicate};
ghost use Rattle.std.specs.Int.{to_le_bytes, w64};

use raft_answers::Operation;
use raft_state::Items;
use raft_store::Hex;
use std::alloc::{AllocError, Global};
use std::fmt;

/// What happens in a cluster, and at which server.
#[derive(Debug, Drop)]
pub enum Action {
    /// The server with this id is opened on its disk.
    Start(u64),
    /// A server is given the first entry of a new cluster.
    Init(u64),
    /// Time goes by at a server, in milliseconds, and it is given a random number.
    Tick {
        id: u64,
        elapsed: u64,
        random: u64,
    },
    /// A client's request comes to a server.
    Request {
        id: u64,
        token: u64,
        operation: Operation,
    },
    /// A client's read that needs no entry comes to a server.
    Ask {
        id: u64,
        token: u64,
    },
    /// These members are wanted of a server.
    Members {
        id: u64,
        voters: Items<u64>,
        learners: Items<u64>,
    },
    /// A server hands out bytes for the end of its log.
    Write(u64),
    /// What a server has handed out is on its disk.
    Flush(u64),
    /// The frame with this number is taken by its addressee.
    Deliver(u64),
    /// Each frame that waits is taken by its addressee, in their order.
    DeliverAll,
    /// Frames from and to this server don't wait any more.
    Cut(u64),
    /// They do again.
    Heal(u64),
    /// A stranger's bytes come to a server.
    Receive {
        id: u64,
        bytes: Items<u8>,
    },
    /// A server begins a new log, if its log is long, in a file beside its disk.
    Checkpoint(u64),
    /// The new log that is on its way takes the old one's place on the server's disk.
    TakeOver(u64),
    /// The new log that is on its way is given up.
    GiveUp(u64),
    /// A server begins a new log, if its log is long, and stops before that one has taken the old one's place.
    CrashInCheckpoint(u64),
    /// A server stops. Of what it handed out and isn't flushed so many bytes are on its disk.
    Crash {
        id: u64,
        bytes: u64,
    },
    /// The byte at this position of the disk of a server is changed.
    Corrupt {
        id: u64,
        position: u64,
    },
    /// All servers run for so many milliseconds.
    Run(u64),
    /// So many writes of so many bytes come to a server, at most so many without an answer. Their tokens are from `FIRST_LOAD_TOKEN` on.
    Load {
        id: u64,
        count: u64,
        bytes: u64,
        waiting: u64,
    },
}

/// The bytes of a write: those of a token, the lowest first, and behind them zeros, up to so many bytes in all.
pub fn value_of(alloc: Global, token: u64, bytes: u64) -> Result<Items<u8>, AllocError>
    ensures { IfOk result (λ value. value ≡ to_le_bytes w64 token ++ replicate (bytes - 8) 0) }
{
    let mut value = Vec::from_slice(alloc, &token.to_le_bytes())?;
    'zeros: for _ in 0..bytes.saturating_sub(8) {
        value.push(0)?;
    }
    Ok(Items::from_vec(value))
}

/// A list of ids, each behind a space.
#[derive(Clone, Copy)]
struct Ids<'a>(&'a [u64]);

impl fmt::Display for Ids<'_> {
    fn fmt<W: fmt::Write>(&self, f: &mut fmt::Formatter<W>) -> fmt::Result {
        for id in self.0 {
            write!(f, " {id}")?;
        }
        Ok(())
    }
}

/// A line of a request.
fn print_request<W: fmt::Write>(
    id: u64,
    token: u64,
    operation: &Operation,
    f: &mut fmt::Formatter<W>,
) -> fmt::Result {
    match operation {
        Operation::Write(bytes) => {
            let bytes = Hex(bytes.as_slice());
            write!(f, "request {id} {token} x{bytes}")
        }
        Operation::Read => write!(f, "read {id} {token}"),
    }
}

impl fmt::Display for Action {
    fn fmt<W: fmt::Write>(&self, f: &mut fmt::Formatter<W>) -> fmt::Result {
        match self {
            Action::Start(id) => write!(f, "start {id}"),
            Action::Init(id) => write!(f, "init {id}"),
            Action::Tick {
                id,
                elapsed,
                random,
            } => write!(f, "tick {id} {elapsed} {random}"),
            Action::Request {
                id,
                token,
                operation,
            } => print_request(*id, *token, operation, f),
            Action::Ask { id, token } => write!(f, "ask {id} {token}"),
            Action::Members {
                id,
                voters,
                learners,
            } => {
                let voters = Ids(voters.as_slice());
                write!(f, "members {id}{voters}")?;
                if learners.is_empty() {
                    return Ok(());
                }
                let learners = Ids(learners.as_slice());
                write!(f, " learners{learners}")
            }
            Action::Write(id) => write!(f, "write {id}"),
            Action::Flush(id) => write!(f, "flush {id}"),
            Action::Deliver(number) => write!(f, "deliver {number}"),
            Action::DeliverAll => f.write_str("deliver all"),
            Action::Cut(id) => write!(f, "cut {id}"),
            Action::Heal(id) => write!(f, "heal {id}"),
            Action::Receive { id, bytes } => {
                let bytes = Hex(bytes.as_slice());
                write!(f, "receive {id} x{bytes}")
            }
            Action::Checkpoint(id) => write!(f, "checkpoint {id}"),
            Action::TakeOver(id) => write!(f, "take-over {id}"),
            Action::GiveUp(id) => write!(f, "give-up {id}"),
            Action::CrashInCheckpoint(id) => write!(f, "checkpoint {id} crash"),
            Action::Crash { id, bytes } => write!(f, "crash {id} at {bytes}"),
            Action::Corrupt { id, position } => write!(f, "corrupt {id} {position}"),
            Action::Run(span) => write!(f, "run {span}"),
            Action::Load {
                id,
                count,
                bytes,
                waiting,
            } => write!(f, "load {id} {count} {bytes} {waiting}"),
        }
    }
}
