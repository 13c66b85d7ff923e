//! Why a server doesn't serve.

use raft_codec::DecodeError;
use raft_frames::{PushError, ReadError};
use raft_packed_wire::raft_packed::PackedError;
use raft_packed_wire::raft_packed_node::StepError;
use thiserror::Error;

/// Why a server was not opened.
#[derive(Debug, Drop, Error)]
pub enum OpenError {
    /// The log is damaged, or another's.
    #[error("{0}")]
    Log(ReadError),
    /// A frame of the log holds something else than records.
    #[error("the log holds no records: {0}")]
    Record(DecodeError),
    /// A record can't be replayed.
    #[error("the log's records: {0}")]
    Replay(PackedError),
    /// The node can't start on what the records make.
    #[error("{0}")]
    Start(StepError),
}

/// Why a server takes no step, writes nothing, and says nothing any more.
#[derive(Debug, Drop, Error)]
pub enum ServerError {
    /// It stopped before.
    #[error("the server has stopped")]
    Stopped,
    /// The node took no step.
    #[error("{0}")]
    Step(StepError),
    /// The records that wait make no frame.
    #[error("{0}")]
    Write(PushError),
}
