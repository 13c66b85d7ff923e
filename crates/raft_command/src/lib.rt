//! What nodes send to each other, the commands that an engine queues for its runtime, and settings.
#![tactic(auto)]

pub use raft_progress_entry;

pub mod command;
pub mod config;
pub mod laws;
pub mod message;
pub mod output;
pub mod replication;
pub mod respond;
pub mod sm;

pub use command::{Command, CommandKind, Condition};
pub use config::{EngineConfig, time_state};
pub use message::{
    AppendEntriesRequest, AppendEntriesResponse, ClientWriteError, ClientWriteResponse,
    ClientWriteResult, InstallSnapshotRequest, InstallSnapshotResponse, Snapshot, SnapshotResponse,
    Token, VoteRequest, VoteResponse,
};
pub use output::{CommandIter, EngineOutput};
pub use replication::{
    Data, DataWithId, Replicate, ReplicationResult, ReplicationSessionId, RequestId, Response,
    SnapshotCallback,
};
pub use respond::{Respond, RespondValue, ValueSender};
