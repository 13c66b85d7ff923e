//! The Raft engine: an event comes in by a call of `Engine`; an answer, a new state and a queue of commands come out. Re-exports
//! the public names of the crates below.
#![tactic(auto)]

pub use raft_handler_follower::raft_handler_common;

pub mod engine;
pub mod installs;
pub mod leader_calls;
pub mod requests;
pub mod snapshots;
pub mod starts;

pub use engine::Engine;
pub use raft_command::{
    AppendEntriesRequest, AppendEntriesResponse, ClientWriteError, ClientWriteResponse,
    ClientWriteResult, Command, CommandIter, CommandKind, Condition, Data, DataWithId,
    EngineConfig, EngineOutput, InstallSnapshotRequest, InstallSnapshotResponse, Replicate,
    ReplicationResult, ReplicationSessionId, RequestId, Respond, RespondValue, Response, Snapshot,
    SnapshotCallback, SnapshotResponse, Token, ValueSender, VoteRequest, VoteResponse, sm,
    time_state,
};
pub use raft_error::EngineError;
pub use raft_handler_follower::FollowingHandler;
pub use raft_handler_follower::raft_handler_common::{
    EstablishHandler, LogHandler, ServerStateHandler, SnapshotHandler,
};
pub use raft_handler_vote::raft_handler_leader::{
    LeaderHandler, ReplicationHandler, SendNone, shares_group,
};
pub use raft_handler_vote::{ReplyOf, StateOf, VoteHandler};
pub use raft_progress::{
    Inflight, Joint, LogIdRange, Measured, ProgressEntry, ProgressIter, QuorumSet, VecProgress,
};
pub use raft_proposer::{Candidate, GrantersIter, Leader};
pub use raft_state::{
    CommittedLeaderId, DisplayOption, Group, Items, LeaderId, LogId, LogIds, Members, Membership,
    Node, NodeId, RaftEntry, RaftState, RaftTypeConfig, RejectAppendEntries, RejectVoteRequest,
    ServerState, SnapshotMeta, SnapshotPolicy, StoredMembership, Text, Vote, next_index, reaches,
    sorted_ids,
};
