//! The refusals of the engine's calls.

ghost use Rattle.std.specs.Prelude.{◌≡◌};
ghost use Rattle.raft_error.specs.Number.{number_of};

use raft_state::{LogId, Node, NodeId, Vote};
use thiserror::Error;

/// Why a call of the engine is refused.
///
/// After each refusal but `OutOfMemory` the engine is as it was before the call. Source: openraft's `InitializeError`
/// and `ForwardToLeader`; the other refusals are for where openraft panics, overflows or goes on.
#[derive(Debug, PartialEq, Eq, Drop, Error)]
pub enum EngineError<NID: NodeId, N: Node> {
    /// 1: `initialize` on a node that already has a log id or has voted.
    #[error("the node is already initialized: it has a log or has voted; initialize only a node that is new")]
    NotAllowed {
        last_log_id: Option<LogId<NID>>,
        vote: Vote<NID>,
    },
    /// 2: `initialize` with an entry that has no membership.
    #[error("the first entry has no membership: initialize with a membership entry")]
    NoMembership,
    /// 3: `initialize` with a membership in which this node is no voter.
    #[error("this node is no voter of the first membership: initialize one of its voters")]
    NotInMembers {
        node_id: NID,
    },
    /// 4: `elect` if the term is the greatest `u64`.
    #[error("the term is the greatest number: no further election can be held")]
    TermEnd,
    /// 5: the index of a log id is, or one to be assigned would be, the greatest `u64`.
    #[error("the log index is the greatest number: the log can't grow further")]
    IndexEnd,
    /// 6: the sequence number of a command or the number of a request is near the greatest `u64`.
    #[error("the numbers of commands or requests are used up: restart the engine from its store")]
    CounterEnd,
    /// 7: a reply from a node that is not in the table.
    #[error("the target is not among the nodes that are followed: drop its reply")]
    UnknownTarget,
    /// 8: a reply to a request that is not the one in flight.
    #[error("the reply is not to the request on its way to the target: drop it")]
    ForeignInflight,
    /// 9: a reply with a log id outside of what is in flight.
    #[error("the reply names a log id outside of what was sent to the target: drop it")]
    OutsideInflight,
    /// 10: a conflict at or below what the target has acknowledged.
    #[error("the target conflicts with what it has acknowledged: its log went back, take it out of the cluster")]
    LogReverted,
    /// 11: an append or a snapshot under a vote that is not committed.
    #[error("the request's vote is not committed: only an elected leader may append or install")]
    VoteNotCommitted,
    /// 12: an append or a snapshot under a vote that names this node.
    #[error("the request's vote names this node: it can't be its own leader's follower")]
    OwnVote,
    /// 13: entries that are not consecutive with each other or with the previous log id, or of a leader above the request's
    /// vote.
    #[error("the entries don't follow on the previous log id or on each other: send the request again in order")]
    NotFollowing,
    /// 14: a request that contradicts what is committed or was accepted from the same leader.
    #[error("the request contradicts log ids that are committed or accepted: the sender is not to be trusted")]
    ContradictsHeld,
    /// 15: a snapshot that contradicts what is committed or was accepted from the same leader, that is of a leader above
    /// the request's vote, or whose membership is past its last id.
    #[error("the snapshot doesn't fit what is committed or accepted: the sender is not to be trusted")]
    SnapshotUnfit,
    /// 16: a commit of a log id that is not in the log.
    #[error("the log id to be committed is not in the log: append it first")]
    CommittedNotHeld,
    /// 17: this node is not the leader; names the leader, if known. Its data is left out if memory runs out for the copy.
    #[error("this node is not the leader: ask the leader")]
    ForwardToLeader {
        leader_id: Option<NID>,
        leader_node: Option<N>,
    },
    /// 18: out of memory; from then on the engine answers `Spent`.
    #[error("out of memory: drop the engine and start it again from its store")]
    OutOfMemory,
    /// 19: an earlier call ran out of memory.
    #[error("the engine is spent, since memory was refused: start it again from its store")]
    Spent,
}

impl<NID: NodeId, N: Node> EngineError<NID, N> {
    /// The number of the refusal, 1 to 19, in the order above.
    pub fn number(&self) -> u8
        ensures { result ≡ number_of self.now }
    {
        match self {
            EngineError::NotAllowed { .. } => 1,
            EngineError::NoMembership => 2,
            EngineError::NotInMembers { .. } => 3,
            EngineError::TermEnd => 4,
            EngineError::IndexEnd => 5,
            EngineError::CounterEnd => 6,
            EngineError::UnknownTarget => 7,
            EngineError::ForeignInflight => 8,
            EngineError::OutsideInflight => 9,
            EngineError::LogReverted => 10,
            EngineError::VoteNotCommitted => 11,
            EngineError::OwnVote => 12,
            EngineError::NotFollowing => 13,
            EngineError::ContradictsHeld => 14,
            EngineError::SnapshotUnfit => 15,
            EngineError::CommittedNotHeld => 16,
            EngineError::ForwardToLeader { .. } => 17,
            EngineError::OutOfMemory => 18,
            EngineError::Spent => 19,
        }
    }
}
