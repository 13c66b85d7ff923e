//! When a snapshot is built, and why a request is rejected.

ghost use Rattle.std.specs.Prelude.{◌≡◌};
ghost use Rattle.raft_state.specs.Order.{next};
ghost use Rattle.raft_state.specs.Policy.{saturating_add, should_snapshot};

use crate::ids::{LogId, Vote};
use crate::node::{Node, NodeId};
use crate::state::RaftState;

/// When a snapshot is built (openraft's `SnapshotPolicy`).
#[derive(Clone, Copy, PartialEq, Eq, Debug)]
pub enum SnapshotPolicy {
    /// When at least this many log ids were committed since the last snapshot.
    LogsSinceLast(u64),
    /// Only on request.
    Never,
}

impl SnapshotPolicy {
    /// Whether enough was committed since the last snapshot for another one.
    pub fn should_snapshot<NID: NodeId, N: Node>(&self, state: &RaftState<NID, N>) -> bool
        ensures { result ≡ should_snapshot self.now state.now }
    {
        match *self {
            SnapshotPolicy::LogsSinceLast(n) => {
                next_plus(&state.committed, 0) >= next_plus(&state.snap.last_log_id, n)
            }
            SnapshotPolicy::Never => false,
        }
    }
}

/// The index `n` above the one after a log id, at most the greatest one.
fn next_plus<NID: NodeId>(last: &Option<LogId<NID>>, n: u64) -> u64
    ensures { result ≡ saturating_add (next last.now) n }
{
    match last {
        Some(id) => id.index.saturating_add(1).saturating_add(n),
        None => n,
    }
}

/// Why a vote request is rejected: this node's vote is greater (openraft's `RejectVoteRequest`).
#[derive(Clone, Copy, PartialEq, Eq, Debug)]
pub enum RejectVoteRequest<NID> {
    ByVote(Vote<NID>),
}

/// Why an append request is rejected: this node's vote is greater, or its log doesn't hold the previous id (openraft's
/// `RejectAppendEntries`).
#[derive(Clone, Copy, PartialEq, Eq, Debug)]
pub enum RejectAppendEntries<NID> {
    ByVote(Vote<NID>),
    ByConflictingLogId {
        local: Option<LogId<NID>>,
        expect: LogId<NID>,
    },
}

impl<NID> From<RejectVoteRequest<NID>> for RejectAppendEntries<NID> {
    ghost use Rattle.raft_state.specs.Policy.{append_rejection};

    ghost from_gives = { λ rejection outcome. outcome ≡ append_rejection rejection };

    fn from(rejection: RejectVoteRequest<NID>) -> Self {
        match rejection {
            RejectVoteRequest::ByVote(vote) => RejectAppendEntries::ByVote(vote),
        }
    }
}
