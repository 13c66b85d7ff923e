//! Messages between nodes.

ghost use Rattle.std.specs.Prelude.{◌≡◌, IfOk};

use raft_command::{
    AppendEntriesResponse, ReplicationSessionId, RequestId, Snapshot, SnapshotResponse,
    VoteRequest, VoteResponse,
};
use raft_state::{Items, LogId};
use raft_store::{Entry, WorldConfig, copy_entries};
use std::alloc::{AllocError, Global};

/// Where a replication request comes from: the leader's session, the request's id, and the moment of sending in
/// milliseconds.
#[derive(Clone, Copy, PartialEq, Eq, Debug)]
pub struct Origin {
    pub session_id: ReplicationSessionId<u64>,
    pub request_id: RequestId,
    pub sent_at: u64,
}

/// The contents of a message.
#[derive(Debug, Drop)]
pub enum Body {
    VoteRequest(VoteRequest<u64>),
    VoteReply(VoteResponse<u64>),
    /// Entries after a previous id, and the leader's committed id; a heartbeat has no previous id and no entries.
    AppendRequest {
        origin: Origin,
        prev_log_id: Option<LogId<u64>>,
        entries: Items<Entry>,
        leader_commit: Option<LogId<u64>>,
    },
    /// The reply, with the request's previous id, and the id up to which a success acknowledges.
    AppendReply {
        origin: Origin,
        reply: AppendEntriesResponse<u64>,
        prev_log_id: Option<LogId<u64>>,
        upto: Option<LogId<u64>>,
    },
    SnapshotRequest {
        origin: Origin,
        snapshot: Snapshot<WorldConfig>,
    },
    /// The reply, with the snapshot's last id.
    SnapshotReply {
        origin: Origin,
        reply: SnapshotResponse<u64>,
        upto: Option<LogId<u64>>,
    },
}

/// A message, with its sender and its addressee.
#[derive(Debug, Drop)]
pub struct Message {
    pub from: u64,
    pub to: u64,
    pub body: Body,
}

/// An equal snapshot.
pub fn copy_snapshot(
    alloc: Global,
    snapshot: &Snapshot<WorldConfig>,
) -> Result<Snapshot<WorldConfig>, AllocError>
    ensures { IfOk result (λ copied. copied ≡ snapshot.now) }
{
    Ok(Snapshot {
        meta: snapshot.meta.copy()?,
        snapshot: Items::from_vec(copy_entries(alloc, snapshot.snapshot.as_slice())?),
    })
}

impl Body {
    /// An equal body.
    pub fn copy(&self, alloc: Global) -> Result<Body, AllocError>
        ensures { IfOk result (λ copied. copied ≡ self.now) }
    {
        match self {
            Body::VoteRequest(request) => Ok(Body::VoteRequest(*request)),
            Body::VoteReply(reply) => Ok(Body::VoteReply(*reply)),
            Body::AppendRequest {
                origin,
                prev_log_id,
                entries,
                leader_commit,
            } => Ok(Body::AppendRequest {
                origin: *origin,
                prev_log_id: *prev_log_id,
                entries: Items::from_vec(copy_entries(alloc, entries.as_slice())?),
                leader_commit: *leader_commit,
            }),
            Body::AppendReply {
                origin,
                reply,
                prev_log_id,
                upto,
            } => Ok(Body::AppendReply {
                origin: *origin,
                reply: *reply,
                prev_log_id: *prev_log_id,
                upto: *upto,
            }),
            Body::SnapshotRequest { origin, snapshot } => Ok(Body::SnapshotRequest {
                origin: *origin,
                snapshot: copy_snapshot(alloc, snapshot)?,
            }),
            Body::SnapshotReply {
                origin,
                reply,
                upto,
            } => Ok(Body::SnapshotReply {
                origin: *origin,
                reply: *reply,
                upto: *upto,
            }),
        }
    }
}

impl Message {
    /// A copy of the message.
    pub fn copy(&self, alloc: Global) -> Result<Message, AllocError>
        ensures { IfOk result (λ copied. copied ≡ self.now) }
    {
        Ok(Message {
            from: self.from,
            to: self.to,
            body: self.body.copy(alloc)?,
        })
    }
}
