//! Messages between nodes, and the answers to callers.

ghost use Rattle.std.specs.Prelude.{◌≡◌, None, IfOk};
ghost use Rattle.raft_command.specs.Message.{is_granted_to, is_success, is_conflict};

use raft_progress_entry::raft_state::{
    DisplayOption, Items, LogId, Membership, Node, NodeId, RaftTypeConfig, RejectAppendEntries,
    SnapshotMeta, Vote,
};
use std::alloc::AllocError;
use std::fmt;
use thiserror::Error;

/// Names a caller that waits for a reply: it is handed back with the reply (openraft's oneshot sender).
#[derive(Clone, Copy, PartialEq, Eq, Debug)]
pub struct Token(pub u64);

/// A candidate's request for a vote (Raft paper, section 5.2; openraft's `VoteRequest`).
#[derive(Clone, Copy, PartialEq, Eq, Debug)]
pub struct VoteRequest<NID> {
    pub vote: Vote<NID>,
    /// The candidate's last log id.
    pub last_log_id: Option<LogId<NID>>,
}

/// The answer to a vote request (openraft's `VoteResponse`).
#[derive(Clone, Copy, PartialEq, Eq, Debug)]
pub struct VoteResponse<NID> {
    /// The vote of the node that answers. If it denies by its lease or its log, this may be below the request's.
    pub vote: Vote<NID>,
    /// Whether the request's vote was adopted.
    pub vote_granted: bool,
    /// The last log id of the node that answers.
    pub last_log_id: Option<LogId<NID>>,
}

/// A leader's request to append entries, or, without entries, its heartbeat (Raft paper, sections 5.2 and 5.3).
#[derive(Drop)]
#[derive_where(Debug; C::Entry)]
pub struct AppendEntriesRequest<C: RaftTypeConfig> {
    pub vote: Vote<C::NodeId>,
    /// The log id just before the entries.
    pub prev_log_id: Option<LogId<C::NodeId>>,
    pub entries: Items<C::Entry>,
    /// The leader's committed log id.
    pub leader_commit: Option<LogId<C::NodeId>>,
}

/// The answer to a request to append entries (openraft's `AppendEntriesResponse`).
#[derive(Clone, Copy, PartialEq, Eq, Debug)]
pub enum AppendEntriesResponse<NID> {
    /// All entries are held.
    Success,
    /// The entries up to this log id are held. The engine never answers this.
    PartialSuccess(Option<LogId<NID>>),
    /// The log id before the entries is not held.
    Conflict,
    /// A vote above the request's is held.
    HigherVote(Vote<NID>),
}

/// A leader's request to install a chunk of a snapshot (Raft paper, section 7).
#[derive(PartialEq, Eq, Debug, Drop)]
pub struct InstallSnapshotRequest<NID: NodeId, N: Node> {
    pub vote: Vote<NID>,
    pub meta: SnapshotMeta<NID, N>,
    /// The offset of these bytes in the snapshot.
    pub offset: u64,
    pub payload: Items<u8>,
    /// Whether these are the snapshot's last bytes.
    pub done: bool,
}

/// The answer to a request to install a chunk of a snapshot: the vote of the node that answers.
#[derive(Clone, Copy, PartialEq, Eq, Debug)]
pub struct InstallSnapshotResponse<NID> {
    pub vote: Vote<NID>,
}

/// The answer to the install of a whole snapshot: the vote of the node that answers.
#[derive(Clone, Copy, PartialEq, Eq, Debug)]
pub struct SnapshotResponse<NID> {
    pub vote: Vote<NID>,
}

/// A snapshot: its meta, and its data, which the engine doesn't look into.
#[derive(Drop)]
#[derive_where(Debug; C::SnapshotData)]
pub struct Snapshot<C: RaftTypeConfig> {
    pub meta: SnapshotMeta<C::NodeId, C::Node>,
    pub snapshot: C::SnapshotData,
}

/// The answer to a write: the log id of the entry, the application's response, and the membership that the entry set.
#[derive(Drop)]
#[derive_where(Debug; C::R)]
pub struct ClientWriteResponse<C: RaftTypeConfig> {
    pub log_id: LogId<C::NodeId>,
    pub payload: C::R,
    pub membership: Option<Membership<C::NodeId, C::Node>>,
}

/// Why a write is refused: this node is not the leader. Names the leader, if known (openraft's `ClientWriteError`).
#[derive(Debug, PartialEq, Eq, Drop, Error)]
pub enum ClientWriteError<NID: NodeId, N: Node> {
    #[error("this node is not the leader: write to the leader")]
    ForwardToLeader {
        leader_id: Option<NID>,
        leader_node: Option<N>,
    },
}

/// The result of a write (openraft's `ClientWriteResult`).
pub type ClientWriteResult<C> = Result<
    ClientWriteResponse<C>,
    ClientWriteError<<C as RaftTypeConfig>::NodeId, <C as RaftTypeConfig>::Node>,
>;

impl<NID: NodeId> VoteRequest<NID> {
    /// A request for this vote by a candidate with this last log id.
    pub fn new(vote: Vote<NID>, last_log_id: Option<LogId<NID>>) -> Self
        ensures { result ≡ record { vote = vote; last_log_id = last_log_id } }
    {
        VoteRequest { vote, last_log_id }
    }
}

impl<NID: NodeId> VoteResponse<NID> {
    /// An answer of a node with this vote and this last log id.
    pub fn new(vote: &Vote<NID>, last_log_id: Option<LogId<NID>>, granted: bool) -> Self
        ensures { result ≡ record { vote = vote.now; vote_granted = granted; last_log_id = last_log_id } }
    {
        VoteResponse {
            vote: *vote,
            vote_granted: granted,
            last_log_id,
        }
    }

    /// Whether the vote was granted to the candidate with this vote: it is marked as granted, and the votes are equal.
    pub fn is_granted_to(&self, candidate_vote: &Vote<NID>) -> bool
        ensures { result ≡ is_granted_to NID.cmp self.now candidate_vote.now }
    {
        self.vote_granted && self.vote == *candidate_vote
    }
}

impl<NID> AppendEntriesResponse<NID> {
    /// Whether all entries are held.
    pub fn is_success(&self) -> bool
        ensures { result ≡ is_success self.now }
    {
        matches!(self, AppendEntriesResponse::Success)
    }

    /// Whether the log id before the entries is not held.
    pub fn is_conflict(&self) -> bool
        ensures { result ≡ is_conflict self.now }
    {
        matches!(self, AppendEntriesResponse::Conflict)
    }
}

impl<NID: Drop> From<Result<(), RejectAppendEntries<NID>>> for AppendEntriesResponse<NID> {
    ghost use Rattle.raft_command.specs.Message.{append_response};

    ghost from_gives = { λ done response. response ≡ append_response done };

    fn from(done: Result<(), RejectAppendEntries<NID>>) -> Self {
        match done {
            Ok(()) => AppendEntriesResponse::Success,
            Err(RejectAppendEntries::ByVote(vote)) => AppendEntriesResponse::HigherVote(vote),
            Err(RejectAppendEntries::ByConflictingLogId { .. }) => AppendEntriesResponse::Conflict,
        }
    }
}

impl<NID: NodeId, N: Node> InstallSnapshotRequest<NID, N> {
    /// An equal request. Out of memory, nothing changes.
    pub fn copy(&self) -> Result<Self, AllocError>
        ensures { IfOk result (λ copied. copied ≡ self.now) }
    {
        Ok(InstallSnapshotRequest {
            vote: self.vote,
            meta: self.meta.copy()?,
            offset: self.offset,
            payload: self.payload.copy()?,
            done: self.done,
        })
    }
}

impl<NID> SnapshotResponse<NID> {
    /// The answer of a node with this vote.
    pub fn new(vote: Vote<NID>) -> Self
        ensures { result ≡ record { vote = vote } }
    {
        SnapshotResponse { vote }
    }
}

impl<NID> From<SnapshotResponse<NID>> for InstallSnapshotResponse<NID> {
    ghost use Rattle.std.specs.Prelude.{◌≡◌};

    ghost from_gives = { λ response part. part ≡ record { vote = response.vote } };

    fn from(response: SnapshotResponse<NID>) -> Self {
        InstallSnapshotResponse {
            vote: response.vote,
        }
    }
}

impl<C: RaftTypeConfig> ClientWriteResponse<C> {
    /// The application's response to the entry with this log id, which set no membership.
    pub fn new_app_response(log_id: LogId<C::NodeId>, payload: C::R) -> Self
        ensures { result ≡ record { log_id = log_id; payload = payload; membership = None } }
    {
        ClientWriteResponse {
            log_id,
            payload,
            membership: None,
        }
    }

    /// The log id of the entry.
    pub fn log_id(&self) -> &LogId<C::NodeId>
        ensures { result.now ≡ self.now.log_id }
    {
        &self.log_id
    }

    /// The application's response.
    pub fn response(&self) -> &C::R
        ensures { result.now ≡ self.now.payload }
    {
        &self.payload
    }

    /// The membership that the entry set.
    pub fn membership(&self) -> &Option<Membership<C::NodeId, C::Node>>
        ensures { result.now ≡ self.now.membership }
    {
        &self.membership
    }
}

impl<NID: NodeId> fmt::Display for VoteRequest<NID> {
    ghost use Rattle.raft_command.specs.Texts.{vote_request_text};

    ghost output = { vote_request_text NID.output };

    fn fmt<W: fmt::Write>(&self, f: &mut fmt::Formatter<W>) -> fmt::Result {
        let vote = self.vote;
        let last = DisplayOption(self.last_log_id);
        write!(f, "{{vote:{vote}, last_log:{last}}}")
    }
}

impl<NID: NodeId> fmt::Display for VoteResponse<NID> {
    ghost use Rattle.raft_command.specs.Texts.{vote_response_text};

    ghost output = { vote_response_text NID.output };

    fn fmt<W: fmt::Write>(&self, f: &mut fmt::Formatter<W>) -> fmt::Result {
        let vote = self.vote;
        let last = QuotedId(self.last_log_id);
        write!(f, "{{{vote}, last_log:{last}}}")
    }
}

/// An optional log id that prints as `Some("1-2-3")`, or as `None`.
#[derive(Clone, Copy)]
struct QuotedId<NID>(Option<LogId<NID>>);

impl<NID: NodeId> fmt::Display for QuotedId<NID> {
    ghost use Rattle.raft_command.specs.Texts.{quoted_id};

    ghost output = { λ quoted. quoted_id NID.output quoted.0 };

    fn fmt<W: fmt::Write>(&self, f: &mut fmt::Formatter<W>) -> fmt::Result {
        match self.0 {
            Some(last) => write!(f, "Some(\"{last}\")"),
            None => f.write_str("None"),
        }
    }
}

impl<NID: NodeId> fmt::Display for AppendEntriesResponse<NID> {
    ghost use Rattle.raft_command.specs.Texts.{append_response_text};

    ghost output = { append_response_text NID.output };

    fn fmt<W: fmt::Write>(&self, f: &mut fmt::Formatter<W>) -> fmt::Result {
        match *self {
            AppendEntriesResponse::Success => f.write_str("Success"),
            AppendEntriesResponse::PartialSuccess(last) => {
                let last = DisplayOption(last);
                write!(f, "PartialSuccess({last})")
            }
            AppendEntriesResponse::Conflict => f.write_str("Conflict"),
            AppendEntriesResponse::HigherVote(vote) => write!(f, "Higher vote, {vote}"),
        }
    }
}

impl<NID: NodeId, N: Node> fmt::Display for InstallSnapshotRequest<NID, N> {
    ghost use Rattle.raft_command.specs.Texts.{install_request_text};

    ghost output = { install_request_text NID.output };

    fn fmt<W: fmt::Write>(&self, f: &mut fmt::Formatter<W>) -> fmt::Result {
        let vote = self.vote;
        let meta = &self.meta;
        let offset = self.offset;
        let len = self.payload.as_slice().len();
        let done = self.done;
        write!(
            f,
            "InstallSnapshotRequest {{ vote:{vote}, meta:{meta}, offset:{offset}, len:{len}, done:{done} }}"
        )
    }
}

impl<NID: NodeId> fmt::Display for InstallSnapshotResponse<NID> {
    ghost use Rattle.raft_command.specs.Texts.{install_response_text};

    ghost output = { λ r. install_response_text NID.output r.vote };

    fn fmt<W: fmt::Write>(&self, f: &mut fmt::Formatter<W>) -> fmt::Result {
        let vote = self.vote;
        write!(f, "{{vote:{vote}}}")
    }
}

impl<NID: NodeId> fmt::Display for SnapshotResponse<NID> {
    ghost use Rattle.raft_command.specs.Texts.{snapshot_response_text};

    ghost output = { λ r. snapshot_response_text NID.output r.vote };

    fn fmt<W: fmt::Write>(&self, f: &mut fmt::Formatter<W>) -> fmt::Result {
        let vote = self.vote;
        write!(f, "SnapshotResponse{{vote:{vote}}}")
    }
}
