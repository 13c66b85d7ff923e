//! What replication sends, and what it answers.

ghost use Rattle.std.specs.Prelude.{◌≡◌, Option, None, Some};
ghost use Rattle.raft_command.specs.Replication.{number_of, request_id, has_payload};
ghost use Rattle.raft_command.specs.declared.replication.RequestId.TheVariants as request;

use crate::message::SnapshotResponse;
use raft_progress_entry::LogIdRange;
use raft_progress_entry::raft_state::{
    DisplayOption, LogId, NodeId, RaftTypeConfig, SnapshotMeta, Vote,
};
use std::fmt;

/// One session of replication: a leader under one membership (openraft's `ReplicationSessionId`).
#[derive(Clone, Copy, PartialEq, Eq, Debug)]
pub struct ReplicationSessionId<NID> {
    /// The leader's vote.
    pub vote: Vote<NID>,
    /// The log id of the membership.
    pub membership_log_id: Option<LogId<NID>>,
}

/// The id of a request of replication (openraft's `RequestId`).
#[derive(Clone, Copy, PartialEq, Eq, Hash, Debug)]
pub enum RequestId {
    /// A heartbeat, which has no number.
    HeartBeat,
    AppendEntries { id: u64 },
    Snapshot { id: u64 },
}

/// Data under the id of its request (openraft's `DataWithId`).
#[derive(Clone, Debug, Drop)]
pub struct DataWithId<T> {
    pub request_id: RequestId,
    pub payload: T,
}

/// The outcome of sending a snapshot (openraft's `SnapshotCallback`).
#[derive(Drop)]
#[derive_where(Debug)]
pub struct SnapshotCallback<C: RaftTypeConfig> {
    /// When the sending began, in milliseconds.
    pub start_time: u64,
    pub snapshot_meta: SnapshotMeta<C::NodeId, C::Node>,
    /// The answer, or why it failed.
    pub result: Result<SnapshotResponse<C::NodeId>, String>,
}

/// What a target is sent (openraft's `Data`).
#[derive(Drop)]
#[derive_where(Debug)]
pub enum Data<C: RaftTypeConfig> {
    Heartbeat,
    /// The entries of this range.
    Logs(DataWithId<LogIdRange<C::NodeId>>),
    /// The snapshot that ends at this log id.
    Snapshot(DataWithId<Option<LogId<C::NodeId>>>),
    /// The outcome of sending a snapshot.
    SnapshotCallback(DataWithId<SnapshotCallback<C>>),
}

/// A request to a stream of replication (openraft's `Replicate`).
#[derive(Drop)]
#[derive_where(Debug)]
pub enum Replicate<C: RaftTypeConfig> {
    /// Send the committed log id to the target.
    Committed(Option<LogId<C::NodeId>>),
    /// Send a heartbeat.
    Heartbeat,
    /// Send this.
    Data(Data<C>),
}

/// The result of a request: when it was sent, in milliseconds, and the log id up to which the logs match, or one that
/// conflicts (openraft's `ReplicationResult`).
#[derive(Clone, Copy, PartialEq, Eq, Debug)]
pub struct ReplicationResult<NID> {
    pub sending_time: u64,
    pub result: Result<Option<LogId<NID>>, LogId<NID>>,
}

/// What a stream of replication reports to the engine's runtime (openraft's `replication::Response`).
#[derive(Drop)]
#[derive_where(Debug)]
pub enum Response<C: RaftTypeConfig> {
    /// The result of a request to a target, or why it failed.
    Progress {
        target: C::NodeId,
        request_id: RequestId,
        result: Result<ReplicationResult<C::NodeId>, String>,
        session_id: ReplicationSessionId<C::NodeId>,
    },
    /// The store of this node has failed.
    StorageError {
        error: String,
    },
    /// A target has a vote that is above the sender's.
    HigherVote {
        target: C::NodeId,
        higher: Vote<C::NodeId>,
        sender_vote: Vote<C::NodeId>,
    },
}

impl<NID: NodeId> ReplicationSessionId<NID> {
    /// The session of a leader with this vote under the membership of this log id.
    pub fn new(vote: Vote<NID>, membership_log_id: Option<LogId<NID>>) -> Self
        ensures { result ≡ record { vote = vote; membership_log_id = membership_log_id } }
    {
        ReplicationSessionId {
            vote,
            membership_log_id,
        }
    }

    /// The leader's vote.
    pub fn vote_ref(&self) -> &Vote<NID>
        ensures { result.now ≡ self.now.vote }
    {
        &self.vote
    }
}

impl RequestId {
    /// The id of a heartbeat.
    pub fn new_heartbeat() -> Self
        ensures { result ≡ request.HeartBeat }
    {
        RequestId::HeartBeat
    }

    /// The id of a request to append entries.
    pub fn new_append_entries(id: u64) -> Self
        ensures { result ≡ request.AppendEntries id }
    {
        RequestId::AppendEntries { id }
    }

    /// The id of a request to install a snapshot.
    pub fn new_snapshot(id: u64) -> Self
        ensures { result ≡ request.Snapshot id }
    {
        RequestId::Snapshot { id }
    }

    /// The number of the request; none for a heartbeat.
    pub fn request_id(&self) -> Option<u64>
        ensures { result ≡ number_of self.now }
    {
        match *self {
            RequestId::HeartBeat => None,
            RequestId::AppendEntries { id } => Some(id),
            RequestId::Snapshot { id } => Some(id),
        }
    }
}

impl<T> DataWithId<T> {
    /// Data under the id of its request.
    pub fn new(request_id: RequestId, payload: T) -> Self
        ensures { result ≡ record { request_id = request_id; payload = payload } }
    {
        DataWithId {
            request_id,
            payload,
        }
    }

    /// The id of the request.
    pub fn request_id(&self) -> RequestId
        ensures { result ≡ self.now.request_id }
    {
        self.request_id
    }

    /// The data.
    pub fn data(&self) -> &T
        ensures { result.now ≡ self.now.payload }
    {
        &self.payload
    }

    /// The data, moved out.
    pub fn into_data(self) -> T
        ensures { result ≡ self.payload }
    {
        let DataWithId { payload, .. } = self;
        payload
    }
}

impl<C: RaftTypeConfig> Data<C> {
    /// A heartbeat.
    pub fn new_heartbeat() -> Self
        ensures { result ≡ Data.Heartbeat }
    {
        Data::Heartbeat
    }

    /// The entries of a range.
    pub fn new_logs(request_id: RequestId, log_id_range: LogIdRange<C::NodeId>) -> Self
        ensures { result ≡ Data.Logs (record { request_id = request_id; payload = log_id_range }) }
    {
        Data::Logs(DataWithId::new(request_id, log_id_range))
    }

    /// The snapshot that ends at this log id.
    pub fn new_snapshot(request_id: RequestId, last_log_id: Option<LogId<C::NodeId>>) -> Self
        ensures { result ≡ Data.Snapshot (record { request_id = request_id; payload = last_log_id }) }
    {
        Data::Snapshot(DataWithId::new(request_id, last_log_id))
    }

    /// The outcome of sending the snapshot with this meta, begun at this time (in milliseconds).
    pub fn new_snapshot_callback(
        request_id: RequestId,
        start_time: u64,
        snapshot_meta: SnapshotMeta<C::NodeId, C::Node>,
        outcome: Result<SnapshotResponse<C::NodeId>, String>,
    ) -> Self
        ensures { result ≡ Data.SnapshotCallback (record { request_id = request_id; payload = record { start_time = start_time; snapshot_meta = snapshot_meta; result = outcome } }) }
    {
        let callback = SnapshotCallback {
            start_time,
            snapshot_meta,
            result: outcome,
        };
        Data::SnapshotCallback(DataWithId::new(request_id, callback))
    }

    /// The id of the request that this data is sent under.
    pub fn request_id(&self) -> RequestId
        ensures { result ≡ request_id self.now }
    {
        match self {
            Data::Heartbeat => RequestId::new_heartbeat(),
            Data::Logs(logs) => logs.request_id(),
            Data::Snapshot(snapshot) => snapshot.request_id(),
            Data::SnapshotCallback(callback) => callback.request_id(),
        }
    }

    /// Whether there is more than a heartbeat to send.
    pub fn has_payload(&self) -> bool
        ensures { result ≡ has_payload self.now }
    {
        !matches!(self, Data::Heartbeat)
    }
}

impl<C: RaftTypeConfig> Replicate<C> {
    /// The request to send the entries of a range.
    pub fn logs(id: RequestId, log_id_range: LogIdRange<C::NodeId>) -> Self
        ensures { result ≡ Replicate.Data (Data.Logs (record { request_id = id; payload = log_id_range })) }
    {
        Replicate::Data(Data::new_logs(id, log_id_range))
    }

    /// The request to send the snapshot that ends at this log id.
    pub fn snapshot(id: RequestId, last_log_id: Option<LogId<C::NodeId>>) -> Self
        ensures { result ≡ Replicate.Data (Data.Snapshot (record { request_id = id; payload = last_log_id })) }
    {
        Replicate::Data(Data::new_snapshot(id, last_log_id))
    }

    /// The request to send this.
    pub fn new_data(payload: Data<C>) -> Self
        ensures { result ≡ Replicate.Data payload }
    {
        Replicate::Data(payload)
    }
}

impl<NID> ReplicationResult<NID> {
    /// The result of a request that was sent at this time, in milliseconds.
    pub fn new(sending_time: u64, outcome: Result<Option<LogId<NID>>, LogId<NID>>) -> Self
        ensures { result ≡ record { sending_time = sending_time; result = outcome } }
    {
        ReplicationResult {
            sending_time,
            result: outcome,
        }
    }
}

impl fmt::Display for RequestId {
    ghost use Rattle.std.specs.Prelude.{Some};
    ghost use Rattle.raft_command.specs.Texts.{request_id_text};

    ghost output = { λ id. Some (request_id_text id) };

    fn fmt<W: fmt::Write>(&self, f: &mut fmt::Formatter<W>) -> fmt::Result {
        match *self {
            RequestId::HeartBeat => f.write_str("HeartBeat"),
            RequestId::AppendEntries { id } => write!(f, "AppendEntries({id})"),
            RequestId::Snapshot { id } => write!(f, "Snapshot({id})"),
        }
    }
}

impl<NID: NodeId> fmt::Display for ReplicationSessionId<NID> {
    ghost use Rattle.raft_command.specs.Texts.{session_text};

    ghost output = { session_text NID.output };

    fn fmt<W: fmt::Write>(&self, f: &mut fmt::Formatter<W>) -> fmt::Result {
        let vote = self.vote;
        let membership = DisplayOption(self.membership_log_id);
        write!(f, "{vote}/{membership}")
    }
}

impl<NID: NodeId> fmt::Display for ReplicationResult<NID> {
    ghost use Rattle.raft_command.specs.Texts.{replication_result_text};

    ghost output = { replication_result_text NID.output };

    fn fmt<W: fmt::Write>(&self, f: &mut fmt::Formatter<W>) -> fmt::Result {
        let time = self.sending_time;
        match self.result {
            Ok(matching) => {
                let matching = DisplayOption(matching);
                write!(f, "{{time:{time}, result:Match:{matching}}}")
            }
            Err(conflict) => write!(f, "{{time:{time}, result:Conflict:{conflict}}}"),
        }
    }
}

impl<C: RaftTypeConfig> fmt::Display for SnapshotCallback<C> {
    ghost use Rattle.raft_command.specs.Texts.{callback_text};

    ghost output = { callback_text C.NodeId.output };

    fn fmt<W: fmt::Write>(&self, f: &mut fmt::Formatter<W>) -> fmt::Result {
        let time = self.start_time;
        let meta = &self.snapshot_meta;
        write!(f, "{{time:{time}, meta:{meta}}}")
    }
}

impl<C: RaftTypeConfig> fmt::Display for Data<C> {
    ghost use Rattle.raft_command.specs.Texts.{data_text};

    ghost output = { data_text C.NodeId.output };

    fn fmt<W: fmt::Write>(&self, f: &mut fmt::Formatter<W>) -> fmt::Result {
        match self {
            Data::Heartbeat => f.write_str("Heartbeat"),
            Data::Logs(logs) => {
                let id = logs.request_id;
                let range = logs.payload;
                write!(f, "Logs{{request_id: {id}, log_id_range: {range}}}")
            }
            Data::Snapshot(snapshot) => {
                let id = snapshot.request_id;
                write!(f, "Snapshot{{request_id: {id}}}")
            }
            Data::SnapshotCallback(sent) => {
                let id = sent.request_id;
                let callback = &sent.payload;
                write!(
                    f,
                    "SnapshotCallback{{request_id: {id}, callback: {callback}}}"
                )
            }
        }
    }
}

impl<C: RaftTypeConfig> fmt::Display for Replicate<C> {
    ghost use Rattle.raft_command.specs.Texts.{replicate_text};

    ghost output = { replicate_text C.NodeId.output };

    fn fmt<W: fmt::Write>(&self, f: &mut fmt::Formatter<W>) -> fmt::Result {
        match self {
            Replicate::Committed(id) => {
                let id = DisplayOption(*id);
                write!(f, "Committed({id})")
            }
            Replicate::Heartbeat => f.write_str("Heartbeat"),
            Replicate::Data(payload) => write!(f, "Data({payload})"),
        }
    }
}
