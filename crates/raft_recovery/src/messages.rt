//! Messages by their numbers.

ghost use Rattle.std.specs.Prelude.{ℕ, ◌≡◌, Option};
ghost use Rattle.raft_state.specs.declared.ids.LogId.{LogId};
ghost use Rattle.raft_progress_entry.specs.declared.entry.Inflight.TheVariants.{Logs, Snapshot};
ghost use Rattle.raft_calls.specs.Deliveries.{same_session};
ghost use Rattle.proof_progress.specs.Plans.{asks_vote, carries, is_append, is_install, number_of, tells};
ghost use Rattle.raft_recovery.specs.Ways.{has_contents, is_sought};

use raft_calls::feed::last_sent;
use raft_command::{ReplicationSessionId, RequestId};
use raft_progress_entry::{Inflight, LogIdRange};
use raft_state::{LogId, Vote};
use raft_world::{Body, Message, World};

/// What a message is to contain.
#[derive(Clone, Copy)]
pub(crate) enum Contents {
    /// A candidate's request for a vote, with the last id of its log.
    VoteRequest {
        vote: Vote<u64>,
        last: Option<LogId<u64>>,
    },
    /// What is in flight in a leader's session.
    Inflight {
        session_id: ReplicationSessionId<u64>,
        inflight: Inflight<u64>,
    },
    /// A leader's committed id, without entries.
    Committed {
        vote: Vote<u64>,
        committed: Option<LogId<u64>>,
    },
}

/// A message that is sought, from a node to another.
#[derive(Clone, Copy)]
pub(crate) struct Sought {
    pub from: u64,
    pub to: u64,
    pub contents: Contents,
}

/// Whether two sessions are the same: the leader's vote, and the membership's id.
fn is_same_session(one: &ReplicationSessionId<u64>, other: &ReplicationSessionId<u64>) -> bool
    ensures { result ≡ same_session one.now other.now }
{
    one.vote == other.vote && one.membership_log_id == other.membership_log_id
}

/// Whether a request for entries has this number.
fn is_append(number: u64, request_id: RequestId) -> bool
    ensures { result ≡ is_append number request_id }
{
    match request_id {
        RequestId::AppendEntries { id } => id == number,
        _ => false,
    }
}

/// Whether a request with a snapshot has this number.
fn is_install(number: u64, request_id: RequestId) -> bool
    ensures { result ≡ is_install number request_id }
{
    match request_id {
        RequestId::Snapshot { id } => id == number,
        _ => false,
    }
}

/// Whether a body asks for a vote.
fn asks_vote(vote: &Vote<u64>, last: &Option<LogId<u64>>, body: &Body) -> bool
    ensures { result ≡ asks_vote vote.now last.now body.now }
{
    match body {
        Body::VoteRequest(request) => request.vote == *vote && request.last_log_id == *last,
        _ => false,
    }
}

/// Whether a body carries entries that are in flight in a session, under this number.
fn carries_entries(
    session_id: &ReplicationSessionId<u64>,
    number: u64,
    range: &LogIdRange<u64>,
    body: &Body,
) -> bool
    ensures { result ≡ carries session_id.now (Logs number range.now) body.now }
{
    match body {
        Body::AppendRequest {
            origin,
            prev_log_id,
            entries,
            ..
        } => {
            (is_same_session(&origin.session_id, session_id)
                && is_append(number, origin.request_id))
                && (*prev_log_id == range.prev
                    && last_sent(prev_log_id, entries.as_slice()) == range.last)
        }
        _ => false,
    }
}

/// Whether a body carries a snapshot that is in flight in a session, under this number.
fn carries_snapshot(session_id: &ReplicationSessionId<u64>, number: u64, body: &Body) -> bool
    ensures { (last : Option (LogId ℕ)) → result ≡ carries session_id.now (Snapshot number last) body.now }
{
    match body {
        Body::SnapshotRequest { origin, .. } => {
            is_same_session(&origin.session_id, session_id) && is_install(number, origin.request_id)
        }
        _ => false,
    }
}

/// Whether a body carries what is in flight in a session.
fn carries(session_id: &ReplicationSessionId<u64>, inflight: &Inflight<u64>, body: &Body) -> bool
    ensures { result ≡ carries session_id.now inflight.now body.now }
{
    match inflight {
        Inflight::None => false,
        Inflight::Logs { id, log_id_range } => carries_entries(session_id, *id, log_id_range, body),
        Inflight::Snapshot { id, .. } => carries_snapshot(session_id, *id, body),
    }
}

/// Whether a body tells under a vote, without entries, what is committed.
fn tells(vote: &Vote<u64>, committed: &Option<LogId<u64>>, body: &Body) -> bool
    ensures { result ≡ tells vote.now committed.now body.now }
{
    match body {
        Body::AppendRequest {
            origin,
            prev_log_id,
            entries,
            leader_commit,
        } => {
            (origin.session_id.vote == *vote && prev_log_id.is_none())
                && (entries.as_slice().is_empty() && *leader_commit == *committed)
        }
        _ => false,
    }
}

impl Contents {
    /// Whether a body has these contents.
    fn is_in(&self, body: &Body) -> bool
        ensures { result ≡ has_contents self.now body.now }
    {
        match self {
            Contents::VoteRequest { vote, last } => asks_vote(vote, last, body),
            Contents::Inflight {
                session_id,
                inflight,
            } => carries(session_id, inflight, body),
            Contents::Committed { vote, committed } => tells(vote, committed, body),
        }
    }
}

impl Sought {
    /// Whether this message is sought.
    fn is(&self, message: &Message) -> bool
        ensures { result ≡ is_sought self.now message.now }
    {
        message.from == self.from && message.to == self.to && self.contents.is_in(&message.body)
    }
}

/// The number of the first of these messages that is sought: they are counted from 1.
fn first_sought(messages: &[Message], sought: &Sought) -> Option<u64>
    ensures { result ≡ number_of (is_sought sought.now) messages.now }
{
    let mut number = 0u64;
    for message in messages {
        number += 1;
        if sought.is(message) {
            return Some(number);
        }
    }
    None
}

/// The same of a world's messages.
pub(crate) fn number_of(world: &World, sought: &Sought) -> Option<u64>
    ensures { result ≡ number_of (is_sought sought.now) world.now.history.net.records.bag }
{
    first_sought(world.messages(), sought)
}
