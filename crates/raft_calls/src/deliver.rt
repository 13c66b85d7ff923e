//! How a node's engine handles a message.

ghost use Rattle.std.specs.Prelude.{◌≡◌, IfOk, OnOk};
ghost use Rattle.std.specs.Ordering.{nat_cmp};
ghost use Rattle.raft_command.specs.Push.{with_command};
ghost use Rattle.raft_steps.specs.Conditions.{IsFollowing};
ghost use Rattle.raft_engine.specs.Whole.{parts};
ghost use Rattle.raft_calls.specs.Engines.{view_of};
ghost use Rattle.raft_calls.specs.Deliveries.{deliver, session_of, take_append, take_append_reply, take_commit, take_higher_vote, take_result};
ghost use Rattle.raft_calls.specs.Deliveries.{take_snapshot, take_snapshot_reply, take_vote_reply, take_vote_request, vote_reply, leads_in};
ghost use Rattle.raft_calls.specs.Deliveries.{same_session, skip_delivery, skip_reply};
ghost use Rattle.raft_calls.specs.Held.{IsReady, IsResting};

use crate::message::{Body, Origin, copy_snapshot};
use crate::refusal::refusal_of;
use raft_command::{
    AppendEntriesResponse, Command, EngineOutput, ReplicationResult, ReplicationSessionId, Respond,
    Snapshot, SnapshotResponse, Token, VoteRequest, VoteResponse,
};
use raft_engine::Engine;
use raft_error::EngineError;
use raft_schedule::event::SkipReason;
use raft_state::{LogId, Vote};
use raft_store::{Entry, WorldConfig, copy_entries};
use std::alloc::{AllocError, Global};

/// The reply goes to the sender of the delivered message, so the token means nothing.
const REPLY_TOKEN: Token = Token(0);

/// The session of an engine's leader under its effective membership.
pub fn session_of(engine: &Engine<WorldConfig>) -> Option<ReplicationSessionId<u64>>
    ensures { result ≡ session_of (view_of engine.now) }
{
    match &engine.leader {
        None => None,
        Some(leader) => Some(ReplicationSessionId {
            vote: leader.vote,
            membership_log_id: engine.state.em.log_id,
        }),
    }
}

/// Whether two sessions are the same: the leader's vote, and the membership's id.
fn same_session(one: &ReplicationSessionId<u64>, other: &ReplicationSessionId<u64>) -> bool
    ensures { result ≡ same_session one.now other.now }
{
    one.vote == other.vote && one.membership_log_id == other.membership_log_id
}

/// Whether the node leads in this session.
fn leads_in(session_id: &ReplicationSessionId<u64>, engine: &Engine<WorldConfig>) -> bool
    ensures { result ≡ leads_in session_id.now (view_of engine.now) }
{
    match session_of(engine) {
        Some(own) => same_session(&own, session_id),
        None => false,
    }
}

/// Skips a reply to a replication request unless the node leads in the session of that request.
fn skip_reply(origin: &Origin, engine: &Engine<WorldConfig>) -> Option<SkipReason>
    ensures { result ≡ skip_reply origin.now (view_of engine.now) }
{
    if leads_in(&origin.session_id, engine) {
        None
    } else {
        Some(SkipReason::StaleSession)
    }
}

/// Skips a message that the node doesn't handle now; a request never.
pub fn skip_delivery(body: &Body, engine: &Engine<WorldConfig>) -> Option<SkipReason>
    ensures { result ≡ skip_delivery body.now (view_of engine.now) }
{
    match body {
        Body::AppendReply { origin, .. } => skip_reply(origin, engine),
        Body::SnapshotReply { origin, .. } => skip_reply(origin, engine),
        _ => None,
    }
}

/// Queues the reply to a vote request.
fn queue_vote_reply(
    reply: VoteResponse<u64>,
    output: &mut EngineOutput<WorldConfig>,
) -> Result<(), AllocError>
    ensures { OnOk result (output.new ≡ with_command output.old (vote_reply reply)) }
{
    let respond = Command::Respond {
        when: None,
        resp: Respond::new_vote(reply, REPLY_TOKEN),
    };
    output.try_push(respond)
}

/// Handles a vote request, and queues the reply after its commands.
fn take_vote_request(
    request: VoteRequest<u64>,
    moment: u64,
    engine: &mut Engine<WorldConfig>,
) -> Result<Option<u8>, AllocError>
    requires resting { IsResting (view_of engine.old) }
    ensures { IfOk result (λ refusal. record { 0 = refusal; 1 = view_of engine.new } ≡ take_vote_request request moment (view_of engine.old)) }
{
    match engine.handle_vote_req(request, moment) {
        Ok(reply) => {
            queue_vote_reply(reply, &mut engine.output)?;
            Ok(None)
        }
        Err(EngineError::OutOfMemory) => Err(AllocError),
        Err(refusal) => Ok(Some(refusal.number())),
    }
}

/// Handles a reply to the candidate's vote request.
fn take_vote_reply(
    from: u64,
    reply: VoteResponse<u64>,
    moment: u64,
    engine: &mut Engine<WorldConfig>,
) -> Result<Option<u8>, AllocError>
    requires resting { IsResting (view_of engine.old) }
    ensures { IfOk result (λ refusal. record { 0 = refusal; 1 = view_of engine.new } ≡ take_vote_reply from reply moment (view_of engine.old)) }
{
    refusal_of(engine.handle_vote_resp(from, reply, moment))
}

/// Commits a leader's committed id, at a node that follows it.
fn take_commit(
    committed: Option<LogId<u64>>,
    engine: &mut Engine<WorldConfig>,
) -> Result<Option<u8>, AllocError>
    requires following { IsFollowing nat_cmp (parts engine.old) }
    requires ready { IsReady (view_of engine.old) }
    ensures { IfOk result (λ refusal. record { 0 = refusal; 1 = view_of engine.new } ≡ take_commit committed (view_of engine.old)) }
{
    refusal_of(engine.handle_commit_entries(committed))
}

/// Handles an append request: the entries, and then, if they were appended, the leader's committed id.
fn take_append(
    vote: &Vote<u64>,
    prev: Option<LogId<u64>>,
    entries: Vec<Entry>,
    committed: Option<LogId<u64>>,
    moment: u64,
    engine: &mut Engine<WorldConfig>,
) -> Result<Option<u8>, AllocError>
    requires resting { IsResting (view_of engine.old) }
    ensures { IfOk result (λ refusal. record { 0 = refusal; 1 = view_of engine.new }
        ≡ take_append vote.now prev entries.items committed moment (view_of engine.old)) }
{
    match engine.handle_append_entries(vote, prev, entries, Some(REPLY_TOKEN), moment) {
        Ok(true) => take_commit(committed, engine),
        Ok(false) => Ok(None),
        Err(EngineError::OutOfMemory) => Err(AllocError),
        Err(refusal) => Ok(Some(refusal.number())),
    }
}

/// Adopts a higher vote without its mark, since it isn't its leader who tells it.
fn take_higher_vote(
    vote: Vote<u64>,
    moment: u64,
    engine: &mut Engine<WorldConfig>,
) -> Result<Option<u8>, AllocError>
    requires { IsResting (view_of engine.old) }
    ensures { IfOk result (λ refusal. record { 0 = refusal; 1 = view_of engine.new } ≡ take_higher_vote vote moment (view_of engine.old)) }
{
    let vote = Vote {
        committed: false,
        ..vote
    };
    refusal_of(engine.update_vote(&vote, moment))
}

/// Tells the leader up to where the logs match, or an id that conflicts.
#[tactic(auto, unfolding(raft_steps::specs::Replies::update_progress))]
fn take_result(
    from: u64,
    origin: &Origin,
    answer: Result<Option<LogId<u64>>, LogId<u64>>,
    engine: &mut Engine<WorldConfig>,
) -> Result<Option<u8>, AllocError>
    requires { IsResting (view_of engine.old) }
    ensures { IfOk result (λ refusal. record { 0 = refusal; 1 = view_of engine.new } ≡ take_result from origin.now answer (view_of engine.old)) }
{
    let result = ReplicationResult {
        sending_time: origin.sent_at,
        result: answer,
    };
    refusal_of(engine.update_progress(from, origin.request_id, Ok(result)))
}

/// Handles a target's reply to an append request: a higher vote is adopted, and anything else is told the leader. A
/// conflict names the request's previous id.
fn take_append_reply(
    from: u64,
    origin: &Origin,
    reply: &AppendEntriesResponse<u64>,
    prev: Option<LogId<u64>>,
    upto: Option<LogId<u64>>,
    moment: u64,
    engine: &mut Engine<WorldConfig>,
) -> Result<Option<u8>, AllocError>
    requires { IsResting (view_of engine.old) }
    ensures { IfOk result (λ refusal. record { 0 = refusal; 1 = view_of engine.new }
        ≡ take_append_reply from origin.now reply.now prev upto moment (view_of engine.old)) }
{
    match reply {
        AppendEntriesResponse::Success => take_result(from, origin, Ok(upto), engine),
        AppendEntriesResponse::PartialSuccess(matching) => {
            take_result(from, origin, Ok(*matching), engine)
        }
        AppendEntriesResponse::Conflict => match prev {
            Some(conflict) => take_result(from, origin, Err(conflict), engine),
            None => Ok(None),
        },
        AppendEntriesResponse::HigherVote(vote) => take_higher_vote(*vote, moment, engine),
    }
}

/// Handles a leader's snapshot.
fn take_snapshot(
    vote: Vote<u64>,
    snapshot: Snapshot<WorldConfig>,
    moment: u64,
    engine: &mut Engine<WorldConfig>,
) -> Result<Option<u8>, AllocError>
    requires resting { IsResting (view_of engine.old) }
    ensures { IfOk result (λ refusal. record { 0 = refusal; 1 = view_of engine.new } ≡ take_snapshot vote snapshot moment (view_of engine.old)) }
{
    refusal_of(engine.handle_install_full_snapshot(vote, snapshot, REPLY_TOKEN, moment))
}

/// Handles a target's reply to a snapshot: a vote above the request's is adopted, else the target has what the snapshot
/// holds.
fn take_snapshot_reply(
    from: u64,
    origin: &Origin,
    reply: &SnapshotResponse<u64>,
    upto: Option<LogId<u64>>,
    moment: u64,
    engine: &mut Engine<WorldConfig>,
) -> Result<Option<u8>, AllocError>
    requires { IsResting (view_of engine.old) }
    ensures { IfOk result (λ refusal. record { 0 = refusal; 1 = view_of engine.new }
        ≡ take_snapshot_reply from origin.now reply.now upto moment (view_of engine.old)) }
{
    if reply.vote > origin.session_id.vote {
        take_higher_vote(reply.vote, moment, engine)
    } else {
        take_result(from, origin, Ok(upto), engine)
    }
}

/// Handles a message from a node, and returns the number of the refusal, if any.
pub fn deliver(
    alloc: Global,
    from: u64,
    body: &Body,
    moment: u64,
    engine: &mut Engine<WorldConfig>,
) -> Result<Option<u8>, AllocError>
    requires resting { IsResting (view_of engine.old) }
    ensures { IfOk result (λ refusal. record { 0 = refusal; 1 = view_of engine.new } ≡ deliver from body.now moment (view_of engine.old)) }
{
    match body {
        Body::VoteRequest(request) => take_vote_request(*request, moment, engine),
        Body::VoteReply(reply) => take_vote_reply(from, *reply, moment, engine),
        Body::AppendRequest {
            origin,
            prev_log_id,
            entries,
            leader_commit,
        } => {
            let entries = copy_entries(alloc, entries.as_slice())?;
            let vote = origin.session_id.vote;
            take_append(&vote, *prev_log_id, entries, *leader_commit, moment, engine)
        }
        Body::AppendReply {
            origin,
            reply,
            prev_log_id,
            upto,
        } => take_append_reply(from, origin, reply, *prev_log_id, *upto, moment, engine),
        Body::SnapshotRequest { origin, snapshot } => {
            let snapshot = copy_snapshot(alloc, snapshot)?;
            take_snapshot(origin.session_id.vote, snapshot, moment, engine)
        }
        Body::SnapshotReply {
            origin,
            reply,
            upto,
        } => take_snapshot_reply(from, origin, reply, *upto, moment, engine),
    }
}
