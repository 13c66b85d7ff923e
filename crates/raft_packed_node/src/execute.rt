//! How each command changes the store of its node, its streams and note, the messages and the records.

ghost use Rattle.std.specs.Prelude.{◌≡◌, ◌++◌, [], ◌∷◌, IfOk, OnOk, Some, map};
ghost use Rattle.raft_calls.specs.Deliveries.{session_of};
ghost use Rattle.raft_calls.specs.Engines.{view_of};
ghost use Rattle.raft_calls.specs.Feeds.{last_sent};
ghost use Rattle.raft_command.specs.declared.command.Command.TheVariants.{StateMachine};
ghost use Rattle.raft_node.specs.Execute.{heartbeat, origin, others, replies, reply_to};
ghost use Rattle.proof_packed.specs.Nodes.{node_exec, node_exec_payload, of_no_entries, packed_replication, packed_to_each, plain_message};
ghost use Rattle.proof_packed.specs.Stores.{packed_due};
ghost use Rattle.raft_packed_node.specs.Effects.{brought_by, effects, replicated_committed};

use crate::message::{PackedMessage, PackedTurn};
use crate::node::Running;
use crate::outbox::Outbox;
use raft_calls::deliver::session_of;
use raft_calls::feed::last_sent;
use raft_calls::message::{Body, Message, Origin};
use raft_command::sm::{self, CommandPayload};
use raft_command::{Command, ReplicationSessionId, RequestId, Respond, Snapshot};
use raft_node::node::{Streams, Turn};
use raft_packed::{Machine, Packed, PackedError, PackedStore};
use raft_progress_entry::{Inflight, ProgressEntry};
use raft_state::{Items, LeaderId, LogId, Membership};
use raft_store::{Entry, WorldConfig};
use std::alloc::{AllocError, Global};

/// The other nodes of a membership: its voters, then its learners, each ascending.
fn others(alloc: Global, id: u64, membership: &Membership<u64, ()>) -> Result<Vec<u64>, AllocError>
    ensures { IfOk result (λ ids. ids.items ≡ others id membership.now) }
{
    let voters = membership.voter_ids()?;
    let learners = membership.learner_ids()?;
    voters
        .iter()
        .copied()
        .chain(learners.iter().copied())
        .filter(|to| *to != id)
        .collect(alloc)
}

/// Sends one message to each of these.
fn send_to_each<M: Machine>(
    alloc: Global,
    id: u64,
    ids: &[u64],
    body: &Body,
    records: &mut Outbox<M>,
) -> Result<(), AllocError>
    ensures { OnOk result (records.new ≡ record records.old {
      bag = records.old.bag ++ packed_to_each M.application id ids.now (record { 0 = body.now; 1 = of_no_entries M.application });
    }) }
{
    for to in ids {
        records.send(PackedMessage::plain(Message {
            from: id,
            to: *to,
            body: body.copy(alloc)?,
        }))?;
    }
    Ok(())
}

/// A request of a session that is sent at this turn.
fn origin(turn: &Turn, session_id: &ReplicationSessionId<u64>, request_id: RequestId) -> Origin
    ensures { result ≡ origin turn.now session_id.now request_id }
{
    Origin {
        session_id: *session_id,
        request_id,
        sent_at: turn.moment,
    }
}

fn heartbeat(
    alloc: Global,
    turn: &Turn,
    session_id: &ReplicationSessionId<u64>,
    committed: Option<LogId<u64>>,
) -> Body
    ensures { result ≡ heartbeat turn.now session_id.now committed }
{
    Body::AppendRequest {
        origin: origin(turn, session_id, RequestId::HeartBeat),
        prev_log_id: None,
        entries: Items::new(alloc),
        leader_commit: committed,
    }
}

/// What a target is sent: a range of the stored entries, the stored snapshot, or a heartbeat.
fn replication<M: Machine>(
    turn: &Turn,
    session_id: &ReplicationSessionId<u64>,
    store: &mut PackedStore<M>,
    req: &Inflight<u64>,
) -> Result<(Body, Option<Packed<M>>), AllocError>
    ensures body { IfOk result (λ sent. sent.0 ≡ (packed_replication M.application turn.now session_id.now store.old.store req.now).0) }
    ensures brought { IfOk result (λ sent. brought_by M.application sent.1
        ≡ (packed_replication M.application turn.now session_id.now store.old.store req.now).1) }
    ensures store { OnOk result (store.new ≡ store.old) }
{
    let alloc = store.allocator();
    match req {
        Inflight::None => Ok((heartbeat(alloc, turn, session_id, store.saved()), None)),
        Inflight::Logs { id, log_id_range } => {
            let entries = store.copy_range(&log_id_range.prev, &log_id_range.last)?;
            let body = Body::AppendRequest {
                origin: origin(turn, session_id, RequestId::AppendEntries { id: *id }),
                prev_log_id: log_id_range.prev,
                entries: Items::from_vec(entries),
                leader_commit: store.saved(),
            };
            Ok((body, None))
        }
        Inflight::Snapshot { id, .. } => {
            let snapshot = Snapshot {
                meta: store.meta().copy()?,
                snapshot: Items::new(alloc),
            };
            let body = Body::SnapshotRequest {
                origin: origin(turn, session_id, RequestId::Snapshot { id: *id }),
                snapshot,
            };
            Ok((body, Some(store.share_snapshot()?)))
        }
    }
}

/// Sends a target what is in flight to it.
fn replicate<M: Machine>(
    turn: &Turn,
    session_id: &ReplicationSessionId<u64>,
    store: &mut PackedStore<M>,
    target: u64,
    req: &Inflight<u64>,
    records: &mut Outbox<M>,
) -> Result<(), AllocError>
    ensures records { OnOk result (records.new ≡ record records.old {
      bag = records.old.bag
          ++ packed_to_each M.application turn.now.id (target ∷ [])
          (packed_replication M.application turn.now session_id.now store.old.store req.now);
    }) }
    ensures store { OnOk result (store.new ≡ store.old) }
{
    let (body, snapshot) = replication(turn, session_id, store, req)?;
    let message = Message {
        from: turn.id,
        to: target,
        body,
    };
    records.send(PackedMessage { message, snapshot })
}

/// The message for a reply to a request.
fn reply_to(request: &Body, reply: Respond<WorldConfig>) -> Option<Body>
    ensures { result ≡ reply_to request.now reply }
{
    match (request, reply) {
        (Body::VoteRequest(_), Respond::Vote(sender)) => {
            let (_, reply) = sender.send();
            Some(Body::VoteReply(reply))
        }
        (
            Body::AppendRequest {
                origin,
                prev_log_id,
                entries,
                ..
            },
            Respond::AppendEntries(sender),
        ) => {
            let (_, reply) = sender.send();
            Some(Body::AppendReply {
                origin: *origin,
                reply,
                prev_log_id: *prev_log_id,
                upto: last_sent(prev_log_id, entries.as_slice()),
            })
        }
        (Body::SnapshotRequest { origin, snapshot }, Respond::InstallFullSnapshot(sender)) => {
            let (_, reply) = sender.send();
            Some(Body::SnapshotReply {
                origin: *origin,
                reply,
                upto: snapshot.meta.last_log_id,
            })
        }
        _ => None,
    }
}

/// Sends the reply to the sender of the delivered message.
fn reply<M: Machine>(
    turn: &Turn,
    reply: Respond<WorldConfig>,
    records: &mut Outbox<M>,
) -> Result<(), AllocError>
    ensures { OnOk result (records.new ≡ record records.old {
      bag = records.old.bag ++ map (plain_message M.application) (replies turn.now reply);
    }) }
{
    let Some(request) = &turn.request else {
        return Ok(());
    };
    match reply_to(&request.body, reply) {
        Some(body) => records.send(PackedMessage::plain(Message {
            from: turn.id,
            to: request.from,
            body,
        })),
        None => Ok(()),
    }
}

/// Sends a leader's committed id to each target, and records it as decided.
fn replicate_committed<M: Machine>(
    alloc: Global,
    turn: &Turn,
    session_id: &ReplicationSessionId<u64>,
    targets: &[u64],
    committed: Option<LogId<u64>>,
    records: &mut Outbox<M>,
) -> Result<(), AllocError>
    ensures { OnOk result (records.new
        ≡ replicated_committed M.application turn.now session_id.now targets.now committed records.old) }
{
    let body = heartbeat(alloc, turn, session_id, committed);
    send_to_each(alloc, turn.id, targets, &body, records)?;
    match committed {
        Some(log_id) => records.decide(session_id.vote.leader_id, log_id),
        None => Ok(()),
    }
}

fn target_ids(alloc: Global, targets: &[(u64, ProgressEntry<u64>)]) -> Result<Vec<u64>, AllocError>
    ensures { IfOk result (λ ids. ids.items ≡ map (λ x. x.0) targets.now) }
{
    targets.iter().map(|target| target.0).collect(alloc)
}

/// Copies of the entries that a commit up to an id applies.
fn copy_due<M: Machine>(store: &PackedStore<M>, upto: &LogId<u64>) -> Result<Vec<Entry>, AllocError>
    ensures { IfOk result (λ due. due.items ≡ packed_due store.now.store upto.now) }
{
    let end = store.applied().end();
    if end == 0 {
        return store.copy_range(&None, &Some(*upto));
    }
    // the id before them counts by its index alone
    let last = LogId {
        leader_id: LeaderId::default(),
        index: end - 1,
    };
    store.copy_range(&Some(last), &Some(*upto))
}

/// Executes a command to the state machine.
fn execute_payload<M: Machine>(
    turn: &PackedTurn<M>,
    command: sm::Command<WorldConfig>,
    running: &mut Running,
    store: &mut PackedStore<M>,
    records: &mut Outbox<M>,
) -> Result<(), PackedError>
    ensures engine { running.new.engine ≡ running.old.engine }
    ensures effects { OnOk result (effects store.new.store running.new.streams store.new.noted records.new
        ≡ node_exec_payload M.application turn.now.turn turn.now.brought (StateMachine command) command.payload
        (effects store.old.store running.old.streams store.old.noted records.old)) }
{
    match &command.payload {
        CommandPayload::BuildSnapshot => Ok(store.note()?),
        CommandPayload::InstallFullSnapshot { .. } => {
            records.install(turn.turn.id, &turn.brought)?;
            store.execute(Command::StateMachine { command }, &turn.brought)
        }
        _ => Ok(()),
    }
}

/// Executes a command at the node of this turn, which runs on this store.
pub(crate) fn execute<M: Machine>(
    turn: &PackedTurn<M>,
    command: Command<WorldConfig>,
    running: &mut Running,
    store: &mut PackedStore<M>,
    records: &mut Outbox<M>,
) -> Result<(), PackedError>
    ensures engine { running.new.engine ≡ running.old.engine }
    ensures effects { OnOk result (effects store.new.store running.new.streams store.new.noted records.new
        ≡ node_exec M.application turn.now.turn turn.now.brought (view_of running.old.engine) command
        (effects store.old.store running.old.streams store.old.noted records.old)) }
{
    let alloc = store.allocator();
    let PackedTurn { turn: now, brought } = turn;
    match command {
        Command::Commit { upto, .. } => {
            records.execute(now.id, copy_due(store, &upto)?)?;
            store.execute(command, brought)
        }
        Command::StateMachine { command } => {
            execute_payload(turn, command, running, store, records)
        }
        Command::SendVote { vote_req } => {
            let ids = others(alloc, now.id, &running.engine.state.em.membership)?;
            Ok(send_to_each(alloc, now.id, &ids, &Body::VoteRequest(vote_req), records)?)
        }
        Command::RebuildReplicationStreams { targets } => {
            running.streams = Streams {
                targets: Items::from_vec(target_ids(alloc, targets.as_slice())?),
                session_id: session_of(&running.engine),
            };
            Ok(())
        }
        Command::Replicate { target, req } => {
            let Some(session_id) = &running.streams.session_id else {
                return Ok(());
            };
            Ok(replicate(now, session_id, store, target, &req, records)?)
        }
        Command::ReplicateCommitted { committed } => {
            let Some(session_id) = &running.streams.session_id else {
                return Ok(());
            };
            let targets = running.streams.targets.as_slice();
            Ok(replicate_committed(alloc, now, session_id, targets, committed, records)?)
        }
        Command::Respond { resp, .. } => Ok(reply(now, resp, records)?),
        Command::BecomeLeader => { Ok(records.establish(running.engine.state.vote.leader_id)?) }
        Command::QuitLeader => {
            running.streams = Streams::none(alloc);
            Ok(())
        }
        command => store.execute(command, brought),
    }
}
