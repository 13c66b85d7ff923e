//! How each command changes the store of its node, its streams and note, the messages and the records.

ghost use Rattle.std.specs.Prelude.{◌≡◌, ◌++◌, IfOk, OnOk, map};
ghost use Rattle.raft_calls.specs.Engines.{view_of};
ghost use Rattle.raft_node.specs.Execute.{Effects, effects, exec, exec_payload, others, to_each, replication, reply_to, replies, exec_committed};
ghost use Rattle.raft_node.specs.Execute.{heartbeat};
ghost use Rattle.raft_calls.specs.Deliveries.{session_of};
ghost use Rattle.raft_calls.specs.Feeds.{last_sent};
ghost use Rattle.raft_command.specs.declared.command.Command.TheVariants.{StateMachine};
ghost use Rattle.raft_store.specs.Entries.{entry_meaning};
ghost use Rattle.raft_store.specs.Mirror.{IsGapless};
ghost use Rattle.raft_store.specs.Ring.{CanStore};
ghost use Rattle.raft_node.specs.Runs.{whole_logs};
ghost use Rattle.raft_node.specs.Safety.{RecordsGrow};

use crate::node::{Running, Streams, Turn};
use crate::record::Records;
use raft_calls::deliver::session_of;
use raft_calls::feed::last_sent;
use raft_calls::message::{Body, Message, Origin};
use raft_command::sm::{self, CommandPayload};
use raft_command::{Command, ReplicationSessionId, RequestId, Respond};
use raft_progress_entry::{Inflight, ProgressEntry};
use raft_state::{Items, LogId, Membership};
use raft_store::{Store, WorldConfig, copy_entries};
use std::alloc::{AllocError, Global};

/// The other nodes of a membership: its voters, then its learners, each ascending.
fn others(alloc: Global, id: u64, membership: &Membership<u64, ()>) -> Result<Vec<u64>, AllocError>
    ensures { IfOk result (λ ids. ids.items ≡ others id membership.now) }
{
    let voters = membership.voter_ids()?;
    let learners = membership.learner_ids()?;
    voters
        .iter()
        .copied()
        .chain(learners.iter().copied())
        .filter(|to| *to != id)
        .collect(alloc)
}

/// Sends one message to each of these.
fn send_to_each(
    alloc: Global,
    id: u64,
    ids: &[u64],
    body: &Body,
    records: &mut Records,
) -> Result<(), AllocError>
    ensures { OnOk result (records.new ≡ record records.old { bag = records.old.bag ++ to_each id ids.now body.now }) }
{
    for to in ids {
        records.send(Message {
            from: id,
            to: *to,
            body: body.copy(alloc)?,
        })?;
    }
    Ok(())
}

fn heartbeat(
    alloc: Global,
    turn: &Turn,
    session_id: &ReplicationSessionId<u64>,
    committed: Option<LogId<u64>>,
) -> Body
    ensures { result ≡ heartbeat turn.now session_id.now committed }
{
    Body::AppendRequest {
        origin: Origin {
            session_id: *session_id,
            request_id: RequestId::HeartBeat,
            sent_at: turn.moment,
        },
        prev_log_id: None,
        entries: Items::new(alloc),
        leader_commit: committed,
    }
}

/// What a target is sent: a range of the stored entries, the stored snapshot, or a heartbeat.
fn replication(
    alloc: Global,
    turn: &Turn,
    session_id: &ReplicationSessionId<u64>,
    store: &Store,
    req: &Inflight<u64>,
) -> Result<Body, AllocError>
    ensures { IfOk result (λ body. body ≡ replication turn.now session_id.now store.now req.now) }
{
    match req {
        Inflight::None => Ok(heartbeat(alloc, turn, session_id, store.saved())),
        Inflight::Logs { id, log_id_range } => Ok(Body::AppendRequest {
            origin: Origin {
                session_id: *session_id,
                request_id: RequestId::AppendEntries { id: *id },
                sent_at: turn.moment,
            },
            prev_log_id: log_id_range.prev,
            entries: Items::from_vec(store.copy_range(&log_id_range.prev, &log_id_range.last)?),
            leader_commit: store.saved(),
        }),
        Inflight::Snapshot { id, .. } => Ok(Body::SnapshotRequest {
            origin: Origin {
                session_id: *session_id,
                request_id: RequestId::Snapshot { id: *id },
                sent_at: turn.moment,
            },
            snapshot: store.copy_snapshot()?,
        }),
    }
}

/// The message for a reply to a request.
fn reply_to(request: &Body, reply: Respond<WorldConfig>) -> Option<Body>
    ensures { result ≡ reply_to request.now reply }
{
    match (request, reply) {
        (Body::VoteRequest(_), Respond::Vote(sender)) => {
            let (_, reply) = sender.send();
            Some(Body::VoteReply(reply))
        }
        (
            Body::AppendRequest {
                origin,
                prev_log_id,
                entries,
                ..
            },
            Respond::AppendEntries(sender),
        ) => {
            let (_, reply) = sender.send();
            Some(Body::AppendReply {
                origin: *origin,
                reply,
                prev_log_id: *prev_log_id,
                upto: last_sent(prev_log_id, entries.as_slice()),
            })
        }
        (Body::SnapshotRequest { origin, snapshot }, Respond::InstallFullSnapshot(sender)) => {
            let (_, reply) = sender.send();
            Some(Body::SnapshotReply {
                origin: *origin,
                reply,
                upto: snapshot.meta.last_log_id,
            })
        }
        _ => None,
    }
}

/// Sends the reply to the sender of the delivered message.
fn reply(turn: &Turn, reply: Respond<WorldConfig>, records: &mut Records) -> Result<(), AllocError>
    ensures { OnOk result (records.new ≡ record records.old { bag = records.old.bag ++ replies turn.now reply }) }
{
    let Some(request) = &turn.request else {
        return Ok(());
    };
    match reply_to(&request.body, reply) {
        Some(body) => records.send(Message {
            from: turn.id,
            to: request.from,
            body,
        }),
        None => Ok(()),
    }
}

/// Sends a leader's committed id to each target.
fn tell_committed(
    alloc: Global,
    turn: &Turn,
    session_id: &ReplicationSessionId<u64>,
    committed: Option<LogId<u64>>,
    targets: &[u64],
    records: &mut Records,
) -> Result<(), AllocError>
    ensures { OnOk result (records.new ≡ record records.old {
      bag = records.old.bag ++ to_each turn.now.id targets.now (heartbeat turn.now session_id.now committed);
    }) }
{
    let body = heartbeat(alloc, turn, session_id, committed);
    send_to_each(alloc, turn.id, targets, &body, records)
}

/// Sends a leader's committed id to each target, and records it as decided.
fn replicate_committed(
    alloc: Global,
    turn: &Turn,
    committed: Option<LogId<u64>>,
    running: &Running,
    store: &Store,
    records: &mut Records,
) -> Result<(), AllocError>
    requires gapless { IsGapless entry_meaning store.now }
    requires grows { RecordsGrow
        (exec_committed whole_logs turn.now committed (effects store.now running.now.streams running.now.noted records.old)).records }
    ensures { OnOk result (effects store.now running.now.streams running.now.noted records.new
        ≡ exec_committed whole_logs turn.now committed (effects store.now running.now.streams running.now.noted records.old)) }
{
    let Some(session_id) = &running.streams.session_id else {
        return Ok(());
    };
    let targets = running.streams.targets.as_slice();
    tell_committed(alloc, turn, session_id, committed, targets, records)?;
    match committed {
        Some(log_id) => records.decide(session_id.vote.leader_id, log_id, store),
        None => Ok(()),
    }
}

fn target_ids(alloc: Global, targets: &[(u64, ProgressEntry<u64>)]) -> Result<Vec<u64>, AllocError>
    ensures { IfOk result (λ ids. ids.items ≡ map (λ x. x.0) targets.now) }
{
    targets.iter().map(|target| target.0).collect(alloc)
}

/// Executes a command to the state machine.
fn execute_payload(
    turn: &Turn,
    command: sm::Command<WorldConfig>,
    running: &mut Running,
    store: &mut Store,
    records: &mut Records,
) -> Result<(), AllocError>
    ensures engine { running.new.engine ≡ running.old.engine }
    ensures effects { OnOk result (effects store.new running.new.streams running.new.noted records.new
        ≡ exec_payload whole_logs turn.now (StateMachine command) command.payload
        (effects store.old running.old.streams running.old.noted records.old)) }
{
    match &command.payload {
        CommandPayload::BuildSnapshot => {
            running.noted = Some(Items::from_vec(store.copy_applied()?));
            Ok(())
        }
        CommandPayload::InstallFullSnapshot { snapshot } => {
            let entries = copy_entries(store.allocator(), snapshot.snapshot.as_slice())?;
            records.install(turn.id, Items::from_vec(entries))?;
            store.execute(Command::StateMachine { command })
        }
        _ => Ok(()),
    }
}

/// Executes a command at the node of this turn, which runs on this store.
pub fn execute(
    turn: &Turn,
    command: Command<WorldConfig>,
    running: &mut Running,
    store: &mut Store,
    records: &mut Records,
) -> Result<(), AllocError>
    requires gapless { IsGapless entry_meaning store.old }
    requires grows { RecordsGrow (exec whole_logs turn.now (view_of running.old.engine) command
        (effects store.old running.old.streams running.old.noted records.old)).records }
    requires fits { CanStore command store.old }
    ensures engine { running.new.engine ≡ running.old.engine }
    ensures effects { OnOk result (effects store.new running.new.streams running.new.noted records.new
        ≡ exec whole_logs turn.now (view_of running.old.engine) command
        (effects store.old running.old.streams running.old.noted records.old)) }
{
    let alloc = store.allocator();
    match command {
        Command::Commit { upto, .. } => {
            records.execute(turn.id, store.copy_due(&upto)?)?;
            store.execute(command)
        }
        Command::StateMachine { command } => {
            execute_payload(turn, command, running, store, records)
        }
        Command::SendVote { vote_req } => {
            let ids = others(alloc, turn.id, &running.engine.state.em.membership)?;
            send_to_each(alloc, turn.id, &ids, &Body::VoteRequest(vote_req), records)
        }
        Command::RebuildReplicationStreams { targets } => {
            running.streams = Streams {
                targets: Items::from_vec(target_ids(alloc, targets.as_slice())?),
                session_id: session_of(&running.engine),
            };
            Ok(())
        }
        Command::Replicate { target, req } => {
            let Some(session_id) = &running.streams.session_id else {
                return Ok(());
            };
            let body = replication(alloc, turn, session_id, store, &req)?;
            records.send(Message {
                from: turn.id,
                to: target,
                body,
            })
        }
        Command::ReplicateCommitted { committed } => {
            replicate_committed(alloc, turn, committed, running, store, records)
        }
        Command::Respond { resp, .. } => reply(turn, resp, records),
        Command::BecomeLeader => { records.establish(running.engine.state.vote.leader_id, store) }
        Command::QuitLeader => {
            running.streams = Streams::none(alloc);
            Ok(())
        }
        command => store.execute(command),
    }
}
