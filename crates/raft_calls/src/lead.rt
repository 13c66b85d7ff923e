//! The events of a leader: proposals, heartbeats, requests that fail, reads, and stepping down.

ghost use Rattle.std.specs.Prelude.{◌≡◌, [], ◌∷◌, map, IfOk, IfSome, IsSome, None, Err};
ghost use Rattle.std.specs.Ordering.{nat_cmp};
ghost use Rattle.raft_steps.specs.Conditions.{MayPropose};
ghost use Rattle.raft_steps.specs.Parts.{led_in};
ghost use Rattle.raft_engine.specs.Whole.{parts};
ghost use Rattle.raft_store.specs.Entries.{entry_meaning};
ghost use Rattle.raft_calls.specs.Engines.{view_of};
ghost use Rattle.raft_calls.specs.Held.{IsResting};
ghost use Rattle.raft_calls.specs.LeaderCalls.{entries_proposed, entry_proposed, failed, heartbeats_sent, inflight_to, proposed, read_answer};
ghost use Rattle.raft_calls.specs.LeaderCalls.{read_refusal, request_of, skip_fail, skip_propose, skip_step_down, stepped_down, value_entry};

use crate::refusal::refusal_of;
use raft_command::RequestId;
use raft_engine::Engine;
use raft_progress_entry::Inflight;
use raft_schedule::event::SkipReason;
use raft_state::{LeaderId, LogId};
use raft_store::{Entry, Payload, Value, WorldConfig};
use std::alloc::{AllocError, Global};

/// A read's first part has been answered: the leader that answered it, and the id up to which the node must have applied
/// before it answers the read itself.
#[derive(Clone, Copy, PartialEq, Eq, Debug)]
pub struct Answer {
    pub node: u64,
    pub leader_id: LeaderId<u64>,
    pub log_id: Option<LogId<u64>>,
}

/// Skips a proposal to a leader whose vote isn't the node's vote any more. At a node that doesn't lead it is refused instead.
pub fn skip_propose(engine: &Engine<WorldConfig>) -> Option<SkipReason>
    ensures { result ≡ skip_propose (view_of engine.now) }
{
    match &engine.leader {
        Some(leader) if leader.vote != engine.state.vote => Some(SkipReason::NotOwnVote),
        _ => None,
    }
}

/// An entry with a value; the leader gives it its id.
fn value_entry(value: Value) -> Entry
    ensures { result ≡ value_entry value }
{
    Entry {
        log_id: LogId::default(),
        payload: Payload::Value(value),
    }
}

/// An entry for each value, in order.
fn value_entries(alloc: Global, values: &[Value]) -> Result<Vec<Entry>, AllocError>
    ensures { IfOk result (λ entries. entries.items ≡ map value_entry values.now) }
{
    let mut entries = Vec::with_capacity(alloc, values.len())?;
    for value in values {
        entries.push(value_entry(value.copy()?))?;
    }
    Ok(entries)
}

/// Has the leader append entries. Returns the number of the refusal, if any.
fn propose_entries(
    entries: Vec<Entry>,
    engine: &mut Engine<WorldConfig>,
) -> Result<Option<u8>, AllocError>
    requires resting { IsResting (view_of engine.old) }
    requires may { IfSome (led_in (parts engine.old)) (λ l. MayPropose nat_cmp entry_meaning l entries.items) }
    ensures { IfOk result (λ refusal. record { 0 = refusal; 1 = view_of engine.new } ≡ entries_proposed entries.items (view_of engine.old)) }
{
    refusal_of(engine.propose(entries))
}

/// Has the leader append an entry. Returns the number of the refusal, if any.
pub fn propose_entry(
    alloc: Global,
    entry: Entry,
    engine: &mut Engine<WorldConfig>,
) -> Result<Option<u8>, AllocError>
    requires resting { IsResting (view_of engine.old) }
    requires may { IfSome (led_in (parts engine.old)) (λ l. MayPropose nat_cmp entry_meaning l (entry ∷ [])) }
    ensures { IfOk result (λ refusal. record { 0 = refusal; 1 = view_of engine.new } ≡ entry_proposed entry (view_of engine.old)) }
{
    let mut entries = Vec::new(alloc);
    entries.push(entry)?;
    propose_entries(entries, engine)
}

/// Has the leader append an entry for each value, in order. Returns the number of the refusal, if any.
pub fn propose(
    alloc: Global,
    values: &[Value],
    engine: &mut Engine<WorldConfig>,
) -> Result<Option<u8>, AllocError>
    requires resting { IsResting (view_of engine.old) }
    requires taken { skip_propose (view_of engine.old) ≡ None }
    ensures { IfOk result (λ refusal. record { 0 = refusal; 1 = view_of engine.new } ≡ proposed values.now (view_of engine.old)) }
{
    propose_entries(value_entries(alloc, values)?, engine)
}

/// Has the leader send heartbeats. Returns the number of the refusal, if any.
pub fn send_heartbeats(engine: &mut Engine<WorldConfig>) -> Result<Option<u8>, AllocError>
    requires resting { IsResting (view_of engine.old) }
    ensures { IfOk result (λ refusal. record { 0 = refusal; 1 = view_of engine.new } ≡ heartbeats_sent (view_of engine.old)) }
{
    refusal_of(engine.send_heartbeat())
}

/// What is in flight from the leader to a target.
fn inflight_to(target: u64, engine: &Engine<WorldConfig>) -> Inflight<u64>
    ensures { result ≡ inflight_to target (view_of engine.now) }
{
    let Some(leader) = &engine.leader else {
        return Inflight::None;
    };
    match leader.progress.get(&target) {
        Some(progress) => progress.inflight,
        None => Inflight::None,
    }
}

/// The request by which it was sent.
fn request_of(inflight: Inflight<u64>) -> RequestId
    ensures { result ≡ request_of inflight }
{
    match inflight {
        Inflight::None => RequestId::HeartBeat,
        Inflight::Logs { id, .. } => RequestId::AppendEntries { id },
        Inflight::Snapshot { id, .. } => RequestId::Snapshot { id },
    }
}

/// Skips the failure of a request to a target to which none is in flight. At a node that doesn't lead it is refused instead.
pub fn skip_fail(target: u64, engine: &Engine<WorldConfig>) -> Option<SkipReason>
    ensures { result ≡ skip_fail target (view_of engine.now) }
{
    if engine.leader.is_none() {
        return None;
    }
    match inflight_to(target, engine) {
        Inflight::None => Some(SkipReason::NothingInFlight),
        _ => None,
    }
}

/// Has the request in flight to a target fail. Returns the number of the refusal, if any.
#[tactic(auto, unfolding(raft_steps::specs::Replies::update_progress))]
pub fn fail(
    alloc: Global,
    target: u64,
    engine: &mut Engine<WorldConfig>,
) -> Result<Option<u8>, AllocError>
    requires { IsResting (view_of engine.old) }
    ensures { IfOk result (λ refusal. record { 0 = refusal; 1 = view_of engine.new } ≡ failed target (view_of engine.old)) }
{
    let request = request_of(inflight_to(target, engine));
    refusal_of(engine.update_progress(target, request, Err(String::new(alloc))))
}

/// Asks the leader for the id that a read has to wait for, which changes nothing. Returns the number of the refusal, if
/// any.
pub fn ask_read(engine: &Engine<WorldConfig>) -> Option<u8>
    ensures { result ≡ read_refusal (view_of engine.now) }
{
    match engine.get_read_log_id() {
        Ok(_) => None,
        Err(refusal) => Some(refusal.number()),
    }
}

/// The leader's answer to a read, unless the read is refused.
///
/// Source: Raft paper, section 8; openraft's `get_read_log_id`.
pub fn read_answer(id: u64, engine: &Engine<WorldConfig>) -> Option<Answer>
    ensures { result ≡ read_answer id (view_of engine.now) }
{
    let Some(leader) = &engine.leader else {
        return None;
    };
    match engine.get_read_log_id() {
        Ok(log_id) => Some(Answer {
            node: id,
            leader_id: leader.vote.leader_id,
            log_id,
        }),
        Err(_) => None,
    }
}

/// Skips a step down where the node doesn't lead.
pub fn skip_step_down(engine: &Engine<WorldConfig>) -> Option<SkipReason>
    ensures { result ≡ skip_step_down (view_of engine.now) }
{
    if engine.leader.is_some() {
        None
    } else {
        Some(SkipReason::NotLeader)
    }
}

/// Has a leader that is no longer a member follow, once the effective membership is committed. Returns the number of the
/// refusal, if any.
///
/// Source: Raft paper, section 6; openraft's `leader_step_down`.
pub fn step_down(engine: &mut Engine<WorldConfig>) -> Result<Option<u8>, AllocError>
    requires resting { IsResting (view_of engine.old) }
    requires leader { IsSome engine.old.leader }
    ensures { IfOk result (λ refusal. record { 0 = refusal; 1 = view_of engine.new } ≡ stepped_down (view_of engine.old)) }
{
    refusal_of(engine.leader_step_down())
}
