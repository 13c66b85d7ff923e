//! The refusals of replies to what a leader sent, checked before anything changes.

ghost use Rattle.std.specs.Prelude.{◌≡◌, OnOk, IfErr, None, Some, false};
ghost use Rattle.raft_state.specs.Fits.{fits, is_below};
ghost use Rattle.raft_state.specs.Invariants.{IsSoundState};
ghost use Rattle.raft_progress_entry.specs.Entry.{refusals_of_conflicted};
ghost use Rattle.raft_command.specs.Ends.{is_memory};
ghost use Rattle.raft_steps.specs.ReplyRefusals.{is_own_request, refusals_of_acknowledged, refusals_of_answer, refusals_of_result};
ghost use Rattle.raft_steps.specs.ReplyRefusals.{refusals_of_entry, refusals_of_matching};
ghost use Rattle.raft_steps.specs.Refusals.{is_counter_end_among};
ghost use Rattle.raft_steps.specs.Parts.{core_of, led_of};

use crate::replies::entry_of;
use raft_command::{EngineOutput, ReplicationResult, RequestId};
use raft_error::EngineError;
use raft_handler_common::refusals::{is_below, is_counter_end, is_found};
use raft_progress::Joint;
use raft_progress_entry::{Inflight, ProgressEntry};
use raft_proposer::Leader;
use raft_state::{LogId, Node, NodeId, RaftState, RaftTypeConfig};

/// Checks a reply to a target's request, or its failure.
pub fn check_reply<C: RaftTypeConfig>(
    leader: &Leader<C, Joint<C::NodeId>>,
    state: &RaftState<C::NodeId, C::Node>,
    target: &C::NodeId,
    request_id: &RequestId,
    repl_res: &Result<ReplicationResult<C::NodeId>, String>,
) -> Result<(), EngineError<C::NodeId, C::Node>>
    requires { IsSoundState C.NodeId.cmp state.now }
    ensures passed { OnOk result (refusals_of_entry C.NodeId.cmp target.now (λ e. refusals_of_result C.NodeId.cmp state.now e request_id.now repl_res.now) leader.now ≡ None) }
    ensures refused { IfErr result (λ x. (is_memory x ≡ false) × (refusals_of_entry C.NodeId.cmp target.now (λ e. refusals_of_result C.NodeId.cmp state.now e request_id.now repl_res.now) leader.now ≡ Some x)) }
{
    match entry_of(leader, target) {
        Some(entry) => check_result(state, &entry, request_id, repl_res),
        None => Err(EngineError::UnknownTarget),
    }
}

/// Checks a target's answer.
pub fn check_success<C: RaftTypeConfig>(
    leader: &Leader<C, Joint<C::NodeId>>,
    state: &RaftState<C::NodeId, C::Node>,
    target: &C::NodeId,
    request_id: &RequestId,
    answer: &ReplicationResult<C::NodeId>,
) -> Result<(), EngineError<C::NodeId, C::Node>>
    requires { IsSoundState C.NodeId.cmp state.now }
    ensures passed { OnOk result (refusals_of_entry C.NodeId.cmp target.now (λ e. refusals_of_answer C.NodeId.cmp state.now e request_id.now answer.now) leader.now ≡ None) }
    ensures refused { IfErr result (λ x. (is_memory x ≡ false) × (refusals_of_entry C.NodeId.cmp target.now (λ e. refusals_of_answer C.NodeId.cmp state.now e request_id.now answer.now) leader.now ≡ Some x)) }
{
    match entry_of(leader, target) {
        Some(entry) => check_answer(state, &entry, request_id, answer),
        None => Err(EngineError::UnknownTarget),
    }
}

/// Checks a target's acknowledgement.
pub fn check_matching<C: RaftTypeConfig>(
    leader: &Leader<C, Joint<C::NodeId>>,
    state: &RaftState<C::NodeId, C::Node>,
    target: &C::NodeId,
    number: u64,
    matching: &Option<LogId<C::NodeId>>,
) -> Result<(), EngineError<C::NodeId, C::Node>>
    requires { IsSoundState C.NodeId.cmp state.now }
    ensures passed { OnOk result (refusals_of_entry C.NodeId.cmp target.now (λ e. refusals_of_acknowledged C.NodeId.cmp state.now e number matching.now) leader.now ≡ None) }
    ensures refused { IfErr result (λ x. (is_memory x ≡ false) × (refusals_of_entry C.NodeId.cmp target.now (λ e. refusals_of_acknowledged C.NodeId.cmp state.now e number matching.now) leader.now ≡ Some x)) }
{
    match entry_of(leader, target) {
        Some(entry) => check_acknowledged(state, &entry, number, matching),
        None => Err(EngineError::UnknownTarget),
    }
}

/// Checks a target's acknowledgement, with the refusals of the engine.
pub fn may_take_matching<C: RaftTypeConfig>(
    leader: &Leader<C, Joint<C::NodeId>>,
    state: &RaftState<C::NodeId, C::Node>,
    output: &EngineOutput<C>,
    target: &C::NodeId,
    number: u64,
    matching: &Option<LogId<C::NodeId>>,
) -> Result<(), EngineError<C::NodeId, C::Node>>
    requires { output.now.spent ≡ false → IsSoundState C.NodeId.cmp state.now }
    ensures unspent { OnOk result (output.now.spent ≡ false) }
    ensures counted { OnOk result (is_counter_end_among (core_of state.now output.now) leader.now.progress.rows ≡ false) }
    ensures passed { OnOk result (refusals_of_entry C.NodeId.cmp target.now (λ e. refusals_of_acknowledged C.NodeId.cmp state.now e number matching.now) leader.now ≡ None) }
    ensures refused { IfErr result (λ x. (is_memory x ≡ false) × (refusals_of_matching C.NodeId.cmp target.now number matching.now (led_of leader.now state.now output.now) ≡ Some x)) }
{
    if output.is_spent() {
        return Err(EngineError::Spent);
    }
    if is_counter_end(state, output, leader) {
        return Err(EngineError::CounterEnd);
    }
    check_matching(leader, state, target, number, matching)
}

/// Checks a target's conflict.
pub fn check_conflicting<C: RaftTypeConfig>(
    leader: &Leader<C, Joint<C::NodeId>>,
    target: &C::NodeId,
    number: Option<u64>,
    conflict: &LogId<C::NodeId>,
) -> Result<(), EngineError<C::NodeId, C::Node>>
    ensures passed { OnOk result (refusals_of_entry {N = C.Node} C.NodeId.cmp target.now (λ e. refusals_of_conflicted e number conflict.now.index) leader.now ≡ None) }
    ensures refused { IfErr result (λ x. (is_memory x ≡ false) × (refusals_of_entry C.NodeId.cmp target.now (λ e. refusals_of_conflicted e number conflict.now.index) leader.now ≡ Some x)) }
{
    match entry_of(leader, target) {
        Some(entry) => check_conflicted(&entry, number, conflict.index),
        None => Err(EngineError::UnknownTarget),
    }
}

/// Checks the result of a request: a reply or a failure.
fn check_result<NID: NodeId, N: Node, T>(
    state: &RaftState<NID, N>,
    entry: &ProgressEntry<NID>,
    request_id: &RequestId,
    repl_res: &Result<ReplicationResult<NID>, T>,
) -> Result<(), EngineError<NID, N>>
    requires { IsSoundState NID.cmp state.now }
    ensures passed { OnOk result (refusals_of_result NID.cmp state.now entry.now request_id.now repl_res.now ≡ None) }
    ensures refused { IfErr result (λ x. (is_memory x ≡ false) × (refusals_of_result NID.cmp state.now entry.now request_id.now repl_res.now ≡ Some x)) }
{
    match repl_res {
        Ok(answer) => check_answer(state, entry, request_id, answer),
        Err(_) => {
            if is_own_request(&entry.inflight, request_id) {
                Ok(())
            } else {
                Err(EngineError::ForeignInflight)
            }
        }
    }
}

/// Checks an answer: an acknowledgement, if its request had a number, or a conflict.
fn check_answer<NID: NodeId, N: Node>(
    state: &RaftState<NID, N>,
    entry: &ProgressEntry<NID>,
    request_id: &RequestId,
    answer: &ReplicationResult<NID>,
) -> Result<(), EngineError<NID, N>>
    requires { IsSoundState NID.cmp state.now }
    ensures passed { OnOk result (refusals_of_answer NID.cmp state.now entry.now request_id.now answer.now ≡ None) }
    ensures refused { IfErr result (λ x. (is_memory x ≡ false) × (refusals_of_answer NID.cmp state.now entry.now request_id.now answer.now ≡ Some x)) }
{
    let number = request_id.request_id();
    match &answer.result {
        Ok(matching) => match number {
            Some(number) => check_acknowledged(state, entry, number, matching),
            None => Ok(()),
        },
        Err(conflict) => check_conflicted(entry, number, conflict.index),
    }
}

/// Checks an acknowledgement, on a copy of the entry that it would change.
#[tactic(auto, using(raft_steps::proofs::FitsEnd::fits_end))]
fn check_acknowledged<NID: NodeId, N: Node>(
    state: &RaftState<NID, N>,
    entry: &ProgressEntry<NID>,
    number: u64,
    matching: &Option<LogId<NID>>,
) -> Result<(), EngineError<NID, N>>
    requires { IsSoundState NID.cmp state.now }
    ensures passed { OnOk result (refusals_of_acknowledged NID.cmp state.now entry.now number matching.now ≡ None) }
    ensures refused { IfErr result (λ x. (is_memory x ≡ false) × (refusals_of_acknowledged NID.cmp state.now entry.now number matching.now ≡ Some x)) }
{
    if !entry.inflight.is_my_id(number) {
        return Err(EngineError::ForeignInflight);
    }
    if !fits(state, matching) {
        return Err(EngineError::OutsideInflight);
    }
    let mut trial = *entry;
    trial.update_matching(number, *matching)
}

/// Checks a conflict, on a copy of the entry that it would change.
fn check_conflicted<NID: NodeId, N: Node>(
    entry: &ProgressEntry<NID>,
    number: Option<u64>,
    conflict: u64,
) -> Result<(), EngineError<NID, N>>
    ensures passed { OnOk result (refusals_of_conflicted {N = N} entry.now number conflict ≡ None) }
    ensures refused { IfErr result (λ x. (is_memory x ≡ false) × (refusals_of_conflicted entry.now number conflict ≡ Some x)) }
{
    let mut trial = *entry;
    trial.update_conflicting(number, conflict)
}

/// Whether a request is the one in flight, by kind and by number; a heartbeat always passes.
fn is_own_request<NID: NodeId>(inflight: &Inflight<NID>, request_id: &RequestId) -> bool
    ensures { result ≡ is_own_request inflight.now request_id.now }
{
    match (*inflight, *request_id) {
        (_, RequestId::HeartBeat) => true,
        (Inflight::Logs { id, .. }, RequestId::AppendEntries { id: number }) => id == number,
        (Inflight::Snapshot { id, .. }, RequestId::Snapshot { id: number }) => id == number,
        _ => false,
    }
}

/// Whether the log holds an id, or has purged one above it; true without an id.
fn fits<NID: NodeId, N: Node>(state: &RaftState<NID, N>, id: &Option<LogId<NID>>) -> bool
    ensures { result ≡ fits NID.cmp state.now.ids state.now.purged id.now }
{
    match id {
        Some(id) => is_found(state, id) || is_below(&Some(*id), &state.purged),
        None => true,
    }
}
