//! The calls by which a leader handles the replies to what it sent.

ghost use Rattle.std.specs.Prelude.{◌≡◌, ◌+◌, ◌^◌, ◌<◌, not, OnOk, IfErr, IfSome, None, Some, Err, false, true};
ghost use Rattle.raft_state.specs.Fits.{fits, is_below};
ghost use Rattle.raft_state.specs.Order.{next};
ghost use Rattle.raft_state.specs.Log.{last};
ghost use Rattle.raft_progress_entry.specs.Entry.{matched, conflicted, silenced, refusals_of_matched, refusals_of_conflicted};
ghost use Rattle.raft_progress.specs.Table.{get, is_in};
ghost use Rattle.raft_command.specs.Ends.{Ends, is_memory, refusals_of_spent};
ghost use Rattle.raft_command.specs.Replication.{number_of};
ghost use Rattle.raft_steps.specs.Refusals.{refusals_of_counter_led, is_counter_end_among};
ghost use Rattle.raft_handler_leader.specs.Handlers.{view_of_replication, SameReplicationBorrows};
ghost use Rattle.raft_steps.specs.Invariants.{IsSoundLed, IsSoundLedUnlessSpent, StaysSoundLed};
ghost use Rattle.raft_steps.specs.Laws.{CommitsLatest};
ghost use Rattle.raft_proposer.specs.Leader.{with_clock};
ghost use Rattle.raft_steps.specs.Parts.{core_of, led_of};
ghost use Rattle.raft_steps.specs.Replies.{on_entry, update_leader_clock, update_matching, update_conflicting, update_failed_progress};
ghost use Rattle.raft_steps.specs.Replies.{take_answer, update_success_progress, purge_unless_inflight, send_next, take_reply};
ghost use Rattle.raft_steps.specs.Replies.{update_progress};
ghost use Rattle.raft_steps.specs.ReplicationHandler.{commit_granted, send_commands};
ghost use Rattle.raft_proposer.specs.Leader.{granted_id};
ghost use Rattle.raft_progress.specs.Quorum.{is_quorum};
ghost use Rattle.raft_command.specs.Queue.{queued};
ghost use Rattle.raft_steps.specs.Sending.{CanSend, IsAhead};
ghost use Rattle.raft_steps.specs.ReplyLaws.{answer_matches, takes_matching};
ghost use Rattle.raft_steps.specs.ReplyRefusals.{refusals_of_acknowledged, refusals_of_answer, refusals_of_result, refusals_of_entry};
ghost use Rattle.raft_steps.specs.ReplyRefusals.{refusals_of_clock, refusals_of_matching, refusals_of_conflicting, refusals_of_success};
ghost use Rattle.raft_steps.specs.ReplyRefusals.{refusals_of_progress};

use crate::replication_handler::{
    ReplicationHandler, acknowledge, push_replicate, try_commit_quorum_accepted,
};
use crate::reply_refusals::{check_conflicting, check_reply, check_success, may_take_matching};
use raft_command::{EngineConfig, EngineOutput, ReplicationResult, RequestId};
use raft_error::EngineError;
use raft_handler_common::log_handler::try_purge_log;
use raft_handler_common::refusals::is_counter_end;
use raft_progress::Joint;
use raft_progress_entry::{Inflight, ProgressEntry};
use raft_proposer::Leader;
use raft_state::{LogId, Node, NodeId, RaftState, RaftTypeConfig};
use std::alloc::AllocError;

impl<C: RaftTypeConfig> ReplicationHandler<'_, C> {
    /// Handles the reply to a request to another node, or its failure: a reply raises the node's clock to the moment of
    /// sending, and says that its log matches or conflicts; what a quorum has acknowledged is committed. Then the log
    /// is purged, unless the purge target is in flight, and the node is sent what it lacks next.
    ///
    /// Refusals, in this order:
    /// - `Spent` after `OutOfMemory`,
    /// - `CounterEnd` if a sequence or inflight number is near its end,
    /// - `UnknownTarget` if the node is not in the table, or is this one,
    /// - `ForeignInflight` if the request isn't the one in flight,
    /// - `OutsideInflight` if an id is outside of what is in flight, or an acknowledged one doesn't fit the log,
    /// - `LogReverted` if the node conflicts at or below what it has acknowledged.
    ///
    /// Source: openraft's `update_progress`; Raft paper, section 5.3.
    pub fn update_progress(
        &mut self,
        target: C::NodeId,
        request_id: RequestId,
        repl_res: Result<ReplicationResult<C::NodeId>, String>,
    ) -> Result<(), EngineError<C::NodeId, C::Node>>
        requires { IsSoundLedUnlessSpent C.NodeId.cmp self.old.config.now (view_of_replication self.old) }
        ensures borrows { SameReplicationBorrows self.old self.new }
        ensures step { Ends (refusals_of_progress C.NodeId.cmp self.old.config.now target request_id repl_res (view_of_replication self.old)) result self.new.output.now
            (λ _. view_of_replication self.new ≡ update_progress C.NodeId.cmp self.old.config.now target request_id repl_res (view_of_replication self.old))
            (view_of_replication self.old) (view_of_replication self.new) }
        ensures commits { OnOk result (takes_matching request_id repl_res ≡ true → CommitsLatest C.NodeId.cmp self.old.state.now.committed (view_of_replication self.new)) }
        ensures sound { IsSoundLedUnlessSpent C.NodeId.cmp self.new.config.now (view_of_replication self.new) }
        ensures beside { StaysSoundLed C.NodeId.cmp self.old.config.now (view_of_replication self.old) (view_of_replication self.new) }
    {
        self.take_progress(&target, &request_id, &repl_res)
    }

    /// Handles the reply to a request to another node, as `update_progress` does.
    fn take_progress(
        &mut self,
        target: &C::NodeId,
        request_id: &RequestId,
        repl_res: &Result<ReplicationResult<C::NodeId>, String>,
    ) -> Result<(), EngineError<C::NodeId, C::Node>>
        requires { IsSoundLedUnlessSpent C.NodeId.cmp self.old.config.now (view_of_replication self.old) }
        ensures borrows { SameReplicationBorrows self.old self.new }
        ensures step { Ends (refusals_of_progress C.NodeId.cmp self.old.config.now target.now request_id.now repl_res.now (view_of_replication self.old)) result self.new.output.now
            (λ _. view_of_replication self.new ≡ update_progress C.NodeId.cmp self.old.config.now target.now request_id.now repl_res.now (view_of_replication self.old))
            (view_of_replication self.old) (view_of_replication self.new) }
        ensures commits { OnOk result (takes_matching request_id.now repl_res.now ≡ true → CommitsLatest C.NodeId.cmp self.old.state.now.committed (view_of_replication self.new)) }
        ensures sound { IsSoundLedUnlessSpent C.NodeId.cmp self.new.config.now (view_of_replication self.new) }
        ensures beside { StaysSoundLed C.NodeId.cmp self.old.config.now (view_of_replication self.old) (view_of_replication self.new) }
    {
        if self.output.is_spent() {
            return Err(EngineError::Spent);
        }
        if is_counter_end(self.state, self.output, self.leader) {
            return Err(EngineError::CounterEnd);
        }
        if self.config.id.cmp(target).is_eq() {
            return Err(EngineError::UnknownTarget);
        }
        check_reply(self.leader, self.state, target, request_id, repl_res)?;
        let done = update_progress(
            self.config,
            self.leader,
            self.state,
            self.output,
            target,
            request_id,
            repl_res,
        );
        self.output.settle(done)
    }

    /// Handles a node's answer to a request: its clock is raised to the moment of sending, and its log matches, if the
    /// request had a number, or conflicts; what a quorum has acknowledged is committed.
    ///
    /// Refused as `update_progress` is, but that this node may be the target. Source: openraft's
    /// `update_success_progress`.
    pub fn update_success_progress(
        &mut self,
        target: C::NodeId,
        request_id: RequestId,
        answer: ReplicationResult<C::NodeId>,
    ) -> Result<(), EngineError<C::NodeId, C::Node>>
        requires { IsSoundLedUnlessSpent C.NodeId.cmp self.old.config.now (view_of_replication self.old) }
        ensures borrows { SameReplicationBorrows self.old self.new }
        ensures step { Ends (refusals_of_success C.NodeId.cmp target request_id answer (view_of_replication self.old)) result self.new.output.now
            (λ _. view_of_replication self.new ≡ update_success_progress C.NodeId.cmp self.old.config.now target request_id answer (view_of_replication self.old))
            (view_of_replication self.old) (view_of_replication self.new) }
        ensures commits { OnOk result (answer_matches request_id answer ≡ true → CommitsLatest C.NodeId.cmp self.old.state.now.committed (view_of_replication self.new)) }
        ensures sound { IsSoundLedUnlessSpent C.NodeId.cmp self.new.config.now (view_of_replication self.new) }
        ensures beside { StaysSoundLed C.NodeId.cmp self.old.config.now (view_of_replication self.old) (view_of_replication self.new) }
    {
        self.take_success(&target, &request_id, &answer)
    }

    /// Handles a node's answer to a request, as `update_success_progress` does.
    fn take_success(
        &mut self,
        target: &C::NodeId,
        request_id: &RequestId,
        answer: &ReplicationResult<C::NodeId>,
    ) -> Result<(), EngineError<C::NodeId, C::Node>>
        requires { IsSoundLedUnlessSpent C.NodeId.cmp self.old.config.now (view_of_replication self.old) }
        ensures borrows { SameReplicationBorrows self.old self.new }
        ensures step { Ends (refusals_of_success C.NodeId.cmp target.now request_id.now answer.now (view_of_replication self.old)) result self.new.output.now
            (λ _. view_of_replication self.new ≡ update_success_progress C.NodeId.cmp self.old.config.now target.now request_id.now answer.now (view_of_replication self.old))
            (view_of_replication self.old) (view_of_replication self.new) }
        ensures commits { OnOk result (answer_matches request_id.now answer.now ≡ true → CommitsLatest C.NodeId.cmp self.old.state.now.committed (view_of_replication self.new)) }
        ensures sound { IsSoundLedUnlessSpent C.NodeId.cmp self.new.config.now (view_of_replication self.new) }
        ensures beside { StaysSoundLed C.NodeId.cmp self.old.config.now (view_of_replication self.old) (view_of_replication self.new) }
    {
        if self.output.is_spent() {
            return Err(EngineError::Spent);
        }
        if is_counter_end(self.state, self.output, self.leader) {
            return Err(EngineError::CounterEnd);
        }
        check_success(self.leader, self.state, target, request_id, answer)?;
        let done = update_success_progress(
            self.config,
            self.leader,
            self.state,
            self.output,
            target,
            request_id,
            answer,
        );
        self.output.settle(done)
    }

    /// Raises a node's clock to a moment, in milliseconds, if it is below. Allocates nothing.
    ///
    /// Refusals, in this order:
    /// - `Spent` after `OutOfMemory`,
    /// - `UnknownTarget` if the node has no clock.
    ///
    /// Source: openraft's `update_leader_clock`.
    #[tactic(auto, unfolding(raft_steps::specs::Replies::update_leader_clock))]
    pub fn update_leader_clock(
        &mut self,
        node_id: C::NodeId,
        time: u64,
    ) -> Result<(), EngineError<C::NodeId, C::Node>>
        ensures borrows { SameReplicationBorrows self.old self.new }
        ensures free { IfErr result (λ e. is_memory e ≡ false) }
        ensures step { Ends (refusals_of_clock C.NodeId.cmp node_id (view_of_replication self.old)) result self.new.output.now
            (λ _. view_of_replication self.new ≡ update_leader_clock C.NodeId.cmp node_id time (view_of_replication self.old))
            (view_of_replication self.old) (view_of_replication self.new) }
        ensures sound { IsSoundLedUnlessSpent C.NodeId.cmp self.old.config.now (view_of_replication self.old) → IsSoundLedUnlessSpent C.NodeId.cmp self.new.config.now (view_of_replication self.new) }
        ensures beside { StaysSoundLed C.NodeId.cmp self.old.config.now (view_of_replication self.old) (view_of_replication self.new) }
    {
        if self.output.is_spent() {
            return Err(EngineError::Spent);
        }
        if self.leader.clock_progress.get(&node_id).is_none() {
            return Err(EngineError::UnknownTarget);
        }
        raise_clock(self.leader, &node_id, time);
        Ok(())
    }

    /// Handles a node's acknowledgement of the request with a number: its log matches up to an id. What a quorum then
    /// has acknowledged is committed.
    ///
    /// Refusals, in this order:
    /// - `Spent` after `OutOfMemory`,
    /// - `CounterEnd` if a sequence or inflight number is near its end,
    /// - `UnknownTarget` if the node is not in the table,
    /// - `ForeignInflight` if the number isn't that of the request in flight,
    /// - `OutsideInflight` if the id is outside of what is in flight, or doesn't fit the log.
    ///
    /// Source: openraft's `update_matching`; Raft paper, sections 5.3 and 5.4.2.
    pub fn update_matching(
        &mut self,
        node_id: C::NodeId,
        inflight_id: u64,
        matching: Option<LogId<C::NodeId>>,
    ) -> Result<(), EngineError<C::NodeId, C::Node>>
        requires { IsSoundLedUnlessSpent C.NodeId.cmp self.old.config.now (view_of_replication self.old) }
        ensures borrows { SameReplicationBorrows self.old self.new }
        ensures step { Ends (refusals_of_matching C.NodeId.cmp node_id inflight_id matching (view_of_replication self.old)) result self.new.output.now
            (λ _. view_of_replication self.new ≡ update_matching C.NodeId.cmp self.old.config.now node_id matching (view_of_replication self.old))
            (view_of_replication self.old) (view_of_replication self.new) }
        ensures commits { OnOk result (CommitsLatest C.NodeId.cmp self.old.state.now.committed (view_of_replication self.new)) }
        ensures sound { IsSoundLedUnlessSpent C.NodeId.cmp self.new.config.now (view_of_replication self.new) }
        ensures beside { StaysSoundLed C.NodeId.cmp self.old.config.now (view_of_replication self.old) (view_of_replication self.new) }
    {
        may_take_matching(
            self.leader,
            self.state,
            self.output,
            &node_id,
            inflight_id,
            &matching,
        )?;
        let done = update_matching(
            self.config,
            self.leader,
            self.state,
            self.output,
            &node_id,
            inflight_id,
            &matching,
        );
        self.output.settle(done)
    }

    /// Handles a node's conflict: its log doesn't hold an id. With a number it answers the request with that number,
    /// which then is no longer in flight. Allocates nothing.
    ///
    /// Refusals, in this order:
    /// - `Spent` after `OutOfMemory`,
    /// - `UnknownTarget` if the node is not in the table,
    /// - `ForeignInflight` if the number isn't that of the request in flight,
    /// - `OutsideInflight` if its index isn't that of the id before the range in flight, or, without a number, isn't below
    ///   the search's end,
    /// - `LogReverted` if the node has acknowledged an id at or above it.
    ///
    /// Source: openraft's `update_conflicting`; Raft paper, section 5.3.
    pub fn update_conflicting(
        &mut self,
        target: C::NodeId,
        inflight_id: Option<u64>,
        conflict: LogId<C::NodeId>,
    ) -> Result<(), EngineError<C::NodeId, C::Node>>
        ensures borrows { SameReplicationBorrows self.old self.new }
        ensures free { IfErr result (λ e. is_memory e ≡ false) }
        ensures step { Ends (refusals_of_conflicting C.NodeId.cmp target inflight_id conflict (view_of_replication self.old)) result self.new.output.now
            (λ _. view_of_replication self.new ≡ update_conflicting C.NodeId.cmp target inflight_id conflict (view_of_replication self.old))
            (view_of_replication self.old) (view_of_replication self.new) }
        ensures sound { IsSoundLedUnlessSpent C.NodeId.cmp self.old.config.now (view_of_replication self.old) → IsSoundLedUnlessSpent C.NodeId.cmp self.new.config.now (view_of_replication self.new) }
        ensures beside { StaysSoundLed C.NodeId.cmp self.old.config.now (view_of_replication self.old) (view_of_replication self.new) }
    {
        if self.output.is_spent() {
            return Err(EngineError::Spent);
        }
        check_conflicting(self.leader, &target, inflight_id, &conflict)?;
        update_conflicting(
            self.leader,
            self.state,
            self.output,
            &target,
            inflight_id,
            &conflict,
        );
        Ok(())
    }

    /// Purges the log up to the purge target, unless that is in flight to a node.
    ///
    /// Refusal: `Spent` after `OutOfMemory`. Source: openraft's `try_purge_log`.
    pub fn try_purge_log(&mut self) -> Result<(), EngineError<C::NodeId, C::Node>>
        ensures borrows { SameReplicationBorrows self.old self.new }
        ensures step { Ends (refusals_of_spent self.old.output.now) result self.new.output.now
            (λ _. view_of_replication self.new ≡ purge_unless_inflight C.NodeId.cmp (view_of_replication self.old))
            (view_of_replication self.old) (view_of_replication self.new) }
        ensures sound { IsSoundLedUnlessSpent C.NodeId.cmp self.old.config.now (view_of_replication self.old) → IsSoundLedUnlessSpent C.NodeId.cmp self.new.config.now (view_of_replication self.new) }
        ensures beside { StaysSoundLed C.NodeId.cmp self.old.config.now (view_of_replication self.old) (view_of_replication self.new) }
    {
        if self.output.is_spent() {
            return Err(EngineError::Spent);
        }
        let done = purge_unless_inflight(self.leader, self.state, self.output);
        self.output.settle(done)
    }
}

/// A target's entry.
pub(crate) fn entry_of<C: RaftTypeConfig>(
    leader: &Leader<C, Joint<C::NodeId>>,
    target: &C::NodeId,
) -> Option<ProgressEntry<C::NodeId>>
    ensures { result ≡ get C.NodeId.cmp leader.now.progress target.now }
{
    leader.progress.get(target).copied()
}

/// The id that the table grants.
pub(crate) fn granted_of<C: RaftTypeConfig>(
    leader: &Leader<C, Joint<C::NodeId>>,
) -> Option<LogId<C::NodeId>>
    ensures { result ≡ granted_id C.NodeId.cmp (is_quorum C.NodeId.cmp) leader.now }
{
    *leader.progress.granted()
}

/// Raises a node's clock to a moment, if it is below.
#[tactic(auto, using(raft_proposer::proofs::Tables::increased_absent))]
fn raise_clock<C: RaftTypeConfig>(
    leader: &mut Leader<C, Joint<C::NodeId>>,
    target: &C::NodeId,
    time: u64,
)
    ensures { leader.new ≡ with_clock C.NodeId.cmp leader.old target.now time }
{
    let _known = leader
        .clock_progress
        .increase_to(target, Some(time))
        .is_ok();
}

/// An entry after a match up to an id that passed its refusals.
fn matched<NID: NodeId, N: Node>(
    entry: ProgressEntry<NID>,
    number: u64,
    matching: &Option<LogId<NID>>,
) -> ProgressEntry<NID>
    requires end { next matching.now < 2 ^ 64 }
    requires passed { refusals_of_matched {N = N} NID.cmp entry number matching.now ≡ None }
    ensures { result ≡ matched NID.cmp entry matching.now }
{
    let mut entry = entry;
    match entry.update_matching::<N>(number, *matching) {
        Ok(()) => entry,
        Err(_) => entry,
    }
}

/// An entry after a conflict at an index that passed its refusals.
fn conflicted<NID: NodeId, N: Node>(
    entry: ProgressEntry<NID>,
    number: Option<u64>,
    conflict: u64,
) -> ProgressEntry<NID>
    requires { refusals_of_conflicted {N = N} entry number conflict ≡ None }
    ensures { result ≡ conflicted entry number conflict }
{
    let mut entry = entry;
    match entry.update_conflicting::<N>(number, conflict) {
        Ok(()) => entry,
        Err(_) => entry,
    }
}

/// Commits what the table grants.
fn commit_granted<C: RaftTypeConfig>(
    config: &EngineConfig<C::NodeId>,
    leader: &Leader<C, Joint<C::NodeId>>,
    state: &mut RaftState<C::NodeId, C::Node>,
    output: &mut EngineOutput<C>,
) -> Result<(), AllocError>
    requires { output.old.seq + 2 < 2 ^ 64 }
    ensures { OnOk result (led_of leader.now state.new output.new ≡ commit_granted C.NodeId.cmp config.now (led_of leader.now state.old output.old)) }
{
    let granted = granted_of(leader);
    try_commit_quorum_accepted(config, state, output, &granted)?;
    Ok(())
}

/// Records that a target's log matches up to an id.
#[tactic(auto, using(raft_steps::proofs::Replied::matched_rises))]
fn note_matching<C: RaftTypeConfig>(
    leader: &mut Leader<C, Joint<C::NodeId>>,
    state: &RaftState<C::NodeId, C::Node>,
    output: &EngineOutput<C>,
    target: &C::NodeId,
    number: u64,
    matching: &Option<LogId<C::NodeId>>,
)
    requires end { next matching.now < 2 ^ 64 }
    requires ahead { IfSome (get C.NodeId.cmp leader.old.progress target.now) (IsAhead C.NodeId.cmp) }
    requires passed { refusals_of_entry C.NodeId.cmp target.now (λ e. refusals_of_acknowledged C.NodeId.cmp state.now e number matching.now) leader.old ≡ None }
    ensures { led_of leader.new state.now output.now ≡ on_entry C.NodeId.cmp target.now (λ e. matched C.NodeId.cmp e matching.now) (led_of leader.old state.now output.now) }
{
    if let Some(entry) = entry_of(leader, target) {
        let entry = matched::<C::NodeId, C::Node>(entry, number, matching);
        acknowledge(leader, target, entry);
    }
}

/// Records that a target's log matches up to an id, and commits what a quorum then has acknowledged.
#[tactic(auto, unfolding(raft_steps::specs::Replies::update_matching))]
fn update_matching<C: RaftTypeConfig>(
    config: &EngineConfig<C::NodeId>,
    leader: &mut Leader<C, Joint<C::NodeId>>,
    state: &mut RaftState<C::NodeId, C::Node>,
    output: &mut EngineOutput<C>,
    target: &C::NodeId,
    number: u64,
    matching: &Option<LogId<C::NodeId>>,
) -> Result<(), AllocError>
    requires number { output.old.seq + 2 < 2 ^ 64 }
    requires end { next matching.now < 2 ^ 64 }
    requires ahead { IfSome (get C.NodeId.cmp leader.old.progress target.now) (IsAhead C.NodeId.cmp) }
    requires passed { refusals_of_entry C.NodeId.cmp target.now (λ e. refusals_of_acknowledged C.NodeId.cmp state.old e number matching.now) leader.old ≡ None }
    ensures { OnOk result (led_of leader.new state.new output.new
        ≡ update_matching C.NodeId.cmp config.now target.now matching.now (led_of leader.old state.old output.old)) }
{
    note_matching(leader, state, output, target, number, matching);
    commit_granted(config, leader, state, output)?;
    Ok(())
}

/// Records that a target's log conflicts with an id.
#[tactic(auto, unfolding(raft_steps::specs::Replies::update_conflicting))]
fn update_conflicting<C: RaftTypeConfig>(
    leader: &mut Leader<C, Joint<C::NodeId>>,
    state: &RaftState<C::NodeId, C::Node>,
    output: &EngineOutput<C>,
    target: &C::NodeId,
    number: Option<u64>,
    conflict: &LogId<C::NodeId>,
)
    requires { refusals_of_entry {N = C.Node} C.NodeId.cmp target.now (λ e. refusals_of_conflicted e number conflict.now.index) leader.old ≡ None }
    ensures { led_of leader.new state.now output.now ≡ update_conflicting C.NodeId.cmp target.now number conflict.now (led_of leader.old state.now output.now) }
{
    if let Some(entry) = entry_of(leader, target) {
        let entry = conflicted::<C::NodeId, C::Node>(entry, number, conflict.index);
        acknowledge(leader, target, entry);
    }
}

/// Clears what is in flight to a target.
#[tactic(auto, using(raft_steps::proofs::Replied::same_rises))]
fn silence_target<C: RaftTypeConfig>(
    leader: &mut Leader<C, Joint<C::NodeId>>,
    state: &RaftState<C::NodeId, C::Node>,
    output: &EngineOutput<C>,
    target: &C::NodeId,
)
    ensures { led_of leader.new state.now output.now ≡ on_entry C.NodeId.cmp target.now silenced (led_of leader.old state.now output.now) }
{
    if let Some(entry) = entry_of(leader, target) {
        let mut entry = entry;
        entry.inflight = Inflight::None;
        acknowledge(leader, target, entry);
    }
}

/// Records that a request to a target has failed.
#[tactic(auto, unfolding(raft_steps::specs::Replies::update_failed_progress))]
fn update_failed_progress<C: RaftTypeConfig>(
    leader: &mut Leader<C, Joint<C::NodeId>>,
    state: &RaftState<C::NodeId, C::Node>,
    output: &EngineOutput<C>,
    target: &C::NodeId,
    request_id: &RequestId,
)
    ensures { led_of leader.new state.now output.now ≡ update_failed_progress C.NodeId.cmp target.now request_id.now (led_of leader.old state.now output.now) }
{
    if request_id.request_id().is_some() {
        silence_target(leader, state, output, target);
    }
}

/// Handles a target's answer to a request or a heartbeat: its log matches, or conflicts.
fn take_answer<C: RaftTypeConfig>(
    config: &EngineConfig<C::NodeId>,
    leader: &mut Leader<C, Joint<C::NodeId>>,
    state: &mut RaftState<C::NodeId, C::Node>,
    output: &mut EngineOutput<C>,
    target: &C::NodeId,
    request_id: &RequestId,
    answer: &ReplicationResult<C::NodeId>,
) -> Result<(), AllocError>
    requires number { output.old.seq + 2 < 2 ^ 64 }
    requires sound { IsSoundLed C.NodeId.cmp config.now (led_of leader.old state.old output.old) }
    requires passed { refusals_of_entry C.NodeId.cmp target.now (λ e. refusals_of_answer C.NodeId.cmp state.old e request_id.now answer.now) leader.old ≡ None }
    ensures { OnOk result (led_of leader.new state.new output.new
        ≡ take_answer C.NodeId.cmp config.now target.now request_id.now answer.now (led_of leader.old state.old output.old)) }
{
    let number = request_id.request_id();
    match &answer.result {
        Ok(matching) => match number {
            Some(number) => update_matching(
                config, leader, state, output, target, number, matching,
            ),
            None => Ok(()),
        },
        Err(conflict) => {
            update_conflicting(leader, state, output, target, number, conflict);
            Ok(())
        }
    }
}

/// Handles a target's answer: raises its clock, and its log matches, if the request had a number, or conflicts.
#[tactic(auto, unfolding(raft_steps::specs::Replies::update_success_progress))]
fn update_success_progress<C: RaftTypeConfig>(
    config: &EngineConfig<C::NodeId>,
    leader: &mut Leader<C, Joint<C::NodeId>>,
    state: &mut RaftState<C::NodeId, C::Node>,
    output: &mut EngineOutput<C>,
    target: &C::NodeId,
    request_id: &RequestId,
    answer: &ReplicationResult<C::NodeId>,
) -> Result<(), AllocError>
    requires number { output.old.seq + 2 < 2 ^ 64 }
    requires sound { IsSoundLed C.NodeId.cmp config.now (led_of leader.old state.old output.old) }
    requires passed { refusals_of_entry C.NodeId.cmp target.now (λ e. refusals_of_answer C.NodeId.cmp state.old e request_id.now answer.now) leader.old ≡ None }
    ensures { OnOk result (led_of leader.new state.new output.new
        ≡ update_success_progress C.NodeId.cmp config.now target.now request_id.now answer.now (led_of leader.old state.old output.old)) }
{
    raise_clock(leader, target, answer.sending_time);
    take_answer(config, leader, state, output, target, request_id, answer)
}

/// Handles a reply, or the failure of a request.
fn take_reply<C: RaftTypeConfig, T>(
    config: &EngineConfig<C::NodeId>,
    leader: &mut Leader<C, Joint<C::NodeId>>,
    state: &mut RaftState<C::NodeId, C::Node>,
    output: &mut EngineOutput<C>,
    target: &C::NodeId,
    request_id: &RequestId,
    repl_res: &Result<ReplicationResult<C::NodeId>, T>,
) -> Result<(), AllocError>
    requires number { output.old.seq + 2 < 2 ^ 64 }
    requires sound { IsSoundLed C.NodeId.cmp config.now (led_of leader.old state.old output.old) }
    requires passed { refusals_of_entry C.NodeId.cmp target.now (λ e. refusals_of_result C.NodeId.cmp state.old e request_id.now repl_res.now) leader.old ≡ None }
    ensures { OnOk result (led_of leader.new state.new output.new
        ≡ take_reply C.NodeId.cmp config.now target.now request_id.now repl_res.now (led_of leader.old state.old output.old)) }
{
    match repl_res {
        Ok(answer) => update_success_progress(
            config, leader, state, output, target, request_id, answer,
        ),
        Err(_) => {
            update_failed_progress(leader, state, output, target, request_id);
            Ok(())
        }
    }
}

/// Purges the log up to the purge target, unless that is in flight.
#[tactic(auto, unfolding(raft_steps::specs::Replies::purge_unless_inflight))]
fn purge_unless_inflight<C: RaftTypeConfig>(
    leader: &Leader<C, Joint<C::NodeId>>,
    state: &mut RaftState<C::NodeId, C::Node>,
    output: &mut EngineOutput<C>,
) -> Result<(), AllocError>
    ensures { OnOk result (led_of leader.now state.new output.new ≡ purge_unless_inflight C.NodeId.cmp (led_of leader.now state.old output.old)) }
{
    try_purge_log(leader, state, output)?;
    Ok(())
}

/// Queues what is sent to a target, if anything.
fn push_sent<C: RaftTypeConfig>(
    output: &mut EngineOutput<C>,
    target: &C::NodeId,
    sent: Result<Inflight<C::NodeId>, Inflight<C::NodeId>>,
) -> Result<(), AllocError>
    ensures { OnOk result (output.new ≡ queued output.old (send_commands false target.now sent)) }
{
    match sent {
        Ok(req) => push_replicate(output, *target, req),
        Err(_) => Ok(()),
    }
}

/// Sends a target what it lacks next, if anything.
#[tactic(auto, unfolding(raft_steps::specs::Replies::send_next))]
fn send_next<C: RaftTypeConfig>(
    config: &EngineConfig<C::NodeId>,
    leader: &mut Leader<C, Joint<C::NodeId>>,
    state: &RaftState<C::NodeId, C::Node>,
    output: &mut EngineOutput<C>,
    target: &C::NodeId,
) -> Result<(), AllocError>
    requires row { IfSome (get C.NodeId.cmp leader.old.progress target.now) (λ e. CanSend 1 (target.now, e)) }
    requires log { next (last state.now.ids) < 2 ^ 64 }
    ensures { OnOk result (led_of leader.new state.now output.new ≡ send_next C.NodeId.cmp config.now target.now (led_of leader.old state.now output.old)) }
{
    let Some(entry) = entry_of(leader, target) else {
        return Ok(());
    };
    let mut entry = entry;
    let sent = entry.next_send(state, config.max_payload_entries);
    acknowledge(leader, target, entry);
    push_sent(output, target, sent)?;
    Ok(())
}

/// Handles a reply, or the failure of a request, purges the log unless its target is in flight, and sends the target
/// what it lacks next.
#[tactic(auto, using(raft_steps::proofs::Counted::counted_seq), unfolding(raft_steps::specs::Replies::update_progress))]
fn update_progress<C: RaftTypeConfig, T>(
    config: &EngineConfig<C::NodeId>,
    leader: &mut Leader<C, Joint<C::NodeId>>,
    state: &mut RaftState<C::NodeId, C::Node>,
    output: &mut EngineOutput<C>,
    target: &C::NodeId,
    request_id: &RequestId,
    repl_res: &Result<ReplicationResult<C::NodeId>, T>,
) -> Result<(), AllocError>
    requires counted { is_counter_end_among (core_of state.old output.old) leader.old.progress.rows ≡ false }
    requires sound { IsSoundLed C.NodeId.cmp config.now (led_of leader.old state.old output.old) }
    requires passed { refusals_of_entry C.NodeId.cmp target.now (λ e. refusals_of_result C.NodeId.cmp state.old e request_id.now repl_res.now) leader.old ≡ None }
    ensures { OnOk result (led_of leader.new state.new output.new
        ≡ update_progress C.NodeId.cmp config.now target.now request_id.now repl_res.now (led_of leader.old state.old output.old)) }
{
    take_reply(config, leader, state, output, target, request_id, repl_res)?;
    purge_unless_inflight(leader, state, output)?;
    send_next(config, leader, state, output, target)
}
