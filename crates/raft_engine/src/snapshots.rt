//! The engine's calls for snapshots and purges.

ghost use Rattle.std.specs.Prelude.{◌≡◌, ◌+◌, ◌^◌, ◌<◌, not, OnOk, IfOk, IfErr, None, true, false};
ghost use Rattle.raft_state.specs.Fits.{fits, is_within};
ghost use Rattle.raft_command.specs.Ends.{Ends, is_memory};
ghost use Rattle.raft_steps.specs.Refusals.{refusals_of_spent, refusals_of_counter, refusals_of_trigger_snapshot, rows_in};
ghost use Rattle.raft_handler_follower.specs.raft_handler_common.Handlers.{view_of_log};
ghost use Rattle.raft_steps.specs.Invariants.{IsSoundUnlessSpent};
ghost use Rattle.raft_steps.specs.LogHandler.{try_purge_log};
ghost use Rattle.raft_steps.specs.Parts.{core_of, machine_of, on_core};
ghost use Rattle.raft_engine.specs.Whole.{parts};
ghost use Rattle.raft_steps.specs.SnapshotCalls.{handle_begin_receiving_snapshot, purge_where_free, purge_to_index, trigger_purge_log};
ghost use Rattle.raft_steps.specs.SnapshotCalls.{finish_building_snapshot};
ghost use Rattle.raft_steps.specs.SnapshotHandler.{is_newer_snapshot, trigger_snapshot};

use crate::engine::Engine;
use raft_command::{Command, EngineConfig, EngineOutput, Token, sm};
use raft_error::EngineError;
use raft_handler_follower::raft_handler_common::log_handler;
use raft_handler_follower::raft_handler_common::log_handler::{
    LogHandler, purge_log, schedule_policy_based_purge,
};
use raft_handler_follower::raft_handler_common::refusals::is_near_end;
use raft_handler_follower::raft_handler_common::snapshot_handler::{
    trigger_snapshot, update_snapshot,
};
use raft_progress::Joint;
use raft_proposer::Leader;
use raft_state::{RaftState, RaftTypeConfig, SnapshotMeta, reaches};
use std::alloc::AllocError;

impl<C: RaftTypeConfig> Engine<C> {
    /// Triggers the building of a snapshot; if one is being built, answers false, and changes and allocates nothing.
    ///
    /// Refusals, in this order:
    /// - `Spent` after `OutOfMemory`,
    /// - `CounterEnd` if one would be built and sequence numbers are near their end.
    ///
    /// Source: openraft's `SnapshotHandler::trigger_snapshot`.
    pub fn trigger_snapshot(&mut self) -> Result<bool, EngineError<C::NodeId, C::Node>>
        requires { IsSoundUnlessSpent C.NodeId.cmp self.old.config (parts self.old) }
        ensures config { self.new.config ≡ self.old.config }
        ensures flag { self.new.seen_greater_log ≡ self.old.seen_greater_log }
        ensures free { self.old.state.building ≡ true → IfErr result (λ e. is_memory e ≡ false) }
        ensures step { Ends (refusals_of_trigger_snapshot (core_of self.old.state self.old.output)) result self.new.output
            (λ begun. (begun ≡ not self.old.state.building)
            × (parts self.new ≡ on_core trigger_snapshot (parts self.old)))
            (parts self.old) (parts self.new) }
        ensures sound { IsSoundUnlessSpent C.NodeId.cmp self.new.config (parts self.new) }
    {
        if self.output.is_spent() {
            return Err(EngineError::Spent);
        }
        let begins = !self.state.building;
        if begins && is_near_end(self.output.last_sm_seq()) {
            return Err(EngineError::CounterEnd);
        }
        let done = trigger_snapshot(&mut self.state, &mut self.output);
        self.output.settle(done)?;
        Ok(begins)
    }

    /// Ends the building of a snapshot. If it is above the recorded one, it is recorded and the log is purged by the
    /// settings, unless the purge target is in flight; else the answer is false, and nothing is allocated. The
    /// snapshot's last id, if any, must fit the log and be at or below the committed one.
    ///
    /// Refusal: `Spent` after `OutOfMemory`. Source: openraft's `finish_building_snapshot`; Raft paper, section 7.
    #[tactic(auto, unfolding(raft_steps::specs::SnapshotCalls::finish_building_snapshot))]
    pub fn finish_building_snapshot(
        &mut self,
        meta: SnapshotMeta<C::NodeId, C::Node>,
    ) -> Result<bool, EngineError<C::NodeId, C::Node>>
        requires sound { IsSoundUnlessSpent C.NodeId.cmp self.old.config (parts self.old) }
        requires fit { fits C.NodeId.cmp self.old.state.ids self.old.state.purged meta.last_log_id ≡ true }
        requires committed { is_within C.NodeId.cmp meta.last_log_id self.old.state.committed ≡ true }
        ensures config { self.new.config ≡ self.old.config }
        ensures flag { self.new.seen_greater_log ≡ self.old.seen_greater_log }
        ensures free { is_newer_snapshot C.NodeId.cmp self.old.state meta ≡ false → IfErr result (λ e. is_memory e ≡ false) }
        ensures step { Ends (refusals_of_spent (parts self.old)) result self.new.output
            (λ recorded. (recorded ≡ is_newer_snapshot C.NodeId.cmp self.old.state meta)
            × (parts self.new ≡ finish_building_snapshot C.NodeId.cmp self.old.config meta (parts self.old)))
            (parts self.old) (parts self.new) }
        ensures sound { IsSoundUnlessSpent C.NodeId.cmp self.new.config (parts self.new) }
    {
        if self.output.is_spent() {
            return Err(EngineError::Spent);
        }
        self.state.building = false;
        if !update_snapshot(&mut self.state, &self.output, meta) {
            return Ok(false);
        }
        schedule_policy_based_purge(&self.config, &mut self.state, &self.output);
        let done = try_purge_log(&mut self.state, &mut self.output, &self.leader);
        self.output.settle(done)?;
        Ok(true)
    }

    /// Purges the log up to its target, unless the target is in flight to another node.
    ///
    /// Refusal: `Spent` after `OutOfMemory`. Source: openraft's `try_purge_log`.
    #[tactic(auto, unfolding(raft_steps::specs::SnapshotCalls::purge_where_free))]
    pub fn try_purge_log(&mut self) -> Result<(), EngineError<C::NodeId, C::Node>>
        requires { IsSoundUnlessSpent C.NodeId.cmp self.old.config (parts self.old) }
        ensures config { self.new.config ≡ self.old.config }
        ensures flag { self.new.seen_greater_log ≡ self.old.seen_greater_log }
        ensures step { Ends (refusals_of_spent (parts self.old)) result self.new.output
            (λ _. parts self.new ≡ purge_where_free C.NodeId.cmp (parts self.old))
            (parts self.old) (parts self.new) }
        ensures sound { IsSoundUnlessSpent C.NodeId.cmp self.new.config (parts self.new) }
    {
        if self.output.is_spent() {
            return Err(EngineError::Spent);
        }
        let done = try_purge_log(&mut self.state, &mut self.output, &self.leader);
        self.output.settle(done)
    }

    /// Purges the log up to an index, at most the snapshot's last one, unless the purge target is in flight. Changes
    /// nothing without a snapshot, or if the index is not above the purge target.
    ///
    /// Refusal: `Spent` after `OutOfMemory`. Source: openraft's `trigger_purge_log`.
    #[tactic(auto, unfolding(raft_steps::specs::SnapshotCalls::trigger_purge_log))]
    pub fn trigger_purge_log(&mut self, index: u64) -> Result<(), EngineError<C::NodeId, C::Node>>
        requires { IsSoundUnlessSpent C.NodeId.cmp self.old.config (parts self.old) }
        ensures config { self.new.config ≡ self.old.config }
        ensures flag { self.new.seen_greater_log ≡ self.old.seen_greater_log }
        ensures step { Ends (refusals_of_spent (parts self.old)) result self.new.output
            (λ _. parts self.new ≡ trigger_purge_log C.NodeId.cmp index (parts self.old))
            (parts self.old) (parts self.new) }
        ensures sound { IsSoundUnlessSpent C.NodeId.cmp self.new.config (parts self.new) }
    {
        if self.output.is_spent() {
            return Err(EngineError::Spent);
        }
        let done = trigger_purge_log(&mut self.state, &mut self.output, &self.leader, index);
        self.output.settle(done)
    }

    /// Asks the state machine to prepare for a snapshot to be received; its answer goes to the caller with this token.
    ///
    /// Refusals, in this order:
    /// - `Spent` after `OutOfMemory`,
    /// - `CounterEnd` if a sequence or inflight number is near its end.
    ///
    /// Source: openraft's `handle_begin_receiving_snapshot`.
    #[tactic(auto, unfolding(raft_steps::specs::SnapshotCalls::handle_begin_receiving_snapshot))]
    pub fn handle_begin_receiving_snapshot(
        &mut self,
        token: Token,
    ) -> Result<(), EngineError<C::NodeId, C::Node>>
        requires { IsSoundUnlessSpent C.NodeId.cmp self.old.config (parts self.old) }
        ensures config { self.new.config ≡ self.old.config }
        ensures flag { self.new.seen_greater_log ≡ self.old.seen_greater_log }
        ensures step { Ends (refusals_of_counter (parts self.old)) result self.new.output
            (λ _. parts self.new ≡ handle_begin_receiving_snapshot token (parts self.old))
            (parts self.old) (parts self.new) }
        ensures sound { IsSoundUnlessSpent C.NodeId.cmp self.new.config (parts self.new) }
    {
        if self.output.is_spent() {
            return Err(EngineError::Spent);
        }
        if self.is_counter_end() {
            return Err(EngineError::CounterEnd);
        }
        let command = sm::Command::begin_receiving_snapshot(token);
        let done = self.output.try_push(Command::StateMachine { command });
        self.output.settle(done)
    }

    /// The handler of the log.
    pub fn log_handler(&mut self) -> LogHandler<'_, C>
        ensures config { result.config.now ≡ self.old.config }
        ensures lent { view_of_log result ≡ core_of self.old.state self.old.output }
    {
        LogHandler {
            config: &self.config,
            state: &mut self.state,
            output: &mut self.output,
        }
    }
}

/// Purges the log up to its target, unless the target is in flight to another node.
#[tactic(auto, unfolding(raft_steps::specs::LogHandler::try_purge_log))]
fn try_purge_log<C: RaftTypeConfig>(
    state: &mut RaftState<C::NodeId, C::Node>,
    output: &mut EngineOutput<C>,
    leader: &Option<Box<Leader<C, Joint<C::NodeId>>>>,
) -> Result<(), AllocError>
    ensures { OnOk result (core_of state.new output.new ≡ try_purge_log C.NodeId.cmp (rows_in (machine_of state.old output.old leader.now None)) (core_of state.old output.old)) }
{
    match leader {
        Some(leader) => log_handler::try_purge_log(&**leader, state, output),
        None => purge_log(state, output),
    }
}

/// Purges the log up to an index, at most the snapshot's last one, if this is above the purge target.
fn trigger_purge_log<C: RaftTypeConfig>(
    state: &mut RaftState<C::NodeId, C::Node>,
    output: &mut EngineOutput<C>,
    leader: &Option<Box<Leader<C, Joint<C::NodeId>>>>,
    index: u64,
) -> Result<(), AllocError>
    ensures { OnOk result (core_of state.new output.new ≡ purge_to_index C.NodeId.cmp (rows_in (machine_of state.old output.old leader.now None)) index (core_of state.old output.old)) }
{
    let Some(last) = state.snap.last_log_id else {
        return Ok(());
    };
    if reaches(&state.purge_to, index) {
        return Ok(());
    }
    state.purge_to = state.get_log_id(index.min(last.index));
    try_purge_log(state, output, leader)?;
    Ok(())
}
