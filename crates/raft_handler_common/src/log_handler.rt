//! Purges of the log.

ghost use Rattle.std.specs.Prelude.{◌≡◌, ◌+◌, OnOk, IfErr, Some, None, not, nat_lt, false, true};
ghost use Rattle.raft_state.specs.Fits.{fits, is_within};
ghost use Rattle.raft_state.specs.Order.{next};
ghost use Rattle.raft_state.specs.Policy.{saturating_add};
ghost use Rattle.raft_command.specs.Ends.{Ends, is_memory, refusals_of_spent};
ghost use Rattle.raft_handler_common.specs.Handlers.{view_of_log, SameLogBorrows};
ghost use Rattle.raft_steps.specs.Invariants.{StaysSound};
ghost use Rattle.raft_steps.specs.LogHandler.{calc_purge_upto, update_purge_upto, schedule_policy_based_purge, is_target_inflight};
ghost use Rattle.raft_steps.specs.LogHandler.{purge_log, try_purge_log};
ghost use Rattle.raft_steps.specs.Parts.{core_of, unboxed};

use crate::order::is_greater_id;
use raft_command::raft_progress_entry::ProgressEntry;
use raft_command::{Command, EngineConfig, EngineOutput};
use raft_error::EngineError;
use raft_proposer::Leader;
use raft_state::{LogId, Node, NodeId, RaftState, RaftTypeConfig};
use raft_steps::raft_progress::Joint;
use std::alloc::AllocError;

/// Purges the log (openraft's `LogHandler`).
#[derive(Drop)]
pub struct LogHandler<'x, C: RaftTypeConfig> {
    pub config: &'x EngineConfig<C::NodeId>,
    pub state: &'x mut RaftState<C::NodeId, C::Node>,
    pub output: &'x mut EngineOutput<C>,
}

impl<C: RaftTypeConfig> LogHandler<'_, C> {
    /// Purges the log up to its target, if this is above what was purged, and queues the command for it.
    ///
    /// Refusal: `Spent` after `OutOfMemory`. Source: openraft's `purge_log`; Raft paper, section 7.
    pub fn purge_log(&mut self) -> Result<(), EngineError<C::NodeId, C::Node>>
        ensures borrows { SameLogBorrows self.old self.new }
        ensures step { Ends (refusals_of_spent self.old.output.now) result self.new.output.now
            (λ _. view_of_log self.new ≡ purge_log C.NodeId.cmp (view_of_log self.old))
            (view_of_log self.old) (view_of_log self.new) }
        ensures sound { StaysSound C.NodeId.cmp self.old.config.now (view_of_log self.old) (view_of_log self.new) }
    {
        if self.output.is_spent() {
            return Err(EngineError::Spent);
        }
        let done = purge_log(self.state, self.output);
        self.output.settle(done)
    }

    /// Raises the purge target as the settings say: to what the snapshot covers, except the entries to keep, if that
    /// fills a batch. Purges and allocates nothing.
    ///
    /// Refusal: `Spent` after `OutOfMemory`. Source: openraft's `schedule_policy_based_purge`.
    pub fn schedule_policy_based_purge(&mut self) -> Result<(), EngineError<C::NodeId, C::Node>>
        ensures borrows { SameLogBorrows self.old self.new }
        ensures free { IfErr result (λ e. is_memory e ≡ false) }
        ensures step { Ends (refusals_of_spent self.old.output.now) result self.new.output.now
            (λ _. view_of_log self.new ≡ schedule_policy_based_purge C.NodeId.cmp self.old.config.now (view_of_log self.old))
            (view_of_log self.old) (view_of_log self.new) }
        ensures sound { StaysSound C.NodeId.cmp self.old.config.now (view_of_log self.old) (view_of_log self.new) }
    {
        if self.output.is_spent() {
            return Err(EngineError::Spent);
        }
        schedule_policy_based_purge(self.config, self.state, self.output);
        Ok(())
    }

    /// Sets the purge target. The id must fit the log, and lie between the present target and the snapshot's last id.
    /// Purges and allocates nothing.
    ///
    /// Refusal: `Spent` after `OutOfMemory`. Source: openraft's `update_purge_upto`.
    pub fn update_purge_upto(
        &mut self,
        purge_upto: LogId<C::NodeId>,
    ) -> Result<(), EngineError<C::NodeId, C::Node>>
        requires fit { fits C.NodeId.cmp self.old.state.now.ids self.old.state.now.purged (Some purge_upto) ≡ true }
        requires above { is_within C.NodeId.cmp self.old.state.now.purge_to (Some purge_upto) ≡ true }
        requires below { is_within C.NodeId.cmp (Some purge_upto) self.old.state.now.snap.last_log_id ≡ true }
        ensures borrows { SameLogBorrows self.old self.new }
        ensures free { IfErr result (λ e. is_memory e ≡ false) }
        ensures step { Ends (refusals_of_spent self.old.output.now) result self.new.output.now
            (λ _. view_of_log self.new ≡ update_purge_upto (Some purge_upto) (view_of_log self.old))
            (view_of_log self.old) (view_of_log self.new) }
        ensures sound { StaysSound C.NodeId.cmp self.old.config.now (view_of_log self.old) (view_of_log self.new) }
    {
        if self.output.is_spent() {
            return Err(EngineError::Spent);
        }
        self.state.purge_to = Some(purge_upto);
        Ok(())
    }

    /// The id up to which the settings purge the log: what the snapshot covers, except the entries to keep, if that
    /// fills a batch. Source: openraft's `calc_purge_upto`.
    pub fn calc_purge_upto(&self) -> Option<LogId<C::NodeId>>
        ensures { result ≡ calc_purge_upto self.now.config.now self.now.state.now }
    {
        calc_purge_upto(self.config, self.state)
    }
}

/// Purges the log up to its target, if this is above what was purged.
#[tactic(auto, unfolding(raft_steps::specs::LogHandler::purge_log))]
pub fn purge_log<C: RaftTypeConfig>(
    state: &mut RaftState<C::NodeId, C::Node>,
    output: &mut EngineOutput<C>,
) -> Result<(), AllocError>
    ensures { OnOk result (core_of state.new output.new ≡ purge_log C.NodeId.cmp (core_of state.old output.old)) }
{
    let Some(upto) = state.purge_to else {
        return Ok(());
    };
    if is_greater_id(&Some(upto), &state.purged) {
        state.purge_log(&upto)?;
        output.try_push(Command::PurgeLog { upto })?;
    }
    Ok(())
}

/// Purges the log up to its target, unless the target is in flight from the leader.
#[tactic(auto, unfolding(raft_steps::specs::LogHandler::try_purge_log))]
pub fn try_purge_log<C: RaftTypeConfig>(
    leader: &Leader<C, Joint<C::NodeId>>,
    state: &mut RaftState<C::NodeId, C::Node>,
    output: &mut EngineOutput<C>,
) -> Result<(), AllocError>
    ensures { OnOk result (core_of state.new output.new ≡ try_purge_log C.NodeId.cmp leader.now.progress.rows (core_of state.old output.old)) }
{
    let rows = leader.progress.rows()?;
    if is_target_inflight(state, &rows) {
        return Ok(());
    }
    purge_log(state, output)?;
    Ok(())
}

/// Whether the purge target is in flight to one of these nodes.
fn is_target_inflight<NID: NodeId, N: Node>(
    state: &RaftState<NID, N>,
    rows: &[(NID, ProgressEntry<NID>)],
) -> bool
    ensures { result ≡ is_target_inflight NID.cmp rows.now state.now }
{
    rows.iter()
        .any(|row| row.1.is_log_range_inflight(&state.purge_to))
}

/// Raises the purge target as the settings say.
#[tactic(auto, unfolding(raft_steps::specs::LogHandler::schedule_policy_based_purge))]
pub fn schedule_policy_based_purge<C: RaftTypeConfig>(
    config: &EngineConfig<C::NodeId>,
    state: &mut RaftState<C::NodeId, C::Node>,
    output: &EngineOutput<C>,
)
    ensures { core_of state.new output.now ≡ schedule_policy_based_purge C.NodeId.cmp config.now (core_of state.old output.now) }
{
    let target = calc_purge_upto(config, state);
    if is_greater_id(&target, &state.purge_to) {
        state.purge_to = target;
    }
}

/// The id up to which the settings purge the log, if that fills a batch.
fn calc_purge_upto<NID: NodeId, N: Node>(
    config: &EngineConfig<NID>,
    state: &RaftState<NID, N>,
) -> Option<LogId<NID>>
    ensures { result ≡ calc_purge_upto config.now state.now }
{
    let Some(last) = state.snap.last_log_id else {
        return None;
    };
    if last.index < config.max_in_snapshot_log_to_keep {
        return None;
    }
    let upto = last.index - config.max_in_snapshot_log_to_keep;
    if fills_batch(config, state, upto) {
        state.get_log_id(upto)
    } else {
        None
    }
}

/// Whether a purge up to an index fills a batch.
fn fills_batch<NID: NodeId, N: Node>(
    config: &EngineConfig<NID>,
    state: &RaftState<NID, N>,
    upto: u64,
) -> bool
    ensures { result ≡ not (nat_lt (upto + 1) (saturating_add (next state.now.purged) config.now.purge_batch_size)) }
{
    let first = match state.purged {
        Some(purged) => purged.index.saturating_add(1),
        None => 0,
    };
    first
        .saturating_add(config.purge_batch_size)
        .saturating_sub(1)
        <= upto
}
