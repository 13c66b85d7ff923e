//! Building snapshots.

ghost use Rattle.std.specs.Prelude.{◌≡◌, ◌+◌, ◌^◌, ◌<◌, OnOk, IfOk, IfErr, IsOk, not, false, true};
ghost use Rattle.raft_state.specs.Fits.{fits, is_within};
ghost use Rattle.raft_command.specs.Ends.{Ends, is_memory};
ghost use Rattle.raft_steps.specs.Refusals.{refusals_of_trigger_snapshot};
ghost use Rattle.raft_handler_common.specs.Handlers.{SameSnapshotBorrows, view_of_snapshot};
ghost use Rattle.raft_steps.specs.Invariants.{StaysSound};
ghost use Rattle.raft_command.specs.declared.config.EngineConfig.{EngineConfig};
ghost use Rattle.raft_steps.specs.Parts.{core_of};
ghost use Rattle.raft_steps.specs.SnapshotHandler.{trigger_snapshot, snapshot_where_due, is_newer_snapshot, update_snapshot};

use crate::refusals::is_near_end;
use raft_command::{Command, EngineConfig, EngineOutput, sm};
use raft_error::EngineError;
use raft_state::{Node, NodeId, RaftState, RaftTypeConfig, SnapshotMeta};
use std::alloc::AllocError;

/// Triggers and records snapshots (openraft's `SnapshotHandler`).
#[derive(Drop)]
pub struct SnapshotHandler<'x, C: RaftTypeConfig> {
    pub state: &'x mut RaftState<C::NodeId, C::Node>,
    pub output: &'x mut EngineOutput<C>,
}

impl<C: RaftTypeConfig> SnapshotHandler<'_, C> {
    /// Triggers the building of a snapshot; if one is being built, answers false, and changes and allocates nothing.
    ///
    /// Refusals, in this order:
    /// - `Spent` after `OutOfMemory`,
    /// - `CounterEnd` if one would be built and sequence numbers are near their end.
    ///
    /// Source: openraft's `trigger_snapshot`.
    pub fn trigger_snapshot(&mut self) -> Result<bool, EngineError<C::NodeId, C::Node>>
        ensures borrows { SameSnapshotBorrows self.old self.new }
        ensures answer { IfOk result (λ begun. begun ≡ not self.old.state.now.building) }
        ensures free { self.old.state.now.building ≡ true → IfErr result (λ e. is_memory e ≡ false) }
        ensures step { Ends (refusals_of_trigger_snapshot (view_of_snapshot self.old)) result self.new.output.now
            (λ _. view_of_snapshot self.new ≡ trigger_snapshot (view_of_snapshot self.old))
            (view_of_snapshot self.old) (view_of_snapshot self.new) }
        ensures sound { (config : EngineConfig C.NodeId) → StaysSound C.NodeId.cmp config (view_of_snapshot self.old) (view_of_snapshot self.new) }
    {
        if self.output.is_spent() {
            return Err(EngineError::Spent);
        }
        let begins = !self.state.building;
        if begins && is_near_end(self.output.last_sm_seq()) {
            return Err(EngineError::CounterEnd);
        }
        let done = trigger_snapshot(self.state, self.output);
        self.output.settle(done)?;
        Ok(begins)
    }

    /// Records a snapshot that is above the recorded one; else answers false and changes nothing. The snapshot's last
    /// id, if any, must fit the log and be at or below the committed one. Allocates nothing.
    ///
    /// Source: openraft's `update_snapshot`.
    pub fn update_snapshot(&mut self, meta: SnapshotMeta<C::NodeId, C::Node>) -> bool
        requires fit { fits C.NodeId.cmp self.old.state.now.ids self.old.state.now.purged meta.last_log_id ≡ true }
        requires committed { is_within C.NodeId.cmp meta.last_log_id self.old.state.now.committed ≡ true }
        ensures borrows { SameSnapshotBorrows self.old self.new }
        ensures answer { result ≡ is_newer_snapshot C.NodeId.cmp self.old.state.now meta }
        ensures step { view_of_snapshot self.new ≡ update_snapshot C.NodeId.cmp meta (view_of_snapshot self.old) }
        ensures sound { (config : EngineConfig C.NodeId) → StaysSound C.NodeId.cmp config (view_of_snapshot self.old) (view_of_snapshot self.new) }
    {
        update_snapshot(self.state, self.output, meta)
    }
}

/// Whether a snapshot is above the recorded one.
fn is_newer<NID: NodeId, N: Node>(state: &RaftState<NID, N>, meta: &SnapshotMeta<NID, N>) -> bool
    ensures { result ≡ is_newer_snapshot NID.cmp state.now meta.now }
{
    meta.last_log_id > state.snap.last_log_id
}

/// Records a snapshot that is above the recorded one, and answers whether it is.
#[tactic(auto, unfolding(raft_steps::specs::SnapshotHandler::update_snapshot))]
pub fn update_snapshot<C: RaftTypeConfig>(
    state: &mut RaftState<C::NodeId, C::Node>,
    output: &EngineOutput<C>,
    meta: SnapshotMeta<C::NodeId, C::Node>,
) -> bool
    ensures answer { result ≡ is_newer_snapshot C.NodeId.cmp state.old meta }
    ensures step { core_of state.new output.now ≡ update_snapshot C.NodeId.cmp meta (core_of state.old output.now) }
{
    if is_newer(state, &meta) {
        state.snap = meta;
        true
    } else {
        false
    }
}

/// Triggers the building of a snapshot, if none is being built.
#[tactic(auto, unfolding(raft_steps::specs::SnapshotHandler::trigger_snapshot))]
pub fn trigger_snapshot<C: RaftTypeConfig>(
    state: &mut RaftState<C::NodeId, C::Node>,
    output: &mut EngineOutput<C>,
) -> Result<(), AllocError>
    requires { state.old.building ≡ false → output.old.seq + 1 < 2 ^ 64 }
    ensures free { state.old.building ≡ true → IsOk result }
    ensures step { OnOk result (core_of state.new output.new ≡ trigger_snapshot (core_of state.old output.old)) }
{
    if state.building {
        return Ok(());
    }
    state.building = true;
    output.try_push(Command::StateMachine {
        command: sm::Command {
            seq: 0,
            payload: sm::CommandPayload::BuildSnapshot,
        },
    })
}

/// Triggers the building of a snapshot if the policy asks for one.
#[tactic(auto, unfolding(raft_steps::specs::SnapshotHandler::snapshot_where_due))]
pub fn snapshot_where_due<C: RaftTypeConfig>(
    config: &EngineConfig<C::NodeId>,
    state: &mut RaftState<C::NodeId, C::Node>,
    output: &mut EngineOutput<C>,
) -> Result<(), AllocError>
    requires { output.old.seq + 1 < 2 ^ 64 }
    ensures { OnOk result (core_of state.new output.new ≡ snapshot_where_due config.now (core_of state.old output.old)) }
{
    if config.snapshot_policy.should_snapshot(state) {
        trigger_snapshot(state, output)?;
    }
    Ok(())
}
