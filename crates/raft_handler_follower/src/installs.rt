//! How a follower installs a leader's snapshot.

ghost use Rattle.std.specs.Prelude.{◌≡◌, ◌+◌, ◌^◌, ◌<◌, ◌&&◌, ◌||◌, nat_lt, OnOk, IfOk, IfErr, None, Some, false, if◌then◌else◌};
ghost use Rattle.std.specs.List.{list_any};
ghost use Rattle.std.specs.Option.{option_to_list};
ghost use Rattle.raft_state.specs.Fits.{is_within};
ghost use Rattle.raft_state.specs.Invariants.{IsSoundState};
ghost use Rattle.raft_state.specs.Log.{last};
ghost use Rattle.raft_state.specs.Order.{next};
ghost use Rattle.raft_state.specs.State.{accepted_under, has_log_id};
ghost use Rattle.raft_command.specs.Ends.{Ends, is_memory};
ghost use Rattle.raft_command.specs.Push.{ordered};
ghost use Rattle.raft_command.specs.declared.sm.CommandPayload.TheVariants.{InstallFullSnapshot};
ghost use Rattle.raft_handler_follower.specs.Handlers.{view_of_following, SameFollowingBorrows};
ghost use Rattle.raft_steps.specs.InstallRefusals.{undoes_committed, falls_short, is_unfit, refusals_of_fit, refusals_of_install_core};
ghost use Rattle.raft_steps.specs.Installs.{installs, has_other_at, replaces_log, membership_after, with_memberships_of, held_upto};
ghost use Rattle.raft_steps.specs.Installs.{truncate_contradicted, install_upto, install_full_snapshot, install_condition};
ghost use Rattle.raft_steps.specs.Invariants.{StaysSoundFollowing};
ghost use Rattle.raft_steps.specs.Parts.{core_of, with_state};
ghost use Rattle.raft_steps.specs.Refusals.{is_at_end};
ghost use Rattle.raft_steps.specs.ServerStateHandler.{update_role};

use crate::following_handler::{FollowingHandler, truncate_logs};
use crate::request_refusals::{accepted_under, is_above_committed, is_above_vote, is_at_end};
use raft_command::{Command, Condition, EngineConfig, EngineOutput, Snapshot, sm};
use raft_error::EngineError;
use raft_handler_common::log_handler::purge_log;
use raft_handler_common::order::is_greater_id;
use raft_handler_common::refusals::{is_below, is_near_end, is_within};
use raft_handler_common::server_state_handler::update_role;
use raft_state::{
    LogId, Node, NodeId, RaftState, RaftTypeConfig, SnapshotMeta, StoredMembership, Vote, reaches,
};
use std::alloc::AllocError;

impl<C: RaftTypeConfig> FollowingHandler<'_, C> {
    /// Installs a leader's snapshot if it is above the committed id and the recorded snapshot; answers what a reply has
    /// to wait for, or none if nothing is installed. The snapshot replaces the log up to its last id; if the log has
    /// another id there, it is deleted from that index on. Then the log is purged up to that id. The vote must be the
    /// leader's.
    ///
    /// Refusals, in this order:
    /// - `Spent` after `OutOfMemory`,
    /// - `CounterEnd` if sequence numbers are near their end,
    /// - `IndexEnd` if the last id has the greatest index,
    /// - `SnapshotUnfit` if the last id contradicts what is committed, the vote, or what was accepted from the leader,
    ///   or if the membership is above it.
    ///
    /// Source: openraft's `install_full_snapshot`; Raft paper, section 7.
    #[tactic(auto, using(raft_steps::proofs::Followed::counted))]
    pub fn install_full_snapshot(
        &mut self,
        snapshot: Snapshot<C>,
    ) -> Result<Option<Condition<C::NodeId>>, EngineError<C::NodeId, C::Node>>
        requires { self.old.output.now.spent ≡ false → IsSoundState C.NodeId.cmp self.old.state.now }
        ensures borrows { SameFollowingBorrows self.old self.new }
        ensures step { Ends (refusals_of_install_core C.NodeId.cmp snapshot.meta (view_of_following self.old)) result self.new.output.now
            (λ answer. (answer ≡ install_condition C.NodeId.cmp snapshot.meta (view_of_following self.old))
            × (view_of_following self.new ≡ install_full_snapshot C.NodeId.cmp self.old.config.now snapshot (view_of_following self.old)))
            (view_of_following self.old) (view_of_following self.new) }
        ensures sound { StaysSoundFollowing C.NodeId.cmp self.old.config.now (view_of_following self.old) (view_of_following self.new) }
    {
        if self.output.is_spent() {
            drop(snapshot);
            return Err(EngineError::Spent);
        }
        if is_near_end(self.output.last_sm_seq()) {
            drop(snapshot);
            return Err(EngineError::CounterEnd);
        }
        let vote = self.state.vote;
        if let Err(refused) = check_fit(self.state, &vote, &snapshot.meta) {
            drop(snapshot);
            return Err(refused);
        }
        let done = install_full_snapshot(self.config, self.state, self.output, snapshot);
        self.output.settle(done)
    }
}

/// Checks a snapshot's ids: that of its last entry, if it has one, and that of its membership.
pub fn check_fit<NID: NodeId, N: Node>(
    state: &RaftState<NID, N>,
    vote: &Vote<NID>,
    meta: &SnapshotMeta<NID, N>,
) -> Result<(), EngineError<NID, N>>
    ensures passed { OnOk result (refusals_of_fit NID.cmp state.now vote.now meta.now ≡ None) }
    ensures refused { IfErr result (λ e. (is_memory e ≡ false) × (refusals_of_fit NID.cmp state.now vote.now meta.now ≡ Some e)) }
{
    if ends_at_end(meta) {
        return Err(EngineError::IndexEnd);
    }
    if !is_within(&meta.last_membership.log_id, &meta.last_log_id) {
        return Err(EngineError::SnapshotUnfit);
    }
    if last_is_unfit(state, vote, meta) {
        return Err(EngineError::SnapshotUnfit);
    }
    Ok(())
}

/// Whether a snapshot's last id has the greatest index.
fn ends_at_end<NID: NodeId, N: Node>(meta: &SnapshotMeta<NID, N>) -> bool
    ensures { result ≡ list_any is_at_end (option_to_list meta.now.last_log_id) }
{
    match &meta.last_log_id {
        Some(id) => is_at_end(id),
        None => false,
    }
}

/// Whether a snapshot's last id contradicts what this node has.
fn last_is_unfit<NID: NodeId, N: Node>(
    state: &RaftState<NID, N>,
    vote: &Vote<NID>,
    meta: &SnapshotMeta<NID, N>,
) -> bool
    ensures { result ≡ list_any (is_unfit NID.cmp state.now vote.now meta.now) (option_to_list meta.now.last_log_id) }
{
    match &meta.last_log_id {
        Some(id) => is_above_committed(state, id)
            || is_above_vote(vote, id)
            || undoes_committed(state, meta, id)
            || falls_short(state, vote, id),
        None => false,
    }
}

/// Whether an install would delete a committed membership above the snapshot.
fn undoes_committed<NID: NodeId, N: Node>(
    state: &RaftState<NID, N>,
    meta: &SnapshotMeta<NID, N>,
    id: &LogId<NID>,
) -> bool
    ensures { result ≡ undoes_committed NID.cmp state.now meta.now id.now }
{
    installs(state, meta) && has_other_at(state, id) && is_behind(id, &state.cm.log_id)
}

/// Whether an id is neither held nor above what was accepted from this vote's leader.
fn falls_short<NID: NodeId, N: Node>(
    state: &RaftState<NID, N>,
    vote: &Vote<NID>,
    id: &LogId<NID>,
) -> bool
    ensures { result ≡ falls_short NID.cmp state.now vote.now id.now }
{
    let accepted = accepted_under(state, vote);
    accepted.is_some() && !state.has_log_id(id) && !is_below(&accepted, &Some(*id))
}

/// Whether the index of an id is below another's.
fn is_behind<NID: NodeId>(id: &LogId<NID>, other: &Option<LogId<NID>>) -> bool
    ensures { result ≡ nat_lt (id.now.index + 1) (next other.now) }
{
    match other {
        Some(other) => id.index < other.index,
        None => false,
    }
}

/// Whether a snapshot is above the committed id and the recorded snapshot.
fn installs<NID: NodeId, N: Node>(state: &RaftState<NID, N>, meta: &SnapshotMeta<NID, N>) -> bool
    ensures { result ≡ installs NID.cmp state.now meta.now }
{
    is_greater_id(&meta.last_log_id, &state.committed)
        && is_greater_id(&meta.last_log_id, &state.snap.last_log_id)
}

/// The last id of a snapshot that is installed.
fn last_installed<NID: NodeId, N: Node>(
    state: &RaftState<NID, N>,
    meta: &SnapshotMeta<NID, N>,
) -> Option<LogId<NID>>
    ensures { result ≡ (if installs NID.cmp state.now meta.now then meta.now.last_log_id else None) }
{
    if installs(state, meta) {
        meta.last_log_id
    } else {
        None
    }
}

/// Whether the log has another id at this one's index.
fn has_other_at<NID: NodeId, N: Node>(state: &RaftState<NID, N>, id: &LogId<NID>) -> bool
    ensures { result ≡ has_other_at NID.cmp state.now id.now }
{
    match state.get_log_id(id.index) {
        Some(held) => held != *id,
        None => false,
    }
}

/// Whether an install leaves nothing of the log: it has another id at the snapshot's last index, or ends below it.
fn replaces_log<NID: NodeId, N: Node>(state: &RaftState<NID, N>, id: &LogId<NID>) -> bool
    ensures { result ≡ replaces_log NID.cmp state.now id.now }
{
    has_other_at(state, id) || !reaches(&state.last_log_id(), id.index)
}

/// The membership after an install: one above the snapshot's last id stays, another is replaced by the snapshot's.
fn membership_after<NID: NodeId, N: Node>(
    snapshots: &StoredMembership<NID, N>,
    last: &LogId<NID>,
    present: &StoredMembership<NID, N>,
    gone: bool,
) -> Result<StoredMembership<NID, N>, AllocError>
    ensures { IfOk result (λ m. m ≡ (if gone then snapshots.now else membership_after snapshots.now last.now present.now)) }
{
    if !gone && is_behind(last, &present.log_id) {
        present.copy()
    } else {
        snapshots.copy()
    }
}

/// Sets a state's memberships to those after an install.
fn take_memberships<NID: NodeId, N: Node>(
    state: &mut RaftState<NID, N>,
    snapshots: &StoredMembership<NID, N>,
    last: &LogId<NID>,
    gone: bool,
) -> Result<(), AllocError>
    ensures { OnOk result (state.new ≡ with_memberships_of snapshots.now last.now gone state.old) }
{
    state.cm = membership_after(snapshots, last, &state.cm, gone)?;
    state.em = membership_after(snapshots, last, &state.em, gone)?;
    Ok(())
}

/// Deletes a log that contradicts a snapshot's last id, from its index on.
fn truncate_contradicted<C: RaftTypeConfig>(
    config: &EngineConfig<C::NodeId>,
    state: &mut RaftState<C::NodeId, C::Node>,
    output: &mut EngineOutput<C>,
    last: &LogId<C::NodeId>,
) -> Result<(), AllocError>
    ensures { OnOk result (core_of state.new output.new ≡ truncate_contradicted C.NodeId.cmp config.now last.now (core_of state.old output.old)) }
{
    if has_other_at(state, last) {
        truncate_logs(config, state, output, last.index)?;
    }
    Ok(())
}

/// Installs a snapshot up to its last id.
#[tactic(auto, unfolding(raft_steps::specs::Installs::install_upto))]
fn install_upto<C: RaftTypeConfig>(
    config: &EngineConfig<C::NodeId>,
    state: &mut RaftState<C::NodeId, C::Node>,
    output: &mut EngineOutput<C>,
    last: LogId<C::NodeId>,
    snapshot: Snapshot<C>,
) -> Result<(), AllocError>
    requires number { output.old.seq + 1 < 2 ^ 64 }
    ensures { OnOk result (core_of state.new output.new ≡ install_upto C.NodeId.cmp config.now last snapshot (core_of state.old output.old)) }
{
    take_contents(config, state, output, &last, &snapshot.meta)?;
    push_install(output, snapshot)?;
    state.purge_to = Some(last);
    purge_log(state, output)
}

/// Takes what a snapshot has up to its last id: its record, its log and its memberships.
fn take_contents<C: RaftTypeConfig>(
    config: &EngineConfig<C::NodeId>,
    state: &mut RaftState<C::NodeId, C::Node>,
    output: &mut EngineOutput<C>,
    last: &LogId<C::NodeId>,
    meta: &SnapshotMeta<C::NodeId, C::Node>,
) -> Result<(), AllocError>
    ensures number { OnOk result (output.new.seq ≡ output.old.seq) }
    ensures step { OnOk result (core_of state.new output.new
        ≡ (let cut = truncate_contradicted C.NodeId.cmp config.now last.now (core_of (record state.old { snap = meta.now }) output.old) in
        update_role C.NodeId.cmp config.now (with_state cut (with_memberships_of meta.now.last_membership last.now (replaces_log C.NodeId.cmp state.old last.now) (held_upto C.NodeId.cmp last.now cut.state))))) }
{
    let gone = replaces_log(state, last);
    take_record(state, meta)?;
    truncate_contradicted(config, state, output, last)?;
    hold_upto(state, last);
    take_memberships(state, &meta.last_membership, last, gone)?;
    update_role(config, state, output)
}

/// Records a snapshot.
fn take_record<NID: NodeId, N: Node>(
    state: &mut RaftState<NID, N>,
    meta: &SnapshotMeta<NID, N>,
) -> Result<(), AllocError>
    ensures { OnOk result (state.new ≡ record state.old { snap = meta.now }) }
{
    state.snap = meta.copy()?;
    Ok(())
}

/// Accepts and commits a snapshot's contents.
fn hold_upto<NID: NodeId, N: Node>(state: &mut RaftState<NID, N>, last: &LogId<NID>)
    ensures { state.new ≡ held_upto NID.cmp last.now state.old }
{
    state.accept(&Some(*last));
    state.committed = Some(*last);
}

/// Queues a snapshot's install.
fn push_install<C: RaftTypeConfig>(
    output: &mut EngineOutput<C>,
    snapshot: Snapshot<C>,
) -> Result<(), AllocError>
    requires { output.old.seq + 1 < 2 ^ 64 }
    ensures { OnOk result (output.new ≡ ordered output.old (InstallFullSnapshot snapshot)) }
{
    output.try_push(Command::StateMachine {
        command: sm::Command::install_full_snapshot(snapshot),
    })
}

/// Installs a snapshot that is above the committed id and the recorded one; answers what a reply has to wait for.
#[tactic(auto, unfolding(raft_steps::specs::Installs::install_full_snapshot))]
pub fn install_full_snapshot<C: RaftTypeConfig>(
    config: &EngineConfig<C::NodeId>,
    state: &mut RaftState<C::NodeId, C::Node>,
    output: &mut EngineOutput<C>,
    snapshot: Snapshot<C>,
) -> Result<Option<Condition<C::NodeId>>, AllocError>
    requires number { output.old.seq + 1 < 2 ^ 64 }
    ensures answer { IfOk result (λ answer. answer ≡ install_condition C.NodeId.cmp snapshot.meta (core_of state.old output.old)) }
    ensures step { OnOk result (core_of state.new output.new ≡ install_full_snapshot C.NodeId.cmp config.now snapshot (core_of state.old output.old)) }
{
    let Some(last) = last_installed(state, &snapshot.meta) else {
        drop(snapshot);
        return Ok(None);
    };
    let command_seq = output.last_sm_seq() + 1;
    install_upto(config, state, output, last, snapshot)?;
    Ok(Some(Condition::StateMachineCommand { command_seq }))
}
