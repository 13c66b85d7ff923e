//! How a follower handles a leader's entries.

ghost use Rattle.std.specs.Prelude.{◌≡◌, ◌==◌, ◌+◌, ◌^◌, ◌<◌, ◌≤◌, ◌++◌, OnOk, IfOk, length, drop, fold, map, true, false, [], None, if◌then◌else◌};
ghost use Rattle.std.specs.List.{prefix_len};
ghost use Rattle.raft_state.specs.Invariants.{IsSoundState};
ghost use Rattle.raft_state.specs.Log.{last};
ghost use Rattle.raft_state.specs.State.{accept, accepted};
ghost use Rattle.raft_command.specs.Ends.{Ends};
ghost use Rattle.raft_command.specs.Push.{with_command};
ghost use Rattle.raft_command.specs.declared.command.Command.TheVariants.{DeleteConflictLog};
ghost use Rattle.raft_steps.specs.Refusals.{refusals_of_do_append, has_index_end};
ghost use Rattle.raft_steps.specs.Conditions.{MayAppend};
ghost use Rattle.raft_handler_follower.specs.Handlers.{view_of_following, SameFollowingBorrows};
ghost use Rattle.raft_steps.specs.Invariants.{StaysSoundFollowing};
ghost use Rattle.raft_steps.specs.Laws.{later};
ghost use Rattle.raft_steps.specs.Parts.{core_of};
ghost use Rattle.raft_steps.specs.FollowingHandler.{with_membership_of, with_entries, memberships_in, do_append_entries, holds_previous};
ghost use Rattle.raft_steps.specs.FollowingHandler.{consecutive_answer, is_held, earlier, truncate_logs, truncate_for};
ghost use Rattle.raft_steps.specs.FollowingHandler.{ensure_log_consecutive, append_entries, commit_entries};
ghost use Rattle.raft_steps.specs.RequestRefusals.{refusals_of_consecutive, refusals_of_append_core, refusals_of_commit_core};
ghost use Rattle.raft_steps.specs.ServerStateHandler.{update_role};

use crate::request_refusals::{check_follow, check_held, has_index_end};
use raft_command::{Command, EngineConfig, EngineOutput};
use raft_error::EngineError;
use raft_handler_common::commit::commit_by;
use raft_handler_common::order::{is_greater_id, is_lower_id};
use raft_handler_common::refusals::is_near_end;
use raft_handler_common::server_state_handler::update_role;
use raft_state::{
    Items, LogId, NodeId, RaftEntry, RaftState, RaftTypeConfig, RejectAppendEntries,
    StoredMembership,
};
use std::alloc::AllocError;

/// Handles what a leader sends, on a node that follows (openraft's `FollowingHandler`).
#[derive(Drop)]
pub struct FollowingHandler<'x, C: RaftTypeConfig> {
    pub config: &'x EngineConfig<C::NodeId>,
    pub state: &'x mut RaftState<C::NodeId, C::Node>,
    pub output: &'x mut EngineOutput<C>,
}

impl<C: RaftTypeConfig> FollowingHandler<'_, C> {
    /// Appends a leader's entries after an id that is held: all are accepted, and the first one that isn't held, with
    /// those after it, replaces what the log has there. The vote must be the leader's.
    ///
    /// Refusals, in this order:
    /// - `Spent` after `OutOfMemory`,
    /// - `CounterEnd` if sequence numbers are near their end,
    /// - `IndexEnd` if an id has the greatest index,
    /// - `NotFollowing` if the ids aren't consecutive, or one is of a leader above the vote's,
    /// - `ContradictsHeld` if one contradicts what is committed, or what was accepted from the leader.
    ///
    /// Source: openraft's `append_entries`; Raft paper, figure 2 (AppendEntries, steps 3 and 4).
    pub fn append_entries(
        &mut self,
        prev_log_id: Option<LogId<C::NodeId>>,
        entries: Vec<C::Entry>,
    ) -> Result<(), EngineError<C::NodeId, C::Node>>
        requires held { holds_previous C.NodeId.cmp self.old.state.now prev_log_id ≡ true }
        requires sound { self.old.output.now.spent ≡ false → IsSoundState C.NodeId.cmp self.old.state.now }
        ensures borrows { SameFollowingBorrows self.old self.new }
        ensures step { Ends (refusals_of_append_core C.NodeId.cmp prev_log_id (map C.Entry.id_of entries.items) (view_of_following self.old)) result self.new.output.now
            (λ _. view_of_following self.new
            ≡ append_entries C.NodeId.cmp C.Entry.RaftEntry.own self.old.config.now prev_log_id entries.items (view_of_following self.old))
            (view_of_following self.old) (view_of_following self.new) }
        ensures sound { StaysSoundFollowing C.NodeId.cmp self.old.config.now (view_of_following self.old) (view_of_following self.new) }
    {
        if self.output.is_spent() {
            drop(entries);
            return Err(EngineError::Spent);
        }
        if is_near_end(self.output.last_sm_seq()) {
            drop(entries);
            return Err(EngineError::CounterEnd);
        }
        let vote = self.state.vote;
        if let Err(refused) = check_follow::<C>(self.state, &vote, &prev_log_id, &entries) {
            drop(entries);
            return Err(refused);
        }
        let done = append_entries(self.config, self.state, self.output, &prev_log_id, entries);
        self.output.settle(done)
    }

    /// Whether the id before a leader's entries is held; true without one. If it isn't held, the log is deleted from
    /// its index on. The vote must be the leader's.
    ///
    /// Refusals, in this order:
    /// - `Spent` after `OutOfMemory`,
    /// - `IndexEnd` if the id has the greatest index,
    /// - `NotFollowing` if it is of a leader above the vote's,
    /// - `ContradictsHeld` if it contradicts what is committed, or what was accepted from the leader.
    ///
    /// Source: openraft's `ensure_log_consecutive`; Raft paper, figure 2 (AppendEntries, steps 2 and 3).
    pub fn ensure_log_consecutive(
        &mut self,
        prev_log_id: Option<LogId<C::NodeId>>,
    ) -> Result<Result<(), RejectAppendEntries<C::NodeId>>, EngineError<C::NodeId, C::Node>>
        requires { self.old.output.now.spent ≡ false → IsSoundState C.NodeId.cmp self.old.state.now }
        ensures borrows { SameFollowingBorrows self.old self.new }
        ensures step { Ends (refusals_of_consecutive C.NodeId.cmp prev_log_id (view_of_following self.old)) result self.new.output.now
            (λ answer. (answer ≡ consecutive_answer C.NodeId.cmp self.old.state.now prev_log_id)
            × (view_of_following self.new ≡ ensure_log_consecutive C.NodeId.cmp self.old.config.now prev_log_id (view_of_following self.old)))
            (view_of_following self.old) (view_of_following self.new) }
        ensures sound { StaysSoundFollowing C.NodeId.cmp self.old.config.now (view_of_following self.old) (view_of_following self.new) }
    {
        if self.output.is_spent() {
            return Err(EngineError::Spent);
        }
        let vote = self.state.vote;
        check_follow::<C>(self.state, &vote, &prev_log_id, &[])?;
        let done = ensure_log_consecutive(self.config, self.state, self.output, &prev_log_id);
        self.output.settle(done)
    }

    /// Appends the entries from place `since` on after the last one, and puts their memberships into effect. They must
    /// be consecutive with the last log id, and no leader id may be above the vote's. Changes nothing without entries.
    ///
    /// Refusals, in this order:
    /// - `Spent` after `OutOfMemory`,
    /// - `IndexEnd` if one of them has the greatest index.
    ///
    /// Source: openraft's `do_append_entries`; Raft paper, section 5.3.
    pub fn do_append_entries(
        &mut self,
        entries: Vec<C::Entry>,
        since: usize,
    ) -> Result<(), EngineError<C::NodeId, C::Node>>
        requires place { since ≤ length entries.items }
        requires may { MayAppend C.NodeId.cmp C.Entry.RaftEntry.own self.old.state.now (drop since entries.items) }
        ensures borrows { SameFollowingBorrows self.old self.new }
        ensures step { Ends (refusals_of_do_append C.Entry.RaftEntry.own (drop since entries.items) (view_of_following self.old)) result self.new.output.now
            (λ _. view_of_following self.new ≡ do_append_entries C.NodeId.cmp C.Entry.RaftEntry.own self.old.config.now (drop since entries.items) (view_of_following self.old))
            (view_of_following self.old) (view_of_following self.new) }
        ensures sound { StaysSoundFollowing C.NodeId.cmp self.old.config.now (view_of_following self.old) (view_of_following self.new) }
    {
        if self.output.is_spent() {
            return Err(EngineError::Spent);
        }
        if has_index_end::<C>(&entries[since..]) {
            return Err(EngineError::IndexEnd);
        }
        let done = append_from(self.config, self.state, self.output, entries, since);
        self.output.settle(done)
    }

    /// Commits up to a leader's committed id, as far as this node has accepted from that leader, and triggers a
    /// snapshot if the policy asks for one. The vote must be the leader's.
    ///
    /// Refusals, in this order:
    /// - `Spent` after `OutOfMemory`,
    /// - `CounterEnd` if sequence numbers are near their end,
    /// - `CommittedNotHeld` if the log doesn't hold what would be committed.
    ///
    /// Source: openraft's `commit_entries`; Raft paper, figure 2 (AppendEntries, step 5).
    #[tactic(auto, using(raft_steps::proofs::Followed::counted))]
    pub fn commit_entries(
        &mut self,
        leader_committed: Option<LogId<C::NodeId>>,
    ) -> Result<(), EngineError<C::NodeId, C::Node>>
        requires { self.old.output.now.spent ≡ false → IsSoundState C.NodeId.cmp self.old.state.now }
        ensures borrows { SameFollowingBorrows self.old self.new }
        ensures step { Ends (refusals_of_commit_core C.NodeId.cmp leader_committed (view_of_following self.old)) result self.new.output.now
            (λ _. view_of_following self.new ≡ commit_entries C.NodeId.cmp self.old.config.now leader_committed (view_of_following self.old))
            (view_of_following self.old) (view_of_following self.new) }
        ensures sound { StaysSoundFollowing C.NodeId.cmp self.old.config.now (view_of_following self.old) (view_of_following self.new) }
    {
        if self.output.is_spent() {
            return Err(EngineError::Spent);
        }
        if is_near_end(self.output.last_sm_seq()) {
            return Err(EngineError::CounterEnd);
        }
        check_held(self.state, &leader_committed)?;
        let done = commit_entries(self.config, self.state, self.output, &leader_committed);
        self.output.settle(done)
    }
}

/// Appends entries after a held id: accepts all, and replaces what the log has from the first one on that isn't held.
#[tactic(auto, using(raft_steps::proofs::Named::prefix_low), unfolding(raft_steps::specs::FollowingHandler::append_entries))]
pub fn append_entries<C: RaftTypeConfig>(
    config: &EngineConfig<C::NodeId>,
    state: &mut RaftState<C::NodeId, C::Node>,
    output: &mut EngineOutput<C>,
    prev_log_id: &Option<LogId<C::NodeId>>,
    entries: Vec<C::Entry>,
) -> Result<(), AllocError>
    ensures { OnOk result (core_of state.new output.new
        ≡ append_entries C.NodeId.cmp C.Entry.RaftEntry.own config.now prev_log_id.now entries.items (core_of state.old output.old)) }
{
    let since = accept_entries::<C>(state, prev_log_id, &entries);
    truncate_for(config, state, output, &entries[since..])?;
    append_from(config, state, output, entries, since)
}

/// Accepts all entries after a held id; how many of them precede the first one that isn't held.
fn accept_entries<C: RaftTypeConfig>(
    state: &mut RaftState<C::NodeId, C::Node>,
    prev_log_id: &Option<LogId<C::NodeId>>,
    entries: &[C::Entry],
) -> usize
    ensures place { result ≡ prefix_len (is_held C.NodeId.cmp C.Entry.RaftEntry.own state.old) entries.now }
    ensures step { state.new ≡ accept C.NodeId.cmp state.old (later C.NodeId.cmp prev_log_id.now (last (map C.Entry.id_of entries.now))) }
{
    let since = count_held::<C>(state, entries);
    let last = later(*prev_log_id, last_of::<C>(entries));
    state.accept(&last);
    since
}

/// Deletes what the log has from the first of these entries on.
fn truncate_for<C: RaftTypeConfig>(
    config: &EngineConfig<C::NodeId>,
    state: &mut RaftState<C::NodeId, C::Node>,
    output: &mut EngineOutput<C>,
    entries: &[C::Entry],
) -> Result<(), AllocError>
    ensures { OnOk result (core_of state.new output.new
        ≡ truncate_for C.NodeId.cmp C.Entry.RaftEntry.own config.now entries.now (core_of state.old output.old)) }
{
    match entries {
        [] => Ok(()),
        [first, ..] => truncate_logs(config, state, output, first.get_log_id().index),
    }
}

/// How many entries precede the first one that isn't held (openraft's `first_conflicting_index`).
fn count_held<C: RaftTypeConfig>(
    state: &RaftState<C::NodeId, C::Node>,
    entries: &[C::Entry],
) -> usize
    ensures { result ≡ prefix_len (is_held C.NodeId.cmp C.Entry.RaftEntry.own state.now) entries.now }
{
    for (place, entry) in entries.iter().enumerate() {
        if !state.has_log_id(entry.get_log_id()) {
            return place;
        }
    }
    entries.len()
}

/// The id of the last entry.
fn last_of<C: RaftTypeConfig>(entries: &[C::Entry]) -> Option<LogId<C::NodeId>>
    ensures { result ≡ last (map C.Entry.id_of entries.now) }
{
    match entries {
        [] => None,
        [.., last] => Some(*last.get_log_id()),
    }
}

/// The entries from a place on.
fn entries_from<C: RaftTypeConfig>(
    entries: Vec<C::Entry>,
    since: usize,
) -> Result<Items<C::Entry>, AllocError>
    requires { since ≤ length entries.items }
    ensures { IfOk result (λ rest. rest ≡ drop since entries.items) }
{
    if since == 0 {
        return Ok(Items::from_vec(entries));
    }
    let mut entries = entries;
    let rest = entries.split_off(since)?;
    Ok(Items::from_vec(rest))
}

/// The later of two ids.
fn later<NID: NodeId>(a: Option<LogId<NID>>, b: Option<LogId<NID>>) -> Option<LogId<NID>>
    ensures { result ≡ later NID.cmp a b }
{
    if is_greater_id(&b, &a) { b } else { a }
}

/// The earlier of two ids.
pub fn earlier<NID: NodeId>(a: Option<LogId<NID>>, b: Option<LogId<NID>>) -> Option<LogId<NID>>
    ensures { result ≡ earlier NID.cmp a b }
{
    if is_lower_id(&b, &a) { b } else { a }
}

/// Whether the id before a leader's entries is held; true without one. If it isn't held, the log is deleted from its
/// index on.
#[tactic(auto, unfolding(raft_steps::specs::FollowingHandler::ensure_log_consecutive))]
pub fn ensure_log_consecutive<C: RaftTypeConfig>(
    config: &EngineConfig<C::NodeId>,
    state: &mut RaftState<C::NodeId, C::Node>,
    output: &mut EngineOutput<C>,
    prev_log_id: &Option<LogId<C::NodeId>>,
) -> Result<Result<(), RejectAppendEntries<C::NodeId>>, AllocError>
    ensures answer { IfOk result (λ answer. answer ≡ consecutive_answer C.NodeId.cmp state.old prev_log_id.now) }
    ensures step { OnOk result (core_of state.new output.new ≡ ensure_log_consecutive C.NodeId.cmp config.now prev_log_id.now (core_of state.old output.old)) }
{
    let Some(expect) = *prev_log_id else {
        return Ok(Ok(()));
    };
    if state.has_log_id(&expect) {
        return Ok(Ok(()));
    }
    let local = state.get_log_id(expect.index);
    truncate_logs(config, state, output, expect.index)?;
    Ok(Err(RejectAppendEntries::ByConflictingLogId { local, expect }))
}

/// Deletes the log from an index on, if it has an id there.
#[tactic(auto, unfolding(raft_steps::specs::FollowingHandler::truncate_logs))]
pub fn truncate_logs<C: RaftTypeConfig>(
    config: &EngineConfig<C::NodeId>,
    state: &mut RaftState<C::NodeId, C::Node>,
    output: &mut EngineOutput<C>,
    since: u64,
) -> Result<(), AllocError>
    ensures { OnOk result (core_of state.new output.new ≡ truncate_logs C.NodeId.cmp config.now since (core_of state.old output.old)) }
{
    let Some(first) = state.get_log_id(since) else {
        return Ok(());
    };
    let undone = state.truncate(since)?;
    push_delete(output, first)?;
    update_role_unless(!undone, config, state, output)
}

/// Queues a log's deletion from an id on.
fn push_delete<C: RaftTypeConfig>(
    output: &mut EngineOutput<C>,
    first: LogId<C::NodeId>,
) -> Result<(), AllocError>
    ensures { OnOk result (output.new ≡ with_command output.old (DeleteConflictLog first)) }
{
    output.try_push(Command::DeleteConflictLog { since: first })
}

/// Commits up to a leader's committed id, as far as this node has accepted.
#[tactic(auto, unfolding(raft_steps::specs::FollowingHandler::commit_entries, raft_steps::specs::Commit::commit_by))]
pub fn commit_entries<C: RaftTypeConfig>(
    config: &EngineConfig<C::NodeId>,
    state: &mut RaftState<C::NodeId, C::Node>,
    output: &mut EngineOutput<C>,
    leader_committed: &Option<LogId<C::NodeId>>,
) -> Result<(), AllocError>
    requires { output.old.seq + 2 < 2 ^ 64 }
    ensures { OnOk result (core_of state.new output.new ≡ commit_entries C.NodeId.cmp config.now leader_committed.now (core_of state.old output.old)) }
{
    let Some(upto) = earlier(state.accepted(), *leader_committed) else {
        return Ok(());
    };
    commit_by(config, state, output, false, upto)
}

/// Appends the entries from a place on after the last one.
fn append_from<C: RaftTypeConfig>(
    config: &EngineConfig<C::NodeId>,
    state: &mut RaftState<C::NodeId, C::Node>,
    output: &mut EngineOutput<C>,
    entries: Vec<C::Entry>,
    since: usize,
) -> Result<(), AllocError>
    requires { since ≤ length entries.items }
    ensures { OnOk result (core_of state.new output.new
        ≡ do_append_entries C.NodeId.cmp C.Entry.RaftEntry.own config.now (drop since entries.items) (core_of state.old output.old)) }
{
    let rest = entries_from::<C>(entries, since)?;
    do_append_entries(config, state, output, rest)?;
    Ok(())
}

/// Appends entries after the last one.
#[tactic(auto, unfolding(raft_steps::specs::FollowingHandler::do_append_entries))]
pub fn do_append_entries<C: RaftTypeConfig>(
    config: &EngineConfig<C::NodeId>,
    state: &mut RaftState<C::NodeId, C::Node>,
    output: &mut EngineOutput<C>,
    entries: Items<C::Entry>,
) -> Result<(), AllocError>
    ensures vote { OnOk result (state.new.vote ≡ state.old.vote) }
    ensures ids { OnOk result (state.new.ids ≡ state.old.ids ++ map C.Entry.id_of entries) }
    ensures step { OnOk result (core_of state.new output.new
        ≡ do_append_entries C.NodeId.cmp C.Entry.RaftEntry.own config.now entries (core_of state.old output.old)) }
{
    if entries.is_empty() {
        return Ok(());
    }
    take_entries::<C>(state, entries.as_slice())?;
    update_role_unless(
        has_no_membership::<C>(entries.as_slice()),
        config,
        state,
        output,
    )?;
    output.try_push(Command::AppendInputEntries {
        vote: state.vote,
        entries,
    })
}

/// Adds the ids of entries to the log, and puts their memberships into effect.
#[tactic(auto, using(raft_steps::proofs::Memberships::memberships_folded))]
fn take_entries<C: RaftTypeConfig>(
    state: &mut RaftState<C::NodeId, C::Node>,
    entries: &[C::Entry],
) -> Result<(), AllocError>
    ensures vote { OnOk result (state.new.vote ≡ state.old.vote) }
    ensures ids { OnOk result (state.new.ids ≡ state.old.ids ++ map C.Entry.id_of entries.now) }
    ensures step { OnOk result (state.new ≡ with_entries C.Entry.RaftEntry.own state.old entries.now) }
{
    state.extend_log_ids(entries)?;
    append_memberships::<C>(state, entries)
}

/// Whether no entry has a membership.
fn has_no_membership<C: RaftTypeConfig>(entries: &[C::Entry]) -> bool
    ensures { result ≡ (length (memberships_in C.Entry.RaftEntry.own entries.now) == 0) }
{
    for entry in entries {
        if entry.get_membership().is_some() {
            return false;
        }
    }
    true
}

/// Puts the memberships of entries into effect, one after another.
fn append_memberships<C: RaftTypeConfig>(
    state: &mut RaftState<C::NodeId, C::Node>,
    entries: &[C::Entry],
) -> Result<(), AllocError>
    ensures vote { OnOk result (state.new.vote ≡ state.old.vote) }
    ensures ids { OnOk result (state.new.ids ≡ state.old.ids) }
    ensures step { OnOk result (state.new ≡ fold (with_membership_of C.Entry.RaftEntry.own) state.old entries.now) }
{
    for entry in entries {
        append_membership_of::<C>(state, entry)?;
    }
    Ok(())
}

/// Puts the membership of an entry into effect, if it has one.
fn append_membership_of<C: RaftTypeConfig>(
    state: &mut RaftState<C::NodeId, C::Node>,
    entry: &C::Entry,
) -> Result<(), AllocError>
    ensures vote { OnOk result (state.new.vote ≡ state.old.vote) }
    ensures ids { OnOk result (state.new.ids ≡ state.old.ids) }
    ensures step { OnOk result (state.new ≡ with_membership_of C.Entry.RaftEntry.own state.old entry.now) }
{
    if let Some(membership) = entry.get_membership() {
        state.append_membership(StoredMembership {
            log_id: Some(*entry.get_log_id()),
            membership: membership.copy()?,
        });
    }
    Ok(())
}

/// Gives the node the role of its vote and effective membership, unless that membership is unchanged.
fn update_role_unless<C: RaftTypeConfig>(
    unchanged: bool,
    config: &EngineConfig<C::NodeId>,
    state: &mut RaftState<C::NodeId, C::Node>,
    output: &mut EngineOutput<C>,
) -> Result<(), AllocError>
    ensures step { OnOk result (core_of state.new output.new
        ≡ (if unchanged then core_of state.old output.old else update_role C.NodeId.cmp config.now (core_of state.old output.old))) }
    ensures vote { OnOk result (state.new.vote ≡ state.old.vote) }
    ensures ids { OnOk result (state.new.ids ≡ state.old.ids) }
{
    if unchanged {
        return Ok(());
    }
    update_role(config, state, output)
}
