//! The refusals of leaders' requests, checked before anything changes.

ghost use Rattle.std.specs.Prelude.{◌≡◌, ◌==◌, ◌&&◌, ◌++◌, OnOk, IfErr, None, Some, map, false};
ghost use Rattle.std.specs.List.{list_any};
ghost use Rattle.std.specs.Option.{option_to_list};
ghost use Rattle.raft_state.specs.Consecutive.{follows_on};
ghost use Rattle.raft_state.specs.Log.{at};
ghost use Rattle.raft_state.specs.Order.{last_id_cmp, next};
ghost use Rattle.std.specs.Ordering.{is_lt};
ghost use Rattle.raft_state.specs.State.{accepted_under, is_found};
ghost use Rattle.raft_command.specs.Ends.{is_memory};
ghost use Rattle.raft_steps.specs.Refusals.{is_at_end, has_index_end};
ghost use Rattle.raft_steps.specs.RequestRefusals.{is_above_vote, is_above_committed, contradicts_committed, contradicts_accepted};
ghost use Rattle.raft_steps.specs.RequestRefusals.{refusals_of_follow, is_missing, refusals_of_held};

use crate::following_handler::earlier;
use raft_error::EngineError;
use raft_handler_common::order::{is_greater_id, is_lower_id};
use raft_handler_common::refusals::is_found;
use raft_state::{LogId, Node, NodeId, RaftEntry, RaftState, RaftTypeConfig, Vote, reaches};

/// Checks an append's ids: the one before its entries, if any, and theirs.
pub fn check_follow<C: RaftTypeConfig>(
    state: &RaftState<C::NodeId, C::Node>,
    vote: &Vote<C::NodeId>,
    prev: &Option<LogId<C::NodeId>>,
    entries: &[C::Entry],
) -> Result<(), EngineError<C::NodeId, C::Node>>
    ensures passed { OnOk result (refusals_of_follow C.NodeId.cmp state.now vote.now prev.now (map C.Entry.id_of entries.now) ≡ None) }
    ensures refused { IfErr result (λ e. (is_memory e ≡ false) × (refusals_of_follow C.NodeId.cmp state.now vote.now prev.now (map C.Entry.id_of entries.now) ≡ Some e)) }
{
    if any_at_end::<C>(prev, entries) {
        return Err(EngineError::IndexEnd);
    }
    if !follows_on::<C>(prev, entries) {
        return Err(EngineError::NotFollowing);
    }
    if any_above_vote::<C>(vote, prev, entries) {
        return Err(EngineError::NotFollowing);
    }
    if previous_is_above_committed(state, prev) {
        return Err(EngineError::ContradictsHeld);
    }
    if any_contradicts_committed::<C>(state, entries) {
        return Err(EngineError::ContradictsHeld);
    }
    if any_contradicts_accepted::<C>(state, vote, prev, entries) {
        return Err(EngineError::ContradictsHeld);
    }
    Ok(())
}

/// Whether the previous id or one of the entries has the greatest index.
#[tactic(auto, using(raft_steps::proofs::Named::any_id))]
fn any_at_end<C: RaftTypeConfig>(prev: &Option<LogId<C::NodeId>>, entries: &[C::Entry]) -> bool
    ensures { result ≡ list_any is_at_end (option_to_list prev.now ++ map C.Entry.id_of entries.now) }
{
    match prev {
        Some(id) => is_at_end(id) || has_index_end::<C>(entries),
        None => has_index_end::<C>(entries),
    }
}

/// Whether the entries' ids are consecutive with the previous one, by index and by order.
fn follows_on<C: RaftTypeConfig>(prev: &Option<LogId<C::NodeId>>, entries: &[C::Entry]) -> bool
    ensures { result ≡ follows_on C.NodeId.cmp prev.now (map C.Entry.id_of entries.now) }
{
    let mut before = *prev;
    for entry in entries {
        let id = *entry.get_log_id();
        if !follows(&before, &id) {
            return false;
        }
        before = Some(id);
    }
    true
}

/// Whether an id has the index after a previous one, and is above it.
fn follows<NID: NodeId>(prev: &Option<LogId<NID>>, id: &LogId<NID>) -> bool
    ensures { result ≡ ((id.now.index == next prev.now) && is_lt (last_id_cmp NID.cmp prev.now (Some id.now))) }
{
    is_next(prev, id.index) && is_lower_id(prev, &Some(*id))
}

/// Whether an index is the one after an id's, or 0 without one.
fn is_next<NID: NodeId>(prev: &Option<LogId<NID>>, index: u64) -> bool
    ensures { result ≡ (index == next prev.now) }
{
    match prev {
        Some(last) => last.index < index && index - last.index == 1,
        None => index == 0,
    }
}

/// Whether the previous id or one of the entries is of a leader above the vote's.
fn any_above_vote<C: RaftTypeConfig>(
    vote: &Vote<C::NodeId>,
    prev: &Option<LogId<C::NodeId>>,
    entries: &[C::Entry],
) -> bool
    ensures { result ≡ list_any (is_above_vote C.NodeId.cmp vote.now) (option_to_list prev.now ++ map C.Entry.id_of entries.now) }
{
    match prev {
        Some(id) => is_above_vote(vote, id) || entry_above_vote::<C>(vote, entries),
        None => entry_above_vote::<C>(vote, entries),
    }
}

/// Whether the previous id is at or below the committed index, and above the committed id.
fn previous_is_above_committed<NID: NodeId, N: Node>(
    state: &RaftState<NID, N>,
    prev: &Option<LogId<NID>>,
) -> bool
    ensures { result ≡ list_any (is_above_committed NID.cmp state.now) (option_to_list prev.now) }
{
    match prev {
        Some(id) => is_above_committed(state, id),
        None => false,
    }
}

/// Whether the previous id or one of the entries contradicts what was accepted from the vote's leader.
fn any_contradicts_accepted<C: RaftTypeConfig>(
    state: &RaftState<C::NodeId, C::Node>,
    vote: &Vote<C::NodeId>,
    prev: &Option<LogId<C::NodeId>>,
    entries: &[C::Entry],
) -> bool
    ensures { result ≡ list_any (contradicts_accepted C.NodeId.cmp state.now vote.now) (option_to_list prev.now ++ map C.Entry.id_of entries.now) }
{
    match prev {
        Some(id) => contradicts_accepted(state, vote, id)
            || entry_contradicts_accepted::<C>(state, vote, entries),
        None => entry_contradicts_accepted::<C>(state, vote, entries),
    }
}

/// Whether an entry has the greatest index.
pub(crate) fn has_index_end<C: RaftTypeConfig>(entries: &[C::Entry]) -> bool
    ensures { result ≡ has_index_end C.Entry.RaftEntry.own entries.now }
{
    for entry in entries {
        if is_at_end(entry.get_log_id()) {
            return true;
        }
    }
    false
}

/// Whether an entry is of a leader above a vote's.
fn entry_above_vote<C: RaftTypeConfig>(vote: &Vote<C::NodeId>, entries: &[C::Entry]) -> bool
    ensures { result ≡ list_any (is_above_vote C.NodeId.cmp vote.now) (map C.Entry.id_of entries.now) }
{
    for entry in entries {
        if is_above_vote(vote, entry.get_log_id()) {
            return true;
        }
    }
    false
}

/// Whether an entry contradicts what is committed.
fn any_contradicts_committed<C: RaftTypeConfig>(
    state: &RaftState<C::NodeId, C::Node>,
    entries: &[C::Entry],
) -> bool
    ensures { result ≡ list_any (contradicts_committed C.NodeId.cmp state.now) (map C.Entry.id_of entries.now) }
{
    for entry in entries {
        if contradicts_committed(state, entry.get_log_id()) {
            return true;
        }
    }
    false
}

/// Whether an entry contradicts what was accepted from a vote's leader.
fn entry_contradicts_accepted<C: RaftTypeConfig>(
    state: &RaftState<C::NodeId, C::Node>,
    vote: &Vote<C::NodeId>,
    entries: &[C::Entry],
) -> bool
    ensures { result ≡ list_any (contradicts_accepted C.NodeId.cmp state.now vote.now) (map C.Entry.id_of entries.now) }
{
    for entry in entries {
        if contradicts_accepted(state, vote, entry.get_log_id()) {
            return true;
        }
    }
    false
}

/// Whether an id has the greatest index.
pub(crate) fn is_at_end<NID: NodeId>(id: &LogId<NID>) -> bool
    ensures { result ≡ is_at_end id.now }
{
    id.index >= u64::MAX
}

/// Whether an id is of a leader above a vote's.
pub(crate) fn is_above_vote<NID: NodeId>(vote: &Vote<NID>, id: &LogId<NID>) -> bool
    ensures { result ≡ is_above_vote NID.cmp vote.now id.now }
{
    id.leader_id > vote.leader_id
}

/// Whether an id is at or below the committed index, and above the committed id.
pub(crate) fn is_above_committed<NID: NodeId, N: Node>(
    state: &RaftState<NID, N>,
    id: &LogId<NID>,
) -> bool
    ensures { result ≡ is_above_committed NID.cmp state.now id.now }
{
    reaches(&state.committed, id.index) && is_greater_id(&Some(*id), &state.committed)
}

/// Whether an entry's id contradicts what is committed.
fn contradicts_committed<NID: NodeId, N: Node>(state: &RaftState<NID, N>, id: &LogId<NID>) -> bool
    ensures { result ≡ contradicts_committed NID.cmp state.now id.now }
{
    let above = is_greater_id(&Some(*id), &state.committed);
    if reaches(&state.committed, id.index) {
        above
    } else {
        !above
    }
}

/// Whether an id isn't held, though its index was accepted from the vote's leader.
fn contradicts_accepted<NID: NodeId, N: Node>(
    state: &RaftState<NID, N>,
    vote: &Vote<NID>,
    id: &LogId<NID>,
) -> bool
    ensures { result ≡ contradicts_accepted NID.cmp state.now vote.now id.now }
{
    reaches(&accepted_under(state, vote), id.index) && !state.has_log_id(id)
}

/// The last id that was accepted from the vote's leader.
pub(crate) fn accepted_under<NID: NodeId, N: Node>(
    state: &RaftState<NID, N>,
    vote: &Vote<NID>,
) -> Option<LogId<NID>>
    ensures { result ≡ accepted_under NID.cmp vote.now.leader_id state.now.accepted_by }
{
    match &state.accepted_by {
        Some((leader, id)) if *leader == vote.leader_id => Some(*id),
        _ => None,
    }
}

/// Checks that the log holds what a leader's committed id would newly commit.
pub fn check_held<NID: NodeId, N: Node>(
    state: &RaftState<NID, N>,
    leader_committed: &Option<LogId<NID>>,
) -> Result<(), EngineError<NID, N>>
    ensures passed { OnOk result (refusals_of_held NID.cmp state.now leader_committed.now ≡ None) }
    ensures refused { IfErr result (λ e. (is_memory e ≡ false) × (refusals_of_held NID.cmp state.now leader_committed.now ≡ Some e)) }
{
    if is_missing(state, &earlier(state.accepted(), *leader_committed)) {
        return Err(EngineError::CommittedNotHeld);
    }
    Ok(())
}

/// Whether an id would be newly committed, but isn't in the log.
fn is_missing<NID: NodeId, N: Node>(state: &RaftState<NID, N>, id: &Option<LogId<NID>>) -> bool
    ensures { result ≡ is_missing NID.cmp state.now id.now }
{
    match id {
        Some(id) => is_greater_id(&Some(*id), &state.committed) && !is_found(state, id),
        None => false,
    }
}
