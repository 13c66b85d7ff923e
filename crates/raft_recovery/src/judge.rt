//! Whether nodes have gone on: what a search finds is judged here, and here alone.

ghost use Rattle.std.specs.Prelude.{◌≡◌, ◌≤◌, ◌+◌, ◌-◌, ◌^◌, ◌∷◌, ◌↔◌, [], IfOk, Some, true, false, filter, min, slice_get};
ghost use Rattle.std.specs.List.{AllByRecursion};
ghost use Rattle.std.specs.Ordering.{nat_cmp};
ghost use Rattle.raft_state.specs.Members.{contains, voter_ids};
ghost use Rattle.raft_state.specs.Order.{next};
ghost use Rattle.raft_progress.specs.Quorum.{is_quorum};
ghost use Rattle.raft_store.specs.declared.entry.Payload.TheVariants as payloads;
ghost use Rattle.proof_progress.specs.Elections.{Listed};
ghost use Rattle.proof_progress.specs.GoesOn.{greatest_term, most_of};
ghost use Rattle.raft_recovery.specs.Choosing.{found_at};
ghost use Rattle.raft_recovery.specs.Recoveries.{HasApplied, HasExecutedAt, Recovers};

use crate::error::Failure;
use crate::premises::found_at;
use crate::starting::Found;
use raft_progress::{Joint, QuorumSet};
use raft_state::{LogId, Membership};
use raft_store::{Entry, Payload, Store, Value};
use raft_world::{Node, World};
use std::alloc::Global;

/// A copy of the entry that a state machine has applied at an index.
fn applied_at(store: &Store, index: u64) -> Result<Option<Entry>, Failure>
    ensures { IfOk result (λ entry. entry ≡ slice_get store.now.applied index) }
{
    let applied = store.copy_applied()?;
    match applied.get(index as usize) {
        None => Ok(None),
        Some(entry) => Ok(Some(entry.copy(store.allocator())?)),
    }
}

/// Whether an entry has a value.
fn has_value(entry: &Entry, value: &Value) -> Result<bool, Failure>
    ensures { IfOk result (λ has. (has ≡ true) ↔ (entry.now.payload ≡ payloads.Value value.now)) }
{
    let wanted = Entry {
        log_id: entry.log_id,
        payload: Payload::Value(value.copy()?),
    };
    Ok(entry.is_same(&wanted))
}

/// Whether a node has applied the entry with this id.
fn has_applied(world: &World, id: u64, log_id: &LogId<u64>) -> Result<bool, Failure>
    ensures { IfOk result (λ has. (has ≡ true) ↔ HasApplied world.now.history.net id log_id.now) }
{
    let Some(node) = world.node(id) else {
        return Ok(false);
    };
    match applied_at(node.store(), log_id.index)? {
        None => Ok(false),
        Some(entry) => Ok(entry.log_id == *log_id),
    }
}

/// Whether a node runs, and has executed a value in an entry at this id's index.
fn has_executed(world: &World, id: u64, log_id: &LogId<u64>, value: &Value) -> Result<bool, Failure>
    ensures { IfOk result (λ has. (has ≡ true) ↔ HasExecutedAt world.now.history.net log_id.now value.now id) }
{
    let Some(node) = world.node(id) else {
        return Ok(false);
    };
    if node.engine().is_none() {
        return Ok(false);
    }
    match applied_at(node.store(), log_id.index)? {
        None => Ok(false),
        Some(entry) => has_value(&entry, value),
    }
}

/// Whether all of these nodes have.
fn have_executed(
    world: &World,
    ids: &[u64],
    log_id: &LogId<u64>,
    value: &Value,
) -> Result<bool, Failure>
    ensures { IfOk result (λ have. (have ≡ true) ↔ AllByRecursion (HasExecutedAt world.now.history.net log_id.now value.now) ids.now) }
{
    match ids {
        [] => Ok(true),
        [id, rest @ ..] => {
            let has = has_executed(world, *id, log_id, value)?;
            if has {
                have_executed(world, rest, log_id, value)
            } else {
                Ok(false)
            }
        }
    }
}

/// The members of a membership among some nodes.
fn members_among(
    alloc: Global,
    up: &[u64],
    membership: &Membership<u64, ()>,
) -> Result<Vec<u64>, Failure>
    ensures { IfOk result (λ ids. ids.items ≡ filter (contains nat_cmp membership.now) up.now) }
{
    let mut ids = Vec::new(alloc);
    for id in up {
        if membership.contains(id) {
            ids.push(*id)?;
        }
    }
    Ok(ids)
}

/// Whether a node is a voter of a membership.
pub(crate) fn is_voter(membership: &Membership<u64, ()>, id: u64) -> bool
    ensures { (result ≡ true) ↔ Listed (voter_ids nat_cmp membership.now) id }
{
    membership.is_voter(&id) && membership.contains(&id)
}

/// Whether a node is a quorum alone.
fn is_alone(alloc: Global, membership: &Membership<u64, ()>, id: u64) -> Result<bool, Failure>
    ensures { IfOk result (λ is. is ≡ is_quorum nat_cmp membership.now.groups (id ∷ [])) }
{
    let groups = Joint::of_membership(alloc, membership)?;
    Ok(groups.is_quorum(&[id]))
}

/// The index after a log that ends with this id, or the greatest `u64`.
fn next_in(last: &Option<LogId<u64>>) -> u64
    ensures { result ≡ min (next last.now) (2 ^ 64 - 1) }
{
    match last {
        None => 0,
        Some(id) => id.index.saturating_add(1),
    }
}

/// Whether an index stands behind a log that ends with this id and behind a no-op entry: at once, or for a quorum alone at
/// any distance.
fn is_new(last: &Option<LogId<u64>>, index: u64, is_alone: bool) -> bool
    ensures new { result ≡ true → next last.now + 1 ≤ index }
    ensures first { result ≡ true → is_alone ≡ false → index ≡ next last.now + 1 }
    ensures exact { next last.now + 1 ≤ index → (is_alone ≡ false → index ≡ next last.now + 1) → result ≡ true }
{
    let behind = match last {
        None => index,
        Some(id) if id.index < index => index - id.index - 1,
        Some(_) => 0,
    };
    behind == 1 || (is_alone && behind > 1)
}

/// The greatest stored term.
pub(crate) fn greatest_term(nodes: &[Node]) -> u64
    ensures { result ≡ greatest_term nodes.now }
{
    match nodes {
        [] => 0,
        [node, rest @ ..] => node.store().vote().leader_id.term.max(greatest_term(rest)),
    }
}

/// The greatest number of events that it may take, or the greatest `u64`.
fn most_events(term: u64, up: u64, len: u64) -> u64
    ensures { result ≡ min (most_of term up up len) (2 ^ 64 - 1) }
{
    let each = len.saturating_mul(4).saturating_add(2);
    let votes = term.saturating_add(up.saturating_mul(3)).saturating_add(4);
    votes.saturating_add(up.saturating_mul(each))
}

/// Whether so many events are few.
fn are_few(nodes: &[Node], up: usize, last: &Option<LogId<u64>>, count: usize) -> bool
    ensures { (result ≡ true) ↔ (count ≤ most_of (greatest_term nodes.now) up up (next last.now + 1 + 1)) }
{
    let len = next_in(last).saturating_add(2);
    count as u64 <= most_events(greatest_term(nodes), up as u64, len)
}

/// Whether an entry with this id is a new one of a voter, by what that voter finds as it starts.
fn is_own(alloc: Global, found: &Found, log_id: &LogId<u64>) -> Result<bool, Failure>
    ensures votes { IfOk result (λ is. is ≡ true → Listed (voter_ids nat_cmp found.now.membership) log_id.now.leader_id.node_id) }
    ensures new { IfOk result (λ is. is ≡ true → next found.now.last + 1 ≤ log_id.now.index) }
    ensures first { IfOk result (λ is. is ≡ true
        → is_quorum nat_cmp found.now.membership.groups (log_id.now.leader_id.node_id ∷ []) ≡ false → log_id.now.index ≡ next found.now.last + 1) }
    ensures exact { IfOk result (λ is. Listed (voter_ids nat_cmp found.now.membership) log_id.now.leader_id.node_id
        → next found.now.last + 1 ≤ log_id.now.index
        → (is_quorum nat_cmp found.now.membership.groups (log_id.now.leader_id.node_id ∷ []) ≡ false → log_id.now.index ≡ next found.now.last + 1)
        → is ≡ true) }
{
    let id = log_id.leader_id.node_id;
    let is_alone = is_alone(alloc, &found.membership, id)?;
    Ok(is_voter(&found.membership, id) && is_new(&found.last, log_id.index, is_alone))
}

/// As `have_recovered`, by what the voter finds as it starts.
fn have_recovered_by(
    alloc: Global,
    old: &World,
    new: &World,
    up: &[u64],
    found: &Found,
    log_id: &LogId<u64>,
    value: &Value,
    count: usize,
) -> Result<bool, Failure>
    requires { found_at old.now.history.net.nodes log_id.now.leader_id.node_id ≡ Some found.now }
    ensures { IfOk result (λ have. (have ≡ true)
        ↔ Recovers old.now.given old.now.history.net new.now.history.net up.now log_id.now value.now count) }
{
    let id = log_id.leader_id.node_id;
    if !up.contains(&id) {
        return Ok(false);
    }
    if !are_few(old.nodes(), up.len(), &found.last, count) {
        return Ok(false);
    }
    let is_own = is_own(alloc, found, log_id)?;
    if !is_own {
        return Ok(false);
    }
    let has_applied = has_applied(new, id, log_id)?;
    if !has_applied {
        return Ok(false);
    }
    let has_executed = has_executed(new, id, log_id, value)?;
    if !has_executed {
        return Ok(false);
    }
    let others = members_among(alloc, up, &found.membership)?;
    have_executed(new, &others, log_id, value)
}

/// Whether a voter among these nodes, and all members of its membership among them, have executed a value in its new entry
/// with this id, so many events after a world.
pub(crate) fn have_recovered(
    alloc: Global,
    old: &World,
    new: &World,
    up: &[u64],
    log_id: &LogId<u64>,
    value: &Value,
    count: usize,
) -> Result<bool, Failure>
    ensures { IfOk result (λ have. (have ≡ true)
        ↔ Recovers old.now.given old.now.history.net new.now.history.net up.now log_id.now value.now count) }
{
    match found_at(old, log_id.leader_id.node_id)? {
        None => Ok(false),
        Some(found) => have_recovered_by(alloc, old, new, up, &found, log_id, value, count),
    }
}
