//! What a node's store gives to a bare start.

ghost use Rattle.std.specs.Prelude.{ℕ, ◌≡◌, ◌<◌, ◌^◌, ◌++◌, [], IfOk, Some, map};
ghost use Rattle.std.specs.List.{AllByRecursion};
ghost use Rattle.std.specs.Map.{values_of};
ghost use Rattle.std.specs.Option.{option_to_list};
ghost use Rattle.std.specs.Ordering.{nat_cmp};
ghost use Rattle.raft_state.specs.Log.{at, last};
ghost use Rattle.raft_state.specs.Order.{next};
ghost use Rattle.raft_store.specs.declared.entry.Entry.{Entry};
ghost use Rattle.raft_store.specs.Entries.{entry_meaning};
ghost use Rattle.raft_store.specs.Restart.{is_outrun, settled};
ghost use Rattle.raft_store.specs.Store.{whole};
ghost use Rattle.raft_recovery.specs.Starting.{found_in};

use crate::error::Failure;
use raft_state::{LeaderId, LogId, Membership, reaches};
use raft_store::{Entry, Store, meta_of, push_copies};
use std::alloc::Global;

/// What a bare start finds: the last id of the log, the effective membership, the last purged id, and what is committed.
#[derive(Drop)]
pub(crate) struct Found {
    pub last: Option<LogId<u64>>,
    pub membership: Membership<u64, ()>,
    pub purged: Option<LogId<u64>>,
    pub committed: Option<LogId<u64>>,
}

/// An id at an index; whose it is says nothing.
fn id_of_index(index: u64) -> LogId<u64>
    ensures { result.index ≡ index }
{
    LogId::new(LeaderId::new(0, 0), index)
}

/// An id that stands before an index, if any does.
fn id_before(index: usize) -> Option<LogId<u64>>
    ensures { next result ≡ index }
{
    if index == 0 {
        return None;
    }
    Some(id_of_index(index as u64 - 1))
}

/// Copies of all stored entries. (None has an index that is no `u64`: so none is left out.)
fn copy_stored(store: &Store) -> Result<Vec<Entry>, Failure>
    ensures entries { IfOk result (λ entries. entries.items ≡ values_of store.now.log) }
    ensures keys { IfOk result (λ _. AllByRecursion (λ (p : ℕ × Entry). p.0 < 2 ^ 64) store.now.log) }
{
    let entries = store.copy_range(&None, &Some(id_of_index(u64::MAX)))?;
    if entries.len() != store.map_len() {
        return Err(Failure::Full);
    }
    Ok(entries)
}

/// The snapshot's entries.
fn copy_snapshot(store: &Store) -> Result<Vec<Entry>, Failure>
    ensures { IfOk result (λ entries. entries.items ≡ store.now.snap) }
{
    let snapshot = store.copy_snapshot()?;
    Ok(snapshot.snapshot.into_vec())
}

/// The whole log: the snapshot's entries, and the stored ones above it.
fn copy_whole(store: &Store) -> Result<Vec<Entry>, Failure>
    requires { AllByRecursion (λ (p : ℕ × Entry). p.0 < 2 ^ 64) store.now.log }
    ensures { IfOk result (λ entries. entries.items ≡ whole store.now) }
{
    let mut entries = copy_snapshot(store)?;
    let above = store.copy_range(&id_before(entries.len()), &Some(id_of_index(u64::MAX)))?;
    push_copies(store.allocator(), &above, &mut entries)?;
    Ok(entries)
}

/// The id at an index of these entries.
fn id_at(entries: &[Entry], index: u64) -> Option<LogId<u64>>
    ensures { result ≡ at (map entry_meaning.id_of entries.now) index }
{
    entries
        .iter()
        .map(|entry| entry.log_id)
        .find(|id| id.index == index)
}

/// Whether the stored entries don't have the snapshot's last one, nor is it purged.
fn is_outrun(store: &Store, stored: &[Entry], last: &LogId<u64>) -> bool
    requires { stored.now ≡ values_of store.now.log }
    ensures { result ≡ is_outrun nat_cmp entry_meaning store.now last.now }
{
    if reaches(&store.front(), last.index) {
        return false;
    }
    match id_at(stored, last.index) {
        Some(held) => held != *last,
        None => true,
    }
}

/// The last id of a log: that of the last stored entry, or the last purged one.
fn last_of(front: Option<LogId<u64>>, stored: &[Entry]) -> Option<LogId<u64>>
    ensures { result ≡ last (option_to_list front ++ map entry_meaning.id_of stored.now) }
{
    match stored.last() {
        Some(entry) => Some(entry.log_id),
        None => front,
    }
}

/// What is found if the entries go on from the snapshot.
fn found_whole(store: &Store, stored: &[Entry]) -> Result<Found, Failure>
    requires entries { stored.now ≡ values_of store.now.log }
    requires keys { AllByRecursion (λ (p : ℕ × Entry). p.0 < 2 ^ 64) store.now.log }
    requires fit { settled nat_cmp entry_meaning store.now ≡ store.now }
    ensures { IfOk result (λ found. found ≡ found_in store.now) }
{
    let whole = copy_whole(store)?;
    let meta = meta_of(store.allocator(), &whole)?;
    Ok(Found {
        last: last_of(store.front(), stored),
        membership: meta.last_membership.membership,
        purged: store.front(),
        committed: store.snapshot_last(),
    })
}

/// What is found if the snapshot has outrun the entries: it is all that is left.
fn found_outrun(store: &Store, last: LogId<u64>) -> Result<Found, Failure>
    requires last { store.now.meta.last_log_id ≡ Some last }
    requires fit { settled nat_cmp entry_meaning store.now ≡ record store.now { log = []; front = Some last } }
    ensures { IfOk result (λ found. found ≡ found_in store.now) }
{
    let snapshot = copy_snapshot(store)?;
    let meta = meta_of(store.allocator(), &snapshot)?;
    Ok(Found {
        last: Some(last),
        membership: meta.last_membership.membership,
        purged: Some(last),
        committed: Some(last),
    })
}

/// What a bare start finds of a store (Raft paper, figure 2 and section 7).
pub(crate) fn found_in(store: &Store) -> Result<Found, Failure>
    ensures { IfOk result (λ found. found ≡ found_in store.now) }
{
    let stored = copy_stored(store)?;
    let Some(last) = store.snapshot_last() else {
        return found_whole(store, &stored);
    };
    if is_outrun(store, &stored, &last) {
        found_outrun(store, last)
    } else {
        found_whole(store, &stored)
    }
}
