//! How a node starts on its store.

ghost use Rattle.std.specs.Prelude.{◌≡◌, ◌++◌, ◌-◌, IfOk, OnOk, map, min, take};
ghost use Rattle.std.specs.Map.{values_of};
ghost use Rattle.std.specs.Option.{option_to_list};
ghost use Rattle.std.specs.Ordering.{nat_cmp};
ghost use Rattle.raft_state.specs.Log.{at};
ghost use Rattle.raft_state.specs.Order.{next};
ghost use Rattle.raft_state.specs.State.{is_found};
ghost use Rattle.raft_store.specs.Entries.{entry_meaning};
ghost use Rattle.raft_store.specs.Starting.{entries_of};
ghost use Rattle.raft_store.specs.Store.{past};
ghost use Rattle.proof_packed_stores.specs.Stores.{packed_committed, packed_memberships, packed_outrun};
ghost use Rattle.proof_packed_stores.specs.Stores.{packed_rebuilt, packed_rest, packed_restarted};
ghost use Rattle.proof_packed_stores.specs.Stores.{packed_settled, packed_started, packed_upto, packed_whole, with_entries};
ghost use Rattle.raft_packed.specs.Kept.{no_state};

use crate::error::PackedError;
use crate::machine::Machine;
use crate::store::PackedStore;
use crate::summary::{Summary, note};
use raft_state::{LogId, LogIds, RaftState, ServerState, StoredMembership, reaches};
use raft_store::Entry;
use std::alloc::{AllocError, Global};
use std::collections::BTreeMap;

/// The id at an index of the stored entries.
fn stored_at(stored: &BTreeMap<u64, Entry>, index: u64) -> Option<LogId<u64>>
    ensures { result ≡ at (map entry_meaning.id_of (values_of stored.now.entries)) index }
{
    stored
        .values()
        .map(|entry| entry.log_id)
        .find(|id| id.index == index)
}

/// The id at an index of a log.
fn id_at(log: &[&Entry], index: u64) -> Option<LogId<u64>>
    ensures { result ≡ at (map entry_meaning.id_of (entries_of log.now)) index }
{
    for entry in log {
        if entry.log_id.index == index {
            return Some(entry.log_id);
        }
    }
    None
}

/// Whether a log holds an id.
fn holds(log: &[&Entry], id: &LogId<u64>) -> bool
    ensures { result ≡ is_found nat_cmp (at (map entry_meaning.id_of (entries_of log.now)) id.now.index) id.now }
{
    match id_at(log, id.index) {
        Some(held) => held == *id,
        None => false,
    }
}

/// Adds the ids of the stored entries.
fn push_ids(stored: &BTreeMap<u64, Entry>, ids: &mut Vec<LogId<u64>>) -> Result<(), AllocError>
    ensures { OnOk result (ids.new.items ≡ ids.old.items ++ map entry_meaning.id_of (values_of stored.now.entries)) }
{
    for entry in stored.values() {
        ids.push(entry.log_id)?;
    }
    Ok(())
}

/// The ids of the stored entries, and before them the last purged one.
fn stored_ids(
    alloc: Global,
    front: &Option<LogId<u64>>,
    stored: &BTreeMap<u64, Entry>,
) -> Result<LogIds<u64>, AllocError>
    ensures { IfOk result (λ ids. ids ≡ option_to_list front.now ++ map entry_meaning.id_of (values_of stored.now.entries)) }
{
    let mut ids = Vec::new(alloc);
    if let Some(id) = front {
        ids.push(*id)?;
    }
    push_ids(stored, &mut ids)?;
    Ok(LogIds::from_vec(ids))
}

/// Adds the stored entries from an index on.
fn push_past<'a>(
    stored: &'a BTreeMap<u64, Entry>,
    from: u64,
    log: &mut Vec<&'a Entry>,
) -> Result<(), AllocError>
    ensures { OnOk result (entries_of log.new.items ≡ entries_of log.old.items ++ past from stored.now.entries) }
{
    for (_, entry) in stored.range(from..) {
        log.push(entry)?;
    }
    Ok(())
}

/// How many of so many entries from an index on stand up to the index of an id.
fn count_upto(last: &Option<LogId<u64>>, from: u64, len: usize) -> usize
    ensures { result ≡ min (next last.now - from) len }
{
    match last {
        Some(id) if from <= id.index => ((id.index - from) as usize).saturating_add(1).min(len),
        _ => 0,
    }
}

/// Copies of entries.
fn copy_all(alloc: Global, entries: &[&Entry]) -> Result<Vec<Entry>, AllocError>
    ensures { IfOk result (λ copied. copied.items ≡ entries_of entries.now) }
{
    let mut copied = Vec::new(alloc);
    for entry in entries {
        copied.push(entry.copy(alloc)?)?;
    }
    Ok(copied)
}

/// Copies of the entries above a snapshot's end, up to an id.
fn copy_upto(
    alloc: Global,
    end: u64,
    rest: &[&Entry],
    last: &Option<LogId<u64>>,
) -> Result<Vec<Entry>, AllocError>
    ensures { IfOk result (λ copied. copied.items ≡ take (next last.now - end) (entries_of rest.now)) }
{
    copy_all(alloc, &rest[..count_upto(last, end, rest.len())])
}

/// The committed and the effective membership after more entries: the one before the last, if there is one, and the last.
fn memberships_after(
    summary: &Summary,
    entries: &[&Entry],
) -> Result<(StoredMembership<u64, ()>, StoredMembership<u64, ()>), AllocError>
    ensures { IfOk result (λ found. found ≡ packed_memberships (with_entries no_state summary.now (entries_of entries.now))) }
{
    let mut before = summary.before.copy()?;
    let mut effective = summary.effective.copy()?;
    for entry in entries {
        note(entry, &mut before, &mut effective)?;
    }
    if before.log_id.is_none() {
        before = effective.copy()?;
    }
    Ok((before, effective))
}

impl<M: Machine> PackedStore<M> {
    /// Whether the stored entries don't have the snapshot's last one, nor is it purged.
    fn is_outrun(&self, last: &LogId<u64>) -> bool
        ensures { result ≡ packed_outrun M.application self.now.store last.now }
    {
        if reaches(&self.front, last.index) {
            return false;
        }
        match stored_at(&self.log, last.index) {
            Some(held) => held != *last,
            None => true,
        }
    }

    /// Drops stored entries that end before the snapshot, or contradict it, as after an install whose purge was not done: what a start makes
    /// of a disk.
    pub fn settle(&mut self)
        ensures { self.new ≡ record self.old { store = packed_settled M.application self.old.store } }
    {
        let Some(last) = self.meta.last_log_id else {
            return;
        };
        if self.is_outrun(&last) {
            self.log.clear();
            self.front = Some(last);
        }
    }

    /// The stored entries above the snapshot.
    fn rest(&self) -> Result<Vec<&Entry>, AllocError>
        ensures { IfOk result (λ log. entries_of log.items ≡ packed_rest self.now.store) }
    {
        let mut rest = Vec::new(self.alloc);
        push_past(&self.log, self.snapshot().end(), &mut rest)?;
        Ok(rest)
    }

    /// The id up to which a start commits: the snapshot's last one, or the saved one, if that counts, the stored entries above the snapshot
    /// hold it, and it is greater.
    fn start_committed(&self, saved: bool, rest: &[&Entry]) -> Option<LogId<u64>>
        requires { entries_of rest.now ≡ packed_rest self.now.store }
        ensures { result ≡ packed_committed M.application saved self.now.store }
    {
        let last = self.meta.last_log_id;
        let Some(id) = self.saved else {
            return last;
        };
        if saved && self.snapshot().end() <= id.index && holds(rest, &id) && last < self.saved {
            self.saved
        } else {
            last
        }
    }

    /// The state of an engine that starts on the store, with this committed id.
    #[tactic(auto, using(crate::proofs::Folded::memberships_by_parts))]
    fn rebuild(
        &self,
        rest: &[&Entry],
        committed: Option<LogId<u64>>,
    ) -> Result<RaftState<u64, ()>, AllocError>
        requires { entries_of rest.now ≡ packed_rest self.now.store }
        ensures { IfOk result (λ state. state ≡ packed_rebuilt M.application self.now.store committed) }
    {
        let (cm, em) = memberships_after(self.snapshot(), rest)?;
        Ok(RaftState {
            vote: self.vote,
            time: None,
            ids: stored_ids(self.alloc, &self.front, &self.log)?,
            purged: self.front,
            purge_to: self.front,
            committed,
            accepted_by: None,
            snap: self.meta.copy()?,
            cm,
            em,
            role: ServerState::Learner,
            building: false,
        })
    }

    /// The state of an engine that starts on a settled store, and the entries that its state machine has applied above the snapshot then.
    fn start(&self, saved: bool) -> Result<(RaftState<u64, ()>, Vec<Entry>), AllocError>
        ensures state { IfOk result (λ made. made.0
            ≡ packed_rebuilt M.application self.now.store (packed_committed M.application saved self.now.store)) }
        ensures applied { IfOk result (λ made. with_entries M.application self.now.store.snap made.1.items
            ≡ packed_upto M.application self.now.store (next (packed_committed M.application saved self.now.store))) }
    {
        let rest = self.rest()?;
        let committed = self.start_committed(saved, &rest);
        let state = self.rebuild(&rest, committed)?;
        let applied = copy_upto(self.alloc, self.snapshot().end(), &rest, &committed)?;
        Ok((state, applied))
    }

    /// Forgets the saved committed id.
    ///
    /// Source: Raft paper, figure 2 (the commit index is no persistent state).
    pub fn forget_committed(&mut self)
        ensures { self.new ≡ record self.old { store = record self.old.store { saved = None } } }
    {
        self.saved = None;
    }

    /// Starts a node on its store, and gives the state that its engine is to be made of.
    ///
    /// The vote is the saved one. Stored entries that the snapshot has outrun go: then its last id is the last purged one. Committed is the
    /// snapshot's last id, or with `saved` the saved committed id, if it is greater and the entries above the snapshot hold it; the state
    /// machine has applied the whole log up to there, and nothing is noted for a snapshot. The effective membership is the last one of the
    /// whole log, the committed one the one before it, or the same if there is only one. What was applied before isn't read, so a disk need
    /// not keep it. After an `Err` nothing is promised of the store.
    ///
    /// Source: Raft paper, figure 2 (a node resumes from its persistent state) and section 7.
    pub fn restart(&mut self, saved: bool) -> Result<RaftState<u64, ()>, PackedError>
        ensures stored { OnOk result (self.new ≡ record { store = packed_restarted M.application saved self.old.store; noted = None }) }
        ensures state { IfOk result (λ state. state ≡ packed_started M.application saved self.old.store) }
    {
        self.settle();
        let (state, applied) = self.start(saved)?;
        self.states.restart(applied)?;
        Ok(state)
    }
}
