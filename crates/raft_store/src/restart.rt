//! How a node starts on its store.

ghost use Rattle.std.specs.Prelude.{◌≡◌, ◌++◌, IfOk, OnOk, map, min, take};
ghost use Rattle.std.specs.Map.{values_of};
ghost use Rattle.std.specs.Option.{option_to_list};
ghost use Rattle.std.specs.Ordering.{nat_cmp};
ghost use Rattle.raft_state.specs.Log.{at};
ghost use Rattle.raft_state.specs.Order.{next};
ghost use Rattle.raft_state.specs.State.{is_found};
ghost use Rattle.raft_store.specs.Entries.{entry_meaning};
ghost use Rattle.raft_store.specs.Restart.{forgotten, is_outrun, memberships_of, settled, start_committed, rebuilt, restarted, started};
ghost use Rattle.raft_store.specs.Starting.{entries_of, stored_of};
ghost use Rattle.raft_store.specs.Store.{past, whole};

use crate::entry::{Entry, Payload};
use crate::ring::Ring;
use crate::store::Store;
use raft_state::{LogId, LogIds, Membership, RaftState, ServerState, StoredMembership, reaches};
use std::alloc::{AllocError, Global};

/// The id at an index of the stored entries.
fn stored_at(stored: &Ring, index: u64) -> Option<LogId<u64>>
    ensures { result ≡ at (map entry_meaning.id_of (values_of stored.now)) index }
{
    stored
        .values()
        .map(|entry| entry.log_id)
        .find(|id| id.index == index)
}

/// The id at an index of a log.
fn id_at(log: &[&Entry], index: u64) -> Option<LogId<u64>>
    ensures { result ≡ at (map entry_meaning.id_of (entries_of log.now)) index }
{
    for entry in log {
        if entry.log_id.index == index {
            return Some(entry.log_id);
        }
    }
    None
}

/// Adds the ids of the stored entries.
fn push_ids(stored: &Ring, ids: &mut Vec<LogId<u64>>) -> Result<(), AllocError>
    ensures { OnOk result (ids.new.items ≡ ids.old.items ++ map entry_meaning.id_of (values_of stored.now)) }
{
    for entry in stored.values() {
        ids.push(entry.log_id)?;
    }
    Ok(())
}

/// The ids of the stored entries, and before them the last purged one.
fn stored_ids(
    alloc: Global,
    front: &Option<LogId<u64>>,
    stored: &Ring,
) -> Result<LogIds<u64>, AllocError>
    ensures { IfOk result (λ ids. ids ≡ option_to_list front.now ++ map entry_meaning.id_of (values_of stored.now)) }
{
    let mut ids = Vec::new(alloc);
    if let Some(id) = front {
        ids.push(*id)?;
    }
    push_ids(stored, &mut ids)?;
    Ok(LogIds::from_vec(ids))
}

/// Adds the stored entries from an index on.
fn push_past<'a>(stored: &'a Ring, from: u64, log: &mut Vec<&'a Entry>) -> Result<(), AllocError>
    ensures { OnOk result (entries_of log.new.items ≡ entries_of log.old.items ++ past from stored.now) }
{
    for entry in stored.values_from(from) {
        log.push(entry)?;
    }
    Ok(())
}

/// Copies of the entries of a log.
fn copy_log(alloc: Global, log: &[&Entry]) -> Result<Vec<Entry>, AllocError>
    ensures { IfOk result (λ copied. copied.items ≡ entries_of log.now) }
{
    let mut copied = Vec::with_capacity(alloc, log.len())?;
    for entry in log {
        copied.push(entry.copy(alloc)?)?;
    }
    Ok(copied)
}

/// How many of this many entries stand up to the index of an id.
fn count_upto(last: &Option<LogId<u64>>, len: usize) -> usize
    ensures { result ≡ min (next last.now) len }
{
    match last {
        Some(id) => (id.index as usize).saturating_add(1).min(len),
        None => 0,
    }
}

/// Copies of the entries of a log up to an id.
fn copy_upto(
    alloc: Global,
    log: &[&Entry],
    last: &Option<LogId<u64>>,
) -> Result<Vec<Entry>, AllocError>
    ensures { IfOk result (λ copied. copied.items ≡ take (next last.now) (entries_of log.now)) }
{
    copy_log(alloc, &log[..count_upto(last, log.len())])
}

/// A copy of a membership, with the id of its entry; none if there is none.
fn copy_membership(
    alloc: Global,
    found: Option<(LogId<u64>, &Membership<u64, ()>)>,
) -> Result<StoredMembership<u64, ()>, AllocError>
    ensures { IfOk result (λ m. m ≡ stored_of found.entry) }
{
    match found {
        Some((log_id, membership)) => Ok(StoredMembership {
            log_id: Some(log_id),
            membership: membership.copy()?,
        }),
        None => Ok(StoredMembership::empty(alloc)),
    }
}

/// The committed and the effective membership of a log.
fn memberships(
    alloc: Global,
    log: &[&Entry],
) -> Result<(StoredMembership<u64, ()>, StoredMembership<u64, ()>), AllocError>
    ensures { IfOk result (λ found. found ≡ memberships_of entry_meaning (entries_of log.now)) }
{
    let mut before = None;
    let mut last = None;
    for entry in log {
        if let Payload::Membership(membership) = &entry.payload {
            before = last;
            last = Some((entry.log_id, membership));
        }
    }
    let committed = copy_membership(alloc, before.or(last))?;
    Ok((committed, copy_membership(alloc, last)?))
}

/// Whether a log holds an id.
fn holds(log: &[&Entry], id: &LogId<u64>) -> bool
    ensures { result ≡ is_found nat_cmp (at (map entry_meaning.id_of (entries_of log.now)) id.now.index) id.now }
{
    match id_at(log, id.index) {
        Some(held) => held == *id,
        None => false,
    }
}

impl Store {
    /// Whether the stored entries don't have the snapshot's last one, nor is it purged.
    fn is_outrun(&self, last: &LogId<u64>) -> bool
        ensures { result ≡ is_outrun nat_cmp entry_meaning self.now last.now }
    {
        if reaches(&self.front, last.index) {
            return false;
        }
        match stored_at(&self.ring, last.index) {
            Some(held) => held != *last,
            None => true,
        }
    }

    /// Drops stored entries that end before the snapshot, or contradict it, as after an install whose purge was not done.
    fn settle(&mut self)
        ensures { self.new ≡ settled nat_cmp entry_meaning self.old }
    {
        let Some(last) = self.meta.last_log_id else {
            return;
        };
        if self.is_outrun(&last) {
            self.ring.clear();
            self.front = Some(last);
        }
    }

    /// The whole log: the snapshot's entries, and the stored ones above it.
    fn whole_log(&self) -> Result<Vec<&Entry>, AllocError>
        ensures { IfOk result (λ log. entries_of log.items ≡ whole self.now) }
    {
        let snapshot = self.snapshot.as_slice();
        let mut log: Vec<&Entry> = snapshot.iter().collect(self.alloc)?;
        push_past(&self.ring, snapshot.len() as u64, &mut log)?;
        Ok(log)
    }

    /// The id up to which a start commits: the snapshot's last one, or the saved one, if that counts, the whole log
    /// holds it, and it is greater.
    fn start_committed(&self, saved: bool, log: &[&Entry]) -> Option<LogId<u64>>
        requires { entries_of log.now ≡ whole self.now }
        ensures { result ≡ start_committed nat_cmp entry_meaning saved self.now }
    {
        let last = self.meta.last_log_id;
        let Some(id) = self.saved else {
            return last;
        };
        if saved && holds(log, &id) && last < self.saved {
            self.saved
        } else {
            last
        }
    }

    /// The state of an engine that starts on the store, with this committed id.
    fn rebuild(
        &self,
        log: &[&Entry],
        committed: Option<LogId<u64>>,
    ) -> Result<RaftState<u64, ()>, AllocError>
        requires { entries_of log.now ≡ whole self.now }
        ensures { IfOk result (λ state. state ≡ rebuilt nat_cmp entry_meaning self.now committed) }
    {
        let (cm, em) = memberships(self.alloc, log)?;
        Ok(RaftState {
            vote: self.vote,
            time: None,
            ids: stored_ids(self.alloc, &self.front, &self.ring)?,
            purged: self.front,
            purge_to: self.front,
            committed,
            accepted_by: None,
            snap: self.meta.copy()?,
            cm,
            em,
            role: ServerState::Learner,
            building: false,
        })
    }

    /// The state of an engine that starts on a settled store, and what its state machine has applied then.
    fn start(&self, saved: bool) -> Result<(RaftState<u64, ()>, Vec<Entry>), AllocError>
        ensures state { IfOk result (λ made. made.0 ≡ rebuilt nat_cmp entry_meaning self.now (start_committed nat_cmp entry_meaning saved self.now)) }
        ensures applied { IfOk result (λ made. made.1.items ≡ take (next (start_committed nat_cmp entry_meaning saved self.now)) (whole self.now)) }
    {
        let log = self.whole_log()?;
        let committed = self.start_committed(saved, &log);
        let state = self.rebuild(&log, committed)?;
        let applied = copy_upto(self.alloc, &log, &committed)?;
        Ok((state, applied))
    }

    /// Forgets the saved committed id.
    ///
    /// Source: Raft paper, figure 2 (the commit index is no persistent state).
    pub fn forget_committed(&mut self)
        ensures { self.new ≡ forgotten self.old }
    {
        self.saved = None;
    }

    /// Starts a node on its store, and gives the state that its engine is to be made of.
    ///
    /// The vote is the saved one. Stored entries that the snapshot has outrun go: then its last id is the last purged
    /// one. Committed is the snapshot's last id, or with `saved` the saved committed id, if it is greater and the whole
    /// log holds it; the state machine has applied the whole log up to there. The effective membership is the last one
    /// of the whole log, the committed one the one before it, or the same if there is only one. Out of memory, nothing is
    /// promised of the store.
    ///
    /// Source: Raft paper, figure 2 (a node resumes from its persistent state) and section 7; openraft's
    /// `StorageHelper::get_initial_state`.
    pub fn restart(&mut self, saved: bool) -> Result<RaftState<u64, ()>, AllocError>
        ensures stored { OnOk result (self.new ≡ restarted nat_cmp entry_meaning saved self.old) }
        ensures state { IfOk result (λ state. state ≡ started nat_cmp entry_meaning saved self.old) }
    {
        self.settle();
        let (state, applied) = self.start(saved)?;
        self.applied = applied;
        Ok(state)
    }
}
