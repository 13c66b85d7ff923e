//! What a node keeps when it stops.

ghost use Rattle.std.specs.Prelude.{◌≡◌, ◌≤◌, ◌+◌, ◌++◌, ◌↔◌, IfOk, IsTrue, OnOk, drop, length, Some, take};
ghost use Rattle.std.specs.Map.{lookup};
ghost use Rattle.std.specs.BTreeMap.{is_at};
ghost use Rattle.std.specs.Ordering.{nat_cmp};
ghost use Rattle.std.specs.Option.{option_copied};
ghost use Rattle.raft_store.specs.Entries.{entry_meaning};
ghost use Rattle.raft_state.specs.Order.{next};
ghost use Rattle.raft_store.specs.Built.{keep_snapshot};
ghost use Rattle.raft_store.specs.Mirror.{IsGapless};
ghost use Rattle.raft_store.specs.Ring.{CanStore};
ghost use Rattle.raft_store.specs.Store.{no_store, between, due, exec, exec_payload, whole, whole_upto};

use crate::built::meta_of;
use crate::config::WorldConfig;
use crate::entry::{Entry, copy_entries};
use crate::ring::Ring;
use raft_state::{Items, LogId, SnapshotMeta, StoredMembership, Text, Vote, next_index};
use raft_steps::raft_command::sm::{self, CommandPayload};
use raft_steps::raft_command::{Command, Snapshot};
use std::alloc::{AllocError, Global};
use std::marker::Model;

/// What a node keeps when it stops: its vote, its log with the last purged id, its snapshot, the saved committed id,
/// and the entries that its state machine has applied.
#[derive(Debug, Drop)]
pub struct Store {
    pub(crate) alloc: Global,
    pub(crate) vote: Vote<u64>,
    /// The entries by index.
    pub(crate) ring: Ring,
    pub(crate) front: Option<LogId<u64>>,
    pub(crate) meta: SnapshotMeta<u64, ()>,
    /// The snapshot's entries, the first at index 0.
    pub(crate) snapshot: Items<Entry>,
    pub(crate) saved: Option<LogId<u64>>,
    pub(crate) applied: Vec<Entry>,
}

impl Model for Store {
    ghost use Rattle.raft_store.specs.Types.{WorldStore};

    ghost Value = { WorldStore };

    ghost view = { λ s. record {
      vote = s.vote;
      log = s.ring;
      front = s.front;
      meta = s.meta;
      snap = s.snapshot;
      saved = s.saved;
      applied = s.applied.items;
    } };
}

/// Copies of the entries from one index up to another, the last included.
fn copy_between(alloc: Global, ring: &Ring, from: u64, last: u64) -> Result<Vec<Entry>, AllocError>
    requires { from ≤ last }
    ensures { IfOk result (λ copied. copied.items ≡ between from (last + 1) ring.now) }
{
    let mut copied = Vec::new(alloc);
    for entry in ring.values_between(from, last) {
        copied.push(entry.copy(alloc)?)?;
    }
    Ok(copied)
}

/// Copies of the entries from one index on, up to another, the last included.
#[tactic(auto, using(crate::proofs::Ranges::between_none))]
fn copy_from(alloc: Global, ring: &Ring, from: usize, last: u64) -> Result<Vec<Entry>, AllocError>
    ensures { IfOk result (λ copied. copied.items ≡ between from (last + 1) ring.now) }
{
    let from = from as u64;
    if last < from {
        return Ok(Vec::new(alloc));
    }
    copy_between(alloc, ring, from, last)
}

/// Copies of the entries from one index on, below another.
#[tactic(auto, using(crate::proofs::Ranges::between_none))]
fn copy_below(alloc: Global, ring: &Ring, from: usize, end: usize) -> Result<Vec<Entry>, AllocError>
    ensures { IfOk result (λ copied. copied.items ≡ between from end ring.now) }
{
    if end <= from {
        return Ok(Vec::new(alloc));
    }
    copy_between(alloc, ring, from as u64, end as u64 - 1)
}

/// Copies of a list's entries from one place on, below another.
fn copy_part(
    alloc: Global,
    entries: &[Entry],
    from: usize,
    end: usize,
) -> Result<Vec<Entry>, AllocError>
    ensures { IfOk result (λ copied. copied.items ≡ drop from (take end entries.now)) }
{
    let part = entries.get(..end).unwrap_or(entries);
    copy_entries(alloc, part.get(from..).unwrap_or(&[]))
}

/// Copies of the entries above one id, up to another.
#[tactic(auto, using(crate::proofs::Ranges::between_none))]
fn copy_past(
    alloc: Global,
    ring: &Ring,
    prev: &Option<LogId<u64>>,
    last: &Option<LogId<u64>>,
) -> Result<Vec<Entry>, AllocError>
    ensures { IfOk result (λ copied. copied.items ≡ between (next prev.now) (next last.now) ring.now) }
{
    let Some(last) = last else {
        return Ok(Vec::new(alloc));
    };
    let Some(prev) = prev else {
        return copy_between(alloc, ring, 0, last.index);
    };
    if last.index <= prev.index {
        return Ok(Vec::new(alloc));
    }
    copy_between(alloc, ring, prev.index + 1, last.index)
}

/// Appends entries.
fn append_all(entries: &mut Vec<Entry>, more: Vec<Entry>) -> Result<(), AllocError>
    ensures { OnOk result (entries.new.items ≡ entries.old.items ++ more.items) }
{
    for entry in more {
        entries.push(entry)?;
    }
    Ok(())
}

impl Store {
    /// The store of a new node.
    pub fn new(alloc: Global) -> Self
        ensures { result ≡ no_store 0 }
    {
        Store {
            alloc,
            vote: Vote::default(),
            ring: Ring::new(alloc),
            front: None,
            meta: SnapshotMeta {
                last_log_id: None,
                last_membership: StoredMembership::empty(alloc),
                snapshot_id: Text::new(alloc),
            },
            snapshot: Items::new(alloc),
            saved: None,
            applied: Vec::new(alloc),
        }
    }

    /// The allocator of its collections.
    pub fn allocator(&self) -> Global {
        self.alloc
    }

    /// The saved vote.
    pub fn vote(&self) -> Vote<u64>
        ensures { result ≡ self.now.vote }
    {
        self.vote
    }

    /// The last purged id.
    pub fn front(&self) -> Option<LogId<u64>>
        ensures { result ≡ self.now.front }
    {
        self.front
    }

    /// The saved committed id.
    pub fn saved(&self) -> Option<LogId<u64>>
        ensures { result ≡ self.now.saved }
    {
        self.saved
    }

    /// The snapshot's last id.
    pub fn snapshot_last(&self) -> Option<LogId<u64>>
        ensures { result ≡ self.now.meta.last_log_id }
    {
        self.meta.last_log_id
    }

    /// The entry at an index, unless it is purged or in the snapshot alone.
    pub fn entry(&self, index: u64) -> Option<&Entry>
        ensures { option_copied result ≡ lookup (is_at (nat_cmp index)) self.now.log }
    {
        self.ring.get(index)
    }

    /// The number of stored log entries.
    pub fn map_len(&self) -> usize
        ensures { result ≡ length self.now.log }
    {
        self.ring.len()
    }

    /// The number of entries that the state machine has applied.
    pub fn applied_len(&self) -> usize
        ensures { result ≡ length self.now.applied }
    {
        self.applied.len()
    }

    /// The number of entries of the whole log: those of the snapshot, and the stored ones above it.
    pub fn whole_len(&self) -> usize
        requires { IsGapless entry_meaning self.now }
        ensures { result ≡ length (whole self.now) }
    {
        let held = self.snapshot.as_slice().len();
        let end = next_index(&self.front) as usize + self.ring.len();
        held.max(end)
    }

    /// The number of entries of the whole log up to an index, that index included.
    pub fn whole_upto_len(&self, index: u64) -> usize
        requires { IsGapless entry_meaning self.now }
        ensures { result ≡ length (whole_upto self.now index) }
    {
        (index as usize).saturating_add(1).min(self.whole_len())
    }

    /// Copies of the whole log's entries from one place on, below another. It takes no longer than what it copies.
    pub fn copy_whole(&self, from: usize, end: usize) -> Result<Vec<Entry>, AllocError>
        requires { IsGapless entry_meaning self.now }
        ensures { IfOk result (λ copied. copied.items ≡ drop from (take end (whole self.now))) }
    {
        let snapshot = self.snapshot.as_slice();
        let mut copied = copy_part(self.alloc, snapshot, from, end)?;
        let stored = copy_below(self.alloc, &self.ring, from.max(snapshot.len()), end)?;
        append_all(&mut copied, stored)?;
        Ok(copied)
    }

    /// Copies of the entries above one id, up to another.
    pub fn copy_range(
        &self,
        prev: &Option<LogId<u64>>,
        last: &Option<LogId<u64>>,
    ) -> Result<Vec<Entry>, AllocError>
        ensures { IfOk result (λ copied. copied.items ≡ between (next prev.now) (next last.now) self.now.log) }
    {
        copy_past(self.alloc, &self.ring, prev, last)
    }

    /// Copies of the entries above those that the state machine has applied, up to an id.
    pub fn copy_due(&self, upto: &LogId<u64>) -> Result<Vec<Entry>, AllocError>
        ensures { IfOk result (λ copied. copied.items ≡ due self.now upto.now) }
    {
        copy_from(self.alloc, &self.ring, self.applied.len(), upto.index)
    }

    /// A copy of the snapshot.
    pub fn copy_snapshot(&self) -> Result<Snapshot<WorldConfig>, AllocError>
        ensures { IfOk result (λ copied. copied ≡ record { meta = self.now.meta; snapshot = self.now.snap }) }
    {
        Ok(Snapshot {
            meta: self.meta.copy()?,
            snapshot: Items::from_vec(copy_entries(self.alloc, self.snapshot.as_slice())?),
        })
    }

    /// Copies of the entries that the state machine has applied.
    pub fn copy_applied(&self) -> Result<Vec<Entry>, AllocError>
        ensures { IfOk result (λ copied. copied.items ≡ self.now.applied) }
    {
        copy_entries(self.alloc, &self.applied)
    }

    /// Keeps the snapshot of these entries, which a node has built, if it is longer than the stored one (Raft paper,
    /// section 7). Out of memory, nothing is promised of the store.
    pub fn keep_snapshot(&mut self, entries: Items<Entry>) -> Result<(), AllocError>
        ensures { OnOk result (self.new ≡ keep_snapshot entry_meaning entries self.old) }
    {
        if entries.as_slice().len() <= self.snapshot.as_slice().len() {
            return Ok(());
        }
        self.meta = meta_of(self.alloc, entries.as_slice())?;
        self.snapshot = entries;
        Ok(())
    }

    /// Applies what is due up to an id, and saves that id.
    fn commit(&mut self, upto: LogId<u64>) -> Result<(), AllocError>
        ensures { OnOk result (self.new ≡ record self.old { saved = Some upto; applied = self.old.applied ++ due self.old upto }) }
    {
        let due = self.copy_due(&upto)?;
        append_all(&mut self.applied, due)?;
        self.saved = Some(upto);
        Ok(())
    }

    /// Replaces the snapshot and what was applied.
    fn install(&mut self, snapshot: Snapshot<WorldConfig>) -> Result<(), AllocError>
        ensures { OnOk result (self.new ≡ record self.old { meta = snapshot.meta; snap = snapshot.snapshot; applied = snapshot.snapshot }) }
    {
        let Snapshot { meta, snapshot } = snapshot;
        self.applied = copy_entries(self.alloc, snapshot.as_slice())?;
        self.meta = meta;
        self.snapshot = snapshot;
        Ok(())
    }

    fn execute_payload(&mut self, payload: CommandPayload<WorldConfig>) -> Result<(), AllocError>
        ensures { OnOk result (self.new ≡ exec_payload entry_meaning (λ es. es) payload self.old) }
    {
        match payload {
            CommandPayload::InstallFullSnapshot { snapshot } => self.install(snapshot),
            _ => Ok(()),
        }
    }

    /// Whether the store can take a command.
    pub fn can_store(&self, command: &Command<WorldConfig>) -> bool
        ensures { IsTrue result ↔ CanStore command.now self.now }
    {
        match command {
            Command::AppendInputEntries { entries, .. } => {
                self.ring.is_continued_by(entries.as_slice())
            }
            _ => true,
        }
    }

    /// Changes the store as a command does. Entries that are appended continue the stored ones. Out of memory, nothing is
    /// promised of the store.
    pub fn execute(&mut self, command: Command<WorldConfig>) -> Result<(), AllocError>
        requires { CanStore command self.old }
        ensures { OnOk result (self.new ≡ exec entry_meaning (λ es. es) command self.old) }
    {
        match command {
            Command::SaveVote { vote } => {
                self.vote = vote;
                Ok(())
            }
            Command::AppendInputEntries { entries, .. } => { self.ring.append(entries.into_vec()) }
            Command::DeleteConflictLog { since } => {
                self.ring.truncate(since.index);
                Ok(())
            }
            Command::PurgeLog { upto } => {
                self.ring.purge(upto.index);
                self.front = Some(upto);
                Ok(())
            }
            Command::Commit { upto, .. } => self.commit(upto),
            Command::StateMachine { command } => {
                let sm::Command { payload, .. } = command;
                self.execute_payload(payload)
            }
            _ => Ok(()),
        }
    }
}
