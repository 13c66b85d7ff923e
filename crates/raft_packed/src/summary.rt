//! What is kept of the entries up to an index, but their state.

ghost use Rattle.std.specs.Prelude.{◌≡◌, [], IfOk, IsTrue, OnOk};
ghost use Rattle.raft_steps.specs.FollowingHandler.{stored_in};
ghost use Rattle.raft_store.specs.Entries.{entry_meaning, same_members};
ghost use Rattle.proof_packed_stores.specs.Stores.{packed, packed_meta, with_entries, with_entry};
ghost use Rattle.raft_packed.specs.Kept.{no_state};

use crate::error::PackedError;
use raft_state::{LogId, Membership, SnapshotMeta, StoredMembership, Text};
use raft_store::{Entry, Payload};
use std::alloc::{AllocError, Global};
use std::marker::Model;

/// What is kept of the entries from index 0 up to another, but the state that they give: how many they are, their last id, and their last
/// two memberships.
#[derive(Drop)]
pub struct Summary {
    pub(crate) end: u64,
    pub(crate) last_id: Option<LogId<u64>>,
    pub(crate) before: StoredMembership<u64, ()>,
    pub(crate) effective: StoredMembership<u64, ()>,
}

impl Model for Summary {
    ghost use Rattle.raft_packed.specs.Kept.{SummaryView};

    ghost Value = { SummaryView };

    ghost view = { λ s. record {
      end = s.end;
      last_id = s.last_id;
      before = s.before;
      effective = s.effective;
      state = tt;
    } };
}

/// Takes the membership of an entry, if it has one, for the last.
pub(crate) fn note(
    entry: &Entry,
    before: &mut StoredMembership<u64, ()>,
    effective: &mut StoredMembership<u64, ()>,
) -> Result<(), AllocError>
    ensures before { OnOk result (before.new ≡ elim (stored_in entry_meaning entry.now) [ None ↦ before.old | Some m ↦ effective.old ]) }
    ensures effective { OnOk result (effective.new ≡ elim (stored_in entry_meaning entry.now) [ None ↦ effective.old | Some m ↦ m ]) }
{
    if let Payload::Membership(membership) = &entry.payload {
        let stored = StoredMembership {
            log_id: Some(entry.log_id),
            membership: membership.copy()?,
        };
        *before = std::mem::replace(effective, stored);
    }
    Ok(())
}

/// Whether the two are the same membership.
fn is_same_membership(one: &Membership<u64, ()>, other: &Membership<u64, ()>) -> bool
    ensures { result ≡ same_members one.now other.now }
{
    one == other
}

/// Whether the two are the same membership, with the same id.
fn is_same_stored(one: &StoredMembership<u64, ()>, other: &StoredMembership<u64, ()>) -> bool
    ensures { IsTrue result → one.now ≡ other.now }
{
    one.log_id == other.log_id && is_same_membership(&one.membership, &other.membership)
}

/// What is kept of entries after several more.
fn with_all(summary: &Summary, entries: &[Entry]) -> Result<Summary, PackedError>
    ensures { IfOk result (λ more. more ≡ with_entries no_state summary.now entries.now) }
{
    let mut more = summary.copy()?;
    for entry in entries {
        more.push(entry)?;
    }
    Ok(more)
}

impl Summary {
    /// Of no entries.
    pub(crate) fn new(alloc: Global) -> Self
        ensures { result ≡ packed no_state [] }
    {
        Summary {
            end: 0,
            last_id: None,
            before: StoredMembership::empty(alloc),
            effective: StoredMembership::empty(alloc),
        }
    }

    /// How many entries they are: the index of the next one.
    pub fn end(&self) -> u64
        ensures { result ≡ self.now.end }
    {
        self.end
    }

    /// The id of the last entry.
    pub fn last_id(&self) -> Option<LogId<u64>>
        ensures { result ≡ self.now.last_id }
    {
        self.last_id
    }

    /// The membership before the last one, without an id if there is none.
    pub fn before(&self) -> &StoredMembership<u64, ()>
        ensures { result.now ≡ self.now.before }
    {
        &self.before
    }

    /// The last membership, without an id if there is none.
    pub fn effective(&self) -> &StoredMembership<u64, ()>
        ensures { result.now ≡ self.now.effective }
    {
        &self.effective
    }

    /// A copy.
    pub(crate) fn copy(&self) -> Result<Self, AllocError>
        ensures { IfOk result (λ copied. copied ≡ self.now) }
    {
        Ok(Summary {
            end: self.end,
            last_id: self.last_id,
            before: self.before.copy()?,
            effective: self.effective.copy()?,
        })
    }

    /// One more entry comes.
    pub(crate) fn push(&mut self, entry: &Entry) -> Result<(), PackedError>
        ensures { OnOk result (self.new ≡ with_entry no_state self.old entry.now) }
    {
        let Some(end) = self.end.checked_add(1) else {
            return Err(PackedError::TooManyEntries);
        };
        note(entry, &mut self.before, &mut self.effective)?;
        self.last_id = Some(entry.log_id);
        self.end = end;
        Ok(())
    }

    /// Whether the two are the same.
    fn is_same(&self, other: &Summary) -> bool
        ensures { IsTrue result → self.now ≡ other.now }
    {
        self.end == other.end
            && self.last_id == other.last_id
            && is_same_stored(&self.before, &other.before)
            && is_same_stored(&self.effective, &other.effective)
    }

    /// Whether another is this one after these entries. Out of memory, it says no.
    pub(crate) fn is_with(&self, entries: &[Entry], other: &Summary) -> bool
        ensures { IsTrue result → other.now ≡ with_entries no_state self.now entries.now }
    {
        match with_all(self, entries) {
            Ok(more) => other.is_same(&more),
            Err(_) => false,
        }
    }

    /// The meta of a snapshot of these entries: their last id and their last membership (Raft paper, section 7). Its own id is empty.
    pub fn meta(&self, alloc: Global) -> Result<SnapshotMeta<u64, ()>, AllocError>
        ensures { IfOk result (λ meta. meta ≡ packed_meta self.now) }
    {
        Ok(SnapshotMeta {
            last_log_id: self.last_id,
            last_membership: self.effective.copy()?,
            snapshot_id: Text::new(alloc),
        })
    }
}
