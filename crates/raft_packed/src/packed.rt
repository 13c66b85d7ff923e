//! What is kept of the entries up to an index.

ghost use Rattle.std.specs.Prelude.{◌≡◌, [], IfOk, OnOk, fold};
ghost use Rattle.proof_packed_stores.specs.Stores.{packed, packed_meta};
ghost use Rattle.raft_packed.specs.Kept.{summary_of, with_late, with_state};

use crate::machine::Machine;
use crate::summary::Summary;
use raft_state::{LogId, SnapshotMeta, StoredMembership};
use raft_store::Entry;
use std::alloc::{AllocError, Global};
use std::collections::VecDeque;
use std::marker::Model;

/// What is kept of the entries from index 0 up to another: how many they are, their last id, their last two memberships, and the state
/// that they give.
#[derive(Drop)]
pub struct Packed<M: Machine> {
    summary: Summary,
    state: M,
}

impl<M: Machine> Model for Packed<M> {
    ghost use Rattle.proof_packed_stores.specs.Stores.{Packed};
    ghost use Rattle.raft_packed.specs.Kept.{with_state};

    ghost Value = { Packed M };

    ghost view = { λ p. with_state p.summary p.state };
}

/// Applies entries to a state.
pub(crate) fn apply_all<M: Machine>(entries: &[Entry], state: &mut M) -> Result<(), AllocError>
    ensures { OnOk result (state.new ≡ fold M.application.apply state.old entries.now) }
{
    for entry in entries {
        state.apply(entry)?;
    }
    Ok(())
}

/// Applies entries to a state.
pub(crate) fn apply_queue<M: Machine>(
    entries: &VecDeque<Entry>,
    state: &mut M,
) -> Result<(), AllocError>
    ensures { OnOk result (state.new ≡ fold M.application.apply state.old entries.now.items) }
{
    let (front, back) = entries.as_slices();
    apply_all(front, state)?;
    apply_all(back, state)
}

impl<M: Machine> Packed<M> {
    /// Of no entries.
    pub fn new(alloc: Global) -> Self
        ensures { result ≡ packed M.application [] }
    {
        Packed {
            summary: Summary::new(alloc),
            state: M::new(alloc),
        }
    }

    /// Of these parts, as a disk or a message holds them: that some entries give them is up to who wrote them.
    pub fn from_parts(
        end: u64,
        last_id: Option<LogId<u64>>,
        before: StoredMembership<u64, ()>,
        effective: StoredMembership<u64, ()>,
        state: M,
    ) -> Self
        ensures { result ≡ record { end = end; last_id = last_id; before = before; effective = effective; state = state } }
    {
        let summary = Summary {
            end,
            last_id,
            before,
            effective,
        };
        Packed { summary, state }
    }

    /// Of entries of which this is kept, and the state that they give.
    pub(crate) fn with_state(summary: Summary, state: M) -> Self
        ensures { result ≡ with_state summary state }
    {
        Packed { summary, state }
    }

    /// How many entries they are: the index of the next one.
    pub fn end(&self) -> u64
        ensures { result ≡ self.now.end }
    {
        self.summary.end
    }

    /// The id of the last entry.
    pub fn last_id(&self) -> Option<LogId<u64>>
        ensures { result ≡ self.now.last_id }
    {
        self.summary.last_id
    }

    /// The membership before the last one, without an id if there is none: what a snapshot carries beside its meta and its state.
    pub fn before(&self) -> &StoredMembership<u64, ()>
        ensures { result.now ≡ self.now.before }
    {
        &self.summary.before
    }

    /// The last membership, without an id if there is none.
    pub fn effective(&self) -> &StoredMembership<u64, ()>
        ensures { result.now ≡ self.now.effective }
    {
        &self.summary.effective
    }

    /// What is kept but the state.
    pub fn summary(&self) -> &Summary
        ensures { result.now ≡ summary_of self.now }
    {
        &self.summary
    }

    /// The state that the entries give.
    pub fn state(&self) -> &M
        ensures { result.now ≡ self.now.state }
    {
        &self.state
    }

    /// The last id, the last membership, and the state: what was applied goes on from there.
    pub fn into_parts(self) -> (Option<LogId<u64>>, StoredMembership<u64, ()>, M)
        ensures { result ≡ (self.last_id, self.effective, self.state) }
    {
        let Packed { summary, state } = self;
        (summary.last_id, summary.effective, state)
    }

    /// The state alone.
    pub(crate) fn into_state(self) -> M
        ensures { result ≡ self.state }
    {
        self.state
    }

    /// A copy.
    pub fn copy(&self) -> Result<Self, AllocError>
        ensures { IfOk result (λ copied. copied ≡ self.now) }
    {
        Ok(Packed {
            summary: self.summary.copy()?,
            state: self.state.copy()?,
        })
    }

    /// Takes what is kept of other entries, but keeps its state.
    pub(crate) fn take_summary(&mut self, summary: Summary)
        ensures { self.new ≡ with_state summary self.old.state }
    {
        self.summary = summary;
    }

    /// Applies an entry to its state alone.
    pub(crate) fn apply(&mut self, entry: &Entry) -> Result<(), AllocError>
        ensures { OnOk result (self.new ≡ record self.old { state = M.application.apply self.old.state entry.now }) }
    {
        self.state.apply(entry)
    }

    /// Applies entries to its state alone.
    pub(crate) fn apply_all(&mut self, entries: &VecDeque<Entry>) -> Result<(), AllocError>
        ensures { OnOk result (self.new ≡ with_late M.application self.old entries.now.items) }
    {
        apply_queue(entries, &mut self.state)
    }

    /// The meta of a snapshot of these entries: their last id and their last membership (Raft paper, section 7). Its own id is empty.
    pub fn meta(&self, alloc: Global) -> Result<SnapshotMeta<u64, ()>, AllocError>
        ensures { IfOk result (λ meta. meta ≡ packed_meta self.now) }
    {
        self.summary.meta(alloc)
    }
}
