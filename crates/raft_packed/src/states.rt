//! A store's snapshot, and what it has applied since.
//!
//! An entry that is applied is kept, and its state isn't made: that of what was applied is read by nobody before it is a snapshot's. Then
//! the entries are applied to the old snapshot's state, which nobody needs any more, so no state is copied. They are late even then: a few
//! are applied at a time, while nothing else is to be done, and all of them before a copy of the snapshot leaves or another takes its place.

ghost use Rattle.std.specs.Prelude.{◌≡◌, ◌++◌, [], IfOk, IfSome, IsTrue, None, OnOk, Some, fold, unwrap_or};
ghost use Rattle.std.specs.Option.{option_copied, option_map};
ghost use Rattle.proof_packed_stores.specs.Stores.{packed, with_entries, with_entry};
ghost use Rattle.raft_frames.specs.Format.{sum_of};
ghost use Rattle.raft_packed.specs.Kept.{IsNotedFolded, state_past, summary_of, with_late, with_state};

use crate::encoding::{Encodable, Encoded};
use crate::error::PackedError;
use crate::log::are_between;
use crate::machine::Machine;
use crate::packed::{Packed, apply_all, apply_queue};
use crate::summary::Summary;
use raft_store::Entry;
use std::alloc::{AllocError, Global};
use std::collections::{BTreeMap, VecDeque};
use std::marker::Model;
use std::mem;
use std::num::NonZeroUsize;

/// What is noted for the next snapshot.
#[derive(Drop)]
struct Note<M: Machine> {
    summary: Summary,
    /// Its state, if it isn't the one that the first entries give.
    state: Option<M>,
}

/// A snapshot, what is noted for the next one, and what was applied.
#[derive(Drop)]
pub(crate) struct States<M: Machine> {
    /// The snapshot, but that its last entries, the late ones, aren't applied to its state yet.
    snapshot: Encodable<M>,
    late: VecDeque<Entry>,
    /// The state before the first entries, if it isn't the snapshot's.
    base: Option<M>,
    /// The applied entries whose state isn't made: up to what is noted, and then the others.
    first: Vec<Entry>,
    rest: Vec<Entry>,
    note: Option<Note<M>>,
    applied: Summary,
}

impl<M: Machine> Model for States<M> {
    ghost use Rattle.std.specs.Prelude.{fold, unwrap_or};
    ghost use Rattle.std.specs.Option.{option_map};
    ghost use Rattle.raft_packed.specs.Kept.{StatesView, state_past, with_late, with_state};

    ghost Value = { StatesView M };

    ghost view = { λ s. record {
      snap = with_late M.application s.snapshot s.late.items;
      noted = option_map (λ n. with_state n.summary
          (unwrap_or n.state (state_past M.application s.base (with_late M.application s.snapshot s.late.items) s.first.items))) s.note;
      applied = with_state s.applied
          (fold M.application.apply (state_past M.application s.base (with_late M.application s.snapshot s.late.items) s.first.items) s.rest.items);
    } };
}

/// Applies so many late entries to a snapshot's state, at most.
fn fold_some<M: Machine>(
    most: usize,
    late: &mut VecDeque<Entry>,
    snapshot: &mut Encodable<M>,
) -> Result<(), AllocError>
    ensures { OnOk result (with_late M.application snapshot.new late.new.items ≡ with_late M.application snapshot.old late.old.items) }
{
    for _ in 0..most {
        let Some(entry) = late.pop_front() else {
            return Ok(());
        };
        snapshot.apply(&entry)?;
    }
    Ok(())
}

/// Applies all late entries to a snapshot's state.
fn fold_late<M: Machine>(
    late: &mut VecDeque<Entry>,
    snapshot: &mut Encodable<M>,
) -> Result<(), AllocError>
    ensures late { OnOk result (late.new.items ≡ []) }
    ensures snapshot { OnOk result (snapshot.new ≡ with_late M.application snapshot.old late.old.items) }
{
    snapshot.apply_all(late)?;
    late.clear();
    Ok(())
}

/// A snapshot takes what is kept of more entries, whose state is still to come: before them it has its own, with its late entries, or another.
fn take_noted<M: Machine>(
    summary: Summary,
    base: Option<M>,
    late: &mut VecDeque<Entry>,
    snapshot: &mut Encodable<M>,
)
    ensures { with_late M.application snapshot.new late.new.items
        ≡ with_state summary (unwrap_or base (with_late M.application snapshot.old late.old.items).state) }
{
    match base {
        Some(state) => {
            // they are of the state that this one takes the place of
            late.clear();
            *snapshot = Encodable::new(Packed::with_state(summary, state));
        }
        None => snapshot.take_summary(summary),
    }
}

/// Entries are late behind others. If there are no others, none is moved.
fn append_late(late: &mut VecDeque<Entry>, more: Vec<Entry>) -> Result<(), AllocError>
    ensures { OnOk result (late.new.items ≡ late.old.items ++ more.items) }
{
    if late.is_empty() {
        *late = VecDeque::from_vec(more);
        return Ok(());
    }
    late.append(&mut VecDeque::from_vec(more))
}

/// A copy of a snapshot's state, to which its late entries are applied.
fn copy_state<M: Machine>(snapshot: &Encodable<M>, late: &VecDeque<Entry>) -> Result<M, AllocError>
    ensures { IfOk result (λ made. made ≡ fold M.application.apply snapshot.now.state late.now.items) }
{
    let mut state = snapshot.state().copy()?;
    apply_queue(late, &mut state)?;
    Ok(state)
}

/// A copy of the state that the first entries give.
fn copy_first<M: Machine>(
    base: &Option<M>,
    snapshot: &Encodable<M>,
    late: &VecDeque<Entry>,
    first: &[Entry],
) -> Result<M, AllocError>
    ensures { IfOk result (λ made. made ≡ state_past M.application base.now (with_late M.application snapshot.now late.now.items) first.now) }
{
    let mut state = match base {
        Some(state) => state.copy()?,
        None => copy_state(snapshot, late)?,
    };
    apply_all(first, &mut state)?;
    Ok(state)
}

impl<M: Machine> Note<M> {
    /// A copy of its state, which the first entries give, unless it has another.
    fn copy_state(
        &self,
        base: &Option<M>,
        snapshot: &Encodable<M>,
        late: &VecDeque<Entry>,
        first: &[Entry],
    ) -> Result<M, AllocError>
        ensures { IfOk result (λ made. made
            ≡ unwrap_or self.now.state (state_past M.application base.now (with_late M.application snapshot.now late.now.items) first.now)) }
    {
        match &self.state {
            Some(state) => state.copy(),
            None => copy_first(base, snapshot, late, first),
        }
    }

    /// It has its state, which the first entries give after this one, unless it has another.
    fn whole(self, base: M, first: &[Entry]) -> Result<Self, AllocError>
        ensures { IfOk result (λ made. made
            ≡ record self { state = Some (unwrap_or self.state (fold M.application.apply base first.now)) }) }
    {
        let Note { summary, state } = self;
        let state = match state {
            Some(state) => state,
            None => {
                let mut state = base;
                apply_all(first, &mut state)?;
                state
            }
        };
        Ok(Note {
            summary,
            state: Some(state),
        })
    }
}

impl<M: Machine> States<M> {
    /// Of no entries.
    pub(crate) fn new(alloc: Global) -> Self
        ensures { result ≡ record { snap = packed M.application []; noted = None; applied = packed M.application [] } }
    {
        States {
            snapshot: Encodable::new(Packed::new(alloc)),
            late: VecDeque::new(alloc),
            base: None,
            first: Vec::new(alloc),
            rest: Vec::new(alloc),
            note: None,
            applied: Summary::new(alloc),
        }
    }

    /// What is kept of the snapshot, but its state.
    pub(crate) fn snapshot(&self) -> &Summary
        ensures { result.now ≡ summary_of self.now.snap }
    {
        self.snapshot.summary()
    }

    /// A copy of the snapshot.
    pub(crate) fn copy_snapshot(&self) -> Result<Packed<M>, AllocError>
        ensures { IfOk result (λ copied. copied ≡ self.now.snap) }
    {
        let state = copy_state(&self.snapshot, &self.late)?;
        Ok(Packed::with_state(self.snapshot.summary().copy()?, state))
    }

    /// A copy of the snapshot. Its late entries are applied before, not to the copy and then once more to what it shares.
    pub(crate) fn share_snapshot(&mut self) -> Result<Packed<M>, AllocError>
        ensures copied { IfOk result (λ copied. copied ≡ self.old.snap) }
        ensures same { OnOk result (self.new ≡ self.old) }
    {
        fold_late(&mut self.late, &mut self.snapshot)?;
        self.copy_snapshot()
    }

    /// Encodes the next bytes of the snapshot's state, some `most` of them, behind a front, as the payload of a frame behind one with the sum
    /// `before`; once all are there it sums them, as many at a time. Answers whether more is left to be done.
    pub(crate) fn encode_some(
        &mut self,
        before: u32,
        front: &[u8],
        room: usize,
        most: NonZeroUsize,
    ) -> Result<bool, AllocError>
        ensures { self.new ≡ self.old }
    {
        if !self.late.is_empty() {
            return Ok(true);
        }
        let alloc = *self.late.allocator();
        self.snapshot.encode_some(alloc, before, front, room, most)
    }

    /// The front and the state's bytes behind it, with the sum of a frame that has them, if all of it is encoded and summed: they are given away.
    pub(crate) fn take_encoded(&mut self, before: u32, front: &[u8]) -> Option<Encoded>
        ensures bytes { IfSome result (λ e. e.bytes.items ≡ front.now ++ M.codec.bytes self.old.snap.state) }
        ensures fits { IfSome result (λ e. M.codec.fits self.old.snap.state) }
        ensures sum { IfSome result (λ e. e.sum ≡ sum_of before e.bytes.items) }
        ensures same { self.new ≡ self.old }
    {
        if !self.late.is_empty() {
            return None;
        }
        self.snapshot.take_encoded(before, front)
    }

    /// Applies so many late entries to the snapshot's state, at most. Answers whether more of them are left.
    pub(crate) fn fold_some(&mut self, most: usize) -> Result<bool, AllocError>
        ensures { OnOk result (self.new ≡ self.old) }
    {
        fold_some(most, &mut self.late, &mut self.snapshot)?;
        Ok(!self.late.is_empty())
    }

    /// What is kept of what is noted, but its state.
    pub(crate) fn noted(&self) -> Option<&Summary>
        ensures { option_copied result ≡ option_map summary_of self.now.noted }
    {
        match &self.note {
            Some(note) => Some(&note.summary),
            None => None,
        }
    }

    /// What is kept of what was applied, but its state.
    pub(crate) fn applied(&self) -> &Summary
        ensures { result.now ≡ summary_of self.now.applied }
    {
        &self.applied
    }

    /// A copy of what is noted.
    pub(crate) fn copy_noted(&self) -> Result<Option<Packed<M>>, AllocError>
        ensures { IfOk result (λ copied. copied ≡ self.now.noted) }
    {
        let Some(note) = &self.note else {
            return Ok(None);
        };
        let state = note.copy_state(&self.base, &self.snapshot, &self.late, &self.first)?;
        Ok(Some(Packed::with_state(note.summary.copy()?, state)))
    }

    /// A copy of what was applied.
    pub(crate) fn copy_applied(&self) -> Result<Packed<M>, AllocError>
        ensures { IfOk result (λ copied. copied ≡ self.now.applied) }
    {
        let mut state = copy_first(&self.base, &self.snapshot, &self.late, &self.first)?;
        apply_all(&self.rest, &mut state)?;
        Ok(Packed::with_state(self.applied.copy()?, state))
    }

    /// Whether what is noted is the snapshot with a log's entries up to its own end: of one whose state was made it says no. It makes none.
    pub(crate) fn is_noted_folded(&self, log: &BTreeMap<u64, Entry>) -> bool
        ensures { IsTrue result → IsNotedFolded M.application self.now.snap log.now.entries self.now.noted }
    {
        let Some(
            Note {
                summary,
                state: None,
            },
        ) = &self.note
        else {
            return false;
        };
        self.base.is_none()
            && are_between(log, self.snapshot.end(), summary.end, &self.first)
            && self.snapshot.summary().is_with(&self.first, summary)
    }

    /// Applies the next entry.
    pub(crate) fn push(&mut self, entry: Entry) -> Result<(), PackedError>
        ensures { OnOk result (self.new ≡ record self.old { applied = with_entry M.application self.old.applied entry }) }
    {
        self.applied.push(&entry)?;
        self.rest.push(entry)?;
        Ok(())
    }

    /// Notes what was applied.
    pub(crate) fn note(&mut self) -> Result<(), AllocError>
        ensures { OnOk result (self.new ≡ record self.old { noted = Some self.old.applied }) }
    {
        let summary = self.applied.copy()?;
        self.first.append(&mut self.rest)?;
        self.note = Some(Note {
            summary,
            state: None,
        });
        Ok(())
    }

    /// Forgets what is noted.
    pub(crate) fn forget_note(&mut self)
        ensures { self.new ≡ record self.old { noted = None } }
    {
        self.note = None;
    }

    /// Takes this for the snapshot.
    pub(crate) fn keep(&mut self, built: Packed<M>) -> Result<(), AllocError>
        ensures { OnOk result (self.new ≡ record self.old { snap = built }) }
    {
        fold_late(&mut self.late, &mut self.snapshot)?;
        let old = mem::replace(&mut self.snapshot, Encodable::new(built));
        if self.base.is_none() {
            self.base = Some(old.into_state());
        }
        Ok(())
    }

    /// Takes what is noted, if anything is, for the snapshot, whose new entries are late. It stays noted.
    pub(crate) fn keep_noted(&mut self) -> Result<(), AllocError>
        ensures { OnOk result (self.new ≡ record self.old { snap = unwrap_or self.old.noted self.old.snap }) }
    {
        let Some(Note { summary, state }) = &self.note else {
            return Ok(());
        };
        let summary = summary.copy()?;
        if let Some(state) = state {
            // a snapshot was installed since
            let built = Packed::with_state(summary, state.copy()?);
            return self.keep(built);
        }
        take_noted(
            summary,
            self.base.take(),
            &mut self.late,
            &mut self.snapshot,
        );
        let first = mem::replace(&mut self.first, Vec::new(*self.late.allocator()));
        append_late(&mut self.late, first)
    }

    /// Takes this for the snapshot, and for what was applied.
    pub(crate) fn install(&mut self, brought: Packed<M>) -> Result<(), AllocError>
        ensures { OnOk result (self.new ≡ record { snap = brought; noted = self.old.noted; applied = brought }) }
    {
        let applied = brought.summary().copy()?;
        fold_late(&mut self.late, &mut self.snapshot)?;
        let old = mem::replace(&mut self.snapshot, Encodable::new(brought)).into_state();
        let base = self.base.take().unwrap_or(old);
        if let Some(note) = self.note.take() {
            self.note = Some(note.whole(base, &self.first)?);
        }
        self.first.clear();
        self.rest.clear();
        self.applied = applied;
        Ok(())
    }

    /// What was applied is what the snapshot has, and nothing is noted.
    fn reset(&mut self) -> Result<(), AllocError>
        ensures { OnOk result (self.new ≡ record { snap = self.old.snap; noted = None; applied = self.old.snap }) }
    {
        self.applied = self.snapshot.summary().copy()?;
        self.base = None;
        self.first.clear();
        self.rest.clear();
        self.note = None;
        Ok(())
    }

    /// What was applied is what the snapshot has, and these entries; nothing is noted.
    pub(crate) fn restart(&mut self, entries: Vec<Entry>) -> Result<(), PackedError>
        ensures { OnOk result (self.new ≡ record {
          snap = self.old.snap;
          noted = None;
          applied = with_entries M.application self.old.snap entries.items;
        }) }
    {
        self.reset()?;
        for entry in entries {
            self.push(entry)?;
        }
        Ok(())
    }
}
