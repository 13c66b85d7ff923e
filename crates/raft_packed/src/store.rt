//! What a node keeps when it stops.

ghost use Rattle.std.specs.Prelude.{◌≡◌, ◌++◌, IfOk, IfSome, IsTrue, None, OnOk, Some, fold, length};
ghost use Rattle.std.specs.BTreeMap.{is_at};
ghost use Rattle.std.specs.Map.{lookup, values_of};
ghost use Rattle.std.specs.Option.{option_copied, option_map};
ghost use Rattle.std.specs.Ordering.{nat_cmp};
ghost use Rattle.raft_state.specs.Order.{next};
ghost use Rattle.raft_store.specs.Entries.{entry_meaning};
ghost use Rattle.raft_store.specs.Starting.{entries_of};
ghost use Rattle.raft_store.specs.Store.{between, no_store, put};
ghost use Rattle.proof_packed_stores.specs.Stores.{packed_due, packed_exec, packed_exec_payload, packed_keep_snapshot, packed_store, with_entries};
ghost use Rattle.raft_frames.specs.Format.{sum_of};
ghost use Rattle.raft_packed.specs.Kept.{IsNamedByEnd, folded, is_longer, kept_if_noted, summary_of};

use crate::encoding::Encoded;
use crate::error::PackedError;
use crate::log::{apply_due, copy_past, cut_from, drop_upto, insert_all};
use crate::machine::Machine;
use crate::packed::Packed;
use crate::states::States;
use crate::summary::Summary;
use raft_command::sm::{self, CommandPayload};
use raft_command::{Command, Snapshot};
use raft_state::{LogId, SnapshotMeta, StoredMembership, Text, Vote};
use raft_store::{Entry, WorldConfig};
use std::alloc::{AllocError, Global};
use std::collections::BTreeMap;
use std::marker::Model;
use std::num::NonZeroUsize;

/// What a node keeps when it stops: its vote, its log with the last purged id, its snapshot, the saved committed id, and what its state
/// machine has applied. Beside it stands what a node that runs has noted for the next snapshot.
#[derive(Drop)]
pub struct PackedStore<M: Machine> {
    pub(crate) alloc: Global,
    pub(crate) vote: Vote<u64>,
    /// The entries by index.
    pub(crate) log: BTreeMap<u64, Entry>,
    pub(crate) front: Option<LogId<u64>>,
    pub(crate) meta: SnapshotMeta<u64, ()>,
    pub(crate) saved: Option<LogId<u64>>,
    pub(crate) states: States<M>,
}

impl<M: Machine> Model for PackedStore<M> {
    ghost use Rattle.raft_packed.specs.Kept.{NotedStore};

    ghost Value = { NotedStore M };

    ghost view = { λ s. record {
      store = record {
        vote = s.vote;
        log = s.log.entries;
        front = s.front;
        meta = s.meta;
        snap = s.states.snap;
        saved = s.saved;
        applied = s.states.applied;
      };
      noted = s.states.noted;
    } };
}

impl<M: Machine> PackedStore<M> {
    /// The store of a new node.
    pub fn new(alloc: Global) -> Self
        ensures { result ≡ record { store = packed_store M.application (no_store 0); noted = None } }
    {
        PackedStore {
            alloc,
            vote: Vote::default(),
            log: BTreeMap::new(alloc),
            front: None,
            meta: SnapshotMeta {
                last_log_id: None,
                last_membership: StoredMembership::empty(alloc),
                snapshot_id: Text::new(alloc),
            },
            saved: None,
            states: States::new(alloc),
        }
    }

    /// The allocator of its collections.
    pub fn allocator(&self) -> Global {
        self.alloc
    }

    /// The saved vote.
    pub fn vote(&self) -> Vote<u64>
        ensures { result ≡ self.now.store.vote }
    {
        self.vote
    }

    /// The last purged id.
    pub fn front(&self) -> Option<LogId<u64>>
        ensures { result ≡ self.now.store.front }
    {
        self.front
    }

    /// The saved committed id.
    pub fn saved(&self) -> Option<LogId<u64>>
        ensures { result ≡ self.now.store.saved }
    {
        self.saved
    }

    /// The entry at an index, unless it is purged or in the snapshot alone.
    pub fn entry(&self, index: u64) -> Option<&Entry>
        ensures { option_copied result ≡ lookup (is_at (nat_cmp index)) self.now.store.log }
    {
        self.log.get(&index)
    }

    /// The stored log entries, in their order.
    pub fn entries(&self) -> Result<Vec<&Entry>, AllocError>
        ensures { IfOk result (λ log. entries_of log.items ≡ values_of self.now.store.log) }
    {
        let mut log = Vec::new(self.alloc);
        for entry in self.log.values() {
            log.push(entry)?;
        }
        Ok(log)
    }

    /// The number of stored log entries.
    pub fn log_len(&self) -> usize
        ensures { result ≡ length self.now.store.log }
    {
        self.log.len()
    }

    /// Copies of the entries above one id, up to another.
    pub fn copy_range(
        &self,
        prev: &Option<LogId<u64>>,
        last: &Option<LogId<u64>>,
    ) -> Result<Vec<Entry>, AllocError>
        ensures { IfOk result (λ copied. copied.items ≡ between (next prev.now) (next last.now) self.now.store.log) }
    {
        copy_past(self.alloc, &self.log, prev, last)
    }

    /// What is kept of what the state machine has applied, but its state.
    pub fn applied(&self) -> &Summary
        ensures { result.now ≡ summary_of self.now.store.applied }
    {
        self.states.applied()
    }

    /// A copy of what the state machine has applied, whose state is made first.
    pub fn copy_applied(&self) -> Result<Packed<M>, AllocError>
        ensures { IfOk result (λ copied. copied ≡ self.now.store.applied) }
    {
        self.states.copy_applied()
    }

    /// What is kept of what is noted for the next snapshot, but its state.
    pub fn noted(&self) -> Option<&Summary>
        ensures { option_copied result ≡ option_map summary_of self.now.noted }
    {
        self.states.noted()
    }

    /// A copy of what is noted for the next snapshot, whose state is made first.
    pub fn copy_noted(&self) -> Result<Option<Packed<M>>, AllocError>
        ensures { IfOk result (λ copied. copied ≡ self.now.noted) }
    {
        self.states.copy_noted()
    }

    /// What is kept of the snapshot, but its state.
    pub fn snapshot(&self) -> &Summary
        ensures { result.now ≡ summary_of self.now.store.snap }
    {
        self.states.snapshot()
    }

    /// A copy of the snapshot, whose state is made first.
    pub fn copy_snapshot(&self) -> Result<Packed<M>, AllocError>
        ensures { IfOk result (λ copied. copied ≡ self.now.store.snap) }
    {
        self.states.copy_snapshot()
    }

    /// A copy of the snapshot. Its late entries are applied before, not to the copy and then once more to what it shares. Out of memory, nothing
    /// is promised of the store.
    pub fn share_snapshot(&mut self) -> Result<Packed<M>, AllocError>
        ensures copied { IfOk result (λ copied. copied ≡ self.old.store.snap) }
        ensures same { OnOk result (self.new ≡ self.old) }
    {
        self.states.share_snapshot()
    }

    /// Encodes the next bytes of the snapshot's state, some `most` of them, behind a front, as the payload of a frame behind one with the sum
    /// `before`; once all are there it sums them, as many at a time. There is room for `room` bytes at first. Answers whether more is left to be
    /// done. It begins anew with another front or sum before, and once the state has changed. While entries are late (`fold_some`) it does
    /// nothing, and answers true; if the payload is too long for a frame it does nothing more, and answers false. Out of memory, what was encoded
    /// is dropped.
    pub fn encode_some(
        &mut self,
        before: u32,
        front: &[u8],
        room: usize,
        most: NonZeroUsize,
    ) -> Result<bool, AllocError>
        ensures { self.new ≡ self.old }
    {
        self.states.encode_some(before, front, room, most)
    }

    /// The front and the bytes of the snapshot's state behind it, with the sum of a frame that has them behind one with the sum `before`, if all
    /// of it is encoded and summed ([`PackedStore::encode_some`]): they are given away. None while entries are late.
    pub fn take_encoded(&mut self, before: u32, front: &[u8]) -> Option<Encoded>
        ensures bytes { IfSome result (λ e. e.bytes.items ≡ front.now ++ M.codec.bytes self.old.store.snap.state) }
        ensures fits { IfSome result (λ e. M.codec.fits self.old.store.snap.state) }
        ensures sum { IfSome result (λ e. e.sum ≡ sum_of before e.bytes.items) }
        ensures same { self.new ≡ self.old }
    {
        self.states.take_encoded(before, front)
    }

    /// Makes a part of the snapshot's state, for which nothing waits: applies so many of its entries to it, at most. Answers whether more of
    /// them are left. Out of memory, nothing is promised of the store.
    pub fn fold_some(&mut self, most: usize) -> Result<bool, AllocError>
        ensures { OnOk result (self.new ≡ self.old) }
    {
        self.states.fold_some(most)
    }

    /// What the snapshot says of itself.
    pub fn meta(&self) -> &SnapshotMeta<u64, ()>
        ensures { result.now ≡ self.now.store.meta }
    {
        &self.meta
    }

    /// Keeps a snapshot that a node has built, if it is longer than the stored one (Raft paper, section 7). Out of memory, nothing is
    /// promised of the store.
    pub fn keep_snapshot(&mut self, built: Packed<M>) -> Result<(), AllocError>
        ensures { OnOk result (self.new ≡ record self.old { store = packed_keep_snapshot built self.old.store }) }
    {
        if built.end() <= self.states.snapshot().end() {
            return Ok(());
        }
        self.meta = built.meta(self.alloc)?;
        self.states.keep(built)
    }

    /// Notes what was applied for the next snapshot: its state is made once that is kept.
    pub fn note(&mut self) -> Result<(), AllocError>
        ensures { OnOk result (self.new ≡ record self.old { noted = Some self.old.store.applied }) }
    {
        self.states.note()
    }

    /// Forgets what is noted for the next snapshot.
    pub fn forget_note(&mut self)
        ensures { self.new ≡ record self.old { noted = None } }
    {
        self.states.forget_note();
    }

    /// Keeps the snapshot that is noted, if one is, and if it is longer than the stored one (Raft paper, section 7). It stays noted. Out of
    /// memory, nothing is promised of the store.
    pub fn keep_noted(&mut self) -> Result<(), AllocError>
        ensures { OnOk result (self.new ≡ record self.old { store = kept_if_noted self.old.noted self.old.store }) }
    {
        let Some(noted) = self.states.noted() else {
            return Ok(());
        };
        if noted.end() <= self.states.snapshot().end() {
            return Ok(());
        }
        self.meta = noted.meta(self.alloc)?;
        self.states.keep_noted()
    }

    /// Whether what is noted is longer than the stored snapshot.
    fn is_noted_longer(&self) -> bool
        ensures { result ≡ is_longer (option_map summary_of self.now.noted) self.now.store.snap.end }
    {
        match self.states.noted() {
            Some(noted) => self.states.snapshot().end() < noted.end(),
            None => false,
        }
    }

    /// Whether the end of what is noted for the next snapshot, if anything is, names it: it isn't longer than the stored one, so that it won't be
    /// kept, or it is that one with the log's entries up to there. No state is made for it: of one that was made before it may say no.
    #[tactic(auto, using(crate::proofs::Folded::shorter_named, crate::proofs::Folded::folded_named))]
    pub fn is_named_by_end(&self) -> bool
        ensures { IsTrue result → IsNamedByEnd M.application self.now.store self.now.noted }
    {
        !self.is_noted_longer() || self.states.is_noted_folded(&self.log)
    }

    /// What was applied is what the snapshot has, and the log's entries up to an index, the last left out.
    fn apply_from_snapshot(&mut self, end: u64) -> Result<(), PackedError>
        ensures { OnOk result (self.new.store ≡ record self.old.store { applied = folded M.application self.old.store end }) }
    {
        self.states.restart(Vec::new(self.alloc))?;
        match end.checked_sub(1) {
            Some(last) => apply_due(self.alloc, &self.log, last, &mut self.states),
            None => Ok(()),
        }
    }

    /// Keeps the snapshot that has the log's entries up to an index too, the last left out, if it is longer than the stored one: the entries are
    /// applied to the state that is stored, and none is copied. What was applied is then what it has. For a store whose node doesn't run: what was
    /// noted is lost, and after an `Err` nothing is promised of the store.
    pub fn fold_log(&mut self, end: u64) -> Result<(), PackedError>
        ensures { OnOk result (self.new.store ≡ record (packed_keep_snapshot (folded M.application self.old.store end) self.old.store) {
          applied = folded M.application self.old.store end;
        }) }
    {
        self.apply_from_snapshot(end)?;
        self.note()?;
        self.keep_noted()?;
        Ok(())
    }

    /// Stores each entry at its index.
    fn append(&mut self, entries: Vec<Entry>) -> Result<(), PackedError>
        ensures { OnOk result (self.new ≡ record self.old {
          store = record self.old.store { log = fold (put entry_meaning) self.old.store.log entries.items };
        }) }
    {
        insert_all(&mut self.log, entries)?;
        Ok(())
    }

    /// Applies what is due up to an id, and saves that id.
    fn commit(&mut self, upto: LogId<u64>) -> Result<(), PackedError>
        ensures { OnOk result (self.new ≡ record self.old {
          store = record self.old.store {
            saved = Some upto;
            applied = with_entries M.application self.old.store.applied (packed_due self.old.store upto);
          };
        }) }
    {
        apply_due(self.alloc, &self.log, upto.index, &mut self.states)?;
        self.saved = Some(upto);
        Ok(())
    }

    /// Replaces the snapshot and what was applied.
    fn install(
        &mut self,
        snapshot: Snapshot<WorldConfig>,
        brought: &Packed<M>,
    ) -> Result<(), PackedError>
        ensures { OnOk result (self.new ≡ record self.old {
          store = record self.old.store { meta = snapshot.meta; snap = brought.now; applied = brought.now };
        }) }
    {
        self.states.install(brought.copy()?)?;
        let Snapshot { meta, .. } = snapshot;
        self.meta = meta;
        Ok(())
    }

    fn execute_payload(
        &mut self,
        payload: CommandPayload<WorldConfig>,
        brought: &Packed<M>,
    ) -> Result<(), PackedError>
        ensures { OnOk result (self.new ≡ record self.old { store = packed_exec_payload M.application brought.now payload self.old.store }) }
    {
        match payload {
            CommandPayload::InstallFullSnapshot { snapshot } => self.install(snapshot, brought),
            _ => Ok(()),
        }
    }

    /// Changes the store as a command does. A snapshot that is to be installed is what the message brought, whatever data the command has.
    /// After an `Err` nothing is promised of the store:
    ///
    /// - [`PackedError::OutOfMemory`].
    /// - [`PackedError::TooManyEntries`]: the index behind the last entry that was to be applied has no 64 bits.
    pub fn execute(
        &mut self,
        command: Command<WorldConfig>,
        brought: &Packed<M>,
    ) -> Result<(), PackedError>
        ensures { OnOk result (self.new ≡ record self.old { store = packed_exec M.application brought.now command self.old.store }) }
    {
        match command {
            Command::SaveVote { vote } => {
                self.vote = vote;
                Ok(())
            }
            Command::AppendInputEntries { entries, .. } => self.append(entries.into_vec()),
            Command::DeleteConflictLog { since } => {
                cut_from(&mut self.log, since.index);
                Ok(())
            }
            Command::PurgeLog { upto } => {
                drop_upto(&mut self.log, upto.index);
                self.front = Some(upto);
                Ok(())
            }
            Command::Commit { upto, .. } => self.commit(upto),
            Command::StateMachine { command } => {
                let sm::Command { payload, .. } = command;
                self.execute_payload(payload, brought)
            }
            _ => Ok(()),
        }
    }
}
