//! The keys, with what happened to them.

ghost use Rattle.std.specs.Prelude.{◌≡◌, ◌≤◌, [], ◌∷◌, false, drop, OnOk, IfOk, if◌then◌else◌};
ghost use Rattle.std.specs.Option.{option_copied};
ghost use Rattle.std.specs.FinMap as map;
ghost use Rattle.kv_machine.specs.Store.{empty, keys, with, closed, compact, current, header, next, base_revision};
ghost use Rattle.kv_machine.specs.Checks.{is_done};
ghost use Rattle.kv_machine.specs.declared.key_value.Event.TheVariants.{Put, Delete};

use crate::key_value::Stored;
use crate::shared::Shared;
use crate::table::Table;
use crate::touch::Touch;
use raft_machine::Key;
use raft_state::Items;
use std::alloc::{AllocError, Global};
use std::collections::VecDeque;
use std::marker::Model;
use std::mem;

/// The keys, and what happened to them since the compacted revision. What a request does is pending until its revision is closed.
#[derive(Drop)]
pub struct Keyspace {
    table: Table,
    compacted: Option<u64>,
    revisions: VecDeque<Items<Touch>>,
    pending: Vec<Touch>,
    current: u64,
}

impl Model for Keyspace {
    ghost use Rattle.kv_machine.specs.Store.{Store};
    ghost use Rattle.kv_machine.specs.StoreCode.{store_code};
    ghost use Rattle.kv_machine.specs.History.{store_of, IsKept};

    ghost Value = { Store };

    ghost coded = { store_code };

    ghost view = { λ a. store_of a.table a.compacted a.revisions.items a.pending.items };

    ghost invariant = { λ a. IsKept a.table a.compacted a.revisions.items a.pending.items a.current };
}

/// The revision from which on what happened is known.
fn base_revision(compacted: Option<u64>) -> u64
    ensures { result ≡ base_revision compacted }
{
    match compacted {
        None => 1,
        Some(revision) => revision.max(1),
    }
}

/// Drops the first revisions, so many of them.
fn drop_first(revisions: &mut VecDeque<Items<Touch>>, count: u64)
    ensures { revisions.new.items ≡ drop count revisions.old.items }
{
    let mut left = count;
    while left > 0 {
        left -= 1;
        revisions.pop_front();
    }
}

impl Keyspace {
    /// No keys, at revision 1. Allocates nothing.
    pub fn new(alloc: Global) -> Self
        ensures { result ≡ empty }
    {
        Keyspace {
            table: Table::new(alloc),
            compacted: None,
            revisions: VecDeque::new(alloc),
            pending: Vec::new(alloc),
            current: 1,
        }
    }

    /// The current revision.
    pub fn current(&self) -> u64
        ensures { result ≡ current self.now }
    {
        self.current
    }

    /// The revision of what happens next. Refused as memory that runs out, once there are 2^64 - 1 revisions.
    pub(crate) fn next(&self) -> Result<u64, AllocError>
        ensures { IfOk result (λ number. number ≡ next self.now) }
    {
        match self.current.checked_add(1) {
            Some(next) => Ok(next),
            None => Err(AllocError),
        }
    }

    /// The revision that an answer tells: the current one, or the next if anything is pending. Refused as [`Keyspace::next`] is.
    pub(crate) fn header(&self) -> Result<u64, AllocError>
        ensures { IfOk result (λ number. number ≡ header self.now) }
    {
        if self.pending.as_slice().is_empty() {
            Ok(self.current)
        } else {
            self.next()
        }
    }

    /// The keys.
    pub(crate) fn table(&self) -> &Table
        ensures { result.now ≡ keys self.now }
    {
        &self.table
    }

    /// What is stored at a key.
    pub fn get(&self, key: &Key) -> Option<&Shared>
        ensures { option_copied result ≡ map.get (keys self.now) key.now }
    {
        self.table.get(key)
    }

    /// Stores something at a key.
    pub fn put(&mut self, alloc: Global, key: Items<u8>, stored: Stored) -> Result<(), AllocError>
        ensures { OnOk result (self.new ≡ with self.old (Put key stored ∷ [])) }
    {
        self.pending.reserve(1)?;
        let name = Key::from_slice(alloc, key.as_slice())?;
        let stored = Shared::new(alloc, stored)?;
        let after = Some(stored.share()?);
        let before = self.table.insert(name, stored)?;
        self.pending.push_reserved(Touch { key, before, after });
        Ok(())
    }

    /// Deletes a key, if it exists.
    pub fn delete(&mut self, alloc: Global, key: Items<u8>) -> Result<(), AllocError>
        ensures { OnOk result (self.new ≡ (if map.contains_key (keys self.old) key then with self.old (Delete key ∷ []) else self.old)) }
    {
        self.pending.reserve(1)?;
        let name = Key::from_slice(alloc, key.as_slice())?;
        if let Some(before) = self.table.remove(&name) {
            self.pending.push_reserved(Touch {
                key,
                before: Some(before),
                after: None,
            });
        }
        Ok(())
    }

    /// Makes what is pending a revision, if anything is. Refused as memory that runs out, once there are 2^64 - 1 revisions.
    pub fn close(&mut self, alloc: Global) -> Result<(), AllocError>
        ensures { OnOk result (self.new ≡ closed self.old) }
    {
        if self.pending.as_slice().is_empty() {
            return Ok(());
        }
        let next = self.next()?;
        self.revisions.reserve(1)?;
        let closed = mem::replace(&mut self.pending, Vec::new(alloc));
        self.revisions.push_back_reserved(Items::from_vec(closed));
        self.current = next;
        Ok(())
    }

    /// Forgets what only revisions before one need.
    pub(crate) fn compact(&mut self, revision: u64)
        requires new { is_done self.old.compacted revision ≡ false }
        requires known { revision ≤ current self.old }
        ensures { self.new ≡ compact self.old revision }
    {
        let count = revision.saturating_sub(base_revision(self.compacted));
        drop_first(&mut self.revisions, count);
        self.compacted = Some(revision);
    }
}
