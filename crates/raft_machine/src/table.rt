//! A map from keys to what is stored at them.

ghost use Rattle.std.specs.Prelude.{◌≡◌, ◌≤◌, ◌++◌, length, OnOk, OnErr, IfOk, IfSome, IsSome};
ghost use Rattle.std.specs.Option.{option_copied, option_map};
ghost use Rattle.std.specs.FinMap as map;
ghost use Rattle.raft_codec.specs.Codec.{Writes, WritesEach, list};
ghost use Rattle.raft_machine.specs.Bytes.{entry};
ghost use Rattle.raft_machine.specs.Scans.{scan};
ghost use Rattle.raft_machine.specs.Commands.{sum_at, added_at};
ghost use Rattle.raft_machine.specs.Pieces.{BeginsAt, EndsWith, Entries, WritesUpto, from, from_next};

use crate::command::{Failure, Page, ScanOptions};
use crate::cursors::first_at;
use crate::forms::write_entry;
use crate::key::Key;
use crate::scans::page;
use crate::stored::Stored;
use raft_codec::write_number;
use raft_state::Items;
use std::alloc::{AllocError, Global};
use std::collections::BTreeMap;
use std::collections::btree_map::Range;
use std::marker::Model;

/// Appends each key in order, with what is stored there.
fn write_each(out: &mut Vec<u8>, entries: &BTreeMap<Key, Stored>) -> Result<(), AllocError>
    ensures { WritesEach entry entries.now.entries result out.old.items out.new.items }
{
    for (key, stored) in entries {
        write_entry(out, key.as_slice(), stored)?;
    }
    Ok(())
}

/// Appends keys in order, with what is stored at each, until there are so many bytes: the key that comes next, unless all are written.
fn write_upto(
    out: &mut Vec<u8>,
    limit: usize,
    entries: Range<'_, Key, Stored>,
) -> Result<Option<Key>, AllocError>
    ensures next { IfOk result (λ next. (rest : Entries) × EndsWith entries.entry rest × BeginsAt rest next
        × WritesUpto entry entries.entry rest out.old.items out.new.items) }
    ensures more { OnOk result (length out.old.items ≤ length out.new.items) }
    ensures full { IfOk result (λ next. IsSome next → limit ≤ length out.new.items) }
{
    for (key, stored) in entries {
        if out.len() >= limit {
            return Ok(Some(Key::from_vec(key.copy_bytes()?)));
        }
        write_entry(out, key.as_slice(), stored)?;
    }
    Ok(None)
}

/// A copy of a key, and of what is stored there.
fn copy_entry(alloc: Global, key: &[u8], stored: &Stored) -> Result<(Items<u8>, Stored), AllocError>
    ensures { IfOk result (λ copied. copied ≡ (key.now, stored.now)) }
{
    Ok((
        Items::from_vec(Vec::from_slice(alloc, key)?),
        stored.copy()?,
    ))
}

/// Adds a copy of each key in order, with what is stored there.
fn copy_each(
    alloc: Global,
    entries: &BTreeMap<Key, Stored>,
    copied: &mut Vec<(Items<u8>, Stored)>,
) -> Result<(), AllocError>
    ensures { OnOk result (copied.new.items ≡ copied.old.items ++ entries.now.entries) }
{
    for (key, stored) in entries {
        copied.push(copy_entry(alloc, key.as_slice(), stored)?)?;
    }
    Ok(())
}

/// A map from keys, which are bytes, to what is stored at them.
#[derive(Debug, Drop)]
pub struct Table {
    entries: BTreeMap<Key, Stored>,
}

impl Model for Table {
    ghost use Rattle.std.specs.Ordering.{nat_cmp};
    ghost use Rattle.std.specs.Cmp.Lexicographic.{slice_cmp};
    ghost use Rattle.std.specs.FinMap.{FinMap, code, from_entries};
    ghost use Rattle.std.specs.Coded.{coded_list, coded_ℕ};
    ghost use Rattle.raft_machine.specs.declared.stored.Stored.{Stored};
    ghost use Rattle.raft_machine.specs.Table.{stored_code};

    ghost Value = { FinMap (slice_cmp nat_cmp) Stored };

    ghost coded = { code (coded_list coded_ℕ) stored_code };

    ghost view = { λ a. from_entries a.entries.entries };
}

impl Table {
    /// A table with no keys. Allocates nothing.
    pub fn new(alloc: Global) -> Self
        ensures { result ≡ map.empty }
    {
        Table {
            entries: BTreeMap::new(alloc),
        }
    }

    /// What is stored at a key.
    pub fn get(&self, key: &Key) -> Option<&Stored>
        ensures { option_copied result ≡ map.get self.now key.now }
    {
        self.entries.get(key)
    }

    /// How many keys there are.
    pub fn len(&self) -> usize
        ensures { result ≡ map.len self.now }
    {
        self.entries.len()
    }

    /// Stores a value at a key, and answers what was there.
    ///
    /// Out of memory, the table stays as it was.
    pub fn insert(&mut self, key: Key, stored: Stored) -> Result<Option<Stored>, AllocError>
        ensures ok { OnOk result (self.new ≡ map.insert self.old key stored) }
        ensures old { IfOk result (λ old. old ≡ map.get self.old key) }
        ensures err { OnErr result (self.new ≡ self.old) }
    {
        Ok(self.entries.insert(key, stored)?)
    }

    /// Adds to the number at a key, in its place, and answers the sum, if there is such a key.
    ///
    /// What is no number stays as it was, and so does the table out of memory.
    pub fn add(
        &mut self,
        alloc: Global,
        key: &Key,
        by: i64,
    ) -> Result<Option<Result<i64, Failure>>, AllocError>
        ensures sum { IfOk result (λ s. s ≡ sum_at self.old key.now by) }
        ensures added { IfOk result (λ s. self.new ≡ added_at self.old key.now s) }
        ensures err { OnErr result (self.new ≡ self.old) }
    {
        match self.entries.get_mut(key) {
            Some(stored) => Ok(Some(stored.add(alloc, by)?)),
            None => Ok(None),
        }
    }

    /// Removes a key, and answers the key and what was stored there.
    pub fn remove(&mut self, key: &Key) -> Option<(Key, Stored)>
        ensures stored { option_map (λ e. e.1) result ≡ map.get self.old key.now }
        ensures key { IfSome result (λ e. e.0 ≡ key.now) }
        ensures removed { self.new ≡ map.remove self.old key.now }
    {
        self.entries.remove_entry(key)
    }

    /// A step through the keys, in order.
    pub fn scan(&self, alloc: Global, options: &ScanOptions) -> Result<Page, AllocError>
        ensures { IfOk result (λ page. page ≡ scan (map.keys self.now) options.now) }
    {
        let first = Key::from_vec(first_at(alloc, options.cursor)?);
        page(alloc, options, self.entries.range(first..))
    }

    /// Copies of the keys in order, with what is stored at each.
    pub fn copy_entries(&self, alloc: Global) -> Result<Vec<(Items<u8>, Stored)>, AllocError>
        ensures { IfOk result (λ copied. copied.items ≡ map.entries self.now) }
    {
        let mut copied = Vec::with_capacity(alloc, self.entries.len())?;
        copy_each(alloc, &self.entries, &mut copied)?;
        Ok(copied)
    }

    /// Appends the number of keys, and each in order, with what is stored there.
    #[tactic(auto, unfolding(raft_codec::specs::Codec::list))]
    pub fn write(&self, out: &mut Vec<u8>) -> Result<(), AllocError>
        ensures { Writes (list entry) (map.entries self.now) result out.old.items out.new.items }
    {
        write_number(out, self.entries.len() as u64)?;
        write_each(out, &self.entries)
    }

    /// Appends keys in order from one on, with what is stored at each, until there are so many bytes: the key that comes next, unless all are
    /// written.
    pub fn write_from(
        &self,
        first: Key,
        limit: usize,
        out: &mut Vec<u8>,
    ) -> Result<Option<Key>, AllocError>
        ensures next { IfOk result (λ next. WritesUpto entry (from first (map.entries self.now)) (from_next next (map.entries self.now))
            out.old.items out.new.items) }
        ensures more { OnOk result (length out.old.items ≤ length out.new.items) }
        ensures full { IfOk result (λ next. IsSome next → limit ≤ length out.new.items) }
    {
        write_upto(out, limit, self.entries.range(first..))
    }
}
