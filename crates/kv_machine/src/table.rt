//! A map from keys to what is stored at them.

ghost use Rattle.std.specs.Prelude.{◌≡◌, ◌<◌, ◌^◌, length, OnOk, OnErr, IfOk, filter, if◌then◌else◌};
ghost use Rattle.std.specs.Option.{option_copied};
ghost use Rattle.std.specs.FinMap as map;
ghost use Rattle.kv_machine.specs.Ranges.{is_endless, is_within, is_key_le};

use crate::shared::Shared;
use raft_machine::Key;
use std::alloc::{AllocError, Global};
use std::cmp::Ordering;
use std::collections::BTreeMap;
use std::collections::btree_map::Range;
use std::marker::Model;

/// Whether a range's end is that of all keys: one zero byte.
fn is_endless(range_end: &[u8]) -> bool
    ensures { result ≡ is_endless range_end.now }
{
    range_end == [0].as_slice()
}

/// A range's end, or its first key if that isn't before the end.
fn end_from<'a>(key: &'a [u8], range_end: &'a [u8]) -> &'a [u8]
    ensures { result.now ≡ (if is_key_le range_end.now key.now then key.now else range_end.now) }
{
    match range_end.cmp(key) {
        Ordering::Less | Ordering::Equal => key,
        Ordering::Greater => range_end,
    }
}

/// A map from keys, which are bytes, to what is stored at them.
#[derive(Drop)]
pub struct Table {
    entries: BTreeMap<Key, Shared>,
}

impl Model for Table {
    ghost use Rattle.std.specs.Ordering.{nat_cmp};
    ghost use Rattle.std.specs.Cmp.Lexicographic.{slice_cmp};
    ghost use Rattle.std.specs.FinMap.{FinMap, code, from_entries};
    ghost use Rattle.std.specs.Coded.{coded_list, coded_ℕ};
    ghost use Rattle.kv_machine.specs.declared.key_value.Stored.{Stored};
    ghost use Rattle.kv_machine.specs.Codes.{stored_code};

    ghost Value = { FinMap (slice_cmp nat_cmp) Stored };

    ghost coded = { code (coded_list coded_ℕ) stored_code };

    ghost view = { λ a. from_entries a.entries.entries };
}

impl Table {
    /// A table with no keys. Allocates nothing.
    pub(crate) fn new(alloc: Global) -> Self
        ensures { result ≡ map.empty }
    {
        Table {
            entries: BTreeMap::new(alloc),
        }
    }

    /// What is stored at a key.
    pub(crate) fn get(&self, key: &Key) -> Option<&Shared>
        ensures { option_copied result ≡ map.get self.now key.now }
    {
        self.entries.get(key)
    }

    /// Stores something at a key, and answers what was there.
    ///
    /// Out of memory, the table stays as it was.
    pub(crate) fn insert(&mut self, key: Key, stored: Shared) -> Result<Option<Shared>, AllocError>
        ensures ok { OnOk result (self.new ≡ map.insert self.old key stored) }
        ensures old { IfOk result (λ old. old ≡ map.get self.old key) }
        ensures err { OnErr result (self.new ≡ self.old) }
    {
        Ok(self.entries.insert(key, stored)?)
    }

    /// Removes a key, and answers what was stored there.
    pub(crate) fn remove(&mut self, key: &Key) -> Option<Shared>
        ensures stored { result ≡ map.get self.old key.now }
        ensures removed { self.new ≡ map.remove self.old key.now }
    {
        self.entries.remove(key)
    }

    /// The keys of a range in order, with what is stored at each.
    pub(crate) fn span(
        &self,
        alloc: Global,
        key: &[u8],
        range_end: &[u8],
    ) -> Result<Range<'_, Key, Shared>, AllocError>
        ensures is { IfOk result (λ span. span ≡ filter (λ e. is_within key.now range_end.now e.0) (map.entries self.now)) }
        ensures small { IfOk result (λ span. length span < 2 ^ 63) }
    {
        let first = Key::from_slice(alloc, key)?;
        if range_end.is_empty() {
            let last = Key::from_slice(alloc, key)?;
            return Ok(self.entries.range(first..=last));
        }
        if is_endless(range_end) {
            return Ok(self.entries.range(first..));
        }
        let end = Key::from_slice(alloc, end_from(key, range_end))?;
        Ok(self.entries.range(first..end))
    }
}
