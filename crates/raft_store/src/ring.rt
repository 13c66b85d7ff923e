//! Entries by index, without a gap.

ghost use Rattle.std.specs.Prelude.{◌≡◌, ◌≤◌, ◌<◌, ◌+◌, ◌-◌, ◌^◌, ◌↔◌, ◌⊎◌, [], IfOk, IsTrue, OnErr, OnOk, drop, filter, fold, length};
ghost use Rattle.std.specs.Prelude.{map, min, nat_lt};
ghost use Rattle.std.specs.BTreeMap.{is_at};
ghost use Rattle.std.specs.Map.{lookup, values_of};
ghost use Rattle.std.specs.Option.{option_copied};
ghost use Rattle.std.specs.Ordering.{nat_cmp};
ghost use Rattle.std.specs.VecDeque.Iter.{deque_iter_rest};
ghost use Rattle.raft_state.specs.LogLaws.{IsRun};
ghost use Rattle.raft_store.specs.Entries.{entry_meaning};
ghost use Rattle.raft_store.specs.Ring.{Continues, numbered};
ghost use Rattle.raft_store.specs.Store.{between, past, put};

use crate::entry::Entry;
use std::alloc::{AllocError, Global};
use std::collections::VecDeque;
use std::collections::vec_deque::Iter;
use std::marker::Model;

/// Entries with consecutive indexes. An empty ring has no first index.
#[derive(Debug, Drop)]
pub struct Ring {
    items: VecDeque<Entry>,
    /// The index of the first entry; of an empty ring it says nothing.
    first: u64,
}

impl Model for Ring {
    ghost use Rattle.std.specs.Prelude.{ℕ, List, length, ◌+◌, ◌≤◌, ◌^◌};
    ghost use Rattle.raft_store.specs.declared.entry.Entry.{Entry};
    ghost use Rattle.raft_store.specs.Ring.{numbered};

    ghost Value = { List (ℕ × Entry) };

    ghost view = { λ s. numbered s.first s.items.items };

    // the greatest index is a `u64`
    ghost invariant = { λ s. s.first + length s.items.items ≤ 2 ^ 64 };
}

/// The index of the first of so many entries, by the last one's.
fn first_of(last: u64, len: usize) -> u64
    requires { (0 < len) × (len ≤ last + 1) }
    ensures index { result + len ≡ last + 1 }
    ensures end { result + len ≤ 2 ^ 64 }
{
    last - (len as u64 - 1)
}

/// Appends entries, once there is room for all of them, and gives the index of the first one.
fn append_all(
    items: &mut VecDeque<Entry>,
    first: u64,
    entries: Vec<Entry>,
) -> Result<u64, AllocError>
    requires next { Continues entry_meaning (numbered first items.old.items) entries.items }
    requires room { first + length items.old.items ≤ 2 ^ 64 }
    ensures ok { IfOk result (λ n. numbered n items.new.items ≡ fold (put entry_meaning) (numbered first items.old.items) entries.items) }
    ensures end { IfOk result (λ n. n + length items.new.items ≤ 2 ^ 64) }
    ensures err { OnErr result (items.new.items ≡ items.old.items) }
{
    let Some(last) = entries.last() else {
        return Ok(first);
    };
    let last = last.log_id.index;
    items.append(&mut VecDeque::from_vec(entries))?;
    Ok(first_of(last, items.len()))
}

fn cut_from(items: &mut VecDeque<Entry>, first: u64, since: u64)
    ensures cut { numbered first items.new.items ≡ filter (λ p. nat_lt p.0 since) (numbered first items.old.items) }
    ensures len { length items.new.items ≤ length items.old.items }
{
    items.truncate(since.saturating_sub(first) as usize);
}

/// Whether an index is the one after so many, from the first one's on; any index may follow an empty ring.
fn is_next(first: u64, len: usize, index: u64) -> bool
    ensures { IsTrue result ↔ ((len ≡ 0) ⊎ (first + len ≡ index)) }
{
    len == 0 || (first <= index && index - first == len as u64)
}

/// Whether entries have consecutive indexes, from one on.
fn is_run(next: u64, entries: &[Entry]) -> bool
    ensures { IsTrue result ↔ IsRun next (map entry_meaning.id_of entries.now) }
{
    for (place, entry) in entries.iter().enumerate() {
        let index = entry.log_id.index;
        if index < next || index - next != place as u64 {
            return false;
        }
    }
    true
}

/// How many of so many entries stand up to an index.
fn count_upto(len: usize, first: u64, upto: u64) -> usize
    ensures { result ≡ min (upto + 1 - first) len }
{
    if upto < first {
        return 0;
    }
    ((upto - first) as usize).saturating_add(1).min(len)
}

/// Drops entries from the front.
fn drop_first(items: &mut VecDeque<Entry>, count: usize)
    ensures { items.new.items ≡ drop count items.old.items }
{
    for _ in 0..count {
        let _ = items.pop_front();
    }
}

/// Drops the entries up to an index, and gives the index of what is then the first one.
fn drop_upto(items: &mut VecDeque<Entry>, first: u64, upto: u64) -> u64
    requires { first + length items.old.items ≤ 2 ^ 64 }
    ensures past { numbered result items.new.items ≡ filter (λ p. nat_lt upto p.0) (numbered first items.old.items) }
    ensures end { result + length items.new.items ≤ 2 ^ 64 }
{
    let count = count_upto(items.len(), first, upto);
    drop_first(items, count);
    if items.is_empty() {
        return first;
    }
    first + count as u64
}

impl Ring {
    /// No entry.
    pub fn new(alloc: Global) -> Self
        ensures { result ≡ [] }
    {
        Ring {
            items: VecDeque::new(alloc),
            first: 0,
        }
    }

    /// The number of entries.
    pub fn len(&self) -> usize
        ensures count { result ≡ length self.now }
        ensures small { result < 2 ^ 63 }
    {
        self.items.len()
    }

    /// The entry at an index.
    pub fn get(&self, index: u64) -> Option<&Entry>
        ensures { option_copied result ≡ lookup (is_at (nat_cmp index)) self.now }
    {
        if index < self.first {
            return None;
        }
        self.items.get((index - self.first) as usize)
    }

    /// All entries, ascending.
    pub fn values(&self) -> Iter<'_, Entry>
        ensures { deque_iter_rest result ≡ values_of self.now }
    {
        self.items.iter()
    }

    /// The entries from an index on, ascending.
    pub fn values_from(&self, from: u64) -> Iter<'_, Entry>
        ensures { deque_iter_rest result ≡ past from self.now }
    {
        let start = from.saturating_sub(self.first) as usize;
        self.items.range(start.min(self.items.len())..)
    }

    /// The entries from an index on up to another, the last included, ascending.
    pub fn values_between(&self, from: u64, last: u64) -> Iter<'_, Entry>
        ensures { deque_iter_rest result ≡ between from (last + 1) self.now }
    {
        let start = from.saturating_sub(self.first) as usize;
        let end = count_upto(self.items.len(), self.first, last);
        self.items.range(start.min(end)..end)
    }

    /// Whether entries continue these: their indexes are consecutive, after the last one's, if there is one.
    pub fn is_continued_by(&self, entries: &[Entry]) -> bool
        ensures { IsTrue result ↔ Continues entry_meaning self.now entries.now }
    {
        let Some(entry) = entries.first() else {
            return true;
        };
        let next = entry.log_id.index;
        is_next(self.first, self.items.len(), next) && is_run(next, entries)
    }

    /// Appends entries that continue these, once there is room for all of them. Out of memory, all stay as they were.
    pub fn append(&mut self, entries: Vec<Entry>) -> Result<(), AllocError>
        requires { Continues entry_meaning self.old entries.items }
        ensures ok { OnOk result (self.new ≡ fold (put entry_meaning) self.old entries.items) }
        ensures err { OnErr result (self.new ≡ self.old) }
    {
        self.first = append_all(&mut self.items, self.first, entries)?;
        Ok(())
    }

    /// Drops the entries from an index on.
    pub fn truncate(&mut self, since: u64)
        ensures { self.new ≡ filter (λ p. nat_lt p.0 since) self.old }
    {
        cut_from(&mut self.items, self.first, since);
    }

    /// Drops the entries up to an index.
    pub fn purge(&mut self, upto: u64)
        ensures { self.new ≡ filter (λ p. nat_lt upto p.0) self.old }
    {
        self.first = drop_upto(&mut self.items, self.first, upto);
    }

    /// Drops all entries.
    pub fn clear(&mut self)
        ensures { self.new ≡ [] }
    {
        self.items.clear();
    }
}
