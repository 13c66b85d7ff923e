//! The keys that there are at a moment.

ghost use Rattle.std.specs.Prelude.{◌≡◌, ◌↔◌, false, true, Some, None, IsTrue, OnOk, OnErr, IfOk, IfSome, if◌then◌else◌};
ghost use Rattle.std.specs.Prelude.{◌≤◌, length, IsSome};
ghost use Rattle.std.specs.Option.{option_copied};
ghost use Rattle.std.specs.FinMap as map;
ghost use Rattle.raft_codec.specs.Codec.{Writes, Reads};
ghost use Rattle.raft_machine.specs.Bytes.{entry, space, is_before, are_rising, are_live};
ghost use Rattle.raft_machine.specs.Pieces.{WritesFront, WritesUpto, from, from_next};
ghost use Rattle.raft_machine.specs.Scans.{scan};
ghost use Rattle.raft_machine.specs.Commands.{sum_at, counted};
ghost use Rattle.raft_machine.specs.Space.{AreNoted, AreLater, alive, lives, advanced, put, without, deadline_of};

use crate::command::{Failure, Page, ScanOptions};
use crate::deadlines::{self, Deadlines};
use crate::form::read_items;
use crate::key::Key;
use crate::stored::Stored;
use crate::table::Table;
use raft_codec::{DecodeError, Fault, Reader, write_number};
use raft_state::Items;
use std::alloc::{AllocError, Global};
use std::collections::BTreeSet;
use std::marker::Model;

/// The keys that there are at a moment, with what is stored at each. A key that has expired isn't there.
#[derive(Debug, Drop)]
pub struct Keyspace {
    table: Table,
    deadlines: Deadlines,
    moment: u64,
}

impl Model for Keyspace {
    ghost use Rattle.raft_machine.specs.Space.{Space, space_code, IsTimely};

    ghost Value = { Space };

    ghost coded = { space_code };

    ghost view = { λ a. record { map = a.table; moment = a.moment } };

    ghost invariant = { λ a. IsTimely a.table a.deadlines a.moment };
}

/// Whether what expires then, if ever, is there at a moment.
fn lives(now: u64, expires: Option<u64>) -> bool
    ensures { result ≡ lives now expires }
{
    match expires {
        None => true,
        Some(at) => now < at,
    }
}

/// Whether a key has expired.
fn has_expired(table: &Table, key: &Key, now: u64) -> bool
    ensures { IsTrue result ↔ (lives now (deadline_of table.now key.now) ≡ false) }
{
    match table.get(key) {
        Some(stored) => !lives(now, stored.expires),
        None => false,
    }
}

/// Removes a key if it has expired.
fn drop_expired(table: &mut Table, key: &Key, now: u64)
    ensures { table.new ≡ (if lives now (deadline_of table.old key.now) then table.old else map.remove table.old key.now) }
{
    if has_expired(table, key, now) {
        table.remove(key);
    }
}

/// Removes the keys that have expired.
fn drop_all_expired(table: &mut Table, deadlines: &mut Deadlines, now: u64)
    requires { AreNoted table.old deadlines.old }
    ensures noted { AreNoted table.new deadlines.new }
    ensures later { AreLater table.new now }
    ensures alive { table.new ≡ alive now table.old }
{
    while deadlines::is_due(deadlines, now) {
        if let Some((_, bytes)) = deadlines.pop_first() {
            let key = Key::from_vec(bytes);
            drop_expired(table, &key, now);
        }
    }
}

/// The deadline, with the key, that won't count any more once a key has another one. There is none without a key.
fn outdated(old: Option<Stored>, new: Option<u64>, key: Option<Vec<u8>>) -> Option<(u64, Vec<u8>)>
    ensures { IfSome result (λ p. (key ≡ Some p.1) × ¬ (new ≡ Some p.0)) }
{
    match (old?.expires, key) {
        (Some(at), Some(key)) if new != Some(at) => Some((at, key)),
        _ => None,
    }
}

/// Whether a key is before the first of those after it.
fn is_before(entry: &(Items<u8>, Stored), after: &[(Items<u8>, Stored)]) -> bool
    ensures { result ≡ is_before entry.now after.now }
{
    match after.split_first() {
        Some((next, _)) => entry.0.as_slice().cmp(next.0.as_slice()).is_lt(),
        None => true,
    }
}

/// Whether each key is before the one after it.
fn are_rising(entries: &[(Items<u8>, Stored)]) -> bool
    ensures { result ≡ are_rising entries.now }
{
    let mut rest = entries;
    while let Some((entry, after)) = rest.split_first() {
        if !is_before(entry, after) {
            return false;
        }
        rest = after;
    }
    true
}

/// Whether no key has expired.
fn are_live(now: u64, entries: &[(Items<u8>, Stored)]) -> bool
    ensures { result ≡ are_live now entries.now }
{
    entries.iter().all(|entry| lives(now, entry.1.expires))
}

impl Keyspace {
    /// No keys, at the first of all moments. Allocates nothing.
    pub fn new(alloc: Global) -> Self
        ensures { result ≡ record { map = map.empty; moment = 0 } }
    {
        Keyspace {
            table: Table::new(alloc),
            deadlines: BTreeSet::new(alloc),
            moment: 0,
        }
    }

    /// The moment, in milliseconds since the Unix epoch.
    pub fn moment(&self) -> u64
        ensures { result ≡ self.now.moment }
    {
        self.moment
    }

    /// What is stored at a key.
    pub fn get(&self, key: &Key) -> Option<&Stored>
        ensures { option_copied result ≡ map.get self.now.map key.now }
    {
        self.table.get(key)
    }

    /// Whether there is a key.
    pub fn contains(&self, key: &Key) -> bool
        ensures { result ≡ map.contains_key self.now.map key.now }
    {
        self.get(key).is_some()
    }

    /// When a key expires, in milliseconds since the Unix epoch, if there is such a key and it does.
    pub fn deadline(&self, key: &Key) -> Option<u64>
        ensures { result ≡ deadline_of self.now.map key.now }
    {
        self.get(key)?.expires
    }

    /// How many keys there are. None of them has expired.
    pub fn len(&self) -> usize
        ensures len { result ≡ map.len self.now.map }
        ensures live { AreLater self.now.map self.now.moment }
    {
        self.table.len()
    }

    /// A step through the keys, in order. None of them has expired.
    pub fn scan(&self, alloc: Global, options: &ScanOptions) -> Result<Page, AllocError>
        ensures { IfOk result (λ page. page ≡ scan (map.keys self.now.map) options.now) }
    {
        self.table.scan(alloc, options)
    }

    /// Lets the moment go on, and removes what has expired then. A moment in the past is the one that there is.
    pub fn advance(&mut self, moment: u64)
        ensures { self.new ≡ advanced self.old moment }
    {
        self.moment = self.moment.max(moment);
        drop_all_expired(&mut self.table, &mut self.deadlines, self.moment);
    }

    /// Removes a key, and answers what was stored there.
    pub fn remove(&mut self, key: &Key) -> Option<Stored>
        ensures stored { result ≡ map.get self.old.map key.now }
        ensures removed { self.new ≡ without self.old key.now }
    {
        let (key, stored) = self.table.remove(key)?;
        if let Some(at) = stored.expires {
            deadlines::forget(&mut self.deadlines, at, key.into_vec());
        }
        Some(stored)
    }

    /// A copy of a key, if any key expires.
    fn copy_if_any_expires(&self, key: &Key) -> Result<Option<Vec<u8>>, AllocError>
        ensures { IfOk result (λ copied. IfSome copied (λ k. k.items ≡ key.now)) }
    {
        if self.deadlines.is_empty() {
            return Ok(None);
        }
        Ok(Some(key.copy_bytes()?))
    }

    /// Stores a value at a key, in the place of what was there. What would have expired already isn't stored, and the key is removed.
    ///
    /// Out of memory, the keys stay as they were.
    pub fn put(&mut self, key: Key, stored: Stored) -> Result<(), AllocError>
        ensures ok { OnOk result (self.new ≡ put self.old key stored) }
        ensures err { OnErr result (self.new ≡ self.old) }
    {
        if !lives(self.moment, stored.expires) {
            self.remove(&key);
            return Ok(());
        }
        let expires = stored.expires;
        let copied = self.copy_if_any_expires(&key)?;
        deadlines::note(&mut self.deadlines, expires, &key)?;
        let old = self.table.insert(key, stored)?;
        if let Some((at, key)) = outdated(old, expires, copied) {
            deadlines::forget(&mut self.deadlines, at, key);
        }
        Ok(())
    }

    /// Adds to the number at a key, in its place, and answers the sum, if there is such a key. Its deadline stays.
    ///
    /// What is no number stays as it was, and so do the keys out of memory.
    pub(crate) fn add(
        &mut self,
        alloc: Global,
        key: &Key,
        by: i64,
    ) -> Result<Option<Result<i64, Failure>>, AllocError>
        ensures sum { IfOk result (λ s. s ≡ sum_at self.old.map key.now by) }
        ensures added { IfOk result (λ s. IfSome s (λ n. self.new ≡ (counted self.old key.now n).0)) }
        ensures none { IfOk result (λ s. s ≡ None → self.new ≡ self.old) }
    {
        self.table.add(alloc, key, by)
    }

    /// These keys, with what is stored at each, at a moment.
    fn of(
        alloc: Global,
        moment: u64,
        mut entries: Vec<(Items<u8>, Stored)>,
    ) -> Result<Self, AllocError>
        requires rising { are_rising entries.items ≡ true }
        requires live { are_live moment entries.items ≡ true }
        ensures { IfOk result (λ keyspace. keyspace ≡ record { map = map.from_sorted entries.items; moment = moment }) }
    {
        let mut keyspace = Keyspace {
            table: Table::new(alloc),
            deadlines: BTreeSet::new(alloc),
            moment,
        };
        while let Some((key, stored)) = entries.pop() {
            keyspace.put(Key::from_items(key), stored)?;
        }
        Ok(keyspace)
    }

    /// A copy.
    pub fn copy(&self, alloc: Global) -> Result<Self, AllocError>
        ensures { IfOk result (λ copied. copied ≡ self.now) }
    {
        Keyspace::of(alloc, self.moment, self.table.copy_entries(alloc)?)
    }

    /// Appends the moment, and the keys in order with what is stored at each.
    #[tactic(auto, unfolding(crate::specs::Bytes::space))]
    pub fn write(&self, out: &mut Vec<u8>) -> Result<(), AllocError>
        ensures { Writes space self.now result out.old.items out.new.items }
    {
        write_number(out, self.moment)?;
        self.table.write(out)
    }

    /// Appends the moment, and how many keys there are: what stands before them.
    pub(crate) fn write_front(&self, out: &mut Vec<u8>) -> Result<(), AllocError>
        ensures front { OnOk result (WritesFront self.now out.old.items out.new.items) }
        ensures more { OnOk result (length out.old.items ≤ length out.new.items) }
    {
        write_number(out, self.moment)?;
        write_number(out, self.table.len() as u64)
    }

    /// Appends keys in order from one on, with what is stored at each, until there are so many bytes: the key that comes next, unless all are
    /// written.
    pub(crate) fn write_from(
        &self,
        first: Key,
        limit: usize,
        out: &mut Vec<u8>,
    ) -> Result<Option<Key>, AllocError>
        ensures next { IfOk result (λ next. WritesUpto entry (from first (map.entries self.now.map)) (from_next next (map.entries self.now.map))
            out.old.items out.new.items) }
        ensures more { OnOk result (length out.old.items ≤ length out.new.items) }
        ensures full { IfOk result (λ next. IsSome next → limit ≤ length out.new.items) }
    {
        self.table.write_from(first, limit, out)
    }

    /// Reads a moment, and its keys.
    ///
    /// Refuses keys that aren't in order, and one that has expired.
    #[tactic(auto, unfolding(crate::specs::Bytes::space))]
    pub fn read(reader: &mut Reader<'_>) -> Result<Self, DecodeError>
        ensures { Reads space result reader.old reader.new }
    {
        let left = reader.left();
        let moment = reader.number()?;
        let entries = read_items(reader)?.into_vec();
        if are_rising(&entries) && are_live(moment, &entries) {
            Ok(Keyspace::of(reader.allocator(), moment, entries)?)
        } else {
            Err(DecodeError::Malformed {
                fault: Fault::Inconsistent,
                left,
            })
        }
    }
}
