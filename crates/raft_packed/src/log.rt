//! A log's entries by index.

ghost use Rattle.std.specs.Prelude.{◌≡◌, ◌≤◌, ◌+◌, IfOk, IsTrue, OnOk, false, filter, fold, length, nat_lt, true};
ghost use Rattle.raft_state.specs.Order.{next};
ghost use Rattle.raft_store.specs.Entries.{entry_meaning};
ghost use Rattle.raft_store.specs.Store.{between, put};
ghost use Rattle.proof_packed_stores.specs.Stores.{with_entries};
ghost use Rattle.raft_packed.specs.Kept.{BeginsUpto};

use crate::error::PackedError;
use crate::machine::Machine;
use crate::states::States;
use raft_state::LogId;
use raft_store::Entry;
use std::alloc::{AllocError, Global};
use std::collections::BTreeMap;

/// Stores each entry at its index.
pub(crate) fn insert_all(
    log: &mut BTreeMap<u64, Entry>,
    entries: Vec<Entry>,
) -> Result<(), AllocError>
    ensures { OnOk result (log.new.entries ≡ fold (put entry_meaning) log.old.entries entries.items) }
{
    for entry in entries {
        log.insert(entry.log_id.index, entry)?;
    }
    Ok(())
}

/// Drops the entries from an index on.
pub(crate) fn cut_from(log: &mut BTreeMap<u64, Entry>, since: u64)
    ensures { log.new.entries ≡ filter (λ p. nat_lt p.0 since) log.old.entries }
{
    log.retain(|index, _| *index < since);
}

/// Whether the first entry stands at an index or below it.
fn begins_upto(log: &BTreeMap<u64, Entry>, upto: u64) -> bool
    ensures some { result ≡ true → BeginsUpto upto log.now.entries }
    ensures none { result ≡ false → filter (λ p. nat_lt upto p.0) log.now.entries ≡ log.now.entries }
{
    match log.first_key_value() {
        Some((first, _)) => *first <= upto,
        None => false,
    }
}

/// Drops the first entry, if it stands at an index or below it. Answers whether it did.
fn drop_first_upto(log: &mut BTreeMap<u64, Entry>, upto: u64) -> bool
    ensures kept { filter (λ p. nat_lt upto p.0) log.new.entries ≡ filter (λ p. nat_lt upto p.0) log.old.entries }
    ensures some { result ≡ true → length log.new.entries + 1 ≡ length log.old.entries }
    ensures none { result ≡ false → filter (λ p. nat_lt upto p.0) log.new.entries ≡ log.new.entries }
{
    if !begins_upto(log, upto) {
        return false;
    }
    log.pop_first().is_some()
}

/// Drops the entries up to an index. No other is visited.
pub(crate) fn drop_upto(log: &mut BTreeMap<u64, Entry>, upto: u64)
    ensures { log.new.entries ≡ filter (λ p. nat_lt upto p.0) log.old.entries }
{
    for _ in 0..log.len() {
        if !drop_first_upto(log, upto) {
            return;
        }
    }
}

/// Copies of the entries from one index up to another, the last included.
fn copy_between(
    alloc: Global,
    log: &BTreeMap<u64, Entry>,
    from: u64,
    last: u64,
) -> Result<Vec<Entry>, AllocError>
    requires { from ≤ last }
    ensures { IfOk result (λ copied. copied.items ≡ between from (last + 1) log.now.entries) }
{
    let mut copied = Vec::new(alloc);
    for (_, entry) in log.range(from..=last) {
        copied.push(entry.copy(alloc)?)?;
    }
    Ok(copied)
}

/// Copies of the entries above one id, up to another.
#[tactic(auto, using(crate::proofs::Ranges::between_none))]
pub(crate) fn copy_past(
    alloc: Global,
    log: &BTreeMap<u64, Entry>,
    prev: &Option<LogId<u64>>,
    last: &Option<LogId<u64>>,
) -> Result<Vec<Entry>, AllocError>
    ensures { IfOk result (λ copied. copied.items ≡ between (next prev.now) (next last.now) log.now.entries) }
{
    let Some(last) = last else {
        return Ok(Vec::new(alloc));
    };
    let Some(prev) = prev else {
        return copy_between(alloc, log, 0, last.index);
    };
    if last.index <= prev.index {
        return Ok(Vec::new(alloc));
    }
    copy_between(alloc, log, prev.index + 1, last.index)
}

/// Applies the entries from one index up to another, the last included.
fn apply_between<M: Machine>(
    alloc: Global,
    log: &BTreeMap<u64, Entry>,
    from: u64,
    last: u64,
    states: &mut States<M>,
) -> Result<(), PackedError>
    requires { from ≤ last }
    ensures { OnOk result (states.new ≡ record states.old {
      applied = with_entries M.application states.old.applied (between from (last + 1) log.now.entries);
    }) }
{
    for (_, entry) in log.range(from..=last) {
        states.push(entry.copy(alloc)?)?;
    }
    Ok(())
}

/// Applies the entries above those that are applied, up to an index.
#[tactic(auto, using(crate::proofs::Ranges::between_none))]
pub(crate) fn apply_due<M: Machine>(
    alloc: Global,
    log: &BTreeMap<u64, Entry>,
    upto: u64,
    states: &mut States<M>,
) -> Result<(), PackedError>
    ensures { OnOk result (states.new ≡ record states.old {
      applied = with_entries M.application states.old.applied (between states.old.applied.end (upto + 1) log.now.entries);
    }) }
{
    let from = states.applied().end();
    if upto < from {
        return Ok(());
    }
    apply_between(alloc, log, from, upto, states)
}

/// Whether these are the entries from one index up to another, the last left out.
fn are_upto(log: &BTreeMap<u64, Entry>, from: u64, end: u64, entries: &[Entry]) -> bool
    requires { from ≤ end }
    ensures { IsTrue result → entries.now ≡ between from end log.now.entries }
{
    let mut left = entries;
    for (_, entry) in log.range(from..end) {
        let Some((first, others)) = left.split_first() else {
            return false;
        };
        if !entry.is_same(first) {
            return false;
        }
        left = others;
    }
    left.is_empty()
}

/// Whether these are the entries from one index up to another, the last left out: none, if that isn't above the one.
#[tactic(auto, using(crate::proofs::Ranges::between_none))]
pub(crate) fn are_between(
    log: &BTreeMap<u64, Entry>,
    from: u64,
    end: u64,
    entries: &[Entry],
) -> bool
    ensures { IsTrue result → entries.now ≡ between from end log.now.entries }
{
    if end <= from {
        return entries.is_empty();
    }
    are_upto(log, from, end, entries)
}
