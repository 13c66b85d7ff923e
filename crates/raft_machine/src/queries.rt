//! Commands that read.

ghost use Rattle.std.specs.Prelude.{◌≡◌, ◌+◌, ◌/◌, [], length, map, IfOk, IsTrue, unwrap_or, count_by};
ghost use Rattle.std.specs.FinMap.{contains_key, get};
ghost use Rattle.raft_machine.specs.Commands.{answer, bulk, value_of, remaining, seconds};

use crate::command::{Query, Reply};
use crate::key::Key;
use crate::keyspace::Keyspace;
use raft_state::Items;
use std::alloc::{AllocError, Global};

/// A key with a copy of these bytes, to find it by.
fn key(alloc: Global, bytes: &Items<u8>) -> Result<Key, AllocError>
    ensures { IfOk result (λ key. key ≡ bytes.now) }
{
    Key::from_slice(alloc, bytes.as_slice())
}

/// A copy of a key's value.
pub(crate) fn value(
    keyspace: &Keyspace,
    alloc: Global,
    key: &Key,
) -> Result<Option<Items<u8>>, AllocError>
    ensures { IfOk result (λ value. value ≡ value_of keyspace.now.map key.now) }
{
    match keyspace.get(key) {
        Some(stored) => Ok(Some(Items::from_vec(Vec::from_slice(alloc, stored.bytes.as_slice())?))),
        None => Ok(None),
    }
}

pub(crate) fn bulk(value: Option<Items<u8>>) -> Reply
    ensures { result ≡ bulk value }
{
    match value {
        Some(bytes) => Reply::Bulk(bytes),
        None => Reply::Null,
    }
}

fn values(
    keyspace: &Keyspace,
    alloc: Global,
    keys: &[Items<u8>],
) -> Result<Vec<Option<Items<u8>>>, AllocError>
    ensures { IfOk result (λ values. values.items ≡ map (value_of keyspace.now.map) keys.now) }
{
    let mut values = Vec::new(alloc);
    for bytes in keys {
        values.push(value(keyspace, alloc, &key(alloc, bytes)?)?)?;
    }
    Ok(values)
}

fn count(keyspace: &Keyspace, alloc: Global, keys: &[Items<u8>]) -> Result<u64, AllocError>
    ensures { IfOk result (λ count. count ≡ count_by (contains_key keyspace.now.map) keys.now) }
{
    let mut count = 0;
    for bytes in keys {
        if keyspace.contains(&key(alloc, bytes)?) {
            count += 1;
        }
    }
    Ok(count)
}

pub(crate) fn length(keyspace: &Keyspace, key: &Key) -> usize
    ensures { result ≡ length (unwrap_or (value_of keyspace.now.map key.now) []) }
{
    match keyspace.get(key) {
        Some(stored) => stored.bytes.as_slice().len(),
        None => 0,
    }
}

/// How many milliseconds after a moment a key expires, -1 if it doesn't, and -2 if there is no such key (Redis, PTTL and PEXPIRETIME).
fn remaining(keyspace: &Keyspace, key: &Key, from: u64) -> Reply
    ensures { result ≡ remaining (λ n. n) from (get keyspace.now.map key.now) }
{
    match keyspace.get(key) {
        Some(stored) => match stored.expires {
            Some(at) => Reply::Count(at.saturating_sub(from)),
            None => Reply::Integer(-1),
        },
        None => Reply::Integer(-2),
    }
}

/// Milliseconds to the nearest second.
fn seconds(milliseconds: u64) -> u64
    ensures { result ≡ seconds milliseconds }
{
    milliseconds / 1000 + u64::from(milliseconds % 1000 >= 500)
}

/// As [`remaining`], in seconds (Redis, TTL and EXPIRETIME).
fn remaining_seconds(keyspace: &Keyspace, key: &Key, from: u64) -> Reply
    ensures { result ≡ remaining seconds from (get keyspace.now.map key.now) }
{
    match remaining(keyspace, key, from) {
        Reply::Count(milliseconds) => Reply::Count(seconds(milliseconds)),
        reply => reply,
    }
}

/// What a query answers.
#[tactic(auto, unfolding(crate::specs::Commands::answer))]
pub(crate) fn answer(keyspace: &Keyspace, alloc: Global, query: &Query) -> Result<Reply, AllocError>
    ensures { IfOk result (λ reply. reply ≡ answer keyspace.now query.now) }
{
    match query {
        Query::Get(bytes) => Ok(bulk(value(keyspace, alloc, &key(alloc, bytes)?)?)),
        Query::GetMany(keys) => {
            let values = values(keyspace, alloc, keys.as_slice())?;
            Ok(Reply::Values(Items::from_vec(values)))
        }
        Query::Exists(keys) => Ok(Reply::Count(count(keyspace, alloc, keys.as_slice())?)),
        Query::Length(bytes) => Ok(Reply::Count(length(keyspace, &key(alloc, bytes)?) as u64)),
        Query::Size => Ok(Reply::Count(keyspace.len() as u64)),
        Query::Remaining(bytes) => {
            Ok(remaining(keyspace, &key(alloc, bytes)?, keyspace.moment()))
        }
        Query::RemainingSeconds(bytes) => {
            Ok(remaining_seconds(keyspace, &key(alloc, bytes)?, keyspace.moment()))
        }
        Query::Deadline(bytes) => Ok(remaining(keyspace, &key(alloc, bytes)?, 0)),
        Query::DeadlineSeconds(bytes) => { Ok(remaining_seconds(keyspace, &key(alloc, bytes)?, 0)) }
        Query::Scan(options) => Ok(Reply::Scanned(keyspace.scan(alloc, options)?)),
    }
}
