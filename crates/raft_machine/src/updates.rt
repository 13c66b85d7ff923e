//! Commands that set, remove, and let expire.

ghost use Rattle.std.specs.Prelude.{◌≡◌, ◌+◌, [], ℕ, Bool, List, OnOk, IfOk, is_some, nat_lt, unwrap_or};
ghost use Rattle.std.specs.Option.{option_eq, option_copied, option_map, option_and_then};
ghost use Rattle.std.specs.FinMap.{contains_key, get};
ghost use Rattle.std.specs.Str.{bytes_eq};
ghost use Rattle.raft_machine.specs.Commands.{value_of, told, counted, flag, meets, expires_at, expires_with, told_with, allows, expiring, longest};
ghost use Rattle.raft_machine.specs.Commands.{set, set_all, compare_and_set, append, increment, delete, take, expire, persist, run, run_all};
ghost use Rattle.raft_machine.specs.Space.{Space, deadline_of, without};

use crate::command::{
    Command, Condition, ExpireCondition, Expiry, Failure, Reply, SetOptions, SetReply,
};
use crate::key::Key;
use crate::keyspace::Keyspace;
use crate::numbers;
use crate::queries::{answer, bulk, length};
use crate::stored::{self, Stored};
use raft_state::Items;
use std::alloc::{AllocError, Global};

/// The most bytes that a value has once bytes were added to it (Redis, proto-max-bulk-len).
const LONGEST: usize = 512 * 1024 * 1024;

/// What is stored at a key, if setting it with these options asks for that. Otherwise nothing is looked up.
fn asked<'a>(keyspace: &'a Keyspace, key: &Key, options: SetOptions) -> Option<&'a Stored>
    ensures condition { meets options.condition (is_some result) ≡ meets options.condition (contains_key keyspace.now.map key.now) }
    ensures expiry { expires_with options (option_copied result) ≡ expires_with options (get keyspace.now.map key.now) }
    ensures reply { (done : Bool) → told_with options done (option_copied result) ≡ told_with options done (get keyspace.now.map key.now) }
{
    match options {
        SetOptions {
            condition: Condition::Always,
            expiry: Expiry::Never | Expiry::At(_),
            reply: SetReply::Status | SetReply::Flag,
        } => None,
        _ => keyspace.get(key),
    }
}

/// Whether a key meets a condition.
fn meets(is_there: bool, condition: Condition) -> bool
    ensures { result ≡ meets condition is_there }
{
    match condition {
        Condition::Always => true,
        Condition::IfAbsent => !is_there,
        Condition::IfPresent => is_there,
    }
}

/// When a key is to expire.
fn expires_at(old: Option<&Stored>, expiry: Expiry) -> Option<u64>
    ensures { result ≡ expires_at expiry (option_and_then (λ s. s.expires) (option_copied old.entry)) }
{
    match expiry {
        Expiry::Never => None,
        Expiry::Keep => old?.expires,
        Expiry::At(at) => Some(at),
    }
}

fn flag(done: bool) -> Reply
    ensures { result ≡ flag done }
{
    Reply::Count(if done { 1 } else { 0 })
}

/// A copy of the value that is stored.
fn copy_value(old: Option<&Stored>) -> Result<Option<Items<u8>>, AllocError>
    ensures { IfOk result (λ value. value ≡ option_map (λ s. s.bytes) (option_copied old.entry)) }
{
    match old {
        Some(stored) => Ok(Some(stored.bytes.copy()?)),
        None => Ok(None),
    }
}

/// What setting a key answers.
fn told(old: Option<&Stored>, reply: SetReply, done: bool) -> Result<Reply, AllocError>
    ensures { IfOk result (λ told_now. told_now ≡ told reply done (option_map (λ s. s.bytes) (option_copied old.entry))) }
{
    match reply {
        SetReply::Status => Ok(if done { Reply::Done } else { Reply::Null }),
        SetReply::Old => Ok(bulk(copy_value(old)?)),
        SetReply::Flag => Ok(flag(done)),
    }
}

/// SET.
#[tactic(auto, unfolding(crate::specs::Commands::set))]
pub(crate) fn set(
    keyspace: &mut Keyspace,
    key: Key,
    value: Items<u8>,
    options: SetOptions,
) -> Result<Reply, AllocError>
    ensures { IfOk result (λ reply. (keyspace.new, reply) ≡ set keyspace.old key value options) }
{
    let old = asked(keyspace, &key, options);
    let done = meets(old.is_some(), options.condition);
    let reply = told(old, options.reply, done)?;
    if done {
        let stored = Stored {
            bytes: value,
            expires: expires_at(old, options.expiry),
        };
        keyspace.put(key, stored)?;
    }
    Ok(reply)
}

/// MSET.
pub(crate) fn set_many(
    keyspace: &mut Keyspace,
    pairs: Items<(Items<u8>, Items<u8>)>,
) -> Result<(), AllocError>
    ensures { OnOk result (keyspace.new ≡ set_all keyspace.old pairs) }
{
    for (key, bytes) in pairs.into_vec() {
        let stored = Stored {
            bytes,
            expires: None,
        };
        keyspace.put(Key::from_items(key), stored)?;
    }
    Ok(())
}

/// Whether a key has a value, or none.
fn has(keyspace: &Keyspace, key: &Key, expected: &Option<Items<u8>>) -> bool
    ensures { result ≡ option_eq bytes_eq (value_of keyspace.now.map key.now) expected.now }
{
    match (keyspace.get(key), expected) {
        (Some(stored), Some(bytes)) => stored.bytes.as_slice() == bytes.as_slice(),
        (None, None) => true,
        _ => false,
    }
}

/// Sets a key if it has the value that is expected.
#[tactic(auto, unfolding(crate::specs::Commands::compare_and_set))]
pub(crate) fn compare_and_set(
    keyspace: &mut Keyspace,
    key: Key,
    expected: &Option<Items<u8>>,
    value: Items<u8>,
) -> Result<Reply, AllocError>
    ensures { IfOk result (λ reply. (keyspace.new, reply) ≡ compare_and_set keyspace.old key expected.now value) }
{
    let done = has(keyspace, &key, expected);
    if done {
        let stored = Stored {
            bytes: value,
            expires: None,
        };
        keyspace.put(key, stored)?;
    }
    Ok(flag(done))
}

/// Whether a value would be too long once bytes were added to it.
fn is_too_long(len: usize, more: usize) -> bool
    ensures { result ≡ nat_lt longest (len + more) }
{
    more > LONGEST || len > LONGEST - more
}

/// Removes a key, and answers its value, which is empty if there is no such key.
fn take_or_empty(keyspace: &mut Keyspace, alloc: Global, key: &Key) -> Items<u8>
    ensures value { result ≡ unwrap_or (value_of keyspace.old.map key.now) [] }
    ensures removed { keyspace.new ≡ without keyspace.old key.now }
{
    match keyspace.remove(key) {
        Some(stored) => stored.bytes,
        None => Items::new(alloc),
    }
}

/// APPEND.
#[tactic(auto, unfolding(crate::specs::Commands::append))]
pub(crate) fn append(
    keyspace: &mut Keyspace,
    alloc: Global,
    key: Key,
    more: &[u8],
) -> Result<Reply, AllocError>
    ensures { IfOk result (λ reply. (keyspace.new, reply) ≡ append keyspace.old key more.now) }
{
    if is_too_long(length(keyspace, &key), more.len()) {
        return Ok(Reply::Failed(Failure::TooLong));
    }
    let expires = keyspace.deadline(&key);
    let mut bytes = take_or_empty(keyspace, alloc, &key);
    bytes.extend(more)?;
    let len = bytes.as_slice().len() as u64;
    keyspace.put(key, Stored { bytes, expires })?;
    Ok(Reply::Count(len))
}

/// What counting answers.
fn counted(sum: Result<i64, Failure>) -> Reply
    ensures { (s : Space) (k : List ℕ) → result ≡ (counted s k sum).1 }
{
    match sum {
        Ok(sum) => Reply::Integer(sum),
        Err(failure) => Reply::Failed(failure),
    }
}

/// Stores a sum, if there is one, at a key that there isn't, and answers it.
fn set_sum(
    keyspace: &mut Keyspace,
    alloc: Global,
    key: Key,
    sum: Result<i64, Failure>,
) -> Result<Result<i64, Failure>, AllocError>
    requires { deadline_of keyspace.old.map key ≡ None }
    ensures same { IfOk result (λ s. s ≡ sum) }
    ensures set { OnOk result (keyspace.new ≡ (counted keyspace.old key sum).0) }
{
    match sum {
        Ok(sum) => {
            let stored = Stored {
                bytes: numbers::text(alloc, sum)?,
                expires: None,
            };
            keyspace.put(key, stored)?;
            Ok(Ok(sum))
        }
        Err(failure) => Ok(Err(failure)),
    }
}

/// INCRBY.
#[tactic(auto, unfolding(crate::specs::Commands::increment))]
pub(crate) fn increment(
    keyspace: &mut Keyspace,
    alloc: Global,
    key: Key,
    by: i64,
) -> Result<Reply, AllocError>
    ensures { IfOk result (λ reply. (keyspace.new, reply) ≡ increment keyspace.old key by) }
{
    if let Some(sum) = keyspace.add(alloc, &key, by)? {
        return Ok(counted(sum));
    }
    let sum = set_sum(keyspace, alloc, key, stored::sum(Some(0), by))?;
    Ok(counted(sum))
}

/// DEL. Answers how many keys there were.
pub(crate) fn delete(keyspace: &mut Keyspace, keys: Items<Items<u8>>) -> u64
    ensures { (keyspace.new, result) ≡ delete keyspace.old keys }
{
    let mut count = 0;
    for key in keys.into_vec() {
        if keyspace.remove(&Key::from_items(key)).is_some() {
            count += 1;
        }
    }
    count
}

/// GETDEL.
#[tactic(auto, unfolding(crate::specs::Commands::take))]
pub(crate) fn take(keyspace: &mut Keyspace, key: &Key) -> Reply
    ensures { (keyspace.new, result) ≡ take keyspace.old key.now }
{
    match keyspace.remove(key) {
        Some(stored) => Reply::Bulk(stored.bytes),
        None => Reply::Null,
    }
}

/// Sets when a key expires, if there is such a key.
fn expiring(keyspace: &mut Keyspace, key: Key, expires: Option<u64>) -> Result<Reply, AllocError>
    ensures { IfOk result (λ reply. (keyspace.new, reply) ≡ expiring keyspace.old key expires (value_of keyspace.old.map key)) }
{
    match keyspace.remove(&key) {
        Some(stored) => {
            let stored = Stored {
                bytes: stored.bytes,
                expires,
            };
            keyspace.put(key, stored)?;
            Ok(flag(true))
        }
        None => Ok(flag(false)),
    }
}

/// Whether a condition lets a key expire at a moment that expires at another one, if ever.
fn allows(condition: ExpireCondition, old: Option<u64>, at: u64) -> bool
    ensures { result ≡ allows condition old at }
{
    match condition {
        ExpireCondition::Always => true,
        ExpireCondition::IfPersistent => old.is_none(),
        ExpireCondition::IfVolatile => old.is_some(),
        ExpireCondition::IfLater => old.is_some_and(|old| old < at),
        ExpireCondition::IfEarlier => old.is_none_or(|old| at < old),
        ExpireCondition::IfVolatileAndEarlier => old.is_some_and(|old| at < old),
    }
}

/// PEXPIREAT.
#[tactic(auto, unfolding(crate::specs::Commands::expire))]
pub(crate) fn expire(
    keyspace: &mut Keyspace,
    key: Key,
    at: u64,
    condition: ExpireCondition,
) -> Result<Reply, AllocError>
    ensures { IfOk result (λ reply. (keyspace.new, reply) ≡ expire keyspace.old key at condition) }
{
    if allows(condition, keyspace.deadline(&key), at) {
        expiring(keyspace, key, Some(at))
    } else {
        Ok(flag(false))
    }
}

/// PERSIST.
#[tactic(auto, unfolding(crate::specs::Commands::persist))]
pub(crate) fn persist(keyspace: &mut Keyspace, key: Key) -> Result<Reply, AllocError>
    ensures { IfOk result (λ reply. (keyspace.new, reply) ≡ persist keyspace.old key) }
{
    if keyspace.deadline(&key).is_some() {
        expiring(keyspace, key, None)
    } else {
        Ok(flag(false))
    }
}

/// Runs a command. Out of memory, the keys may have changed or not.
#[tactic(auto, unfolding(crate::specs::Commands::run))]
fn run(keyspace: &mut Keyspace, alloc: Global, command: Command) -> Result<Reply, AllocError>
    ensures { IfOk result (λ reply. (keyspace.new, reply) ≡ run keyspace.old command) }
{
    match command {
        Command::Read(query) => answer(keyspace, alloc, &query),
        Command::Set {
            key,
            value,
            options,
        } => set(keyspace, Key::from_items(key), value, options),
        Command::SetMany(pairs) => {
            set_many(keyspace, pairs)?;
            Ok(Reply::Done)
        }
        Command::CompareAndSet {
            key,
            expected,
            value,
        } => compare_and_set(keyspace, Key::from_items(key), &expected, value),
        Command::Append(key, more) => {
            append(keyspace, alloc, Key::from_items(key), more.as_slice())
        }
        Command::Increment(key, by) => increment(keyspace, alloc, Key::from_items(key), by),
        Command::Delete(keys) => Ok(Reply::Count(delete(keyspace, keys))),
        Command::Take(key) => Ok(take(keyspace, &Key::from_items(key))),
        Command::Expire { key, at, condition } => {
            expire(keyspace, Key::from_items(key), at, condition)
        }
        Command::Persist(key) => persist(keyspace, Key::from_items(key)),
    }
}

/// Runs commands one after the other. Out of memory, the keys may have changed or not.
pub(crate) fn run_all(
    keyspace: &mut Keyspace,
    alloc: Global,
    commands: Items<Command>,
) -> Result<Items<Reply>, AllocError>
    ensures { IfOk result (λ replies. (keyspace.new, replies) ≡ run_all keyspace.old commands) }
{
    let mut replies = Vec::new(alloc);
    for command in commands.into_vec() {
        replies.push(run(keyspace, alloc, command)?)?;
    }
    Ok(Items::from_vec(replies))
}
