//! What clients were answered, as bytes.

ghost use Rattle.std.specs.Prelude.{◌≡◌, ◌<◌, ◌≤◌, ◌++◌, drop, length, IfOk, OnOk, Some, None, ◌&&◌, if◌then◌else◌};
ghost use Rattle.std.specs.NonZero.{non_zero_usize_get};
ghost use Rattle.lru.specs.LruCache.{lru_cache};
ghost use Rattle.raft_codec.specs.Codec.{Writes, WritesEach, Reads};
ghost use Rattle.raft_machine.specs.Bytes.{are_bounded, are_distinct, session, sessions};
ghost use Rattle.raft_machine.specs.Pieces.{WritesSessionsFront, WritesUpto};

use crate::form::read_items;
use crate::forms::write_session;
use crate::machine::Answered;
use lru::LruCache;
use raft_codec::{DecodeError, Fault, Reader, write_number};
use std::alloc::{AllocError, Global};
use std::num::NonZeroUsize;

/// Appends each session, the latest first.
fn write_each(out: &mut Vec<u8>, cache: &LruCache<u64, Answered>) -> Result<(), AllocError>
    ensures { WritesEach session cache.now.entries result out.old.items out.new.items }
{
    for (client, answered) in cache.iter() {
        write_session(out, *client, answered)?;
    }
    Ok(())
}

/// Appends how many clients are remembered, and those that are, the latest first.
#[tactic(auto, unfolding(crate::specs::Bytes::sessions, raft_codec::specs::Codec::list))]
pub(crate) fn write_sessions(
    out: &mut Vec<u8>,
    cache: &LruCache<u64, Answered>,
) -> Result<(), AllocError>
    ensures { Writes sessions cache.now result out.old.items out.new.items }
{
    write_number(out, cache.cap().get() as u64)?;
    write_number(out, cache.len() as u64)?;
    write_each(out, cache)
}

/// Appends how many clients are remembered, and how many there are: what stands before them.
pub(crate) fn write_front(
    out: &mut Vec<u8>,
    cache: &LruCache<u64, Answered>,
) -> Result<(), AllocError>
    ensures front { OnOk result (WritesSessionsFront cache.now out.old.items out.new.items) }
    ensures more { OnOk result (length out.old.items < length out.new.items) }
{
    write_number(out, cache.cap().get() as u64)?;
    write_number(out, cache.len() as u64)
}

/// Appends sessions, the latest first and so many left out, until there are so many bytes: how many are to be left out next.
pub(crate) fn write_upto(
    out: &mut Vec<u8>,
    limit: usize,
    cache: &LruCache<u64, Answered>,
    count: usize,
) -> Result<usize, AllocError>
    ensures next { IfOk result (λ next. WritesUpto session (drop count cache.now.entries) (drop next cache.now.entries)
        out.old.items out.new.items) }
    ensures full { IfOk result (λ next. next < length cache.now.entries → limit ≤ length out.new.items) }
{
    let mut next = 0;
    for (client, answered) in cache.iter() {
        if next >= count {
            if out.len() >= limit {
                return Ok(next);
            }
            write_session(out, *client, answered)?;
        }
        next += 1;
    }
    Ok(next)
}

/// A cache of these sessions, the latest first, or nothing if a client is there twice.
fn cache_of(
    alloc: Global,
    cap: NonZeroUsize,
    mut entries: Vec<(u64, Answered)>,
) -> Result<Option<LruCache<u64, Answered>>, AllocError>
    requires { length entries.items ≤ non_zero_usize_get cap }
    ensures { IfOk result (λ cache. cache ≡ (if are_distinct entries.items then Some (lru_cache entries.items (non_zero_usize_get cap)) else None)) }
{
    let mut cache = LruCache::sparse(alloc, cap)?;
    while let Some((client, answered)) = entries.pop() {
        if cache.contains(&client) {
            return Ok(None);
        }
        cache.put(client, answered)?;
    }
    Ok(Some(cache))
}

/// Adds a copy of each session, the latest first.
fn copy_each(
    alloc: Global,
    cache: &LruCache<u64, Answered>,
    copied: &mut Vec<(u64, Answered)>,
) -> Result<(), AllocError>
    ensures { OnOk result (copied.new.items ≡ copied.old.items ++ cache.now.entries) }
{
    for (client, answered) in cache.iter() {
        copied.push((*client, answered.copy(alloc)?))?;
    }
    Ok(())
}

/// A copy of what clients were answered.
pub(crate) fn copy_sessions(
    alloc: Global,
    cache: &LruCache<u64, Answered>,
) -> Result<LruCache<u64, Answered>, AllocError>
    ensures { IfOk result (λ copied. copied ≡ cache.now) }
{
    let mut entries = Vec::with_capacity(alloc, cache.len())?;
    copy_each(alloc, cache, &mut entries)?;
    let copied = cache_of(alloc, cache.cap(), entries)?;
    Ok(copied.unwrap())
}

/// As [`cache_of`], for as many clients as are to be remembered. Nothing if that is no client, or fewer than there are.
fn bounded_cache_of(
    alloc: Global,
    cap: usize,
    entries: Vec<(u64, Answered)>,
) -> Result<Option<LruCache<u64, Answered>>, AllocError>
    ensures { IfOk result (λ cache. cache
        ≡ (if are_bounded cap entries.items && are_distinct entries.items then Some (lru_cache entries.items cap) else None)) }
{
    match NonZeroUsize::new(cap) {
        Some(cap) if entries.len() <= cap.get() => cache_of(alloc, cap, entries),
        _ => Ok(None),
    }
}

/// Reads how many clients are remembered, and those that are.
///
/// Refuses a client that is there twice, more clients than are remembered, and a cache that would remember none.
#[tactic(auto, unfolding(crate::specs::Bytes::sessions))]
pub(crate) fn read_sessions(reader: &mut Reader<'_>) -> Result<LruCache<u64, Answered>, DecodeError>
    ensures { Reads sessions result reader.old reader.new }
{
    let left = reader.left();
    let cap = reader.number()? as usize;
    let entries = read_items(reader)?.into_vec();
    match bounded_cache_of(reader.allocator(), cap, entries)? {
        Some(cache) => Ok(cache),
        None => Err(DecodeError::Malformed {
            fault: Fault::Inconsistent,
            left,
        }),
    }
}
