//! What a range is answered.

ghost use Rattle.std.specs.Prelude.{◌≡◌, List, ◌+◌, ◌<◌, ◌^◌, [], IfOk, take, filter, length, map};
ghost use Rattle.std.specs.FinMap as keys;
ghost use Rattle.kv_machine.specs.declared.key_value.KeyValue.{KeyValue};
ghost use Rattle.kv_machine.specs.Ranges.{key_value, found, is_asked, is_at_least, is_at_most, is_unbounded, is_unordered, is_cut};
ghost use Rattle.kv_machine.specs.Ranges.{limited, shown, taken, without_value, counted, response, range, chosen};

use crate::answer::RangeResponse;
use crate::key_value::{KeyValue, Stored};
use crate::request::{RangeRequest, SortOrder};
use crate::shared::Shared;
use crate::sorts::sorted;
use crate::table::Table;
use raft_machine::Key;
use raft_state::Items;
use std::alloc::{AllocError, Global};
use std::collections::btree_map::Range;

/// A copy of a key, with what is stored there.
pub(crate) fn key_value(alloc: Global, key: &[u8], stored: &Stored) -> Result<KeyValue, AllocError>
    ensures { IfOk result (λ kv. kv ≡ key_value (key.now, stored.now)) }
{
    Ok(KeyValue {
        key: Items::from_vec(Vec::from_slice(alloc, key)?),
        stored: stored.copy()?,
    })
}

/// Copies of keys in order, with what is stored at each: so many and one more, if there are.
fn copy_first(
    alloc: Global,
    most: u64,
    span: Range<'_, Key, Shared>,
) -> Result<Vec<KeyValue>, AllocError>
    ensures { IfOk result (λ kvs. kvs.items ≡ take (most + 1) (map key_value span.entry)) }
{
    let mut kvs = Vec::new(alloc);
    for (key, shared) in span {
        if kvs.len() as u64 > most {
            break;
        }
        kvs.push(key_value(alloc, key.as_slice(), shared.get())?)?;
    }
    Ok(kvs)
}

/// How many keys there are.
fn count(span: Range<'_, Key, Shared>) -> u64
    requires { length span < 2 ^ 63 }
    ensures { result ≡ length span.entry }
{
    let mut count = 0;
    for (_key, _) in span {
        count += 1;
    }
    count
}

/// Copies of all keys of a range in order, with what is stored at each.
pub(crate) fn found(
    alloc: Global,
    table: &Table,
    key: &[u8],
    range_end: &[u8],
) -> Result<Vec<KeyValue>, AllocError>
    ensures { IfOk result (λ kvs. kvs.items ≡ found table.now key.now range_end.now) }
{
    copy_first(alloc, u64::MAX, table.span(alloc, key, range_end)?)
}

/// Whether no keys are asked for by a revision.
fn is_unbounded(request: &RangeRequest) -> bool
    ensures { result ≡ is_unbounded request.now }
{
    request.min_mod_revision == 0
        && request.max_mod_revision == 0
        && request.min_create_revision == 0
        && request.max_create_revision == 0
}

fn is_unordered(order: SortOrder) -> bool
    ensures { result ≡ is_unordered order }
{
    match order {
        SortOrder::None => true,
        SortOrder::Ascend | SortOrder::Descend => false,
    }
}

/// Whether a revision isn't behind the last that is asked for. 0 asks for any.
fn is_at_most(most: u64, revision: u64) -> bool
    ensures { result ≡ is_at_most most revision }
{
    most == 0 || revision <= most
}

/// Whether a key's revisions are asked for.
fn is_asked(request: &RangeRequest, kv: &KeyValue) -> bool
    ensures { result ≡ is_asked request.now kv.now }
{
    is_at_most(request.max_mod_revision, kv.stored.mod_revision)
        && request.min_mod_revision <= kv.stored.mod_revision
        && is_at_most(request.max_create_revision, kv.stored.create_revision)
        && request.min_create_revision <= kv.stored.create_revision
}

/// The keys whose revisions are asked for.
fn asked(
    alloc: Global,
    request: &RangeRequest,
    kvs: Vec<KeyValue>,
) -> Result<Vec<KeyValue>, AllocError>
    ensures { IfOk result (λ asked. asked.items ≡ filter (is_asked request.now) kvs.items) }
{
    if is_unbounded(request) {
        return Ok(kvs);
    }
    let mut asked = Vec::new(alloc);
    for kv in kvs {
        if is_asked(request, &kv) {
            asked.push(kv)?;
        }
    }
    Ok(asked)
}

/// The first keys, if there is a limit.
fn limited(limit: u64, mut kvs: Vec<KeyValue>) -> Vec<KeyValue>
    ensures { result.items ≡ limited limit kvs.items }
{
    if limit > 0 && (kvs.len() as u64) > limit {
        kvs.truncate(limit as usize);
    }
    kvs
}

/// A key without its value.
fn without_value(alloc: Global, kv: KeyValue) -> KeyValue
    ensures { result ≡ without_value kv }
{
    KeyValue {
        key: kv.key,
        stored: Stored {
            value: Items::new(alloc),
            create_revision: kv.stored.create_revision,
            mod_revision: kv.stored.mod_revision,
            version: kv.stored.version,
            lease: kv.stored.lease,
        },
    }
}

/// The keys, without their values if keys alone are asked for.
fn shown(alloc: Global, keys_only: bool, kvs: Vec<KeyValue>) -> Result<Vec<KeyValue>, AllocError>
    ensures { IfOk result (λ left. left.items ≡ shown keys_only kvs.items) }
{
    if !keys_only {
        return Ok(kvs);
    }
    let mut shown = Vec::with_capacity(alloc, kvs.len())?;
    for kv in kvs {
        shown.push(without_value(alloc, kv))?;
    }
    Ok(shown)
}

/// Whether no more keys are needed than the limit and one more.
fn is_cut(request: &RangeRequest) -> bool
    ensures { result ≡ is_cut request.now }
{
    is_unordered(request.sort_order) && is_unbounded(request) && request.limit > 0
}

/// The keys of a range that are needed to answer a request.
fn taken(alloc: Global, table: &Table, request: &RangeRequest) -> Result<Vec<KeyValue>, AllocError>
    ensures { IfOk result (λ kvs. kvs.items ≡ taken request.now (found table.now request.now.key request.now.range_end)) }
{
    if is_cut(request) {
        let span = table.span(alloc, request.key.as_slice(), request.range_end.as_slice())?;
        return copy_first(alloc, request.limit, span);
    }
    found(
        alloc,
        table,
        request.key.as_slice(),
        request.range_end.as_slice(),
    )
}

/// How many keys there are in a range.
fn count_found(
    alloc: Global,
    table: &Table,
    key: &[u8],
    range_end: &[u8],
) -> Result<u64, AllocError>
    ensures { IfOk result (λ count. count ≡ length (found table.now key.now range_end.now)) }
{
    Ok(count(table.span(alloc, key, range_end)?))
}

/// The response with the keys that are asked for, in their order.
fn respond(
    alloc: Global,
    revision: u64,
    request: &RangeRequest,
    count: u64,
    kvs: Vec<KeyValue>,
) -> Result<RangeResponse, AllocError>
    ensures { IfOk result (λ answer. (all : List KeyValue) → count ≡ length all → answer ≡ response revision request.now all kvs.items) }
{
    let more = request.limit > 0 && (kvs.len() as u64) > request.limit;
    let kvs = shown(alloc, request.keys_only, limited(request.limit, kvs))?;
    Ok(RangeResponse {
        revision,
        kvs: Items::from_vec(kvs),
        more,
        count,
    })
}

/// What a range is answered of these keys.
#[tactic(auto, unfolding(crate::specs::Ranges::range))]
pub(crate) fn range(
    alloc: Global,
    table: &Table,
    revision: u64,
    request: &RangeRequest,
) -> Result<RangeResponse, AllocError>
    ensures { IfOk result (λ response. response ≡ range table.now revision request.now) }
{
    let count = count_found(
        alloc,
        table,
        request.key.as_slice(),
        request.range_end.as_slice(),
    )?;
    if request.count_only {
        return Ok(RangeResponse {
            revision,
            kvs: Items::new(alloc),
            more: false,
            count,
        });
    }
    let kvs = asked(alloc, request, taken(alloc, table, request)?)?;
    let kvs = sorted(request.sort_order, request.sort_target, kvs)?;
    respond(alloc, revision, request, count, kvs)
}
