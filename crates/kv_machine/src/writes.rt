//! Puts and deletes.

ghost use Rattle.std.specs.Prelude.{◌≡◌, ◌+◌, [], length, map, IfOk, OnOk};
ghost use Rattle.std.specs.Option.{option_copied};
ghost use Rattle.std.specs.FinMap.{get};
ghost use Rattle.kv_machine.specs.Store.{keys, next, with};
ghost use Rattle.kv_machine.specs.Deletable.{Deletable};
ghost use Rattle.kv_machine.specs.Writes.{put_on, value_by, lease_by, prev_kv, put, deletes, delete_range};

use crate::answer::DeleteRangeResponse;
use crate::key_value::{KeyValue, Stored};
use crate::keyspace::Keyspace;
use crate::ranges::found;
use crate::request::{DeleteRangeRequest, PutRequest};
use crate::shared::Shared;
use raft_machine::Key;
use raft_state::Items;
use std::alloc::{AllocError, Global};

/// What is stored at a key by a put in a revision. A version of more than 2^64 - 1 is refused as memory that runs out.
fn put_on(
    old: Option<&Shared>,
    revision: u64,
    value: Items<u8>,
    lease: u64,
) -> Result<Stored, AllocError>
    ensures { IfOk result (λ stored. stored ≡ put_on (option_copied old.entry) revision value lease) }
{
    match old {
        None => Ok(Stored {
            create_revision: revision,
            mod_revision: revision,
            version: 1,
            lease,
            value,
        }),
        Some(old) => {
            let old = old.get();
            let Some(version) = old.version.checked_add(1) else {
                return Err(AllocError);
            };
            Ok(Stored {
                create_revision: old.create_revision,
                mod_revision: revision,
                version,
                lease,
                value,
            })
        }
    }
}

/// The value that a put leaves at a key.
fn value_by(
    alloc: Global,
    old: Option<&Shared>,
    ignore_value: bool,
    value: Items<u8>,
) -> Result<Items<u8>, AllocError>
    ensures { IfOk result (λ kept. kept ≡ value_by ignore_value value (option_copied old.entry)) }
{
    if !ignore_value {
        return Ok(value);
    }
    match old {
        Some(old) => old.get().value.copy(),
        None => Ok(Items::new(alloc)),
    }
}

/// The lease that a put leaves at a key.
fn lease_by(old: Option<&Shared>, ignore_lease: bool, lease: u64) -> u64
    ensures { result ≡ lease_by ignore_lease lease (option_copied old.entry) }
{
    if !ignore_lease {
        return lease;
    }
    match old {
        Some(old) => old.get().lease,
        None => 0,
    }
}

/// What was stored at a key, if that is asked for.
fn prev_kv(
    asked: bool,
    key: &Items<u8>,
    old: Option<&Shared>,
) -> Result<Option<KeyValue>, AllocError>
    ensures { IfOk result (λ kv. kv ≡ prev_kv asked key.now (option_copied old.entry)) }
{
    match old {
        Some(old) if asked => Ok(Some(KeyValue {
            key: key.copy()?,
            stored: old.get().copy()?,
        })),
        _ => Ok(None),
    }
}

/// Put. What was stored at the key, if that is asked for.
#[tactic(auto, unfolding(crate::specs::Writes::put))]
pub fn put(
    keyspace: &mut Keyspace,
    alloc: Global,
    request: PutRequest,
) -> Result<Option<KeyValue>, AllocError>
    ensures { IfOk result (λ prev. (keyspace.new, prev) ≡ put keyspace.old request) }
{
    let PutRequest {
        key,
        value,
        lease,
        prev_kv: is_asked,
        ignore_value,
        ignore_lease,
    } = request;
    let revision = keyspace.next()?;
    let old = keyspace.get(&Key::from_slice(alloc, key.as_slice())?);
    let prev = prev_kv(is_asked, &key, old)?;
    let value = value_by(alloc, old, ignore_value, value)?;
    let stored = put_on(old, revision, value, lease_by(old, ignore_lease, lease))?;
    keyspace.put(alloc, key, stored)?;
    Ok(prev)
}

/// Deletes keys, of which each exists once those before it are deleted.
fn delete_all(keyspace: &mut Keyspace, alloc: Global, kvs: &[KeyValue]) -> Result<(), AllocError>
    requires { Deletable (keys keyspace.old) kvs.now }
    ensures { OnOk result (keyspace.new ≡ with keyspace.old (deletes kvs.now)) }
{
    let mut left = kvs;
    while let Some((kv, after)) = left.split_first() {
        keyspace.delete(alloc, kv.key.copy()?)?;
        left = after;
    }
    Ok(())
}

/// DeleteRange.
#[tactic(auto, unfolding(crate::specs::Writes::delete_range))]
pub fn delete_range(
    keyspace: &mut Keyspace,
    alloc: Global,
    request: &DeleteRangeRequest,
) -> Result<DeleteRangeResponse, AllocError>
    ensures { IfOk result (λ response. (keyspace.new, response) ≡ delete_range keyspace.old request.now) }
{
    let kvs = found(
        alloc,
        keyspace.table(),
        request.key.as_slice(),
        request.range_end.as_slice(),
    )?;
    delete_all(keyspace, alloc, &kvs)?;
    Ok(DeleteRangeResponse {
        revision: keyspace.header()?,
        deleted: kvs.len() as u64,
        prev_kvs: if request.prev_kv {
            Items::from_vec(kvs)
        } else {
            Items::new(alloc)
        },
    })
}
