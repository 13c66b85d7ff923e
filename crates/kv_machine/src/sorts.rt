//! Keys in an order.

ghost use Rattle.std.specs.Prelude.{◌≡◌, IfOk};
ghost use Rattle.std.specs.Ordering.{is_lt};
ghost use Rattle.kv_machine.specs.Ranges.{compare_by, is_before, is_descending, sorted};

use crate::key_value::KeyValue;
use crate::request::{SortOrder, SortTarget};
use std::alloc::AllocError;
use std::cmp::Ordering;

/// How two keys compare by what they are sorted by.
fn compare_by(target: SortTarget, a: &KeyValue, b: &KeyValue) -> Ordering
    ensures { result ≡ compare_by target a.now b.now }
{
    match target {
        SortTarget::Key => a.key.as_slice().cmp(b.key.as_slice()),
        SortTarget::Version => a.stored.version.cmp(&b.stored.version),
        SortTarget::Create => a.stored.create_revision.cmp(&b.stored.create_revision),
        SortTarget::Mod => a.stored.mod_revision.cmp(&b.stored.mod_revision),
        SortTarget::Value => a.stored.value.as_slice().cmp(b.stored.value.as_slice()),
    }
}

/// The keys, ascending. Those that tie stay as they were.
fn ascending(target: SortTarget, mut kvs: Vec<KeyValue>) -> Result<Vec<KeyValue>, AllocError>
    ensures { IfOk result (λ rising. rising.items ≡ sorted (λ a b. is_lt (compare_by target a b)) kvs.items) }
{
    kvs.sort_by(
        |a, b| -> Ordering
            ensures { result ≡ compare_by target a.now b.now }
        { compare_by(target, a, b) },
    )?;
    Ok(kvs)
}

/// The keys, descending. Those that tie stay as they were.
fn descending(target: SortTarget, mut kvs: Vec<KeyValue>) -> Result<Vec<KeyValue>, AllocError>
    ensures { IfOk result (λ falling. falling.items ≡ sorted (λ a b. is_lt (compare_by target b a)) kvs.items) }
{
    kvs.sort_by(
        |a, b| -> Ordering
            ensures { result ≡ compare_by target b.now a.now }
        { compare_by(target, b, a) },
    )?;
    Ok(kvs)
}

/// Whether keys are asked for in descending order.
fn is_descending(order: SortOrder) -> bool
    ensures { result ≡ is_descending order }
{
    match order {
        SortOrder::None | SortOrder::Ascend => false,
        SortOrder::Descend => true,
    }
}

/// The keys in their order. Those that tie stay as they were.
pub(crate) fn sorted(
    order: SortOrder,
    target: SortTarget,
    kvs: Vec<KeyValue>,
) -> Result<Vec<KeyValue>, AllocError>
    ensures { IfOk result (λ ordered. ordered.items ≡ sorted (is_before order target) kvs.items) }
{
    if is_descending(order) {
        return descending(target, kvs);
    }
    ascending(target, kvs)
}
