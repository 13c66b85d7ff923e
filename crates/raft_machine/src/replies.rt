//! Copies of replies.

ghost use Rattle.std.specs.Prelude.{◌≡◌, IfOk};

use crate::command::{Page, Reply};
use raft_state::Items;
use std::alloc::{AllocError, Global};

fn copy_value(value: &Option<Items<u8>>) -> Result<Option<Items<u8>>, AllocError>
    ensures { IfOk result (λ copied. copied ≡ value.now) }
{
    match value {
        Some(bytes) => Ok(Some(bytes.copy()?)),
        None => Ok(None),
    }
}

fn copy_values(
    alloc: Global,
    values: &[Option<Items<u8>>],
) -> Result<Items<Option<Items<u8>>>, AllocError>
    ensures { IfOk result (λ copied. copied ≡ values.now) }
{
    let mut copied = Vec::new(alloc);
    for value in values {
        copied.push(copy_value(value)?)?;
    }
    Ok(Items::from_vec(copied))
}

fn copy_keys(alloc: Global, keys: &[Items<u8>]) -> Result<Items<Items<u8>>, AllocError>
    ensures { IfOk result (λ copied. copied ≡ keys.now) }
{
    let mut copied = Vec::new(alloc);
    for key in keys {
        copied.push(key.copy()?)?;
    }
    Ok(Items::from_vec(copied))
}

fn copy_page(alloc: Global, page: &Page) -> Result<Page, AllocError>
    ensures { IfOk result (λ copied. copied ≡ page.now) }
{
    Ok(Page {
        cursor: page.cursor,
        keys: copy_keys(alloc, page.keys.as_slice())?,
    })
}

fn copy(alloc: Global, reply: &Reply) -> Result<Reply, AllocError>
    ensures { IfOk result (λ copied. copied ≡ reply.now) }
{
    match reply {
        Reply::Done => Ok(Reply::Done),
        Reply::Null => Ok(Reply::Null),
        Reply::Integer(number) => Ok(Reply::Integer(*number)),
        Reply::Count(count) => Ok(Reply::Count(*count)),
        Reply::Bulk(bytes) => Ok(Reply::Bulk(bytes.copy()?)),
        Reply::Values(values) => Ok(Reply::Values(copy_values(alloc, values.as_slice())?)),
        Reply::Failed(failure) => Ok(Reply::Failed(*failure)),
        Reply::Scanned(page) => Ok(Reply::Scanned(copy_page(alloc, page)?)),
    }
}

/// Equal replies.
pub(crate) fn copy_all(alloc: Global, replies: &[Reply]) -> Result<Items<Reply>, AllocError>
    ensures { IfOk result (λ copied. copied ≡ replies.now) }
{
    let mut copied = Vec::new(alloc);
    for reply in replies {
        copied.push(copy(alloc, reply)?)?;
    }
    Ok(Items::from_vec(copied))
}
