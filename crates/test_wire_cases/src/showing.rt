//! Values from bytes, printed.

use anyhow::Result;
use raft_wire::{Wire, decode};
use std::alloc::{AllocError, Global};
use std::fmt::Debug;
use test_words::text::put_line;

/// Whether a value is written by these bytes.
fn is_written_so<T: Wire>(alloc: Global, bytes: &[u8], value: &T) -> Result<bool, AllocError> {
    let mut written = Vec::new(alloc);
    value.write(&mut written)?;
    Ok(written.as_slice() == bytes)
}

/// Prints the value, and whether it is written by the same bytes.
fn tell<T: Wire + Debug>(
    alloc: Global,
    bytes: &[u8],
    value: &T,
    given: &mut Vec<u8>,
) -> Result<()> {
    let same = is_written_so(alloc, bytes, value)?;
    put_line(format_args!("{value:?}\nwritten so {same}"), given)
}

/// Prints the value that the bytes are, or why they are none.
pub fn show<T: Wire + Debug>(alloc: Global, bytes: &[u8], given: &mut Vec<u8>) -> Result<()> {
    match decode::<T>(alloc, bytes) {
        Ok(value) => tell(alloc, bytes, &value, given),
        Err(error) => put_line(error, given),
    }
}
