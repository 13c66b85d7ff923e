//! Where a step through the keys begins: a cursor tells a key's first eight bytes.

ghost use Rattle.std.specs.Prelude.{◌≡◌, ◌<◌, ◌≤◌, ◌-◌, length, IfOk};
ghost use Rattle.raft_machine.specs.Cursors.{AreBytes, AreHeads, cursor_of, first_at, next};

use std::alloc::{AllocError, Global};

/// How many values a byte has.
const RADIX: u64 = 256;

/// The byte at the front, or 0, and those behind it.
fn next(bytes: &[u8]) -> (u8, &[u8])
    ensures next { (result.0, result.1.now) ≡ next bytes.now }
    ensures byte { result.0 < 256 }
{
    match bytes.split_first() {
        Some((byte, rest)) => (*byte, rest),
        None => (0, bytes),
    }
}

/// The first eight bytes as a number, the first of them the greatest, and 0 for each that is lacking; and the bytes behind them.
fn split_word(bytes: &[u8]) -> (u64, &[u8])
    ensures word { result.0 ≡ cursor_of bytes.now }
    ensures heads { AreHeads result.0 (cursor_of result.1.now) bytes.now }
    ensures bytes { AreBytes result.1.now → AreBytes bytes.now }
    ensures left { length result.1.now ≡ length bytes.now - 8 }
{
    let mut word = 0;
    let mut rest = bytes;
    for _ in 0..8u8 {
        let (byte, after) = next(rest);
        word = word * RADIX + u64::from(byte);
        rest = after;
    }
    (word, rest)
}

/// A key's cursor: its first eight bytes as a number, the first of them the greatest, and 0 for each that it lacks.
pub(crate) fn cursor_of(key: &[u8]) -> u64
    ensures { result ≡ cursor_of key.now }
{
    let (cursor, _) = split_word(key);
    cursor
}

/// A key's first sixteen bytes, as two numbers.
pub(crate) fn heads(key: &[u8]) -> (u64, u64)
    ensures heads { AreHeads result.0 result.1 key.now }
    ensures bytes { length key.now ≤ 16 → AreBytes key.now }
{
    let (first, rest) = split_word(key);
    let (second, _) = split_word(rest);
    (first, second)
}

/// The first of the keys whose cursors aren't below this one.
pub(crate) fn first_at(alloc: Global, cursor: u64) -> Result<Vec<u8>, AllocError>
    ensures { IfOk result (λ key. key.items ≡ first_at cursor) }
{
    let mut key = Vec::new(alloc);
    let mut left = cursor;
    let mut worth = 1 << 56;
    for _ in 0..8u8 {
        if left == 0 {
            return Ok(key);
        }
        key.push((left / worth) as u8)?;
        left %= worth;
        worth /= RADIX;
    }
    Ok(key)
}
