//! CRC-32C, eight bytes at a time ("slicing by 8", Kounavis and Berry, ISCC 2005).

ghost use Rattle.std.specs.Prelude.{ℕ, ◌≡◌, ◌++◌, List, bit_xor, length, slice_index};
ghost use Rattle.raft_frames.specs.Crc.{append, crc32c, more, shift};

use crate::tables::{SHIFT_1, SHIFT_2, SHIFT_3, SHIFT_4, SHIFT_5, SHIFT_6, SHIFT_7, SHIFT_8};

/// The number of a byte in a table.
fn at(table: &[u32; 256], byte: u8) -> u32
    ensures { result ≡ slice_index table.now byte }
{
    table[usize::from(byte)]
}

/// What four zero bytes make of a sum.
fn shift_4(sum: u32) -> u32
    ensures { result ≡ shift (shift (shift (shift sum))) }
{
    let [first, second, third, fourth] = sum.to_le_bytes();
    at(&SHIFT_4, first) ^ at(&SHIFT_3, second) ^ at(&SHIFT_2, third) ^ at(&SHIFT_1, fourth)
}

/// What eight zero bytes make of a sum.
fn shift_8(sum: u32) -> u32
    ensures { result ≡ shift (shift (shift (shift (shift (shift (shift (shift sum))))))) }
{
    let [first, second, third, fourth] = sum.to_le_bytes();
    at(&SHIFT_8, first) ^ at(&SHIFT_7, second) ^ at(&SHIFT_6, third) ^ at(&SHIFT_5, fourth)
}

/// Takes eight bytes into a running sum.
fn take_eight(sum: u32, bytes: &[u8]) -> u32
    requires { length bytes.now ≡ 8 }
    ensures { result ≡ more sum bytes.now }
{
    let low = u32::from_le_bytes([bytes[0], bytes[1], bytes[2], bytes[3]]);
    let high = u32::from_le_bytes([bytes[4], bytes[5], bytes[6], bytes[7]]);
    shift_8(sum ^ low) ^ shift_4(high)
}

/// Takes a byte into a running sum.
fn take_byte(sum: u32, byte: u8) -> u32
    ensures { result ≡ shift (bit_xor sum byte) }
{
    let sum = sum ^ u32::from(byte);
    at(&SHIFT_1, (sum % 256) as u8) ^ (sum / 256)
}

/// Takes bytes into a running sum.
fn take_all(start: u32, bytes: &[u8]) -> u32
    ensures { result ≡ more start bytes.now }
{
    let mut sum = start;
    let mut rest = bytes;
    while rest.len() >= 8 {
        let (front, behind) = rest.split_at(8);
        sum = take_eight(sum, front);
        rest = behind;
    }
    for byte in rest {
        sum = take_byte(sum, *byte);
    }
    sum
}

/// The CRC-32C of bytes (RFC 3720, 12.1 and B.4).
pub fn crc32c(bytes: &[u8]) -> u32
    ensures { result ≡ crc32c bytes.now }
{
    crc32c_append(0, bytes)
}

/// The CRC-32C of bytes whose front has the sum `sum` already, and of which `bytes` are the rest.
pub fn crc32c_append(sum: u32, bytes: &[u8]) -> u32
    ensures sum { result ≡ append sum bytes.now }
    ensures joins { (front : List ℕ) → sum ≡ crc32c front → result ≡ crc32c (front ++ bytes.now) }
{
    take_all(sum ^ 0xFFFF_FFFF, bytes) ^ 0xFFFF_FFFF
}
