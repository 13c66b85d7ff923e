//! The slot of a key (Redis Cluster's specification, "Key distribution model" and "Hash tags").

ghost use Rattle.std.specs.Prelude.{◌≡◌, ◌==◌, ◌<◌, position, fold, length, IfSome};
ghost use Rattle.raft_connection.specs.HashSlot.{shifted, shifted_4, crc_next, crc16, tag_end, tagged, hash_slot};

/// How many slots there are.
const SLOTS: u16 = 16384;

/// The polynomial of CRC16/XMODEM, x^16 + x^12 + x^5 + 1, without its first term.
const POLYNOMIAL: u16 = 0x1021;

/// A checksum, shifted by a bit.
fn shifted(crc: u16) -> u16
    ensures { result ≡ shifted crc }
{
    if crc >= 0x8000 {
        (crc - 0x8000) * 2 ^ POLYNOMIAL
    } else {
        crc * 2
    }
}

/// A checksum, shifted by four bits.
fn shifted_4(crc: u16) -> u16
    ensures { result ≡ shifted_4 crc }
{
    shifted(shifted(shifted(shifted(crc))))
}

/// A checksum, with one more byte.
#[tactic(auto, unfolding(crate::specs::HashSlot::crc_next))]
fn crc_next(crc: u16, byte: u8) -> u16
    ensures { result ≡ crc_next crc byte }
{
    shifted_4(shifted_4(crc ^ (u16::from(byte) * 256)))
}

/// The checksum of bytes.
#[tactic(auto, unfolding(crate::specs::HashSlot::crc16))]
fn crc16(bytes: &[u8]) -> u16
    ensures { result ≡ crc16 bytes.now }
{
    let mut crc = 0;
    for byte in bytes {
        crc = crc_next(crc, *byte);
    }
    crc
}

/// The place of the first such byte.
fn place_of(mark: u8, bytes: &[u8]) -> Option<usize>
    ensures place { result ≡ position (λ b. b == mark) bytes.now }
    ensures within { IfSome result (λ i. i < length bytes.now) }
{
    bytes.iter().position(|byte| *byte == mark)
}

/// What is hashed, of a key and what stands behind its first `{`: what stands before the first `}` there, if there is something.
fn tag_end<'a>(key: &'a [u8], behind: &'a [u8]) -> &'a [u8]
    ensures { result.now ≡ tag_end key.now behind.now }
{
    match place_of(b'}', behind) {
        None | Some(0) => key,
        Some(end) => &behind[..end],
    }
}

/// What is hashed of a key: its tag, or all of it.
fn tagged(key: &[u8]) -> &[u8]
    ensures { result.now ≡ tagged key.now }
{
    match place_of(b'{', key) {
        None => key,
        Some(start) => tag_end(key, &key[start + 1..]),
    }
}

/// The slot of a key, below 16384.
pub fn hash_slot(key: &[u8]) -> u16
    ensures { result ≡ hash_slot key.now }
{
    crc16(tagged(key)) % SLOTS
}
