//! Reading a log's file.

ghost use Rattle.std.specs.Prelude.{◌≡◌, ◌+◌, ◌^◌, ◌<◌, ◌≤◌, length, if◌then◌else◌, IfOk, IfSome};
ghost use Rattle.raft_frames.specs.Format.{sum_of};
ghost use Rattle.raft_frames.specs.Reading.{end_unless_later, fault_of, has_head, is_head, is_new, is_zero, long_at, next, number_at};
ghost use Rattle.raft_frames.specs.Reading.{read, read_frames, Gives, GivesFrame};

use crate::crc::crc32c;
use crate::error::{Fault, ReadError};
use crate::header::{HEADER_LEN, LogId, MAGIC, VERSION};
use crate::tail::{HEAD_LEN, MAX_FRAME, Tail, check_of, sum_of};
use std::alloc::Global;

/// What is read of a log's file (`contents_of` of specs/Reading.antt).
#[derive(Debug, Drop)]
pub struct Log<'a> {
    /// The payloads of its frames.
    pub payloads: Vec<&'a [u8]>,
    /// How many bytes of the file are kept: the header and the frames, or 0 where the file is new.
    pub end: usize,
    /// Where the next frame goes; behind the header where the file is new.
    pub tail: Tail,
}

/// The number in the four bytes at an offset.
fn number_at(offset: usize, bytes: &[u8]) -> u32
    requires { offset + 4 ≤ length bytes.now }
    ensures { result ≡ number_at offset bytes.now }
{
    let bytes = &bytes[offset..];
    u32::from_le_bytes([bytes[0], bytes[1], bytes[2], bytes[3]])
}

/// The number in the eight bytes at an offset.
fn long_at(offset: usize, bytes: &[u8]) -> u64
    requires { offset + 8 ≤ length bytes.now }
    ensures { result ≡ long_at offset bytes.now }
{
    let bytes = &bytes[offset..];
    u64::from_le_bytes([
        bytes[0], bytes[1], bytes[2], bytes[3], bytes[4], bytes[5], bytes[6], bytes[7],
    ])
}

/// The length of the frame that begins here, if one does.
#[tactic(auto, unfolding(crate::specs::Reading::is_head))]
fn head_len(seed: u32, position: u64, bytes: &[u8]) -> Option<usize>
    ensures len { result ≡ (if is_head seed position bytes.now then Some (number_at 0 bytes.now) else None) }
    ensures bound { IfSome result (λ len. len ≤ MAX_FRAME) }
{
    if bytes.len() < HEAD_LEN {
        return None;
    }
    let len = number_at(0, bytes);
    if len == 0
        || len as usize > MAX_FRAME
        || number_at(4, bytes) != check_of(seed, position, len)
    {
        return None;
    }
    Some(len as usize)
}

/// Whether a frame begins here or anywhere behind.
fn has_head(seed: u32, position: u64, bytes: &[u8]) -> bool
    requires { position + length bytes.now < 2 ^ 64 }
    ensures { result ≡ has_head seed position bytes.now }
{
    for i in 0..bytes.len() {
        if head_len(seed, position + i as u64, &bytes[i..]).is_some() {
            return true;
        }
    }
    false
}

/// The end of a log, unless a frame begins in what lies behind `skipped` bytes.
fn end_unless_later<'a>(
    tail: &Tail,
    skipped: usize,
    bytes: &'a [u8],
) -> Result<Option<&'a [u8]>, Fault>
    requires within { skipped ≤ length bytes.now }
    requires fits { tail.now.position + length bytes.now < 2 ^ 64 }
    ensures { GivesFrame result (end_unless_later tail.now skipped bytes.now) }
{
    if has_head(tail.seed, tail.position + skipped as u64, &bytes[skipped..]) {
        return Err(Fault::Damaged(tail.position));
    }
    Ok(None)
}

/// The payload of the frame that the bytes begin with; none at the log's end.
#[tactic(auto, unfolding(crate::specs::Reading::next))]
fn next<'a>(tail: &Tail, bytes: &'a [u8]) -> Result<Option<&'a [u8]>, Fault>
    requires { tail.now.position + length bytes.now < 2 ^ 64 }
    ensures frame { GivesFrame result (next tail.now bytes.now) }
    ensures within { IfOk result (λ frame. IfSome frame (λ payload. 12 + length payload.now ≤ length bytes.now)) }
    ensures sum { IfOk result (λ frame. IfSome frame (λ payload. number_at 8 bytes.now ≡ sum_of tail.now.sum payload.now)) }
{
    if bytes.len() < HEAD_LEN {
        return Ok(None);
    }
    let Some(len) = head_len(tail.seed, tail.position, bytes) else {
        return end_unless_later(tail, HEAD_LEN, bytes);
    };
    let behind = &bytes[HEAD_LEN..];
    if behind.len() < len {
        return Ok(None);
    }
    let payload = &behind[..len];
    if number_at(8, bytes) == sum_of(tail.sum, payload) {
        return Ok(Some(payload));
    }
    end_unless_later(tail, HEAD_LEN + len, bytes)
}

/// The frames of the bytes, which stand at `start` in the file.
fn read_frames<'a>(alloc: Global, start: &Tail, bytes: &'a [u8]) -> Result<Log<'a>, ReadError>
    requires { start.now.position + length bytes.now < 2 ^ 64 }
    ensures { Gives result (read_frames (length bytes.now) start.now bytes.now) }
{
    let mut payloads = Vec::new(alloc);
    let mut tail = *start;
    let mut rest = bytes;
    for _ in 0..bytes.len() {
        match next(&tail, rest)? {
            None => break,
            Some(payload) => {
                payloads.push(payload)?;
                tail = Tail {
                    seed: tail.seed,
                    position: tail.position + (HEAD_LEN + payload.len()) as u64,
                    sum: number_at(8, rest),
                };
                (_, rest) = rest.split_at(HEAD_LEN + payload.len());
            }
        }
    }
    Ok(Log {
        payloads,
        end: tail.position as usize,
        tail,
    })
}

/// Whether all bytes are zeros.
fn is_zero(bytes: &[u8]) -> bool
    ensures { result ≡ is_zero bytes.now }
{
    bytes.iter().all(|byte| *byte == 0)
}

/// Whether the file is new: a crash cut the writing of its header short.
fn is_new(header: &[u8; HEADER_LEN], bytes: &[u8]) -> bool
    ensures { result ≡ is_new header.now bytes.now }
{
    for (i, byte) in header.iter().enumerate() {
        if i >= bytes.len() || is_zero(&bytes[i..]) {
            return true;
        }
        if bytes[i] != *byte {
            return false;
        }
    }
    false
}

/// Why a file isn't this node's log.
fn fault_of(id: &LogId, bytes: &[u8]) -> Fault
    ensures { result ≡ fault_of id.now bytes.now }
{
    if !bytes.starts_with(&MAGIC) {
        return Fault::Format;
    }
    if bytes.len() < HEADER_LEN {
        return Fault::Header;
    }
    let version = number_at(8, bytes);
    if version != VERSION {
        return Fault::Version(version);
    }
    if number_at(28, bytes) != crc32c(&bytes[..28]) {
        return Fault::Header;
    }
    let cluster = long_at(12, bytes);
    if cluster != id.cluster {
        return Fault::Cluster(cluster);
    }
    Fault::Node(long_at(20, bytes))
}

/// Reads the file of a node's log: the frames that stand there whole, up to the log's end. An empty file is new, as is
/// one with nothing but a front of this header and zeros: it has no frames, and ends at byte 0. Refusals:
///
/// - [`Fault::Format`]: it begins neither so nor as any log does.
/// - [`Fault::Version`]: its format has another version.
/// - [`Fault::Header`]: the header's sum is wrong, or the file ends before it does.
/// - [`Fault::Cluster`], [`Fault::Node`]: it is the log of another node.
/// - [`Fault::Damaged`]: what stands in a frame's place is none, and behind it a frame begins.
/// - [`ReadError::OutOfMemory`].
pub fn read<'a>(alloc: Global, id: &LogId, bytes: &'a [u8]) -> Result<Log<'a>, ReadError>
    ensures { Gives result (read id.now bytes.now) }
{
    let header = id.header();
    if bytes.starts_with(&header) {
        return read_frames(alloc, &Tail::start(id), &bytes[HEADER_LEN..]);
    }
    if is_new(&header, bytes) {
        return Ok(Log {
            payloads: Vec::new(alloc),
            end: 0,
            tail: Tail::start(id),
        });
    }
    Err(ReadError::Fault(fault_of(id, bytes)))
}
