//! The end of a log.

ghost use Rattle.std.specs.Prelude.{◌≡◌, ◌+◌, ◌^◌, ◌<◌, ◌≤◌, ◌↔◌, ◌++◌, length, IfOk, OnErr, OnOk, IsErrOf, Err};
ghost use Rattle.raft_frames.specs.Crc.{crc32c};
ghost use Rattle.raft_frames.specs.Format.{check_of, head, sum_of, word};

use crate::crc::{crc32c, crc32c_append};
use crate::error::PushError;
use crate::header::{HEADER_LEN, LogId};
use std::alloc::AllocError;

/// The most bytes of a frame's payload: one less than 4 GiB, as many as four bytes count.
pub const MAX_FRAME: usize = (1 << 32) - 1;

/// How many bytes of a frame stand in front of its payload.
pub(crate) const HEAD_LEN: usize = 12;

/// Where a log's next frame goes.
#[derive(Clone, Copy, PartialEq, Eq, Debug)]
pub struct Tail {
    /// The sum of the file's header.
    pub seed: u32,
    /// The position of the frame, in bytes from the file's start.
    pub position: u64,
    /// The sum of the frame before it, or of the header.
    pub sum: u32,
}

/// What lets a reader believe the length of the frame at a position.
pub(crate) fn check_of(seed: u32, position: u64, len: u32) -> u32
    ensures { result ≡ check_of seed position len }
{
    let sum = crc32c_append(crc32c(&seed.to_le_bytes()), &position.to_le_bytes());
    crc32c_append(sum, &len.to_le_bytes())
}

/// The sum of what stands before a payload of so many bytes in what the sum of its frame is of, behind a frame with the sum `before`:
/// [`crc32c_append`] takes it on through the payload, in steps.
pub fn front_sum(before: u32, len: u32) -> u32
    ensures { result ≡ crc32c (word before ++ word len) }
{
    crc32c_append(crc32c(&before.to_le_bytes()), &len.to_le_bytes())
}

/// The sum of a frame behind one with the sum `before`.
pub(crate) fn sum_of(before: u32, payload: &[u8]) -> u32
    requires { length payload.now < 2 ^ 32 }
    ensures { result ≡ sum_of before payload.now }
{
    crc32c_append(front_sum(before, payload.len() as u32), payload)
}

impl Tail {
    ghost use Rattle.raft_frames.specs.Format.{after, frame, start};

    /// Where the first frame of a node's log goes.
    pub fn start(id: &LogId) -> Tail
        ensures { result ≡ start id.now }
    {
        let seed = id.seed();
        Tail {
            seed,
            position: HEADER_LEN as u64,
            sum: seed,
        }
    }

    /// The position behind a frame with this payload. Refusals as [`Tail::push`].
    fn position_behind(&self, payload: &[u8]) -> Result<u64, PushError>
        ensures behind { IfOk result (λ behind. behind ≡ self.now.position + (12 + length payload.now)) }
        ensures short { OnOk result (length payload.now ≤ MAX_FRAME) }
        ensures empty { (result ≡ Err PushError.Empty) ↔ (length payload.now ≡ 0) }
        ensures too_long { (result ≡ Err PushError.TooLong) ↔ (MAX_FRAME < length payload.now) }
        ensures full { IsErrOf result PushError.Full → 2 ^ 64 ≤ self.now.position + (12 + length payload.now) }
    {
        if payload.is_empty() {
            return Err(PushError::Empty);
        }
        if payload.len() > MAX_FRAME {
            return Err(PushError::TooLong);
        }
        match self.position.checked_add((HEAD_LEN + payload.len()) as u64) {
            Some(position) => Ok(position),
            None => Err(PushError::Full),
        }
    }

    /// Writes what stands before a payload of so many bytes, with this sum, and what is given of the payload. Goes on to the position behind.
    /// An `Err` changes nothing.
    fn write(
        &mut self,
        behind: u64,
        len: u32,
        sum: u32,
        given: &[u8],
        out: &mut Vec<u8>,
    ) -> Result<(), AllocError>
        requires { length given.now < 2 ^ 32 }
        ensures bytes { OnOk result (out.new.items ≡ out.old.items ++ (head self.old len sum ++ given.now)) }
        ensures tail { OnOk result (self.new ≡ record { seed = self.old.seed; position = behind; sum = sum }) }
        ensures err { OnErr result ((out.new.items ≡ out.old.items) × (self.new ≡ self.old)) }
    {
        let check = check_of(self.seed, self.position, len);
        out.reserve(HEAD_LEN + given.len())?;
        out.extend_from_slice(&len.to_le_bytes())?;
        out.extend_from_slice(&check.to_le_bytes())?;
        out.extend_from_slice(&sum.to_le_bytes())?;
        out.extend_from_slice(given)?;
        self.position = behind;
        self.sum = sum;
        Ok(())
    }

    /// Writes a frame with this payload behind `out`, and goes on to the place behind it. An `Err` changes nothing:
    ///
    /// - [`PushError::Empty`]: the payload has no bytes.
    /// - [`PushError::TooLong`]: it has more than [`MAX_FRAME`].
    /// - [`PushError::Full`]: the position behind it would not fit 64 bits.
    /// - [`PushError::OutOfMemory`].
    pub fn push(&mut self, payload: &[u8], out: &mut Vec<u8>) -> Result<(), PushError>
        ensures frame { OnOk result (out.new.items ≡ out.old.items ++ frame self.old payload.now) }
        ensures tail { OnOk result (self.new ≡ after self.old payload.now) }
        ensures empty { (result ≡ Err PushError.Empty) ↔ (length payload.now ≡ 0) }
        ensures too_long { (result ≡ Err PushError.TooLong) ↔ (MAX_FRAME < length payload.now) }
        ensures full { IsErrOf result PushError.Full → 2 ^ 64 ≤ self.old.position + (12 + length payload.now) }
        ensures err { OnErr result ((out.new.items ≡ out.old.items) × (self.new ≡ self.old)) }
    {
        let behind = self.position_behind(payload)?;
        let sum = sum_of(self.sum, payload);
        Ok(self.write(behind, payload.len() as u32, sum, payload, out)?)
    }

    /// Writes what stands before a frame's payload behind `out`, and goes on to the place behind the frame, whose sum is known: the payload is to
    /// stand right behind. An `Err` changes nothing. Refusals as [`Tail::push`].
    pub fn push_head(
        &mut self,
        payload: &[u8],
        sum: u32,
        out: &mut Vec<u8>,
    ) -> Result<(), PushError>
        requires { sum ≡ sum_of self.old.sum payload.now }
        ensures frame { OnOk result (out.new.items ++ payload.now ≡ out.old.items ++ frame self.old payload.now) }
        ensures tail { OnOk result (self.new ≡ after self.old payload.now) }
        ensures empty { (result ≡ Err PushError.Empty) ↔ (length payload.now ≡ 0) }
        ensures too_long { (result ≡ Err PushError.TooLong) ↔ (MAX_FRAME < length payload.now) }
        ensures full { IsErrOf result PushError.Full → 2 ^ 64 ≤ self.old.position + (12 + length payload.now) }
        ensures err { OnErr result ((out.new.items ≡ out.old.items) × (self.new ≡ self.old)) }
    {
        let behind = self.position_behind(payload)?;
        Ok(self.write(behind, payload.len() as u32, sum, &[], out)?)
    }
}
