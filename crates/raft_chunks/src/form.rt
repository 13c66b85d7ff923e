//! Cursors and chunks as bytes.

ghost use Rattle.std.specs.Prelude.{◌≡◌, ◌≤◌, ◌++◌, drop, length, OnOk};
ghost use Rattle.raft_codec.specs.Codec.{Finds, Reads, Writes};
ghost use Rattle.raft_frames.specs.Crc.{crc32c};
ghost use Rattle.raft_frames.specs.Format.{word};
ghost use Rattle.raft_chunks.specs.Chunks.{piece_of};
ghost use Rattle.raft_chunks.specs.Form.{cursor, piece, sealed, unsealed, Opens, Unseals};

use crate::cursor::{Chunk, Cursor, Title};
use raft_codec::{DecodeError, Fault, Reader, write_number, write_raw};
use raft_frames::crc32c;
use std::alloc::{AllocError, Global};

/// How many bytes the sum has that ends a cursor or a chunk.
const SUM_LEN: usize = 4;

/// Appends the sum of what was appended from `start` on.
fn seal(out: &mut Vec<u8>, start: usize) -> Result<(), AllocError>
    requires { start ≤ length out.old.items }
    ensures { OnOk result (out.new.items ≡ out.old.items ++ word (crc32c (drop start out.old.items))) }
{
    let sum = crc32c(&out[start..]);
    out.extend_from_slice(&sum.to_le_bytes())
}

/// The bytes in front of their sum.
fn unseal(bytes: &[u8]) -> Result<&[u8], DecodeError>
    ensures { Unseals result (unsealed bytes.now) }
{
    if bytes.len() < SUM_LEN {
        return Err(DecodeError::Malformed {
            fault: Fault::TooShort,
            left: bytes.len(),
        });
    }
    let (body, sum) = bytes.split_at(bytes.len() - SUM_LEN);
    if crc32c(body) == u32::from_le_bytes([sum[0], sum[1], sum[2], sum[3]]) {
        Ok(body)
    } else {
        Err(DecodeError::Malformed {
            fault: Fault::Inconsistent,
            left: bytes.len(),
        })
    }
}

impl Cursor {
    #[tactic(auto, unfolding(crate::specs::Form::cursor))]
    fn write(&self, out: &mut Vec<u8>) -> Result<(), AllocError>
        ensures { Writes cursor self.now result out.old.items out.new.items }
    {
        write_number(out, self.title.number)?;
        write_number(out, self.title.len)?;
        write_number(out, u64::from(self.title.sum))?;
        write_number(out, self.offset)
    }

    #[tactic(auto, unfolding(crate::specs::Form::cursor))]
    fn read(reader: &mut Reader<'_>) -> Result<Cursor, DecodeError>
        ensures { Reads cursor result reader.old reader.new }
    {
        let left = reader.left();
        let number = reader.number()?;
        let len = reader.number()?;
        let sum = reader.number()?;
        let offset = reader.number()?;
        if sum > u64::from(u32::MAX) {
            return Err(DecodeError::Malformed {
                fault: Fault::Inconsistent,
                left,
            });
        }
        let title = Title {
            number,
            len,
            sum: sum as u32,
        };
        Ok(Cursor { title, offset })
    }

    /// Appends the cursor and its sum.
    pub fn encode(&self, out: &mut Vec<u8>) -> Result<(), AllocError>
        ensures { OnOk result (cursor.fits self.now × (out.new.items ≡ out.old.items ++ sealed cursor self.now)) }
    {
        let start = out.len();
        self.write(out)?;
        seal(out, start)
    }

    /// The cursor of these bytes, all of them.
    pub fn decode(alloc: Global, bytes: &[u8]) -> Result<Cursor, DecodeError>
        ensures { Opens (λ c. c) result cursor bytes.now }
    {
        let mut reader = Reader::new(alloc, unseal(bytes)?);
        let cursor = Cursor::read(&mut reader)?;
        reader.end()?;
        Ok(cursor)
    }
}

impl<'a> Chunk<'a> {
    #[tactic(auto, unfolding(crate::specs::Form::piece))]
    fn write(&self, out: &mut Vec<u8>) -> Result<(), AllocError>
        ensures { Writes piece (piece_of self.now) result out.old.items out.new.items }
    {
        self.at.write(out)?;
        write_raw(out, self.bytes)
    }

    #[tactic(auto, unfolding(crate::specs::Form::piece))]
    fn read(reader: &mut Reader<'a>) -> Result<Chunk<'a>, DecodeError>
        ensures { Finds piece_of result (piece.read reader.old) reader.new }
    {
        let at = Cursor::read(reader)?;
        let bytes = reader.raw()?;
        Ok(Chunk { at, bytes })
    }

    /// Appends the chunk and its sum.
    pub fn encode(&self, out: &mut Vec<u8>) -> Result<(), AllocError>
        ensures { OnOk result (piece.fits (piece_of self.now) × (out.new.items ≡ out.old.items ++ sealed piece (piece_of self.now))) }
    {
        let start = out.len();
        self.write(out)?;
        seal(out, start)
    }

    /// The chunk of these bytes, all of them. It takes no memory.
    pub fn decode(alloc: Global, bytes: &'a [u8]) -> Result<Chunk<'a>, DecodeError>
        ensures { Opens piece_of result piece bytes.now }
    {
        let mut reader = Reader::new(alloc, unseal(bytes)?);
        let chunk = Chunk::read(&mut reader)?;
        reader.end()?;
        Ok(chunk)
    }
}
