//! Replies, entries and sessions as bytes.

ghost use Rattle.std.specs.Prelude.{◌≡◌};
ghost use Rattle.raft_codec.specs.Codec.{Writes, Reads};
ghost use Rattle.raft_machine.specs.Bytes.{zigzag, from_zigzag, signed, failure, entry, session};

use crate::command::{Failure, Page, Reply};
use crate::form::{Form, read_items, write_items};
use crate::machine::Answered;
use crate::stored::Stored;
use raft_codec::{DecodeError, Reader, write_number, write_raw};
use raft_state::Items;
use std::alloc::AllocError;

/// 0, -1, 1, -2, .. as 0, 1, 2, 3, .. (Protocol Buffers, Encoding: ZigZag).
fn zigzag(number: i64) -> u64
    ensures { result ≡ zigzag number }
{
    if number >= 0 {
        2 * number as u64
    } else {
        2 * (-(number + 1)) as u64 + 1
    }
}

fn from_zigzag(number: u64) -> i64
    ensures { result ≡ from_zigzag number }
{
    let half = (number / 2) as i64;
    if number % 2 == 0 { half } else { -1 - half }
}

#[tactic(auto, unfolding(crate::specs::Bytes::signed))]
fn write_signed(out: &mut Vec<u8>, number: i64) -> Result<(), AllocError>
    ensures { Writes signed number result out.old.items out.new.items }
{
    write_number(out, zigzag(number))
}

#[tactic(auto, unfolding(crate::specs::Bytes::signed))]
fn read_signed(reader: &mut Reader<'_>) -> Result<i64, DecodeError>
    ensures { Reads signed result reader.old reader.new }
{
    Ok(from_zigzag(reader.number()?))
}

#[tactic(auto, unfolding(crate::specs::Bytes::failure))]
fn write_failure(out: &mut Vec<u8>, why: Failure) -> Result<(), AllocError>
    ensures { Writes failure why result out.old.items out.new.items }
{
    out.push(match why {
        Failure::NotAnInteger => 0,
        Failure::Overflow => 1,
        Failure::TooLong => 2,
    })?;
    Ok(())
}

#[tactic(auto, unfolding(crate::specs::Bytes::failure))]
fn read_failure(reader: &mut Reader<'_>) -> Result<Failure, DecodeError>
    ensures { Reads failure result reader.old reader.new }
{
    match reader.tag()? {
        0 => Ok(Failure::NotAnInteger),
        1 => Ok(Failure::Overflow),
        2 => Ok(Failure::TooLong),
        _ => Err(reader.unknown_tag()),
    }
}

/// Where the next step through the keys begins, and the keys.
#[tactic(auto, unfolding(crate::specs::Bytes::page))]
impl Form for Page {
    ghost use Rattle.raft_machine.specs.Bytes.{page};

    ghost codec = { page };

    fn write(&self, out: &mut Vec<u8>) -> Result<(), AllocError> {
        write_number(out, self.cursor)?;
        write_items(out, self.keys.as_slice())
    }

    fn read(reader: &mut Reader<'_>) -> Result<Page, DecodeError> {
        let cursor = reader.number()?;
        let keys = read_items(reader)?;
        Ok(Page { cursor, keys })
    }
}

/// A tag, and what the reply holds.
#[tactic(auto, unfolding(crate::specs::Bytes::reply))]
impl Form for Reply {
    ghost use Rattle.raft_machine.specs.Bytes.{reply};

    ghost codec = { reply };

    fn write(&self, out: &mut Vec<u8>) -> Result<(), AllocError> {
        match self {
            Reply::Done => Ok(out.push(0)?),
            Reply::Null => Ok(out.push(1)?),
            Reply::Integer(number) => {
                out.push(2)?;
                write_signed(out, *number)
            }
            Reply::Count(count) => {
                out.push(3)?;
                write_number(out, *count)
            }
            Reply::Bulk(bytes) => {
                out.push(4)?;
                write_raw(out, bytes.as_slice())
            }
            Reply::Values(values) => {
                out.push(5)?;
                write_items(out, values.as_slice())
            }
            Reply::Failed(failure) => {
                out.push(6)?;
                write_failure(out, *failure)
            }
            Reply::Scanned(page) => {
                out.push(7)?;
                page.write(out)
            }
        }
    }

    fn read(reader: &mut Reader<'_>) -> Result<Reply, DecodeError> {
        match reader.tag()? {
            0 => Ok(Reply::Done),
            1 => Ok(Reply::Null),
            2 => Ok(Reply::Integer(read_signed(reader)?)),
            3 => Ok(Reply::Count(reader.number()?)),
            4 => Ok(Reply::Bulk(Items::from_vec(reader.bytes()?))),
            5 => Ok(Reply::Values(read_items(reader)?)),
            6 => Ok(Reply::Failed(read_failure(reader)?)),
            7 => Ok(Reply::Scanned(Page::read(reader)?)),
            _ => Err(reader.unknown_tag()),
        }
    }
}

/// A key, its value, and when it expires.
#[tactic(auto, unfolding(crate::specs::Bytes::entry))]
pub(crate) fn write_entry(out: &mut Vec<u8>, key: &[u8], stored: &Stored) -> Result<(), AllocError>
    ensures { Writes entry (key.now, stored.now) result out.old.items out.new.items }
{
    write_raw(out, key)?;
    stored.bytes.write(out)?;
    stored.expires.write(out)
}

#[tactic(auto, unfolding(crate::specs::Bytes::entry))]
impl Form for (Items<u8>, Stored) {
    ghost use Rattle.raft_machine.specs.Bytes.{entry};

    ghost codec = { entry };

    fn write(&self, out: &mut Vec<u8>) -> Result<(), AllocError> {
        write_entry(out, self.0.as_slice(), &self.1)
    }

    fn read(reader: &mut Reader<'_>) -> Result<(Items<u8>, Stored), DecodeError> {
        let key = Items::<u8>::read(reader)?;
        let bytes = Items::<u8>::read(reader)?;
        let expires = Option::<u64>::read(reader)?;
        Ok((key, Stored { bytes, expires }))
    }
}

/// A client, the number of its last request that was run, and what that was answered.
#[tactic(auto, unfolding(crate::specs::Bytes::session))]
pub(crate) fn write_session(
    out: &mut Vec<u8>,
    client: u64,
    answered: &Answered,
) -> Result<(), AllocError>
    ensures { Writes session (client, answered.now) result out.old.items out.new.items }
{
    write_number(out, client)?;
    write_number(out, answered.number)?;
    write_items(out, answered.replies.as_slice())
}

#[tactic(auto, unfolding(crate::specs::Bytes::session))]
impl Form for (u64, Answered) {
    ghost use Rattle.raft_machine.specs.Bytes.{session};

    ghost codec = { session };

    fn write(&self, out: &mut Vec<u8>) -> Result<(), AllocError> {
        write_session(out, self.0, &self.1)
    }

    fn read(reader: &mut Reader<'_>) -> Result<(u64, Answered), DecodeError> {
        let client = reader.number()?;
        let number = reader.number()?;
        let replies = read_items(reader)?;
        Ok((client, Answered { number, replies }))
    }
}
