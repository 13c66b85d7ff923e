//! Queries as bytes.

ghost use Rattle.std.specs.Prelude.{◌≡◌};
ghost use Rattle.raft_codec.specs.Codec.{Writes, Reads, flag};

use crate::form::{Form, read_items, write_items};
use raft_codec::{DecodeError, Reader, write_number};
use raft_machine::{Query, ScanOptions};
use raft_state::Items;
use std::alloc::AllocError;

#[tactic(auto, unfolding(raft_codec::specs::Codec::flag))]
fn write_flag(out: &mut Vec<u8>, is_set: bool) -> Result<(), AllocError>
    ensures { Writes flag is_set result out.old.items out.new.items }
{
    out.push(if is_set { 1 } else { 0 })?;
    Ok(())
}

#[tactic(auto, unfolding(raft_codec::specs::Codec::flag))]
fn read_flag(reader: &mut Reader<'_>) -> Result<bool, DecodeError>
    ensures { Reads flag result reader.old reader.new }
{
    match reader.tag()? {
        0 => Ok(false),
        1 => Ok(true),
        _ => Err(reader.unknown_tag()),
    }
}

/// A step through the keys: its fields in their order.
#[tactic(auto, unfolding(crate::specs::Queries::scan_options))]
impl Form for ScanOptions {
    ghost use Rattle.raft_request_codec.specs.Queries.{scan_options};

    ghost codec = { scan_options };

    fn write(&self, out: &mut Vec<u8>) -> Result<(), AllocError> {
        write_number(out, self.cursor)?;
        write_number(out, self.count)?;
        self.pattern.write(out)?;
        write_flag(out, self.of_strings)
    }

    fn read(reader: &mut Reader<'_>) -> Result<ScanOptions, DecodeError> {
        let cursor = reader.number()?;
        let count = reader.number()?;
        let pattern = Option::<Items<u8>>::read(reader)?;
        let of_strings = read_flag(reader)?;
        Ok(ScanOptions {
            cursor,
            count,
            pattern,
            of_strings,
        })
    }
}

/// A tag, and what the query holds.
#[tactic(auto, unfolding(crate::specs::Queries::query))]
impl Form for Query {
    ghost use Rattle.raft_request_codec.specs.Queries.{query};

    ghost codec = { query };

    fn write(&self, out: &mut Vec<u8>) -> Result<(), AllocError> {
        match self {
            Query::Get(key) => {
                out.push(0)?;
                key.write(out)
            }
            Query::GetMany(keys) => {
                out.push(1)?;
                write_items(out, keys.as_slice())
            }
            Query::Exists(keys) => {
                out.push(2)?;
                write_items(out, keys.as_slice())
            }
            Query::Length(key) => {
                out.push(3)?;
                key.write(out)
            }
            Query::Size => Ok(out.push(4)?),
            Query::Remaining(key) => {
                out.push(5)?;
                key.write(out)
            }
            Query::RemainingSeconds(key) => {
                out.push(6)?;
                key.write(out)
            }
            Query::Deadline(key) => {
                out.push(7)?;
                key.write(out)
            }
            Query::DeadlineSeconds(key) => {
                out.push(8)?;
                key.write(out)
            }
            Query::Scan(options) => {
                out.push(9)?;
                options.write(out)
            }
        }
    }

    fn read(reader: &mut Reader<'_>) -> Result<Query, DecodeError> {
        match reader.tag()? {
            0 => Ok(Query::Get(Items::<u8>::read(reader)?)),
            1 => Ok(Query::GetMany(read_items(reader)?)),
            2 => Ok(Query::Exists(read_items(reader)?)),
            3 => Ok(Query::Length(Items::<u8>::read(reader)?)),
            4 => Ok(Query::Size),
            5 => Ok(Query::Remaining(Items::<u8>::read(reader)?)),
            6 => Ok(Query::RemainingSeconds(Items::<u8>::read(reader)?)),
            7 => Ok(Query::Deadline(Items::<u8>::read(reader)?)),
            8 => Ok(Query::DeadlineSeconds(Items::<u8>::read(reader)?)),
            9 => Ok(Query::Scan(ScanOptions::read(reader)?)),
            _ => Err(reader.unknown_tag()),
        }
    }
}
