//! Commands as bytes.

ghost use Rattle.std.specs.Prelude.{◌≡◌};
ghost use Rattle.raft_codec.specs.Codec.{Finds, Writes};
ghost use Rattle.raft_request_codec.specs.Commands.{append_at, compare_at, compare_fields, expire_at, expire_fields, increment_at};
ghost use Rattle.raft_request_codec.specs.Commands.{increment_fields, key_value, set_at, set_fields};

use crate::form::{Form, read_items, write_items};
use crate::options::{read_signed, write_signed};
use raft_codec::{DecodeError, Reader, write_number};
use raft_machine::{Command, ExpireCondition, Query, SetOptions};
use raft_state::Items;
use std::alloc::AllocError;

/// A key and its value.
#[tactic(auto, unfolding(crate::specs::Commands::key_value))]
impl Form for (Items<u8>, Items<u8>) {
    ghost use Rattle.raft_request_codec.specs.Commands.{key_value};

    ghost codec = { key_value };

    fn write(&self, out: &mut Vec<u8>) -> Result<(), AllocError> {
        self.0.write(out)?;
        self.1.write(out)
    }

    fn read(reader: &mut Reader<'_>) -> Result<(Items<u8>, Items<u8>), DecodeError> {
        let key = Items::<u8>::read(reader)?;
        let value = Items::<u8>::read(reader)?;
        Ok((key, value))
    }
}

#[tactic(auto, unfolding(crate::specs::Commands::set_fields))]
fn write_set(
    out: &mut Vec<u8>,
    key: &Items<u8>,
    value: &Items<u8>,
    options: &SetOptions,
) -> Result<(), AllocError>
    ensures { Writes set_fields (key.now, (value.now, options.now)) result out.old.items out.new.items }
{
    key.write(out)?;
    value.write(out)?;
    options.write(out)
}

#[tactic(auto, unfolding(crate::specs::Commands::set_fields))]
fn read_set(reader: &mut Reader<'_>) -> Result<Command, DecodeError>
    ensures { Finds (λ c. c) result (set_at reader.old) reader.new }
{
    let key = Items::<u8>::read(reader)?;
    let value = Items::<u8>::read(reader)?;
    let options = SetOptions::read(reader)?;
    Ok(Command::Set {
        key,
        value,
        options,
    })
}

#[tactic(auto, unfolding(crate::specs::Commands::compare_fields))]
fn write_compare(
    out: &mut Vec<u8>,
    key: &Items<u8>,
    expected: &Option<Items<u8>>,
    value: &Items<u8>,
) -> Result<(), AllocError>
    ensures { Writes compare_fields (key.now, (expected.now, value.now)) result out.old.items out.new.items }
{
    key.write(out)?;
    expected.write(out)?;
    value.write(out)
}

#[tactic(auto, unfolding(crate::specs::Commands::compare_fields))]
fn read_compare(reader: &mut Reader<'_>) -> Result<Command, DecodeError>
    ensures { Finds (λ c. c) result (compare_at reader.old) reader.new }
{
    let key = Items::<u8>::read(reader)?;
    let expected = Option::<Items<u8>>::read(reader)?;
    let value = Items::<u8>::read(reader)?;
    Ok(Command::CompareAndSet {
        key,
        expected,
        value,
    })
}

#[tactic(auto, unfolding(crate::specs::Commands::key_value))]
fn write_append(out: &mut Vec<u8>, key: &Items<u8>, more: &Items<u8>) -> Result<(), AllocError>
    ensures { Writes key_value (key.now, more.now) result out.old.items out.new.items }
{
    key.write(out)?;
    more.write(out)
}

#[tactic(auto, unfolding(crate::specs::Commands::key_value))]
fn read_append(reader: &mut Reader<'_>) -> Result<Command, DecodeError>
    ensures { Finds (λ c. c) result (append_at reader.old) reader.new }
{
    let key = Items::<u8>::read(reader)?;
    let more = Items::<u8>::read(reader)?;
    Ok(Command::Append(key, more))
}

#[tactic(auto, unfolding(crate::specs::Commands::increment_fields))]
fn write_increment(out: &mut Vec<u8>, key: &Items<u8>, by: i64) -> Result<(), AllocError>
    ensures { Writes increment_fields (key.now, by) result out.old.items out.new.items }
{
    key.write(out)?;
    write_signed(out, by)
}

#[tactic(auto, unfolding(crate::specs::Commands::increment_fields))]
fn read_increment(reader: &mut Reader<'_>) -> Result<Command, DecodeError>
    ensures { Finds (λ c. c) result (increment_at reader.old) reader.new }
{
    let key = Items::<u8>::read(reader)?;
    let by = read_signed(reader)?;
    Ok(Command::Increment(key, by))
}

#[tactic(auto, unfolding(crate::specs::Commands::expire_fields))]
fn write_expire(
    out: &mut Vec<u8>,
    key: &Items<u8>,
    at: u64,
    condition: &ExpireCondition,
) -> Result<(), AllocError>
    ensures { Writes expire_fields (key.now, (at, condition.now)) result out.old.items out.new.items }
{
    key.write(out)?;
    write_number(out, at)?;
    condition.write(out)
}

#[tactic(auto, unfolding(crate::specs::Commands::expire_fields))]
fn read_expire(reader: &mut Reader<'_>) -> Result<Command, DecodeError>
    ensures { Finds (λ c. c) result (expire_at reader.old) reader.new }
{
    let key = Items::<u8>::read(reader)?;
    let at = reader.number()?;
    let condition = ExpireCondition::read(reader)?;
    Ok(Command::Expire { key, at, condition })
}

/// A tag, and what the command holds.
#[tactic(auto, unfolding(crate::specs::Commands::command))]
impl Form for Command {
    ghost use Rattle.raft_request_codec.specs.Commands.{command};

    ghost codec = { command };

    fn write(&self, out: &mut Vec<u8>) -> Result<(), AllocError> {
        match self {
            Command::Read(query) => {
                out.push(0)?;
                query.write(out)
            }
            Command::Set {
                key,
                value,
                options,
            } => {
                out.push(1)?;
                write_set(out, key, value, options)
            }
            Command::SetMany(pairs) => {
                out.push(2)?;
                write_items(out, pairs.as_slice())
            }
            Command::CompareAndSet {
                key,
                expected,
                value,
            } => {
                out.push(3)?;
                write_compare(out, key, expected, value)
            }
            Command::Append(key, more) => {
                out.push(4)?;
                write_append(out, key, more)
            }
            Command::Increment(key, by) => {
                out.push(5)?;
                write_increment(out, key, *by)
            }
            Command::Delete(keys) => {
                out.push(6)?;
                write_items(out, keys.as_slice())
            }
            Command::Take(key) => {
                out.push(7)?;
                key.write(out)
            }
            Command::Expire { key, at, condition } => {
                out.push(8)?;
                write_expire(out, key, *at, condition)
            }
            Command::Persist(key) => {
                out.push(9)?;
                key.write(out)
            }
        }
    }

    fn read(reader: &mut Reader<'_>) -> Result<Command, DecodeError> {
        match reader.tag()? {
            0 => Ok(Command::Read(Query::read(reader)?)),
            1 => read_set(reader),
            2 => Ok(Command::SetMany(read_items(reader)?)),
            3 => read_compare(reader),
            4 => read_append(reader),
            5 => read_increment(reader),
            6 => Ok(Command::Delete(read_items(reader)?)),
            7 => Ok(Command::Take(Items::<u8>::read(reader)?)),
            8 => read_expire(reader),
            9 => Ok(Command::Persist(Items::<u8>::read(reader)?)),
            _ => Err(reader.unknown_tag()),
        }
    }
}
