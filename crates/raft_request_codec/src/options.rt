//! How values are set, and when keys expire, as bytes.

ghost use Rattle.std.specs.Prelude.{◌≡◌};
ghost use Rattle.raft_codec.specs.Codec.{Writes, Reads};
ghost use Rattle.raft_machine.specs.Bytes.{from_zigzag, signed, zigzag};
ghost use Rattle.raft_request_codec.specs.Options.{condition, expiry, set_reply};

use crate::form::Form;
use raft_codec::{DecodeError, Reader, write_number};
use raft_machine::{Condition, ExpireCondition, Expiry, SetOptions, SetReply};
use std::alloc::AllocError;

/// 0, -1, 1, -2, .. as 0, 1, 2, 3, .. (Protocol Buffers, Encoding: ZigZag).
fn zigzag(number: i64) -> u64
    ensures { result ≡ zigzag number }
{
    if number >= 0 {
        2 * number as u64
    } else {
        2 * (-(number + 1)) as u64 + 1
    }
}

fn from_zigzag(number: u64) -> i64
    ensures { result ≡ from_zigzag number }
{
    let half = (number / 2) as i64;
    if number % 2 == 0 { half } else { -1 - half }
}

#[tactic(auto, unfolding(raft_machine::specs::Bytes::signed))]
pub(crate) fn write_signed(out: &mut Vec<u8>, number: i64) -> Result<(), AllocError>
    ensures { Writes signed number result out.old.items out.new.items }
{
    write_number(out, zigzag(number))
}

#[tactic(auto, unfolding(raft_machine::specs::Bytes::signed))]
pub(crate) fn read_signed(reader: &mut Reader<'_>) -> Result<i64, DecodeError>
    ensures { Reads signed result reader.old reader.new }
{
    Ok(from_zigzag(reader.number()?))
}

#[tactic(auto, unfolding(crate::specs::Options::condition))]
fn write_condition(out: &mut Vec<u8>, chosen: Condition) -> Result<(), AllocError>
    ensures { Writes condition chosen result out.old.items out.new.items }
{
    out.push(match chosen {
        Condition::Always => 0,
        Condition::IfAbsent => 1,
        Condition::IfPresent => 2,
    })?;
    Ok(())
}

#[tactic(auto, unfolding(crate::specs::Options::condition))]
fn read_condition(reader: &mut Reader<'_>) -> Result<Condition, DecodeError>
    ensures { Reads condition result reader.old reader.new }
{
    match reader.tag()? {
        0 => Ok(Condition::Always),
        1 => Ok(Condition::IfAbsent),
        2 => Ok(Condition::IfPresent),
        _ => Err(reader.unknown_tag()),
    }
}

#[tactic(auto, unfolding(crate::specs::Options::expiry))]
fn write_expiry(out: &mut Vec<u8>, chosen: Expiry) -> Result<(), AllocError>
    ensures { Writes expiry chosen result out.old.items out.new.items }
{
    match chosen {
        Expiry::Never => Ok(out.push(0)?),
        Expiry::Keep => Ok(out.push(1)?),
        Expiry::At(moment) => {
            out.push(2)?;
            write_number(out, moment)
        }
    }
}

#[tactic(auto, unfolding(crate::specs::Options::expiry))]
fn read_expiry(reader: &mut Reader<'_>) -> Result<Expiry, DecodeError>
    ensures { Reads expiry result reader.old reader.new }
{
    match reader.tag()? {
        0 => Ok(Expiry::Never),
        1 => Ok(Expiry::Keep),
        2 => Ok(Expiry::At(reader.number()?)),
        _ => Err(reader.unknown_tag()),
    }
}

#[tactic(auto, unfolding(crate::specs::Options::set_reply))]
fn write_set_reply(out: &mut Vec<u8>, chosen: SetReply) -> Result<(), AllocError>
    ensures { Writes set_reply chosen result out.old.items out.new.items }
{
    out.push(match chosen {
        SetReply::Status => 0,
        SetReply::Old => 1,
        SetReply::Flag => 2,
    })?;
    Ok(())
}

#[tactic(auto, unfolding(crate::specs::Options::set_reply))]
fn read_set_reply(reader: &mut Reader<'_>) -> Result<SetReply, DecodeError>
    ensures { Reads set_reply result reader.old reader.new }
{
    match reader.tag()? {
        0 => Ok(SetReply::Status),
        1 => Ok(SetReply::Old),
        2 => Ok(SetReply::Flag),
        _ => Err(reader.unknown_tag()),
    }
}

/// Whether a value is set, when it expires, and what is answered.
#[tactic(auto, unfolding(crate::specs::Options::set_options))]
impl Form for SetOptions {
    ghost use Rattle.raft_request_codec.specs.Options.{set_options};

    ghost codec = { set_options };

    fn write(&self, out: &mut Vec<u8>) -> Result<(), AllocError> {
        write_condition(out, self.condition)?;
        write_expiry(out, self.expiry)?;
        write_set_reply(out, self.reply)
    }

    fn read(reader: &mut Reader<'_>) -> Result<SetOptions, DecodeError> {
        let condition = read_condition(reader)?;
        let expiry = read_expiry(reader)?;
        let reply = read_set_reply(reader)?;
        Ok(SetOptions {
            condition,
            expiry,
            reply,
        })
    }
}

#[tactic(auto, unfolding(crate::specs::Options::expire_condition))]
impl Form for ExpireCondition {
    ghost use Rattle.raft_request_codec.specs.Options.{expire_condition};

    ghost codec = { expire_condition };

    fn write(&self, out: &mut Vec<u8>) -> Result<(), AllocError> {
        out.push(match self {
            ExpireCondition::Always => 0,
            ExpireCondition::IfPersistent => 1,
            ExpireCondition::IfVolatile => 2,
            ExpireCondition::IfLater => 3,
            ExpireCondition::IfEarlier => 4,
            ExpireCondition::IfVolatileAndEarlier => 5,
        })?;
        Ok(())
    }

    fn read(reader: &mut Reader<'_>) -> Result<ExpireCondition, DecodeError> {
        match reader.tag()? {
            0 => Ok(ExpireCondition::Always),
            1 => Ok(ExpireCondition::IfPersistent),
            2 => Ok(ExpireCondition::IfVolatile),
            3 => Ok(ExpireCondition::IfLater),
            4 => Ok(ExpireCondition::IfEarlier),
            5 => Ok(ExpireCondition::IfVolatileAndEarlier),
            _ => Err(reader.unknown_tag()),
        }
    }
}
