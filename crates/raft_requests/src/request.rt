//! Requests from words: what a client sends as an array of RESP.

ghost use Rattle.std.specs.Prelude.{◌≡◌};
ghost use Rattle.raft_requests.specs.Refusals.{Gives};
ghost use Rattle.raft_requests.specs.Requests.{setting, set_of, compare_and_set, count, increment, decrement, moment_at, expire_of};
ghost use Rattle.raft_requests.specs.Requests.{scan_of, meaning, request};

use crate::command_name::CommandName;
use crate::expire_options::condition;
use crate::options::options;
use crate::refusal::{ParseError, Refusal};
use crate::scan_options::{cursor, scan_options};
use crate::times::TimeForm;
use crate::words::{none, number, one, pairs, some, three, two, unknown};
use raft_machine::{Command, Condition, Expiry, Query, SetOptions, SetReply};
use raft_state::Items;
use std::alloc::Global;

/// What words ask for.
#[derive(Debug, Drop)]
pub enum Parsed {
    /// What reads keys.
    Query(Query),

    /// What may change keys.
    Command(Command),
}

/// A value that is set under a condition, and doesn't expire.
fn setting(name: CommandName, args: &[Items<u8>], options: SetOptions) -> Result<Parsed, ParseError>
    ensures { Gives result (setting name args.now options) }
{
    let (key, value) = two(name, args)?;
    Ok(Parsed::Command(Command::Set {
        key,
        value,
        options,
    }))
}

/// SET.
fn set(args: &[Items<u8>], now: u64) -> Result<Parsed, ParseError>
    ensures { Gives result (set_of now args.now) }
{
    match args {
        [key, value, words @ ..] => {
            let options = options(words, now)?;
            Ok(Parsed::Command(Command::Set {
                key: key.copy()?,
                value: value.copy()?,
                options,
            }))
        }
        _ => Err(ParseError::Refused(Refusal::WrongNumberOfArguments(CommandName::Set))),
    }
}

/// CAS.
fn compare_and_set(args: &[Items<u8>]) -> Result<Parsed, ParseError>
    ensures { Gives result (compare_and_set args.now) }
{
    let (key, expected, value) = three(CommandName::CompareAndSet, args)?;
    Ok(Parsed::Command(Command::CompareAndSet {
        key,
        expected: Some(expected),
        value,
    }))
}

/// INCR and DECR.
fn count(name: CommandName, args: &[Items<u8>], by: i64) -> Result<Parsed, ParseError>
    ensures { Gives result (count name args.now by) }
{
    Ok(Parsed::Command(Command::Increment(one(name, args)?, by)))
}

/// INCRBY.
fn increment(args: &[Items<u8>]) -> Result<Parsed, ParseError>
    ensures { Gives result (increment args.now) }
{
    let (key, by) = two(CommandName::IncrBy, args)?;
    let by = number(by.as_slice())?;
    Ok(Parsed::Command(Command::Increment(key, by)))
}

/// DECRBY.
#[tactic(auto, using(crate::proofs::Fitting::fitting_is))]
fn decrement(args: &[Items<u8>]) -> Result<Parsed, ParseError>
    ensures { Gives result (decrement args.now) }
{
    let (key, by) = two(CommandName::DecrBy, args)?;
    match number(by.as_slice())?.checked_neg() {
        Some(by) => Ok(Parsed::Command(Command::Increment(key, by))),
        None => Err(ParseError::Refused(Refusal::DecrementOverflow)),
    }
}

/// The moment that a word tells.
fn moment(name: CommandName, form: TimeForm, word: &[u8], now: u64) -> Result<u64, ParseError>
    ensures { Gives result (moment_at name form now word.now) }
{
    match form.moment(now, number(word)?) {
        Some(at) => Ok(at),
        None => Err(ParseError::Refused(Refusal::InvalidExpireTime(name))),
    }
}

/// EXPIRE, PEXPIRE, EXPIREAT and PEXPIREAT.
fn expire(
    alloc: Global,
    name: CommandName,
    form: TimeForm,
    args: &[Items<u8>],
    now: u64,
) -> Result<Parsed, ParseError>
    ensures { Gives result (expire_of name form now args.now) }
{
    let [key, time, words @ ..] = args else {
        return Err(ParseError::Refused(Refusal::WrongNumberOfArguments(name)));
    };
    let condition = condition(alloc, words)?;
    let at = moment(name, form, time.as_slice(), now)?;
    Ok(Parsed::Command(Command::Expire {
        key: key.copy()?,
        at,
        condition,
    }))
}

/// SCAN.
fn scan(args: &[Items<u8>]) -> Result<Parsed, ParseError>
    ensures { Gives result (scan_of args.now) }
{
    let Some((first, words)) = args.split_first() else {
        return Err(ParseError::Refused(Refusal::WrongNumberOfArguments(CommandName::Scan)));
    };
    let cursor = cursor(first.as_slice())?;
    Ok(Parsed::Query(Query::Scan(scan_options(cursor, words)?)))
}

const RETURNS_OLD: SetOptions = SetOptions {
    condition: Condition::Always,
    expiry: Expiry::Never,
    reply: SetReply::Old,
};

const SETS_ABSENT: SetOptions = SetOptions {
    condition: Condition::IfAbsent,
    expiry: Expiry::Never,
    reply: SetReply::Flag,
};

/// What the words behind a command's name ask for.
#[tactic(auto, unfolding(crate::specs::Requests::meaning))]
fn meaning(
    alloc: Global,
    name: CommandName,
    args: &[Items<u8>],
    now: u64,
) -> Result<Parsed, ParseError>
    ensures { Gives result (meaning name now args.now) }
{
    match name {
        CommandName::Append => {
            let (key, more) = two(name, args)?;
            Ok(Parsed::Command(Command::Append(key, more)))
        }
        CommandName::CompareAndSet => compare_and_set(args),
        CommandName::DbSize => {
            none(name, args)?;
            Ok(Parsed::Query(Query::Size))
        }
        CommandName::Decr => count(name, args, -1),
        CommandName::DecrBy => decrement(args),
        CommandName::Del => Ok(Parsed::Command(Command::Delete(some(alloc, name, args)?))),
        CommandName::Exists => Ok(Parsed::Query(Query::Exists(some(alloc, name, args)?))),
        CommandName::Expire => expire(alloc, name, TimeForm::Seconds, args, now),
        CommandName::ExpireAt => expire(alloc, name, TimeForm::UnixSeconds, args, now),
        CommandName::ExpireTime => Ok(Parsed::Query(Query::DeadlineSeconds(one(name, args)?))),
        CommandName::Get => Ok(Parsed::Query(Query::Get(one(name, args)?))),
        CommandName::GetDel => Ok(Parsed::Command(Command::Take(one(name, args)?))),
        CommandName::GetSet => setting(name, args, RETURNS_OLD),
        CommandName::Incr => count(name, args, 1),
        CommandName::IncrBy => increment(args),
        CommandName::MGet => Ok(Parsed::Query(Query::GetMany(some(alloc, name, args)?))),
        CommandName::MSet => Ok(Parsed::Command(Command::SetMany(pairs(alloc, name, args)?))),
        CommandName::Persist => Ok(Parsed::Command(Command::Persist(one(name, args)?))),
        CommandName::PExpire => expire(alloc, name, TimeForm::Milliseconds, args, now),
        CommandName::PExpireAt => expire(alloc, name, TimeForm::UnixMilliseconds, args, now),
        CommandName::PExpireTime => Ok(Parsed::Query(Query::Deadline(one(name, args)?))),
        CommandName::PTtl => Ok(Parsed::Query(Query::Remaining(one(name, args)?))),
        CommandName::Scan => scan(args),
        CommandName::Set => set(args, now),
        CommandName::SetNx => setting(name, args, SETS_ABSENT),
        CommandName::StrLen => Ok(Parsed::Query(Query::Length(one(name, args)?))),
        CommandName::Ttl => Ok(Parsed::Query(Query::RemainingSeconds(one(name, args)?))),
    }
}

/// What a request's words ask for: a command's name, in any case, and its arguments. Times count from now, in milliseconds since the
/// Unix epoch.
///
/// Refuses, by the errors of Redis 7.0:
/// - a name that no command has,
/// - too few or too many arguments,
/// - options that contradict each other, or that the command doesn't have,
/// - numbers that aren't of 64 bits with a sign, and cursors that aren't of 64 bits without one,
/// - times that don't fit, and times of SET that aren't positive.
#[tactic(auto, unfolding(crate::specs::Requests::request))]
pub fn parse(alloc: Global, name: &[u8], args: &[Items<u8>], now: u64) -> Result<Parsed, ParseError>
    ensures { Gives result (request now name.now args.now) }
{
    match CommandName::of(name) {
        Some(name) => meaning(alloc, name, args, now),
        None => {
            let told = unknown(alloc, name, args)?;
            Err(ParseError::Refused(Refusal::UnknownCommand(told)))
        }
    }
}
