//! Commands that a connection answers, and that change nothing: PING, ECHO, SELECT, COMMAND, CONFIG and INFO.

ghost use Rattle.std.specs.Prelude.{◌≡◌, IfOk};
ghost use Rattle.raft_connection.specs.OwnReplies.{ping, echo, database, select, command_count, command_at, command, config_get, config_at, config};

use crate::own_command::OwnCommand;
use crate::refusal::Refusal;
use crate::response::{Response, Status};
use crate::words::{is_same_word, told};
use raft_machine::numbers;
use raft_state::Items;
use std::alloc::{AllocError, Global};

fn wrong_number(command: OwnCommand) -> Response
    ensures { result ≡ Response.Refused (Refusal.WrongNumberOfArguments command) }
{
    Response::Refused(Refusal::WrongNumberOfArguments(command))
}

/// PING.
pub(crate) fn ping(args: &[Items<u8>]) -> Result<Response, AllocError>
    ensures { IfOk result (λ response. response ≡ ping args.now) }
{
    match args {
        [] => Ok(Response::Status(Status::Pong)),
        [word] => Ok(Response::Bytes(word.copy()?)),
        _ => Ok(wrong_number(OwnCommand::Ping)),
    }
}

/// ECHO.
pub(crate) fn echo(args: &[Items<u8>]) -> Result<Response, AllocError>
    ensures { IfOk result (λ response. response ≡ echo args.now) }
{
    match args {
        [word] => Ok(Response::Bytes(word.copy()?)),
        _ => Ok(wrong_number(OwnCommand::Echo)),
    }
}

/// SELECT of a database by its number: there is one, 0.
fn database(number: Option<i64>) -> Response
    ensures { result ≡ database number }
{
    match number {
        None => Response::Refused(Refusal::NotAnInteger),
        Some(0) => Response::Status(Status::Done),
        Some(_) => Response::Refused(Refusal::NoSuchDatabase),
    }
}

/// SELECT.
pub(crate) fn select(args: &[Items<u8>]) -> Response
    ensures { result ≡ select args.now }
{
    match args {
        [word] => database(numbers::integer(word.as_slice())),
        _ => wrong_number(OwnCommand::Select),
    }
}

/// COMMAND COUNT: nothing is told of commands.
fn command_count(args: &[Items<u8>]) -> Response
    ensures { result ≡ command_count args.now }
{
    match args {
        [] => Response::Number(0),
        _ => wrong_number(OwnCommand::CommandCount),
    }
}

/// COMMAND with a subcommand and what is behind it.
fn command_at(alloc: Global, name: &[u8], args: &[Items<u8>]) -> Result<Response, AllocError>
    ensures { IfOk result (λ response. response ≡ command_at name.now args.now) }
{
    if is_same_word(name, b"count") {
        Ok(command_count(args))
    } else if is_same_word(name, b"docs") {
        Ok(Response::NoPairs)
    } else {
        let told = told(alloc, name)?;
        Ok(Response::Refused(Refusal::UnknownSubcommand(OwnCommand::Command, told)))
    }
}

/// COMMAND.
pub(crate) fn command(alloc: Global, args: &[Items<u8>]) -> Result<Response, AllocError>
    ensures { IfOk result (λ response. response ≡ command args.now) }
{
    match args.split_first() {
        None => Ok(Response::NoItems),
        Some((name, args)) => command_at(alloc, name.as_slice(), args),
    }
}

/// CONFIG GET: there are no parameters.
fn config_get(args: &[Items<u8>]) -> Response
    ensures { result ≡ config_get args.now }
{
    match args {
        [] => wrong_number(OwnCommand::ConfigGet),
        _ => Response::NoPairs,
    }
}

/// CONFIG with a subcommand and what is behind it.
fn config_at(alloc: Global, name: &[u8], args: &[Items<u8>]) -> Result<Response, AllocError>
    ensures { IfOk result (λ response. response ≡ config_at name.now args.now) }
{
    if is_same_word(name, b"get") {
        return Ok(config_get(args));
    }
    let told = told(alloc, name)?;
    Ok(Response::Refused(Refusal::UnknownSubcommand(OwnCommand::Config, told)))
}

/// CONFIG.
pub(crate) fn config(alloc: Global, args: &[Items<u8>]) -> Result<Response, AllocError>
    ensures { IfOk result (λ response. response ≡ config args.now) }
{
    match args.split_first() {
        None => Ok(wrong_number(OwnCommand::Config)),
        Some((name, args)) => config_at(alloc, name.as_slice(), args),
    }
}
