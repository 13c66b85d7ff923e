//! What a request comes to, by its words.

ghost use Rattle.std.specs.Prelude.{◌≡◌, IfOk};
ghost use Rattle.raft_connection.specs.Run.{own_outcome, work_of, machine_outcome, own_request, outcome};

use crate::handshake::{auth, client, hello, quit, reset};
use crate::limits::Settings;
use crate::once::{once, refused};
use crate::own_command::OwnCommand;
use crate::own_replies::{command, config, echo, ping, select};
use crate::refusal::Refusal;
use crate::response::Response;
use crate::session::{Outcome, Session, Work};
use crate::transactions::{discard, exec, is_inside, multi, queue, unwatch, watch};
use raft_requests::{ParseError, Parsed, parse};
use raft_state::Items;
use std::alloc::{AllocError, Global};

/// What a command of the connection's own comes to.
#[tactic(auto, unfolding(crate::specs::Run::own_outcome))]
fn own_outcome(
    alloc: Global,
    settings: &Settings,
    session: &mut Session,
    now: u64,
    command_is: OwnCommand,
    args: &[Items<u8>],
) -> Result<Outcome, AllocError>
    ensures { IfOk result (λ outcome. (session.new, outcome) ≡ own_outcome settings.now session.old now command_is args.now) }
{
    let response = match command_is {
        OwnCommand::Auth => auth(&settings.secret, session, args),
        OwnCommand::Client => client(alloc, session, args)?,
        OwnCommand::Command => command(alloc, args)?,
        OwnCommand::Config => config(alloc, args)?,
        OwnCommand::Discard => discard(session, args),
        OwnCommand::Echo => echo(args)?,
        OwnCommand::Exec => return Ok(exec(session, None, args)),
        OwnCommand::Hello => hello(alloc, &settings.secret, session, args)?,
        OwnCommand::Info => Response::Bytes(settings.info.copy()?),
        OwnCommand::Multi => multi(alloc, session, args),
        OwnCommand::Once => return once(alloc, session, now, args),
        OwnCommand::Ping => ping(args)?,
        OwnCommand::Quit => quit(session),
        OwnCommand::Reset => reset(alloc, &settings.secret, session, args),
        OwnCommand::Select => select(args),
        OwnCommand::Unwatch => unwatch(args),
        OwnCommand::Watch => watch(session, args),
        other => Response::Refused(Refusal::WrongNumberOfArguments(other)),
    };
    Ok(Outcome::Answers(response))
}

/// What a command of the connection's own comes to, if the client may send it now.
#[tactic(auto, unfolding(crate::specs::Run::own_request))]
fn own_request(
    alloc: Global,
    settings: &Settings,
    session: &mut Session,
    now: u64,
    command_is: OwnCommand,
    args: &[Items<u8>],
) -> Result<Outcome, AllocError>
    ensures { IfOk result (λ outcome. (session.new, outcome) ≡ own_request settings.now session.old now command_is args.now) }
{
    if !session.is_authenticated && !command_is.is_open_to_all() {
        return Ok(Outcome::Answers(Response::Refused(Refusal::NotAuthenticated)));
    }
    if is_inside(session) && !command_is.is_of_transactions() {
        return Ok(refused(session, Refusal::NotInTransaction));
    }
    own_outcome(alloc, settings, session, now, command_is, args)
}

/// What a command of the state machine asks.
fn work_of(parsed: Parsed) -> Work
    ensures { result ≡ work_of parsed }
{
    match parsed {
        Parsed::Query(query) => Work::Query(query),
        Parsed::Command(command) => Work::Command(None, command),
    }
}

/// What any other command comes to.
#[tactic(auto, unfolding(crate::specs::Run::machine_outcome))]
fn machine_outcome(
    alloc: Global,
    settings: &Settings,
    session: &mut Session,
    now: u64,
    name: &[u8],
    args: &[Items<u8>],
) -> Result<Outcome, AllocError>
    ensures { IfOk result (λ outcome. (session.new, outcome) ≡ machine_outcome settings.now session.old now name.now args.now) }
{
    if !session.is_authenticated {
        return Ok(Outcome::Answers(Response::Refused(Refusal::NotAuthenticated)));
    }
    match parse(alloc, name, args, now) {
        Err(ParseError::Memory) => Err(AllocError),
        Err(ParseError::Refused(refusal)) => Ok(refused(session, Refusal::Command(refusal))),
        Ok(parsed) => {
            if is_inside(session) {
                let response = queue(settings.limits.commands, session, parsed)?;
                Ok(Outcome::Answers(response))
            } else {
                Ok(Outcome::Asks(work_of(parsed)))
            }
        }
    }
}

/// What a request comes to: a command's name, and its arguments. Times count from now, in milliseconds since the Unix epoch.
pub(crate) fn outcome(
    alloc: Global,
    settings: &Settings,
    session: &mut Session,
    now: u64,
    name: &[u8],
    args: &[Items<u8>],
) -> Result<Outcome, AllocError>
    ensures { IfOk result (λ outcome_now. (session.new, outcome_now) ≡ outcome settings.now session.old now name.now args.now) }
{
    match OwnCommand::of(name) {
        Some(command_is) => own_request(alloc, settings, session, now, command_is, args),
        None => machine_outcome(alloc, settings, session, now, name, args),
    }
}
