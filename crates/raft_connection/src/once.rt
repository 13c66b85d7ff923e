//! ONCE: a request that names its client's session, so that it takes effect once, however often it is repeated.

ghost use Rattle.std.specs.Prelude.{◌≡◌, IfOk};
ghost use Rattle.raft_connection.specs.Once.{refused, session_of, machine_command, wrapped, once};

use crate::own_command::OwnCommand;
use crate::refusal::Refusal;
use crate::response::Response;
use crate::session::{Outcome, Session, Work};
use crate::transactions::{command_of, exec, is_inside, spoil, wrong_number};
use raft_machine::numbers;
use raft_requests::{ParseError, parse};
use raft_state::Items;
use std::alloc::{AllocError, Global};

/// A refusal, which spoils a transaction.
pub(crate) fn refused(session: &mut Session, refusal: Refusal) -> Outcome
    ensures { (session.new, result) ≡ refused session.old refusal }
{
    spoil(session);
    Outcome::Answers(Response::Refused(refusal))
}

/// Whose request it is, if both words are numbers below 2^64.
fn session_of(id: &[u8], number: &[u8]) -> Option<raft_machine::Session>
    ensures { result ≡ session_of id.now number.now }
{
    Some(raft_machine::Session {
        id: numbers::natural(id)?,
        number: numbers::natural(number)?,
    })
}

/// A command of the state machine, of a client's session.
fn machine_command(
    alloc: Global,
    session: &mut Session,
    client: raft_machine::Session,
    now: u64,
    name: &[u8],
    args: &[Items<u8>],
) -> Result<Outcome, AllocError>
    ensures { IfOk result (λ outcome. (session.new, outcome) ≡ machine_command session.old client now name.now args.now) }
{
    if is_inside(session) {
        return Ok(refused(session, Refusal::NotInTransaction));
    }
    match parse(alloc, name, args, now) {
        Err(ParseError::Memory) => Err(AllocError),
        Err(ParseError::Refused(refusal)) => Ok(refused(session, Refusal::Command(refusal))),
        Ok(parsed) => Ok(Outcome::Asks(Work::Command(Some(client), command_of(parsed)))),
    }
}

/// A command of a client's session: EXEC, or one of the state machine outside a transaction.
fn wrapped(
    alloc: Global,
    session: &mut Session,
    client: raft_machine::Session,
    now: u64,
    name: &[u8],
    args: &[Items<u8>],
) -> Result<Outcome, AllocError>
    ensures { IfOk result (λ outcome. (session.new, outcome) ≡ wrapped session.old client now name.now args.now) }
{
    match OwnCommand::of(name) {
        Some(OwnCommand::Exec) => Ok(exec(session, Some(client), args)),
        Some(_) => Ok(refused(session, Refusal::NotInOnce)),
        None => machine_command(alloc, session, client, now, name, args),
    }
}

/// ONCE. Times count from now, in milliseconds since the Unix epoch.
#[tactic(auto, unfolding(crate::specs::Once::once))]
pub(crate) fn once(
    alloc: Global,
    session: &mut Session,
    now: u64,
    args: &[Items<u8>],
) -> Result<Outcome, AllocError>
    ensures { IfOk result (λ outcome. (session.new, outcome) ≡ once session.old now args.now) }
{
    match args {
        [id, number, name, args @ ..] => match session_of(id.as_slice(), number.as_slice()) {
            Some(client) => wrapped(alloc, session, client, now, name.as_slice(), args),
            None => Ok(refused(session, Refusal::NotAnInteger)),
        },
        _ => Ok(Outcome::Answers(wrong_number(session, OwnCommand::Once))),
    }
}
