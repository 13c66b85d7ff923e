//! MULTI, EXEC, DISCARD and WATCH, and the commands between them.

ghost use Rattle.std.specs.Prelude.{◌≡◌, IfOk};
ghost use Rattle.raft_connection.specs.Transactions.{is_inside, spoil, misused, leave, multi, executed, exec, discard, watch, unwatch};
ghost use Rattle.raft_connection.specs.Transactions.{command_of, pushed, queued, queue};

use crate::own_command::OwnCommand;
use crate::refusal::Refusal;
use crate::response::{Response, Status};
use crate::session::{Outcome, Session, Transaction, Work};
use raft_machine::Command;
use raft_requests::Parsed;
use raft_state::Items;
use std::alloc::{AllocError, Global};
use std::mem;

/// Whether the client is within a transaction.
pub(crate) fn is_inside(session: &Session) -> bool
    ensures { result ≡ is_inside session.now.transaction }
{
    match session.transaction {
        Transaction::Outside => false,
        _ => true,
    }
}

/// EXEC will run nothing, if the client is within a transaction.
pub(crate) fn spoil(session: &mut Session)
    ensures { session.new ≡ spoil session.old }
{
    if is_inside(session) {
        session.transaction = Transaction::Aborted;
    }
}

/// Ends the transaction, and gives it.
fn leave(session: &mut Session) -> Transaction
    ensures { (session.new, result) ≡ leave session.old }
{
    mem::replace(&mut session.transaction, Transaction::Outside)
}

/// A command with too many words, or too few: it spoils a transaction.
pub(crate) fn wrong_number(session: &mut Session, command: OwnCommand) -> Response
    ensures { (session.new, result) ≡ misused session.old command }
{
    spoil(session);
    Response::Refused(Refusal::WrongNumberOfArguments(command))
}

/// MULTI.
pub(crate) fn multi(alloc: Global, session: &mut Session, args: &[Items<u8>]) -> Response
    ensures { (session.new, result) ≡ multi session.old args.now }
{
    if !args.is_empty() {
        return wrong_number(session, OwnCommand::Multi);
    }
    if is_inside(session) {
        return Response::Refused(Refusal::NestedMulti);
    }
    session.transaction = Transaction::Queuing(Items::new(alloc));
    Response::Status(Status::Done)
}

/// What a transaction comes to, of a client's session if that was said.
fn executed(client: Option<raft_machine::Session>, transaction: Transaction) -> Outcome
    ensures { result ≡ executed client transaction }
{
    match transaction {
        Transaction::Outside => Outcome::Answers(Response::Refused(Refusal::ExecWithoutMulti)),
        Transaction::Aborted => Outcome::Answers(Response::Refused(Refusal::ExecAborted)),
        Transaction::Queuing(commands) => {
            if commands.is_empty() {
                Outcome::Answers(Response::NoItems)
            } else {
                Outcome::Asks(Work::Transaction(client, commands))
            }
        }
    }
}

/// EXEC, of a client's session if that was said.
pub(crate) fn exec(
    session: &mut Session,
    client: Option<raft_machine::Session>,
    args: &[Items<u8>],
) -> Outcome
    ensures { (session.new, result) ≡ exec session.old client args.now }
{
    let transaction = leave(session);
    if !args.is_empty() {
        return Outcome::Answers(Response::Refused(Refusal::ExecArguments));
    }
    executed(client, transaction)
}

/// DISCARD.
pub(crate) fn discard(session: &mut Session, args: &[Items<u8>]) -> Response
    ensures { (session.new, result) ≡ discard session.old args.now }
{
    if !args.is_empty() {
        return wrong_number(session, OwnCommand::Discard);
    }
    match leave(session) {
        Transaction::Outside => Response::Refused(Refusal::DiscardWithoutMulti),
        _ => Response::Status(Status::Done),
    }
}

/// WATCH: the state machine doesn't watch keys.
pub(crate) fn watch(session: &mut Session, args: &[Items<u8>]) -> Response
    ensures { (session.new, result) ≡ watch session.old args.now }
{
    if args.is_empty() {
        return wrong_number(session, OwnCommand::Watch);
    }
    if is_inside(session) {
        Response::Refused(Refusal::WatchInMulti)
    } else {
        Response::Refused(Refusal::NoWatching)
    }
}

/// UNWATCH, which is done with no key watched (Redis, `unwatchCommand`).
pub(crate) fn unwatch(args: &[Items<u8>]) -> Response
    ensures { result ≡ unwatch args.now }
{
    match args {
        [] => Response::Status(Status::Done),
        _ => Response::Refused(Refusal::WrongNumberOfArguments(OwnCommand::Unwatch)),
    }
}

/// A query as a command.
pub(crate) fn command_of(parsed: Parsed) -> Command
    ensures { result ≡ command_of parsed }
{
    match parsed {
        Parsed::Query(query) => Command::Read(query),
        Parsed::Command(command) => command,
    }
}

/// One more command, if there may be so many.
fn pushed(
    limit: usize,
    commands: Items<Command>,
    command: Command,
) -> Result<Transaction, AllocError>
    ensures { IfOk result (λ transaction. transaction ≡ pushed limit commands command) }
{
    if commands.as_slice().len() >= limit {
        return Ok(Transaction::Aborted);
    }
    let mut commands = commands;
    commands.push(command)?;
    Ok(Transaction::Queuing(commands))
}

/// A command within a transaction, of at most so many.
pub(crate) fn queue(
    limit: usize,
    session: &mut Session,
    parsed: Parsed,
) -> Result<Response, AllocError>
    ensures { IfOk result (λ response. (session.new, response) ≡ queue limit session.old parsed) }
{
    match leave(session) {
        Transaction::Queuing(commands) => {
            session.transaction = pushed(limit, commands, command_of(parsed))?;
            Ok(queued(session))
        }
        other => {
            session.transaction = other;
            Ok(Response::Status(Status::Queued))
        }
    }
}

/// What a command is answered that was queued, or that was one too many.
fn queued(session: &Session) -> Response
    ensures { result ≡ queued session.now.transaction }
{
    match session.transaction {
        Transaction::Aborted => Response::Refused(Refusal::LongTransaction),
        _ => Response::Status(Status::Queued),
    }
}
