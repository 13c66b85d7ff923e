//! How requests reach the server, and what they put into the log.

ghost use Rattle.std.specs.Prelude.{◌≡◌, ◌∷◌, [], IfOk};
ghost use Rattle.raft_service.specs.Plans.{count_of, request_of, planned, clock, query_way, update};

use crate::question::Wanted;
use raft_answers::Operation;
use raft_connection::Work;
use raft_machine::{Command, Request, Session};
use raft_request_codec::encode_request;
use raft_state::Items;
use std::alloc::{AllocError, Global};

/// How a request reaches the server.
#[derive(Drop)]
pub(crate) enum Way {
    /// It keeps its place among the requests that go through the log.
    Entry(Operation),
    /// By a round of messages, without an entry: it may overtake other requests, and be overtaken.
    Round,
}

/// How a request reaches the server, what answers it, and the time that is told then.
#[derive(Drop)]
pub(crate) struct Plan {
    pub(crate) wanted: Wanted,
    pub(crate) way: Way,
    pub(crate) told: u64,
}

/// How many replies are asked for.
pub(crate) fn count_of(work: &Work) -> usize
    ensures { result ≡ count_of work.now }
{
    match work {
        Work::Query(_) | Work::Command(..) => 1,
        Work::Transaction(_, commands) => commands.as_slice().len(),
    }
}

/// A list of one command.
fn only(alloc: Global, command: Command) -> Result<Items<Command>, AllocError>
    ensures { IfOk result (λ commands. commands ≡ command ∷ []) }
{
    let mut commands = Vec::new(alloc);
    commands.push(command)?;
    Ok(Items::from_vec(commands))
}

/// Commands at a moment, of a client's session if one was named, put a request into the log.
fn update(
    alloc: Global,
    session: Option<Session>,
    now: u64,
    commands: Items<Command>,
) -> Result<Operation, AllocError>
    ensures { IfOk result (λ operation. operation ≡ update session now commands) }
{
    let request = Request {
        session,
        moment: now,
        commands,
    };
    Ok(Operation::Write(encode_request(alloc, &request)?))
}

/// A query puts the time into the log, if it isn't told yet.
fn clock(alloc: Global, now: u64, told: u64) -> Result<Operation, AllocError>
    ensures { IfOk result (λ operation. operation ≡ clock now told) }
{
    if now <= told {
        return Ok(Operation::Read);
    }
    update(alloc, None, now, Items::new(alloc))
}

/// How a query reaches the server: by a round, if it may.
fn query_way(alloc: Global, now: u64, told: u64, by_round: bool) -> Result<Way, AllocError>
    ensures { IfOk result (λ way. way ≡ query_way now told by_round) }
{
    if by_round {
        return Ok(Way::Round);
    }
    Ok(Way::Entry(clock(alloc, now, told)?))
}

/// How a request reaches the server now, if this time is told already; a query may go by a round, or not. Times are in milliseconds
/// since the Unix epoch.
pub(crate) fn plan_of(
    alloc: Global,
    now: u64,
    told: u64,
    by_round: bool,
    work: Work,
) -> Result<Plan, AllocError>
    ensures { IfOk result (λ plan. plan ≡ planned now told by_round work) }
{
    match work {
        Work::Query(query) => Ok(Plan {
            wanted: Wanted::Query(query),
            way: query_way(alloc, now, told, by_round)?,
            told: told.max(now),
        }),
        Work::Command(session, command) => {
            let commands = only(alloc, command)?;
            Ok(Plan {
                wanted: Wanted::Replies(1),
                way: Way::Entry(update(alloc, session, now, commands)?),
                told: now,
            })
        }
        Work::Transaction(session, commands) => Ok(Plan {
            wanted: Wanted::Replies(commands.as_slice().len()),
            way: Way::Entry(update(alloc, session, now, commands)?),
            told: now,
        }),
    }
}
