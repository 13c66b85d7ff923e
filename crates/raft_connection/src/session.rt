//! What a connection knows of its client, and what its requests come to.

ghost use Rattle.std.specs.Prelude.{◌≡◌};
ghost use Rattle.raft_connection.specs.Session.{started};

use crate::response::Response;
use raft_machine::{Command, Query};
use raft_resp::Protocol;
use raft_state::Items;
use std::alloc::Global;

/// What a client has said of a transaction.
#[derive(Debug, Drop)]
pub(crate) enum Transaction {
    /// It is in none.
    Outside,
    /// After MULTI: the commands so far.
    Queuing(Items<Command>),
    /// After MULTI, and a command that was refused: EXEC runs nothing.
    Aborted,
}

/// What a connection knows of its client.
#[derive(Debug, Drop)]
pub(crate) struct Session {
    /// The connection's number, which CLIENT ID answers.
    pub(crate) id: u64,
    /// The version of the protocol that its next reply is written in.
    pub(crate) protocol: Protocol,
    /// What it calls itself. Nothing is no name.
    pub(crate) name: Items<u8>,
    /// Whether it may ask for anything.
    pub(crate) is_authenticated: bool,
    pub(crate) transaction: Transaction,
    /// Whether none of its requests is read any more.
    pub(crate) is_closing: bool,
}

/// What a request asks of the state machine.
#[derive(Debug, Drop)]
pub enum Work {
    /// What reads keys, and so needs no entry in the log.
    Query(Query),

    /// What may change keys, and whose request it is, if that was said. It is answered by one reply, as a query is.
    Command(Option<raft_machine::Session>, Command),

    /// EXEC: commands that are run with nothing between. They are answered by one reply each.
    Transaction(Option<raft_machine::Session>, Items<Command>),
}

/// What a request comes to.
#[derive(Debug, Drop)]
pub(crate) enum Outcome {
    /// The connection answers it itself.
    Answers(Response),
    /// The state machine does.
    Asks(Work),
}

impl Session {
    /// A session that begins.
    pub(crate) fn new(alloc: Global, id: u64, is_authenticated: bool) -> Self
        ensures { result ≡ started id is_authenticated }
    {
        Session {
            id,
            protocol: Protocol::Resp2,
            name: Items::new(alloc),
            is_authenticated,
            transaction: Transaction::Outside,
            is_closing: false,
        }
    }
}
