//! What clients wait for.

use raft_answers::Token;
use raft_machine::Query;

/// What a question is answered by.
#[derive(Debug, Drop)]
pub(crate) enum Wanted {
    /// What the commands of its own entry answer, of which there are so many.
    Replies(usize),
    /// What this query answers once the entry that it waits for is executed.
    Query(Query),
}

/// A request that is on its way through the log, and who waits for its answer.
#[derive(Debug, Drop)]
pub(crate) struct Question {
    pub(crate) token: Token,
    pub(crate) client: u64,
    /// The number that the client's connection gave it.
    pub(crate) number: u64,
    pub(crate) wanted: Wanted,
}
