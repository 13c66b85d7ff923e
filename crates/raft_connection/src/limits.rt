//! What a server sets for all of its connections.

use raft_state::Items;

/// How much a client may ask for.
#[derive(Clone, Copy, PartialEq, Eq, Debug)]
pub struct Limits {
    /// The words of a request, and the bytes of each. A request past these is a protocol error, and closes the connection.
    pub request: raft_resp::Limits,

    /// The most bytes that wait to be read, and so the most of a request. A request that isn't whole by then closes the
    /// connection (Redis, `client-query-buffer-limit`). Nor is a request read while answers of so many bytes wait.
    pub received: usize,

    /// The most requests that wait for an answer, or whose answers wait for those before them. No request is read meanwhile.
    pub requests: usize,

    /// The most commands of a transaction. One more is refused, and with it the transaction.
    pub commands: usize,
}

/// What a server sets for all of its connections.
#[derive(Debug, Drop)]
pub struct Settings {
    /// How much a client may ask for.
    pub limits: Limits,

    /// What a client must say before anything else, if it must (Redis, `requirepass`).
    pub secret: Option<Items<u8>>,

    /// What INFO answers.
    pub info: Items<u8>,
}
