//! One connection of a Redis client, without input or output: bytes that were received go in, requests for the state machine
//! come out, their answers go in, in any order, and the bytes to send come out, in the order of the requests.
//!
//! # What its caller does
//!
//! 1. [`Connection::receive`] with what the socket gave; it says how many bytes it took.
//! 2. [`Connection::step`], until it waits: each step reads one request. What the connection knows itself (PING, HELLO, AUTH,
//!    MULTI and the like) is answered by it; anything else is handed out, with a number.
//! 3. [`Connection::answer`] with that number, once it is known what came of a request.
//! 4. [`Connection::take_output`] gives the bytes to send: of all requests whose answers are there, up to the first one
//!    that still waits.
//! 5. Once [`Connection::is_closing`], and all of it is sent, the socket is to be closed.
//!
//! # Where it differs from Redis
//!
//! - Between MULTI and EXEC only commands of the state machine are queued: others, such as PING, are refused, and so is what Redis
//!   would refuse at EXEC, such as a wrong option. Times that count from now do so from when they are queued.
//! - There is one database, one user, and no key is watched.
//! - `ONCE SESSION NUMBER COMMAND ..` is its own: the state machine knows a request that comes again by these numbers.
//! - HELLO that is refused changes nothing, as in Redis 7.2, of which it also knows CLIENT SETINFO and CLIENT NO-TOUCH.
//! - Before a client has authenticated itself, it isn't told which commands there are.
//! - INFO answers the text that is set, whatever sections are asked for, as bytes in version 3 too; COMMAND tells nothing.
//!
//! If memory runs out in a call, the connection is spent: it is to be dropped, and its socket closed.
//!
//! Source: Redis 7.0's documentation of commands, and `networking.c`, `server.c`, `acl.c`, `multi.c`.
#![tactic(auto)]

mod answer;
mod connection;
mod handshake;
mod hash_slots;
mod hello;
mod keys;
mod laws;
mod limits;
mod once;
mod own_command;
mod own_replies;
mod pending;
mod queue;
mod reading;
mod received;
mod refusal;
mod requests;
mod response;
mod secret;
mod session;
mod transactions;
mod words;

pub use answer::{Answer, AnswerError};
pub use connection::{Asked, Connection, Step};
pub use hash_slots::hash_slot;
pub use laws::{
    answered_once, handed_out_waits, nothing_is_handed_out_before, replies_leave_in_order,
    steps_take_pieces,
};
pub use limits::{Limits, Settings};
pub use session::Work;
