//! The protocol of Redis' clients (RESP, versions 2 and 3): requests from bytes, and replies as bytes. It reads and writes
//! nothing: what a connection has received goes in, and what is to be sent comes out.
//!
//! Source: Redis' protocol specification; refusals are worded as Redis 7.0 words them (`networking.c`).
#![tactic(auto)]

mod error;
mod laws;
mod replies;
mod requests;

pub use error::{Fault, RequestError, Stop};
pub use laws::{requests_are_read, requests_come_in_pieces};
pub use replies::{
    Protocol, write_array, write_bulk, write_error, write_integer, write_map, write_null,
    write_reply, write_simple,
};
pub use requests::{Limits, MAX_LINE, Request, read_request};
