//! Requests of a client of Redis: from the words that it sends to commands of the state machine, as Redis 7.0 reads them.
#![tactic(auto)]

mod command_name;
mod expire_options;
mod options;
mod refusal;
mod request;
mod scan_options;
mod times;
mod words;

pub use command_name::CommandName;
pub use refusal::{ParseError, Refusal};
pub use request::{Parsed, parse};
