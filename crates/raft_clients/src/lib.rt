//! The connections of a server's clients, by the clients' numbers.
#![tactic(auto)]

mod clients;
mod error;

pub use clients::Clients;
pub use error::ConnectError;
