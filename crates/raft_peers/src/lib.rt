//! What servers say to each other, as bytes: packets of messages, questions whether a server would be elected, and snapshots in parts; and
//! what leaves a server.
#![tactic(auto)]

pub use raft_packed_server;

pub mod frame;
pub mod output;
pub mod parts;
pub mod prepare;
pub mod send;
