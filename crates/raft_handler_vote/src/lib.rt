//! How a vote is adopted, and which role follows.
#![tactic(auto)]

pub use raft_handler_leader;

pub mod vote_handler;

pub use vote_handler::{ReplyOf, StateOf, VoteHandler};
