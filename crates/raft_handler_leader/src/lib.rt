//! A leader's handlers: its proposals and reads, what it sends, and how it handles the replies.
#![tactic(auto)]

pub use raft_handler_common;

pub mod leader_handler;
pub mod replication_handler;
pub mod replies;
pub mod reply_refusals;

pub use leader_handler::{LeaderHandler, shares_group};
pub use replication_handler::{ReplicationHandler, SendNone};
