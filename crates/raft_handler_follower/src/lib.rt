//! The handler of a follower: entries, commits and snapshots from a leader.
#![tactic(auto)]

pub use raft_handler_common;

pub mod following_handler;
pub mod installs;
pub mod request_refusals;

pub use following_handler::FollowingHandler;
