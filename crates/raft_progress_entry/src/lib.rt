//! How far the log of one other node is known, and what is in flight to it.
#![tactic(auto)]

pub use raft_error;
pub use raft_error::raft_state;

pub mod entry;

pub use entry::{Inflight, LogIdRange, ProgressEntry};
