//! Nodes that propose: candidates and leaders.
#![tactic(auto)]

pub use raft_progress;

pub mod candidate;
pub mod leader;

pub use candidate::{Candidate, GrantersIter};
pub use leader::Leader;
