//! Messages, and the calls of an engine that an act or a message makes.
#![tactic(auto)]

pub use raft_engine;

pub mod bag;
pub mod deliver;
pub mod elections;
pub mod feed;
pub mod inboxes;
pub mod lead;
pub mod membership;
pub mod message;
mod refusal;
pub mod snapshots;
pub mod start;
pub mod trust;
