//! What a node keeps when it stops, and how each command changes it.
#![tactic(auto)]

pub use raft_steps::raft_command;

mod built;
mod config;
mod entry;
mod hex;
mod leader_logs;
mod restart;
mod ring;
mod store;

pub use built::meta_of;
pub use config::WorldConfig;
pub use entry::{Entry, Payload, Value, copy_entries, push_copies};
pub use hex::Hex;
pub use leader_logs::LeaderLogs;
pub use store::Store;
