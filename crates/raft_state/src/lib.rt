//! The state of a Raft node: votes, log ids, memberships and `RaftState`.
#![tactic(auto)]

pub mod config;
pub mod display;
pub mod ids;
pub mod items;
pub mod laws;
pub mod log;
pub mod membership;
pub mod node;
pub mod policy;
pub mod state;
pub mod text;

pub use config::{RaftEntry, RaftTypeConfig};
pub use display::DisplayOption;
pub use ids::{CommittedLeaderId, LeaderId, LogId, Vote, next_index, reaches};
pub use items::Items;
pub use log::LogIds;
pub use membership::{Group, Members, Membership, SnapshotMeta, StoredMembership, sorted_ids};
pub use node::{Node, NodeId};
pub use policy::{RejectAppendEntries, RejectVoteRequest, SnapshotPolicy};
pub use state::{RaftState, ServerState};
pub use text::Text;
