//! One node whose snapshot is a state: how an event changes it, and its commands executed on store, messages and records.
//!
//! Its engine is given snapshots without data; what a message brings is kept beside it until the event ends.
#![tactic(auto)]

pub use raft_packed;
pub use raft_packed::proof_packed_stores;

mod build;
mod drain;
mod error;
mod execute;
mod message;
mod node;
mod outbox;

pub use error::StepError;
pub use message::{PackedAct, PackedMessage};
pub use node::Node;
pub use outbox::{Outbox, PackedInstalled};
