//! One node of a world: how an event changes a node, and its commands executed on store, messages and records.
#![tactic(auto)]

pub mod act;
pub mod drain;
pub mod execute;
pub mod given;
pub mod node;
pub mod record;
pub mod watch;
