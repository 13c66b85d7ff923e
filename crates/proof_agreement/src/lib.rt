//! Agreement of Raft, proved apart from engines and queues: what stores, votes and leaders may do, and that decided
//! entries agree. No function does anything: each carries a law in its contract. `docs/PROOF.md` gives the proof.
#![tactic(auto)]

pub mod machine;
pub mod stores;

pub use machine::{conditions_needed, runs_agree, runs_possible};
pub use stores::{stores_agree, stores_possible};
