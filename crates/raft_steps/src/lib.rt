//! Each step of a Raft engine as a definition (`specs/`), with its laws. Nothing here runs: the functions carry laws in
//! their contracts, and `plain` is an application for computed examples.
#![tactic(auto)]

pub use raft_command;
pub use raft_proposer;
pub use raft_proposer::raft_progress;

pub mod install_laws;
pub mod laws;
pub mod lead_laws;
pub mod plain;
pub mod reply_laws;
pub mod request_laws;
