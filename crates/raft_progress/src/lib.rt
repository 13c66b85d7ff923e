//! What a quorum is, and tables of how far the log of each other node is known.
//!
//! An entry of such a table is that of `raft_progress_entry`.
#![tactic(auto)]

pub use raft_progress_entry;
pub use raft_progress_entry::raft_error;
pub use raft_state;

mod granted;
pub mod measured;
pub mod quorum;
mod rows;
pub mod table;

pub use measured::Measured;
pub use quorum::{Joint, QuorumSet};
pub use raft_progress_entry::{Inflight, LogIdRange, ProgressEntry};
pub use table::{ProgressIter, VecProgress};
