//! How a record of a server's log names a snapshot.

use raft_packed_node::raft_packed::{Machine, Packed};

/// A snapshot, as a record of a server's log names it.
#[derive(Drop)]
pub enum Named<M: Machine> {
    /// This one.
    Whole(Packed<M>),
    /// The stored one with the log's entries up to this index, the last left out (Raft paper, section 7).
    Folded(u64),
}
