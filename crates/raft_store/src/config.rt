//! The types of the world's nodes.

use crate::entry::Entry;
use raft_state::{Items, RaftTypeConfig};

/// Nodes with `u64` ids and no data, whose snapshots are lists of entries.
#[derive(Debug, Drop)]
pub struct WorldConfig {}

impl RaftTypeConfig for WorldConfig {
    type NodeId = u64;

    type Node = ();

    type Entry = Entry;

    type D = u64;

    type R = u64;

    type SnapshotData = Items<Entry>;
}
