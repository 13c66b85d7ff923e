//! Theorems about stores and engines, on a function that does nothing.

ghost use Rattle.proof_mirror.specs.MirrorLaws.{StoresMirror};

use raft_state::{NodeId, RaftEntry, RaftTypeConfig};

/// After the queued commands an engine's store mirrors the engine: the vote, the log's ids, the snapshot and the
/// memberships are the same, and what was applied is the committed beginning of the whole log. Each call of the engine
/// keeps this, under the conditions named here, and each command that it queues finds what it needs at its turn, so
/// that the node may stop anywhere (Raft paper, figure 2 and sections 5.3, 6 and 7).
pub fn stores_mirror_engines<C: RaftTypeConfig, T>()
    ensures { StoresMirror C C.D C.R C.SnapshotData T C.NodeId.cmp C.Entry.RaftEntry.own }
{}
