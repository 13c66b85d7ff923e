//! Theorems of snapshots, purges, starts and deeds, on a function that does nothing.

ghost use Rattle.std.specs.Prelude.{ℕ};
ghost use Rattle.raft_node.specs.raft_state.declared.membership.Members.{Members};
ghost use Rattle.proof_deeds.specs.SnapshotDeeds.{SnapshotsDone};

/// What a node queues for snapshots, purges and its start is done by allowed deeds of its node, command by command,
/// wherever it stops (Raft paper, section 7).
pub fn snapshots_are_deeds()
    ensures { (first : Members ℕ (Unit {0})) → SnapshotsDone first }
{}
