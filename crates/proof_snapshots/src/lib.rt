//! Snapshots that servers send, of as many entries, are the same. Definitions and proofs, on functions that do nothing.
#![tactic(auto)]

ghost use Rattle.proof_snapshots.specs.Laws.{SnapshotsAgree};

/// State machine safety of the snapshots that have left servers (Raft paper, figure 3). So a snapshot is known by how many entries it stands
/// for, and parts of it may come from whoever has it.
///
/// This takes for granted what `servers_follow` does.
pub fn snapshots_agree()
    ensures { SnapshotsAgree }
{}
