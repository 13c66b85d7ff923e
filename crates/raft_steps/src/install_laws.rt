//! Theorems about the install of a leader's snapshot, on functions that do nothing.

ghost use Rattle.raft_steps.specs.InstallLaws.{InstallsQueue, InstallsCut, InstallsKeep, InstallsInOrder, InstallsLeave};

use raft_state::{NodeId, RaftEntry, RaftTypeConfig};

/// These calls queue their commands after those that are there; the vote only rises, and is saved exactly when it does;
/// sequence numbers rise by one. A log that contradicts the snapshot is deleted from the snapshot's last index on, what
/// is committed is never deleted, and no purge goes above the snapshot. An install is queued before the purge that it
/// allows, and the reply waits for its number. Afterwards the snapshot is recorded and its last id committed; a log
/// that was replaced by it leaves no membership of its own (Raft paper, section 7).
pub fn installs_obey_the_laws<C: RaftTypeConfig>()
    ensures queue { InstallsQueue C C.D C.R C.SnapshotData C.NodeId.cmp C.Entry.RaftEntry.own }
    ensures cut { InstallsCut C C.D C.R C.SnapshotData C.NodeId.cmp C.Entry.RaftEntry.own }
    ensures keep { InstallsKeep C C.D C.R C.SnapshotData C.NodeId.cmp C.Entry.RaftEntry.own }
    ensures order { InstallsInOrder C C.D C.R C.SnapshotData C.NodeId.cmp C.Entry.RaftEntry.own }
    ensures leave { InstallsLeave C C.D C.R C.SnapshotData C.NodeId.cmp C.Entry.RaftEntry.own }
{}
