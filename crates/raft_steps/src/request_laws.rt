//! Theorems about the requests of candidates and leaders, on functions that do nothing.

ghost use Rattle.raft_steps.specs.Laws.{Queues};
ghost use Rattle.raft_steps.specs.ReplyLaws.{PurgesNothing};
ghost use Rattle.raft_steps.specs.RequestLaws.{RequestCalls, LeaseHolds, GrantsExactly, EqualVotesRenew, CommittedStays};

use raft_state::{NodeId, RaftEntry, RaftTypeConfig};

/// A request queues its commands after those that are there; the vote only rises, and is saved exactly when it does;
/// sequence numbers rise by one. While a leader's lease is in force, a vote request is denied and changes nothing; it
/// is granted exactly if no lease is in force, and neither its log's last id nor its vote is below ours (Raft paper,
/// sections 5.2 and 5.4.1). An equal vote renews its time and is not saved, in every call. What is committed is never
/// deleted, and vote requests and commits delete nothing. No request purges anything.
pub fn requests_obey_the_laws<C: RaftTypeConfig>()
    ensures queue { RequestCalls C C.D C.R C.SnapshotData C.NodeId.cmp C.Entry.RaftEntry.own (Queues C.NodeId.cmp) }
    ensures lease { LeaseHolds C C.D C.R C.SnapshotData C.NodeId.cmp C.Entry.RaftEntry.own }
    ensures granted { GrantsExactly C C.D C.R C.SnapshotData C.NodeId.cmp C.Entry.RaftEntry.own }
    ensures renewed { EqualVotesRenew C C.D C.R C.SnapshotData C.NodeId.cmp C.Entry.RaftEntry.own }
    ensures committed { CommittedStays C C.D C.R C.SnapshotData C.NodeId.cmp C.Entry.RaftEntry.own }
    ensures purges { RequestCalls C C.D C.R C.SnapshotData C.NodeId.cmp C.Entry.RaftEntry.own PurgesNothing }
{}
