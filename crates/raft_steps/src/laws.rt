//! Theorems about the engine's steps, on functions that do nothing.

ghost use Rattle.raft_steps.specs.CallLaws.{SavesVotes, LeadingCalls, NothingDeletedKeeps, LocalProgressCommits};
ghost use Rattle.raft_steps.specs.Laws.{Queues, DeletesNothing};
ghost use Rattle.raft_steps.specs.ReplyLaws.{PurgesNothing};

use raft_state::{NodeId, RaftEntry, RaftTypeConfig};

/// A call queues its commands after those that are there. No call lowers the vote, and a vote is saved exactly when it
/// rises (Raft paper, figure 2: persistent state). The sequence numbers of queued commands rise by one, in their order.
pub fn votes_and_numbers_rise<C: RaftTypeConfig>()
    ensures votes { SavesVotes C C.D C.R C.SnapshotData C.NodeId.cmp C.Entry.RaftEntry.own }
    ensures calls { LeadingCalls C C.D C.R C.SnapshotData C.NodeId.cmp C.Entry.RaftEntry.own (Queues C.NodeId.cmp) }
{}

/// No call of elections and leading deletes anything from the log, so what is committed stays (Raft paper, section
/// 5.4.3); none purges anything.
pub fn leading_keeps_the_log<C: RaftTypeConfig>()
    ensures deletes { LeadingCalls C C.D C.R C.SnapshotData C.NodeId.cmp C.Entry.RaftEntry.own DeletesNothing }
    ensures purges { LeadingCalls C C.D C.R C.SnapshotData C.NodeId.cmp C.Entry.RaftEntry.own PurgesNothing }
    ensures keeps { NothingDeletedKeeps C C.D C.R C.SnapshotData C.NodeId.cmp C.Entry.RaftEntry.own }
{}

/// The commit law: after this node's own acknowledgement the committed id is the greater of the one before and the
/// greatest among the voters' matching ids that have the vote's leader id and that a majority of each voter group has
/// reached (Raft paper, section 5.4.2).
pub fn the_latest_is_committed<C: RaftTypeConfig>()
    ensures { LocalProgressCommits C C.D C.R C.SnapshotData C.NodeId.cmp C.Entry.RaftEntry.own }
{}
