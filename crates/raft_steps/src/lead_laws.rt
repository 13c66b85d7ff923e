//! Theorems about starts, stepping down, reads and a leader's tables, on functions that do nothing.

ghost use Rattle.raft_steps.specs.Laws.{Queues, DeletesNothing};
ghost use Rattle.raft_steps.specs.LeadLaws.{StartCalls, StartsLead, StepsDown, ReadsWait, TablesFollow};
ghost use Rattle.raft_steps.specs.ReplyLaws.{PurgesNothing};

use raft_state::{NodeId, RaftEntry, RaftTypeConfig};

/// These calls queue their commands after those that are there; they save no vote below ours, and sequence numbers rise
/// by one. They delete nothing from the log, and purge nothing. A node that was leader leads at once, and gives no new
/// entry an index that its log has. A leader that is no member of a committed membership steps down (Raft paper,
/// section 6).
pub fn starts_obey_the_laws<C: RaftTypeConfig>()
    ensures queue { StartCalls C C.D C.R C.SnapshotData C.NodeId.cmp C.Entry.RaftEntry.own (Queues C.NodeId.cmp) }
    ensures deletes { StartCalls C C.D C.R C.SnapshotData C.NodeId.cmp C.Entry.RaftEntry.own DeletesNothing }
    ensures purges { StartCalls C C.D C.R C.SnapshotData C.NodeId.cmp C.Entry.RaftEntry.own PurgesNothing }
    ensures lead { StartsLead C C.D C.R C.SnapshotData C.NodeId.cmp C.Entry.RaftEntry.own }
    ensures down { StepsDown C C.D C.R C.SnapshotData C.NodeId.cmp C.Entry.RaftEntry.own }
{}

/// A read waits for the committed id and the leader's own no-op entry, and for no more (Raft paper, section 8).
pub fn reads_obey_the_laws<C: RaftTypeConfig>()
    ensures { ReadsWait C C.D C.R C.SnapshotData C.NodeId.cmp C.Entry.RaftEntry.own }
{}

/// A leader's two tables are the effective membership's between any two calls, which keep `IsSound`: its groups decide,
/// its voters have the first rows and its learners the others, and no other node has a row (openraft's
/// `rebuild_progresses`; Raft paper, section 6).
pub fn tables_follow_the_membership<C: RaftTypeConfig>()
    ensures { TablesFollow C C.Node C.Entry C.D C.R C.SnapshotData C.NodeId.cmp }
{}
