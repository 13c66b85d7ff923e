//! Theorems about replies and purges, on functions that do nothing.

ghost use Rattle.std.specs.Prelude.{String};
ghost use Rattle.std.specs.declared.alloc.Global.{Global};
ghost use Rattle.raft_steps.specs.Laws.{Queues, DeletesNothing};
ghost use Rattle.raft_steps.specs.ReplyLaws.{ReplyCalls, RepliesCommit, PurgesWait};

use raft_state::{NodeId, RaftTypeConfig};

/// These calls queue their commands after those that are there; none of them lowers the vote; sequence numbers rise by
/// one. None deletes anything from the log. No purge that they queue goes above the snapshot's last id, and all but
/// `purge_log` queue none while the purge target itself is in flight from a leader (Raft paper, section 7).
pub fn replies_obey_the_laws<C: RaftTypeConfig>()
    ensures queue { ReplyCalls C C.Node C.Entry C.D C.R C.SnapshotData (String Global) C.NodeId.cmp (Queues C.NodeId.cmp) }
    ensures deletes { ReplyCalls C C.Node C.Entry C.D C.R C.SnapshotData (String Global) C.NodeId.cmp DeletesNothing }
    ensures purges { PurgesWait C C.Node C.Entry C.D C.R C.SnapshotData (String Global) C.NodeId.cmp }
{}

/// The commit law: after a node's acknowledgement, and so at the end of `update_progress`, the committed id is the
/// greater of the one before and the greatest among the voters' matching ids that have the vote's leader id and that a
/// majority of each voter group has reached; after any other reply it stays (Raft paper, sections 5.3 and 5.4.2).
pub fn acknowledged_is_committed<C: RaftTypeConfig>()
    ensures { RepliesCommit C C.Node C.Entry C.D C.R C.SnapshotData (String Global) C.NodeId.cmp }
{}
