//! Theorems about the state, on functions that do nothing.

ghost use Rattle.raft_state.specs.Kept.{ExtendKeeps, TruncateKeeps, AcceptKeeps, CommitKeeps, AppendMembershipKeeps, PurgeKeeps};

use crate::node::{Node, NodeId};

/// Each call that changes a state keeps its invariants: the log's order, the order of its watermarks, and the accepted
/// record.
pub fn invariants_are_kept<NID: NodeId, N: Node>()
    ensures extend_log_ids { ExtendKeeps NID.cmp N }
    ensures truncate { TruncateKeeps NID.cmp N }
    ensures accept { AcceptKeeps NID.cmp N }
    ensures commit { CommitKeeps NID.cmp N }
    ensures append_membership { AppendMembershipKeeps NID.cmp N }
    ensures purge_log { PurgeKeeps NID.cmp N }
{}
