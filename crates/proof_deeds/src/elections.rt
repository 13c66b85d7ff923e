//! Theorems of elections and deeds, on a function that does nothing.

ghost use Rattle.std.specs.Prelude.{ℕ};
ghost use Rattle.raft_node.specs.raft_state.declared.membership.Members.{Members};
ghost use Rattle.proof_deeds.specs.ElectionDeeds.{ElectionsDone};

/// What an engine queues in an election is done by allowed deeds of its node, command by command, wherever it stops,
/// and what it counts was said in the ideal world (Raft paper, section 5.2).
pub fn elections_are_deeds()
    ensures { (first : Members ℕ (Unit {0})) → ElectionsDone first }
{}
