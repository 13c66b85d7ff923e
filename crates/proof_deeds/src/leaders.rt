//! Theorems of leaders and deeds, on a function that does nothing.

ghost use Rattle.std.specs.Prelude.{ℕ};
ghost use Rattle.raft_node.specs.raft_state.declared.membership.Members.{Members};
ghost use Rattle.proof_deeds.specs.LeaderDeeds.{LeadersDone};

/// What a leader queues is done by allowed deeds of its node, command by command, wherever it stops, and what it counts
/// was said in the ideal world (Raft paper, sections 5.3, 5.4.2 and 6).
pub fn leaders_are_deeds()
    ensures { (first : Members ℕ (Unit {0})) → LeadersDone first }
{}
