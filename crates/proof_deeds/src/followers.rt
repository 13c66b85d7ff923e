//! Theorems of followers and deeds, on a function that does nothing.

ghost use Rattle.std.specs.Prelude.{ℕ};
ghost use Rattle.raft_node.specs.raft_state.declared.membership.Members.{Members};
ghost use Rattle.proof_deeds.specs.FollowerDeeds.{FollowersDone};

/// What a follower queues is done by allowed deeds of its node, command by command, wherever it stops, and what it
/// answers was accepted in the ideal world (Raft paper, section 5.3).
pub fn followers_are_deeds()
    ensures { (first : Members ℕ (Unit {0})) → FollowersDone first }
{}
