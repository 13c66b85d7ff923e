//! Comparisons of ids and of votes, each in a function of its own: a proof then reads its contract, and not what `<`
//! means for each part of an id.

ghost use Rattle.std.specs.Prelude.{◌≡◌};
ghost use Rattle.std.specs.Ordering.{is_gt, is_lt};
ghost use Rattle.raft_state.specs.Order.{last_id_cmp, vote_cmp};
ghost use Rattle.raft_steps.specs.VoteHandler.{rejects_vote};

use raft_state::{LogId, Node, NodeId, RaftState, Vote};

/// Whether an id is above another; `None` is below every id.
pub fn is_greater_id<NID: NodeId>(id: &Option<LogId<NID>>, other: &Option<LogId<NID>>) -> bool
    ensures { result ≡ is_gt (last_id_cmp NID.cmp id.now other.now) }
{
    id > other
}

/// Whether an id is below another; `None` is below every id.
pub fn is_lower_id<NID: NodeId>(id: &Option<LogId<NID>>, other: &Option<LogId<NID>>) -> bool
    ensures { result ≡ is_lt (last_id_cmp NID.cmp id.now other.now) }
{
    id < other
}

/// Whether a vote is above another.
pub fn is_greater_vote<NID: NodeId>(vote: &Vote<NID>, other: &Vote<NID>) -> bool
    ensures { result ≡ is_gt (vote_cmp NID.cmp vote.now other.now) }
{
    vote > other
}

/// Whether a vote is below another.
pub fn is_lower_vote<NID: NodeId>(vote: &Vote<NID>, other: &Vote<NID>) -> bool
    ensures { result ≡ is_lt (vote_cmp NID.cmp vote.now other.now) }
{
    vote < other
}

/// Whether a vote is below the state's own, and so rejected.
pub fn rejects_vote<NID: NodeId, N: Node>(state: &RaftState<NID, N>, vote: &Vote<NID>) -> bool
    ensures { result ≡ rejects_vote NID.cmp state.now vote.now }
{
    is_lower_vote(vote, &state.vote)
}
