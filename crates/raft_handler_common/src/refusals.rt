//! Tests that several calls make before they change anything.

ghost use Rattle.std.specs.Prelude.{◌≡◌, ◌&&◌, not};
ghost use Rattle.raft_state.specs.Fits.{is_within, is_below};
ghost use Rattle.raft_state.specs.Log.{at};
ghost use Rattle.raft_state.specs.State.{is_found};
ghost use Rattle.raft_steps.specs.Refusals.{is_near_end, is_counter_end_among};
ghost use Rattle.raft_steps.specs.Parts.{core_of, unboxed};
ghost use Rattle.raft_steps.specs.VoteHandler.{rejects_vote};
ghost use Rattle.raft_steps.specs.Room.{leads_anew, is_new, is_full};

use crate::order::rejects_vote;
use raft_command::{EngineConfig, EngineOutput};
use raft_proposer::Leader;
use raft_state::{LogId, Membership, Node, NodeId, RaftState, RaftTypeConfig, Vote, reaches};
use raft_steps::raft_progress::Joint;

/// Whether a number is so near its end that a call might not count on from it.
pub fn is_near_end(number: u64) -> bool
    ensures { result ≡ is_near_end number }
{
    number > u64::MAX - 8
}

/// Whether the last sequence number or an inflight number of the leader is near its end.
pub fn is_counter_end<C: RaftTypeConfig>(
    state: &RaftState<C::NodeId, C::Node>,
    output: &EngineOutput<C>,
    leader: &Leader<C, Joint<C::NodeId>>,
) -> bool
    ensures { result ≡ is_counter_end_among (core_of state.now output.now) leader.now.progress.rows }
{
    is_near_end(output.last_sm_seq()) || leader.progress.has_number_above(u64::MAX - 8)
}

/// Whether the node would lead by a vote, and has no leader under it yet.
fn leads_anew<C: RaftTypeConfig>(
    config: &EngineConfig<C::NodeId>,
    members: &Membership<C::NodeId, C::Node>,
    leader: &Option<Box<Leader<C, Joint<C::NodeId>>>>,
    vote: &Vote<C::NodeId>,
) -> bool
    ensures { result ≡ leads_anew C.NodeId.cmp config.now vote.now members.now (unboxed leader.now) }
{
    vote.committed
        && vote.leader_id.node_id.cmp(&config.id).is_eq()
        && members.contains(&config.id)
        && is_new(leader, vote)
}

/// Whether there is no leader of a vote's leader id.
fn is_new<C: RaftTypeConfig>(
    leader: &Option<Box<Leader<C, Joint<C::NodeId>>>>,
    vote: &Vote<C::NodeId>,
) -> bool
    ensures { result ≡ is_new C.NodeId.cmp vote.now (unboxed leader.now) }
{
    match leader {
        Some(leader) => leader.vote.leader_id != vote.leader_id,
        None => true,
    }
}

/// Whether the log's last id is of another leader, and the index after it is the greatest.
fn is_full<C: RaftTypeConfig>(state: &RaftState<C::NodeId, C::Node>, vote: &Vote<C::NodeId>) -> bool
    ensures { result ≡ is_full C.NodeId.cmp vote.now state.now.ids }
{
    match state.last_log_id() {
        Some(last) => last.leader_id != vote.leader_id && last.index == u64::MAX - 1,
        None => false,
    }
}

/// Whether a vote would be adopted, the node would lead anew by it, and its no-op entry would get the greatest index.
pub fn taken_blank_is_at_end<C: RaftTypeConfig>(
    config: &EngineConfig<C::NodeId>,
    state: &RaftState<C::NodeId, C::Node>,
    leader: &Option<Box<Leader<C, Joint<C::NodeId>>>>,
    vote: &Vote<C::NodeId>,
) -> bool
    ensures { result ≡ (not (rejects_vote C.NodeId.cmp state.now vote.now)
        && (leads_anew C.NodeId.cmp config.now vote.now state.now.em.membership (unboxed leader.now) && is_full C.NodeId.cmp vote.now state.now.ids)) }
{
    !rejects_vote(state, vote) && blank_is_at_end(config, state, leader, vote)
}

/// Whether the node would lead anew by a vote, and its no-op entry would get the greatest index.
pub fn blank_is_at_end<C: RaftTypeConfig>(
    config: &EngineConfig<C::NodeId>,
    state: &RaftState<C::NodeId, C::Node>,
    leader: &Option<Box<Leader<C, Joint<C::NodeId>>>>,
    vote: &Vote<C::NodeId>,
) -> bool
    ensures { result ≡ (leads_anew C.NodeId.cmp config.now vote.now state.now.em.membership (unboxed leader.now) && is_full C.NodeId.cmp vote.now state.now.ids) }
{
    leads_anew(config, &state.em.membership, leader, vote) && is_full::<C>(state, vote)
}

/// Whether the log has exactly this id.
pub fn is_found<NID: NodeId, N: Node>(state: &RaftState<NID, N>, id: &LogId<NID>) -> bool
    ensures { result ≡ is_found NID.cmp (at state.now.ids id.now.index) id.now }
{
    match state.get_log_id(id.index) {
        Some(held) => held == *id,
        None => false,
    }
}

/// Whether an id is at or below another, by order and by index.
pub fn is_within<NID: NodeId>(a: &Option<LogId<NID>>, b: &Option<LogId<NID>>) -> bool
    ensures { result ≡ is_within NID.cmp a.now b.now }
{
    let index = match a {
        Some(id) => reaches(b, id.index),
        None => true,
    };
    a <= b && index
}

/// Whether an id is strictly below another, by order and by index.
pub fn is_below<NID: NodeId>(a: &Option<LogId<NID>>, b: &Option<LogId<NID>>) -> bool
    ensures { result ≡ is_below NID.cmp a.now b.now }
{
    match (a, b) {
        (Some(before), Some(after)) => before < after && before.index < after.index,
        (None, Some(_)) => true,
        (_, None) => false,
    }
}
