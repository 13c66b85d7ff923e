//! Who is to lead, and with whom.

ghost use Rattle.std.specs.Prelude.{◌≡◌, ◌++◌, ◌&&◌, IfOk, nat_eq, not};
ghost use Rattle.proof_progress.specs.GoesOn.{greatest_term, last_moment};
ghost use Rattle.proof_progress.specs.GoneByPlan.{is_learner_in, is_voter_in, other_learners, other_voters};

use crate::error::Failure;
use crate::judge::{greatest_term, is_voter};
use raft_state::Membership;
use raft_world::{Node, World};
use std::alloc::Global;

/// A node that is to lead, with a term above all, and other nodes: the voters that it asks, and then others.
#[derive(Drop)]
pub(crate) struct Plan {
    /// The last moment of all nodes' events.
    pub moment: u64,
    /// The greatest stored term.
    pub term: u64,
    pub id: u64,
    pub voters: Vec<u64>,
    /// The voters, and those that are brought and told alone.
    pub others: Vec<u64>,
}

/// The last moment of all nodes' events.
fn last_moment(nodes: &[Node]) -> u64
    ensures { result ≡ last_moment nodes.now }
{
    match nodes {
        [] => 0,
        [node, rest @ ..] => node.moment().max(last_moment(rest)),
    }
}

/// Whether a node is a voter of a membership.
fn is_voter_in(membership: &Membership<u64, ()>, id: u64) -> bool
    ensures { result ≡ is_voter_in membership.now id }
{
    is_voter(membership, id)
}

/// Whether a node is a member of a membership, and no voter.
fn is_learner_in(membership: &Membership<u64, ()>, id: u64) -> bool
    ensures { result ≡ is_learner_in membership.now id }
{
    !is_voter_in(membership, id) && membership.contains(&id)
}

/// Whether a node is another one, and a voter of a membership.
fn is_other_voter(membership: &Membership<u64, ()>, id: u64, other: u64) -> bool
    ensures { result ≡ (is_voter_in membership.now other && not (nat_eq other id)) }
{
    is_voter_in(membership, other) && other != id
}

/// Whether a node is another one, and a member of a membership, and no voter.
fn is_other_learner(membership: &Membership<u64, ()>, id: u64, other: u64) -> bool
    ensures { result ≡ (is_learner_in membership.now other && not (nat_eq other id)) }
{
    is_learner_in(membership, other) && other != id
}

/// Of these nodes the voters of a membership but for one.
fn other_voters(
    alloc: Global,
    membership: &Membership<u64, ()>,
    up: &[u64],
    id: u64,
) -> Result<Vec<u64>, Failure>
    ensures { IfOk result (λ ids. ids.items ≡ other_voters membership.now up.now id) }
{
    let mut ids = Vec::new(alloc);
    for other in up {
        if is_other_voter(membership, id, *other) {
            ids.push(*other)?;
        }
    }
    Ok(ids)
}

/// Of these nodes the members that are no voters, but for one.
fn other_learners(
    alloc: Global,
    membership: &Membership<u64, ()>,
    up: &[u64],
    id: u64,
) -> Result<Vec<u64>, Failure>
    ensures { IfOk result (λ ids. ids.items ≡ other_learners membership.now up.now id) }
{
    let mut ids = Vec::new(alloc);
    for other in up {
        if is_other_learner(membership, id, *other) {
            ids.push(*other)?;
        }
    }
    Ok(ids)
}

/// The voters, and then the others.
fn others_of(
    alloc: Global,
    membership: &Membership<u64, ()>,
    up: &[u64],
    id: u64,
) -> Result<Vec<u64>, Failure>
    ensures { IfOk result (λ ids. ids.items ≡ other_voters membership.now up.now id ++ other_learners membership.now up.now id) }
{
    let mut ids = other_voters(alloc, membership, up, id)?;
    let learners = other_learners(alloc, membership, up, id)?;
    ids.extend_from_slice(&learners)?;
    Ok(ids)
}

/// The plan of a candidate that finds this membership, and these nodes.
pub(crate) fn plan_of(
    alloc: Global,
    world: &World,
    up: &[u64],
    id: u64,
    membership: &Membership<u64, ()>,
) -> Result<Plan, Failure>
    ensures moment { IfOk result (λ plan. plan.moment ≡ last_moment world.now.history.net.nodes) }
    ensures term { IfOk result (λ plan. plan.term ≡ greatest_term world.now.history.net.nodes) }
    ensures id { IfOk result (λ plan. plan.id ≡ id) }
    ensures voters { IfOk result (λ plan. plan.voters.items ≡ other_voters membership.now up.now id) }
    ensures others { IfOk result (λ plan. plan.others.items
        ≡ other_voters membership.now up.now id ++ other_learners membership.now up.now id) }
{
    let voters = other_voters(alloc, membership, up, id)?;
    let others = others_of(alloc, membership, up, id)?;
    Ok(Plan {
        moment: last_moment(world.nodes()),
        term: greatest_term(world.nodes()),
        id,
        voters,
        others,
    })
}
