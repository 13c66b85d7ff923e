//! What nodes need to go on.

ghost use Rattle.std.specs.Prelude.{ℕ, ◌≡◌, IfErr, IfOk, IfSome, OnOk, Some, false, is_some, map, nat_lt, true};
ghost use Rattle.raft_state.specs.Order.{next};
ghost use Rattle.raft_node.specs.Net.{NodeView};
ghost use Rattle.raft_world.specs.Worlds.{IsWorldOfRun};
ghost use Rattle.proof_progress.specs.Elections.{Listed};
ghost use Rattle.proof_progress.specs.Proposals.{EachOnce};
ghost use Rattle.raft_recovery.specs.Choosing.{can_be_elected, found_at, followers, follows, is_elected, is_not_ahead};
ghost use Rattle.raft_recovery.specs.Recoveries.{CanRecover, IsElectable, IsLimit, IsReason, LackLogs, LacksLog, LacksSnapshot};

use crate::error::{Failure, RecoveryError};
use crate::starting::{Found, found_in};
use raft_progress::{Joint, QuorumSet};
use raft_state::LogId;
use raft_world::World;
use std::alloc::Global;

/// An id that stands twice.
fn repeated(up: &[u64]) -> Option<u64>
    ensures { IfSome result (λ _. EachOnce up.now → ⊥) }
{
    match up {
        [] => None,
        [id, rest @ ..] => {
            if rest.contains(id) {
                Some(*id)
            } else {
                repeated(rest)
            }
        }
    }
}

/// An id that is no node's.
fn stranger(world: &World, up: &[u64]) -> Option<u64>
    ensures { IfSome result (λ n. Listed up.now n × (Listed (map (λ (N : NodeView). N.id) world.now.history.net.nodes) n → ⊥)) }
{
    for id in up {
        let Some(_) = world.node(*id) else {
            return Some(*id);
        };
    }
    None
}

/// What a node finds as it makes a bare start.
pub(crate) fn found_at(world: &World, id: u64) -> Result<Option<Found>, Failure>
    ensures { IfOk result (λ found. found ≡ found_at world.now.history.net.nodes id) }
{
    match world.node(id) {
        None => Ok(None),
        Some(node) => Ok(Some(found_in(node.store())?)),
    }
}

/// Whether a node has a log.
fn has_log(world: &World, id: u64) -> Result<bool, Failure>
    ensures { IfOk result (λ has. has ≡ false → LacksLog world.now.given world.now.history.net id) }
{
    match found_at(world, id)? {
        None => Ok(false),
        Some(found) => Ok(found.last.is_some()),
    }
}

/// Whether one of these nodes has a log.
fn have_log(world: &World, up: &[u64]) -> Result<bool, Failure>
    ensures { IfOk result (λ some. some ≡ false → LackLogs world.now.given world.now.history.net up.now) }
{
    for id in up {
        let has = has_log(world, *id)?;
        if has {
            return Ok(true);
        }
    }
    Ok(false)
}

/// Whether there is a log, and it isn't ahead of one that ends with this id.
fn is_not_ahead(end: &Option<LogId<u64>>, found: Option<Found>) -> bool
    ensures { result ≡ is_not_ahead end.now found }
{
    match found {
        None => false,
        Some(found) => !(*end < found.last),
    }
}

/// Whether a node is a voter of a membership, and its log isn't ahead of the one found with it.
fn follows(world: &World, found: &Found, id: u64) -> Result<bool, Failure>
    ensures { IfOk result (λ is. is ≡ follows world.now.history.net.nodes found.now id) }
{
    if !found.membership.is_voter(&id) {
        return Ok(false);
    }
    let other = found_at(world, id)?;
    Ok(is_not_ahead(&found.last, other))
}

/// Those of these nodes.
fn followers(alloc: Global, world: &World, up: &[u64], found: &Found) -> Result<Vec<u64>, Failure>
    ensures { IfOk result (λ ids. ids.items ≡ followers world.now.history.net.nodes up.now found.now) }
{
    let mut ids = Vec::new(alloc);
    for id in up {
        let is_follower = follows(world, found, *id)?;
        if is_follower {
            ids.push(*id)?;
        }
    }
    Ok(ids)
}

/// Whether these nodes elect one that finds this.
fn is_elected(
    alloc: Global,
    world: &World,
    up: &[u64],
    id: u64,
    found: &Found,
) -> Result<bool, Failure>
    ensures { IfOk result (λ is. is ≡ is_elected world.now.history.net.nodes up.now id found.now) }
{
    if !found.membership.is_voter(&id) {
        return Ok(false);
    }
    let ids = followers(alloc, world, up, found)?;
    let groups = Joint::of_membership(alloc, &found.membership)?;
    Ok(groups.is_quorum(&ids))
}

/// What a node finds as it makes a bare start, if these nodes can elect it.
pub(crate) fn candidate_at(
    alloc: Global,
    world: &World,
    up: &[u64],
    id: u64,
) -> Result<Option<Found>, Failure>
    ensures found { IfOk result (λ found. IfSome found (λ f. found_at world.now.history.net.nodes id ≡ Some f)) }
    ensures exact { IfOk result (λ found. is_some found ≡ can_be_elected world.now.history.net.nodes up.now id) }
{
    let Some(found) = found_at(world, id)? else {
        return Ok(None);
    };
    let is_elected = is_elected(alloc, world, up, id, &found)?;
    if is_elected {
        Ok(Some(found))
    } else {
        Ok(None)
    }
}

/// Whether these nodes can elect one of them.
fn can_elect(alloc: Global, world: &World, up: &[u64]) -> Result<bool, Failure>
    ensures { IfOk result (λ can. can ≡ false → (n : ℕ) → IsElectable world.now.given world.now.history.net up.now n → ⊥) }
{
    for id in up {
        let candidate = candidate_at(alloc, world, up, *id)?;
        if candidate.is_some() {
            return Ok(true);
        }
    }
    Ok(false)
}

/// The premise that lacks, if one does.
pub(crate) fn check_premises(alloc: Global, world: &World, up: &[u64]) -> Result<(), RecoveryError>
    ensures reason { IfErr result (λ e. IsReason world.now up.now e) }
    ensures found { IfErr result (λ e. CanRecover world.now up.now → IsLimit e) }
    ensures run { OnOk result (IsWorldOfRun world.now) }
{
    if let Some(id) = repeated(up) {
        return Err(RecoveryError::Repeated(id));
    }
    if let Some(id) = stranger(world, up) {
        return Err(RecoveryError::NoNode(id));
    }
    if world.given().settings.max_payload_entries == 0 {
        return Err(RecoveryError::NoPayload);
    }
    let have_log = have_log(world, up)?;
    if !have_log {
        return Err(RecoveryError::NoLog);
    }
    let can_elect = can_elect(alloc, world, up)?;
    if can_elect {
        Ok(())
    } else {
        Err(RecoveryError::NoMajority)
    }
}

/// Whether what was purged of this log isn't in a node's own snapshot.
fn lacks(world: &World, found: &Found, id: u64) -> Result<bool, Failure>
    ensures { IfOk result (λ lacks. lacks ≡ true → (n : ℕ) → found_at world.now.history.net.nodes n ≡ Some found.now
        → LacksSnapshot world.now.given world.now.history.net n id) }
{
    match found_at(world, id)? {
        None => Ok(false),
        Some(behind) => Ok(is_above(&found.purged, &behind.committed)),
    }
}

/// Whether what was purged of one node's log isn't in another's own snapshot.
fn lacks_snapshot(world: &World, one: u64, other: u64) -> Result<bool, Failure>
    ensures { IfOk result (λ lacks. lacks ≡ true → LacksSnapshot world.now.given world.now.history.net one other) }
{
    match found_at(world, one)? {
        None => Ok(false),
        Some(found) => lacks(world, &found, other),
    }
}

/// Whether an id stands at a greater index than another.
fn is_above(one: &Option<LogId<u64>>, other: &Option<LogId<u64>>) -> bool
    ensures { result ≡ nat_lt (next other.now) (next one.now) }
{
    match (one, other) {
        (Some(one), Some(other)) => other.index < one.index,
        (Some(_), None) => true,
        (None, _) => false,
    }
}

/// A node that lacks this one's snapshot.
fn lacking(world: &World, up: &[u64], one: u64) -> Result<Option<u64>, Failure>
    ensures { IfOk result (λ found. IfSome found (λ other. Listed up.now other × LacksSnapshot world.now.given world.now.history.net one other)) }
{
    for other in up {
        let lacks = lacks_snapshot(world, one, *other)?;
        if lacks {
            return Ok(Some(*other));
        }
    }
    Ok(None)
}

/// Why the search came to no end: a node may need a snapshot.
pub(crate) fn explain(world: &World, up: &[u64]) -> Result<RecoveryError, Failure>
    ensures { IfOk result (λ e. IsReason world.now up.now e) }
{
    for one in up {
        if let Some(other) = lacking(world, up, *one)? {
            return Ok(RecoveryError::NeedsSnapshot(*one, other));
        }
    }
    Ok(RecoveryError::Stuck)
}
