//! A way on from a world.

ghost use Rattle.std.specs.Prelude.{ℕ, ◌≡◌, IfErr, IfOk, IfSome, List, None, OnOk, Some, drop, false, length};
ghost use Rattle.raft_state.specs.declared.ids.LogId.{LogId};
ghost use Rattle.raft_store.specs.declared.entry.Value.{Value};
ghost use Rattle.raft_schedule.specs.declared.event.Event.{Event};
ghost use Rattle.raft_node.specs.Runs.{events_of};
ghost use Rattle.raft_world.specs.Worlds.{IsWorldOfRun, run_in};
ghost use Rattle.proof_progress.specs.Continuations.{goes_on};
ghost use Rattle.proof_progress.specs.Elections.{Listed};
ghost use Rattle.raft_recovery.specs.Choosing.{found_at};
ghost use Rattle.raft_recovery.specs.Recoveries.{CanRecover, GoesBy, GoesOn, GoesOnBy, IsLimit, IsReason, Recovers, RecoversBehind};
ghost use Rattle.raft_recovery.specs.Ways.{RecoversBy, last_id_at, way_of};

use crate::error::{Failure, RecoveryError};
use crate::judge::have_recovered;
use crate::premises::{candidate_at, check_premises, explain, found_at};
use crate::scratch::{copy_events, replay, replay_happened};
use crate::search::{go_on, last_id};
use crate::starting::Found;
use raft_state::{Items, LogId};
use raft_store::Value;
use raft_world::{Event, World};
use std::alloc::Global;

/// A way on: the events, and the id of the new entry. Its leader is the node that was elected.
#[derive(PartialEq, Eq, Debug, Drop)]
pub struct Recovery {
    pub log_id: LogId<u64>,
    pub events: Items<Event>,
}

/// The world after the way on of a candidate that finds this.
fn world_after(
    alloc: Global,
    world: &World,
    up: &[u64],
    id: u64,
    found: &Found,
    value: &Value,
) -> Result<World, Failure>
    ensures goes { IfOk result (λ new. GoesBy world.now
        (way_of world.now.given (run_in world.now).net up.now value.now id found.now) new) }
    ensures net { IfOk result (λ new. new.history.net ≡ goes_on world.now.given
        (way_of world.now.given (run_in world.now).net up.now value.now id found.now) (run_in world.now).net) }
    ensures run { OnOk result (IsWorldOfRun world.now) }
{
    let mut new = replay(alloc, world)?;
    go_on(alloc, &mut new, up, id, found, value)?;
    Ok(new)
}

/// What was played behind a world, if nodes have recovered by it. A node's last id is that of the new entry.
fn judged(
    alloc: Global,
    old: &World,
    new: &World,
    up: &[u64],
    id: u64,
    value: &Value,
) -> Result<Option<Recovery>, Failure>
    ensures ok { IfOk result (λ found. IfSome found (λ recovery.
        (recovery.events ≡ events_of (drop (length old.now.history.past) new.now.history.past))
        × Recovers old.now.given old.now.history.net new.now.history.net up.now recovery.log_id value.now (length recovery.events))) }
    ensures none { IfOk result (λ found. found ≡ None → (log_id : LogId ℕ) → last_id_at new.now.history.net id ≡ Some log_id
        → Recovers old.now.given old.now.history.net new.now.history.net up.now log_id value.now
        (length (events_of (drop (length old.now.history.past) new.now.history.past))) → ⊥) }
{
    let Some(log_id) = last_id(new, id) else {
        return Ok(None);
    };
    let events = copy_events(alloc, new, old.events().len())?;
    let events = Items::from_vec(events);
    let count = events.as_slice().len();
    let have = have_recovered(alloc, old, new, up, &log_id, value, count)?;
    if have {
        Ok(Some(Recovery { log_id, events }))
    } else {
        Ok(None)
    }
}

/// What was played behind a world, once a node goes on again from there, if nodes have recovered by then: a quorum alone may
/// have to hear of a vote above its own first.
fn go_on_again(
    alloc: Global,
    old: &World,
    new: &mut World,
    up: &[u64],
    id: u64,
    value: &Value,
) -> Result<Option<Recovery>, Failure>
    requires { GoesOn old.now new.old }
    ensures { IfOk result (λ found. IfSome found (λ recovery. RecoversBehind old.now up.now value.now recovery new.new)) }
{
    let Some(found) = found_at(new, id)? else {
        return Ok(None);
    };
    go_on(alloc, new, up, id, &found, value)?;
    judged(alloc, old, new, up, id, value)
}

/// The way on of a candidate that finds this and the world after it, if nodes recover by it, or by going on once more.
fn try_candidate(
    alloc: Global,
    world: &World,
    up: &[u64],
    id: u64,
    found: &Found,
    value: &Value,
) -> Result<Option<(Recovery, World)>, Failure>
    requires { found_at world.now.history.net.nodes id ≡ Some found.now }
    ensures ok { IfOk result (λ tried. IfSome tried (λ found. RecoversBehind world.now up.now value.now found.0 found.1)) }
    ensures none { IfOk result (λ tried. tried ≡ None
        → world.now.spent ≡ false → RecoversBy world.now.given world.now.history.net up.now value.now id → ⊥) }
{
    let mut new = world_after(alloc, world, up, id, found, value)?;
    if let Some(recovery) = judged(alloc, world, &new, up, id, value)? {
        return Ok(Some((recovery, new)));
    }
    match go_on_again(alloc, world, &mut new, up, id, value)? {
        None => Ok(None),
        Some(recovery) => Ok(Some((recovery, new))),
    }
}

/// As `try_candidate`, of a node, if it can be elected.
fn try_node(
    alloc: Global,
    world: &World,
    up: &[u64],
    id: u64,
    value: &Value,
) -> Result<Option<(Recovery, World)>, Failure>
    ensures ok { IfOk result (λ tried. IfSome tried (λ found. RecoversBehind world.now up.now value.now found.0 found.1)) }
    ensures none { IfOk result (λ tried. tried ≡ None
        → world.now.spent ≡ false → RecoversBy world.now.given world.now.history.net up.now value.now id → ⊥) }
{
    match candidate_at(alloc, world, up, id)? {
        None => Ok(None),
        Some(found) => try_candidate(alloc, world, up, id, &found, value),
    }
}

/// A way on and the world after it, if nodes recover by that of one of them.
fn find(
    alloc: Global,
    world: &World,
    up: &[u64],
    value: &Value,
) -> Result<Option<(Recovery, World)>, Failure>
    ensures ok { IfOk result (λ tried. IfSome tried (λ found. RecoversBehind world.now up.now value.now found.0 found.1)) }
    ensures none { IfOk result (λ tried. tried ≡ None → world.now.spent ≡ false
        → (n : ℕ) → Listed up.now n → RecoversBy world.now.given world.now.history.net up.now value.now n → ⊥) }
{
    for id in up {
        if let Some(found) = try_node(alloc, world, up, *id, value)? {
            return Ok(Some(found));
        }
    }
    Ok(None)
}

/// A way on that was tried, without the events that were skipped: these have changed nothing.
fn without_skipped(
    alloc: Global,
    old: &World,
    tried: &World,
    log_id: LogId<u64>,
) -> Result<(Recovery, World), Failure>
    ensures { IfOk result (λ kept. (up : List ℕ) (value : Value) (es : List Event) → GoesBy old.now es tried.now
        → Recovers old.now.given old.now.history.net tried.now.history.net up log_id value (length es)
        → GoesOnBy old.now up value kept.0 kept.1) }
{
    let new = replay_happened(alloc, old, tried)?;
    let events = copy_events(alloc, &new, old.events().len())?;
    let events = Items::from_vec(events);
    Ok((Recovery { log_id, events }, new))
}

/// A way on without events that are skipped, and the world after it, if nodes recover by that of one of them.
fn find_happened(
    alloc: Global,
    world: &World,
    up: &[u64],
    value: &Value,
) -> Result<Option<(Recovery, World)>, Failure>
    ensures ok { IfOk result (λ found. IfSome found (λ kept. GoesOnBy world.now up.now value.now kept.0 kept.1)) }
    ensures none { IfOk result (λ found. found ≡ None → world.now.spent ≡ false
        → (n : ℕ) → Listed up.now n → RecoversBy world.now.given world.now.history.net up.now value.now n → ⊥) }
{
    match find(alloc, world, up, value)? {
        None => Ok(None),
        Some((tried, new)) => Ok(Some(without_skipped(alloc, world, &new, tried.log_id)?)),
    }
}

/// Why nothing was found.
fn reason(world: &World, up: &[u64]) -> RecoveryError
    ensures { IsReason world.now up.now result }
{
    match explain(world, up) {
        Ok(error) => error,
        Err(failure) => RecoveryError::Failed(failure),
    }
}

/// A way on from a world, whatever its votes, leases, messages and stopped nodes: these nodes make bare starts, as servers
/// do; one of them is elected by timeouts and deliveries, and commits the value in a new entry. Then it, and each other member
/// of its membership among these nodes, has executed the value. The events are played: the world goes on by them. None is skipped.
///
/// Refused, in this order, and the world is as it was:
/// - `Repeated` if an id stands twice, `NoNode` if it is no node's,
/// - `NoPayload` if no request may carry an entry,
/// - `NoLog` if none of the nodes has a log,
/// - `NoMajority` if none of them can be elected by them,
/// - `NeedsSnapshot` if nothing was found, and a node needs another's snapshot,
/// - `Stuck` if nothing was found,
/// - `Failed` if the world's limits are near, or out of memory.
///
/// Nothing but `Failed` is answered where the nodes with the greatest log can go on, as `can_commit` of `proof_progress` proves
/// them to, if a quorum alone has no other member among these nodes, and the world was never out of memory.
///
/// Source: Raft paper, sections 5.2 to 5.4.
pub fn recover(
    alloc: Global,
    world: &mut World,
    up: &[u64],
    value: &Value,
) -> Result<Recovery, RecoveryError>
    ensures ok { IfOk result (λ recovery. GoesOnBy world.old up.now value.now recovery world.new) }
    ensures same { IfErr result (λ _. world.new ≡ world.old) }
    ensures reason { IfErr result (λ error. IsReason world.old up.now error) }
    ensures found { IfErr result (λ error. CanRecover world.old up.now → IsLimit error) }
{
    check_premises(alloc, world, up)?;
    match find_happened(alloc, world, up, value)? {
        Some((recovery, new)) => {
            *world = new;
            Ok(recovery)
        }
        None => Err(reason(world, up)),
    }
}
