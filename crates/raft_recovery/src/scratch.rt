//! Copies of a world, on which events are tried.

ghost use Rattle.std.specs.Prelude.{◌≡◌, ◌∷◌, [], IfOk, OnOk, drop, filter, length};
ghost use Rattle.raft_node.specs.Runs.{events_of};
ghost use Rattle.raft_world.specs.Worlds.{IsWorldOfRun, events_in, new_world};
ghost use Rattle.raft_recovery.specs.Recoveries.{happened, is_happened};
ghost use Rattle.raft_recovery.specs.Ways.{played};

use crate::error::Failure;
use raft_world::{AppliedEvent, Event, Outcome, World};
use std::alloc::Global;

/// The empty world over a world's nodes.
fn empty_world(alloc: Global, world: &World) -> Result<World, Failure>
    ensures empty { IfOk result (λ empty. empty ≡ new_world world.now.given) }
    ensures run { OnOk result (IsWorldOfRun world.now) }
{
    let given = world.given();
    let membership = given.membership.copy()?;
    Ok(World::new(alloc, given.ids.as_slice(), membership, given.settings)?)
}

/// Plays an event.
pub(crate) fn apply(world: &mut World, event: Event) -> Result<(), Failure>
    ensures { OnOk result (world.new ≡ played (event ∷ []) world.old) }
{
    world.apply(event)?;
    Ok(())
}

/// Plays a copy of an event.
fn play_copy(alloc: Global, world: &mut World, event: &Event) -> Result<(), Failure>
    ensures { OnOk result (world.new ≡ played (event.now ∷ []) world.old) }
{
    apply(world, event.copy(alloc)?)
}

/// Plays the events of a world's past.
fn play_past(alloc: Global, world: &mut World, past: &[AppliedEvent]) -> Result<(), Failure>
    ensures { OnOk result (world.new ≡ played (events_of past.now) world.old) }
{
    for applied in past {
        play_copy(alloc, world, &applied.event)?;
    }
    Ok(())
}

/// Whether an event that came to this wasn't skipped.
fn is_happened(outcome: &Outcome) -> bool
    ensures { result ≡ is_happened outcome.now }
{
    match outcome {
        Outcome::Skipped(_) => false,
        _ => true,
    }
}

/// Plays a copy of an event that wasn't skipped when it was played before.
fn play_happened(alloc: Global, world: &mut World, applied: &AppliedEvent) -> Result<(), Failure>
    ensures { OnOk result (world.new ≡ played (events_of (filter happened (applied.now ∷ []))) world.old) }
{
    if is_happened(&applied.outcome) {
        play_copy(alloc, world, &applied.event)
    } else {
        Ok(())
    }
}

/// Plays those events of a past that weren't skipped in it.
fn play_all_happened(alloc: Global, world: &mut World, past: &[AppliedEvent]) -> Result<(), Failure>
    ensures { OnOk result (world.new ≡ played (events_of (filter happened past.now)) world.old) }
{
    for applied in past {
        play_happened(alloc, world, applied)?;
    }
    Ok(())
}

/// A world's past, played anew, and behind it those events that came behind it in another world and weren't skipped there.
pub(crate) fn replay_happened(alloc: Global, old: &World, tried: &World) -> Result<World, Failure>
    ensures new { IfOk result (λ new. new
        ≡ played (events_of (filter happened (drop (length old.now.history.past) tried.now.history.past)))
        (played (events_in old.now) (new_world tried.now.given))) }
    ensures run { OnOk result (IsWorldOfRun tried.now) }
{
    let mut new = empty_world(alloc, tried)?;
    play_past(alloc, &mut new, old.events())?;
    let tail = tried.events().get(old.events().len()..).unwrap_or(&[]);
    play_all_happened(alloc, &mut new, tail)?;
    Ok(new)
}

/// A world's past, played anew.
pub(crate) fn replay(alloc: Global, world: &World) -> Result<World, Failure>
    ensures new { IfOk result (λ new. new ≡ played (events_in world.now) (new_world world.now.given)) }
    ensures run { OnOk result (IsWorldOfRun world.now) }
{
    let mut new = empty_world(alloc, world)?;
    play_past(alloc, &mut new, world.events())?;
    Ok(new)
}

/// Copies of the events of a past.
fn copy_all(alloc: Global, past: &[AppliedEvent]) -> Result<Vec<Event>, Failure>
    ensures { IfOk result (λ events. events.items ≡ events_of past.now) }
{
    let mut events = Vec::new(alloc);
    for applied in past {
        let event = applied.event.copy(alloc)?;
        events.push(event)?;
    }
    Ok(events)
}

/// Copies of a world's events from a place on.
pub(crate) fn copy_events(alloc: Global, world: &World, from: usize) -> Result<Vec<Event>, Failure>
    ensures { IfOk result (λ events. events.items ≡ events_of (drop from world.now.history.past)) }
{
    copy_all(alloc, world.events().get(from..).unwrap_or(&[]))
}
