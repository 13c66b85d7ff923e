//! The events of snapshots and purges.

ghost use Rattle.std.specs.Prelude.{◌≡◌, IfOk, List};
ghost use Rattle.raft_calls.specs.Engines.{view_of};
ghost use Rattle.raft_calls.specs.Held.{IsResting, NoteFits};
ghost use Rattle.raft_calls.specs.Snapshots.{purge_triggered, snapshot_triggered, told_built};

use crate::refusal::refusal_of;
use raft_engine::Engine;
use raft_store::{Entry, WorldConfig, meta_of};
use std::alloc::{AllocError, Global};

/// Tells the node to build a snapshot; nothing happens while one is built. Returns the number of the refusal, if any.
pub fn trigger_snapshot(engine: &mut Engine<WorldConfig>) -> Result<Option<u8>, AllocError>
    requires { IsResting (view_of engine.old) }
    ensures { IfOk result (λ refusal. record { 0 = refusal; 1 = view_of engine.new } ≡ snapshot_triggered (view_of engine.old)) }
{
    refusal_of(engine.trigger_snapshot())
}

/// Purges the log up to an index, at most the snapshot's last one. Returns the number of the refusal, if any.
pub fn trigger_purge(index: u64, engine: &mut Engine<WorldConfig>) -> Result<Option<u8>, AllocError>
    requires { IsResting (view_of engine.old) }
    ensures { IfOk result (λ refusal. record { 0 = refusal; 1 = view_of engine.new } ≡ purge_triggered index (view_of engine.old)) }
{
    refusal_of(engine.trigger_purge_log(index))
}

/// Tells the engine of a snapshot that was built of these entries. Returns the number of the refusal, if any.
pub fn tell_built(
    alloc: Global,
    entries: &[Entry],
    engine: &mut Engine<WorldConfig>,
) -> Result<Option<u8>, AllocError>
    requires resting { IsResting (view_of engine.old) }
    requires noted { NoteFits (view_of engine.old) entries.now }
    ensures { IfOk result (λ refusal. record { 0 = refusal; 1 = view_of engine.new } ≡ told_built entries.now (view_of engine.old)) }
{
    refusal_of(engine.finish_building_snapshot(meta_of(alloc, entries)?))
}
