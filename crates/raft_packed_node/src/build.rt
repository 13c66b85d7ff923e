//! The end of a snapshot's build at an engine.

ghost use Rattle.std.specs.Prelude.{◌≡◌, IfOk, true};
ghost use Rattle.std.specs.Ordering.{nat_cmp};
ghost use Rattle.raft_state.specs.Fits.{fits};
ghost use Rattle.raft_calls.specs.Engines.{view_of};
ghost use Rattle.raft_calls.specs.Held.{IsResting};
ghost use Rattle.raft_calls.specs.Refusal.{refusal_of};
ghost use Rattle.proof_packed.specs.Nodes.{packed_told_built};
ghost use Rattle.raft_packed.specs.Kept.{no_state};
ghost use Rattle.raft_packed_node.specs.Held.{PackedNoteFits};

use raft_calls::raft_engine::Engine;
use raft_error::EngineError;
use raft_handler_common::refusals::{is_below, is_found, is_within};
use raft_packed::Summary;
use raft_state::{LogId, RaftState};
use raft_store::WorldConfig;
use std::alloc::{AllocError, Global};

/// Whether the log holds an id, or has purged one above it; true without an id.
fn fits(state: &RaftState<u64, ()>, id: &Option<LogId<u64>>) -> bool
    ensures { result ≡ fits nat_cmp state.now.ids state.now.purged id.now }
{
    match id {
        Some(id) => is_found(state, id) || is_below(&Some(*id), &state.purged),
        None => true,
    }
}

/// Whether what is noted for a snapshot ends with a committed id of the engine's log.
pub(crate) fn note_fits(noted: &Summary, engine: &Engine<WorldConfig>) -> bool
    ensures fits { result ≡ true → PackedNoteFits (view_of engine.now) noted.now }
    ensures all { PackedNoteFits (view_of engine.now) noted.now → result ≡ true }
{
    let last = noted.last_id();
    fits(&engine.state, &last) && is_within(&last, &engine.state.committed)
}

/// The number of the refusal, if any, of a call that ended so.
fn refusal_of<T: Drop>(ended: Result<T, EngineError<u64, ()>>) -> Result<Option<u8>, AllocError>
    ensures { result ≡ refusal_of ended }
{
    match ended {
        Ok(_) => Ok(None),
        Err(EngineError::OutOfMemory) => Err(AllocError),
        Err(refusal) => Ok(Some(refusal.number())),
    }
}

/// Tells the engine of a snapshot that was built. Returns the number of the refusal, if any.
pub(crate) fn tell_built(
    alloc: Global,
    built: &Summary,
    engine: &mut Engine<WorldConfig>,
) -> Result<Option<u8>, AllocError>
    requires resting { IsResting (view_of engine.old) }
    requires noted { PackedNoteFits (view_of engine.old) built.now }
    ensures { IfOk result (λ refusal. record { 0 = refusal; 1 = view_of engine.new }
        ≡ packed_told_built no_state built.now (view_of engine.old)) }
{
    refusal_of(engine.finish_building_snapshot(built.meta(alloc)?))
}
