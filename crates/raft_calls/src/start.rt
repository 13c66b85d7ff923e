//! How a node's engine starts.

ghost use Rattle.std.specs.Prelude.{◌≡◌, IfOk, None};
ghost use Rattle.std.specs.Ordering.{nat_cmp};
ghost use Rattle.raft_state.specs.Invariants.{IsSoundState};
ghost use Rattle.raft_steps.specs.Invariants.{IsSound};
ghost use Rattle.raft_steps.specs.Parts.{idle};
ghost use Rattle.raft_calls.specs.Engines.{view_of};
ghost use Rattle.raft_calls.specs.Held.{IsResting};
ghost use Rattle.raft_calls.specs.Starts.{new_engine, begun_anew, resumed, starts_by};

use crate::elections::elect;
use crate::refusal::refusal_of;
use raft_command::EngineConfig;
use raft_engine::Engine;
use raft_schedule::event::Start;
use raft_state::RaftState;
use raft_store::WorldConfig;
use std::alloc::{AllocError, Global};

/// An engine with this state, and with the settings under this id.
pub fn start_engine(
    alloc: Global,
    settings: &EngineConfig<u64>,
    id: u64,
    state: RaftState<u64, ()>,
) -> Result<Engine<WorldConfig>, AllocError>
    requires { IsSoundState nat_cmp state }
    ensures engine { IfOk result (λ engine. view_of engine ≡ record (new_engine settings.now id) { machine = idle state }) }
    ensures sound { IfOk result (λ engine. IsSound nat_cmp engine.config (view_of engine).machine) }
{
    let config = EngineConfig { id, ..*settings };
    match Engine::new(alloc, state, config) {
        Ok(engine) => Ok(engine),
        Err(_) => Err(AllocError),
    }
}

/// Resumes what the engine's state says, and returns the number of the refusal, if any: it leads at once if its vote
/// says so, or else follows. A refused engine has nothing queued.
///
/// Source: openraft's `Engine::startup`.
fn resume(moment: u64, engine: &mut Engine<WorldConfig>) -> Result<Option<u8>, AllocError>
    requires { IsSound nat_cmp engine.old.config (view_of engine.old).machine }
    ensures { IfOk result (λ refusal. record { 0 = refusal; 1 = view_of engine.new } ≡ resumed (view_of engine.old)) }
{
    refusal_of(engine.startup(moment))
}

/// As [`resume`], but a node that led, by its vote, doesn't lead on: it starts an election if it is a voter, and else
/// waits.
fn begin_anew(moment: u64, engine: &mut Engine<WorldConfig>) -> Result<Option<u8>, AllocError>
    requires resting { IsResting (view_of engine.old) }
    requires no_leader { engine.old.leader ≡ None }
    ensures { IfOk result (λ refusal. record { 0 = refusal; 1 = view_of engine.new } ≡ begun_anew moment (view_of engine.old)) }
{
    if !engine.state.is_leader(&engine.config.id) {
        resume(moment, engine)
    } else if engine.state.em.membership.is_voter(&engine.config.id) {
        elect(moment, engine)
    } else {
        Ok(None)
    }
}

/// An engine that starts with this state, and the number of the refusal, if any.
pub fn started_engine(
    alloc: Global,
    settings: &EngineConfig<u64>,
    id: u64,
    start: Start,
    state: RaftState<u64, ()>,
    moment: u64,
) -> Result<(Engine<WorldConfig>, Option<u8>), AllocError>
    requires { IsSoundState nat_cmp state }
    ensures { IfOk result (λ r. record { 0 = r.1; 1 = view_of r.0 }
        ≡ starts_by start moment (record (new_engine settings.now id) { machine = idle state })) }
{
    let mut engine = start_engine(alloc, settings, id, state)?;
    let refusal = match start {
        Start::Plain | Start::Saved => resume(moment, &mut engine)?,
        Start::Bare => begin_anew(moment, &mut engine)?,
    };
    Ok((engine, refusal))
}
