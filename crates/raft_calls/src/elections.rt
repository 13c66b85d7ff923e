//! The first entry, and elections.

ghost use Rattle.std.specs.Prelude.{◌≡◌, IfOk, None};
ghost use Rattle.raft_calls.specs.Elections.{elected, first_entry, initialized, skip_candidate, skip_elect, skip_initialize};
ghost use Rattle.raft_calls.specs.Engines.{view_of};
ghost use Rattle.raft_calls.specs.Held.{IsResting};

use crate::membership::membership_entry;
use crate::refusal::refusal_of;
use raft_engine::Engine;
use raft_schedule::event::SkipReason;
use raft_state::Membership;
use raft_store::{Entry, WorldConfig};
use std::alloc::{AllocError, Global};

/// Who may stand for election.
#[derive(Clone, Copy, PartialEq, Eq, Debug)]
pub enum Candidates {
    /// The voters of the node's effective membership.
    Voters,
    /// Its members: learners may stand, too (Ongaro's thesis, section 4.2.2).
    AllMembers,
}

/// Skips the first entry of a node that leads.
pub fn skip_initialize(engine: &Engine<WorldConfig>) -> Option<SkipReason>
    ensures { result ≡ skip_initialize (view_of engine.now) }
{
    if engine.leader.is_some() {
        Some(SkipReason::HasLeader)
    } else {
        None
    }
}

/// Skips an election unless the node is one of the candidates in its effective membership.
fn skip_candidate(candidates: Candidates, engine: &Engine<WorldConfig>) -> Option<SkipReason>
    ensures { result ≡ skip_candidate candidates (view_of engine.now) }
{
    let membership = &engine.state.em.membership;
    let id = &engine.config.id;
    match candidates {
        Candidates::Voters => {
            if membership.is_voter(id) {
                None
            } else {
                Some(SkipReason::NotVoter)
            }
        }
        Candidates::AllMembers => {
            if membership.contains(id) {
                None
            } else {
                Some(SkipReason::NotMember)
            }
        }
    }
}

/// Skips an election of a node that leads, or that isn't one of the candidates in its effective membership.
pub fn skip_elect(candidates: Candidates, engine: &Engine<WorldConfig>) -> Option<SkipReason>
    ensures { result ≡ skip_elect candidates (view_of engine.now) }
{
    if engine.leader.is_some() {
        Some(SkipReason::HasLeader)
    } else {
        skip_candidate(candidates, engine)
    }
}

/// The first entry of every log.
fn first_entry(alloc: Global, first: &Membership<u64, ()>) -> Result<Entry, AllocError>
    ensures { IfOk result (λ entry. entry ≡ first_entry first.now) }
{
    Ok(membership_entry(first.copy()?))
}

/// Gives the node the first entry. Returns the number of the refusal, if any.
pub fn initialize(
    alloc: Global,
    first: &Membership<u64, ()>,
    moment: u64,
    engine: &mut Engine<WorldConfig>,
) -> Result<Option<u8>, AllocError>
    requires resting { IsResting (view_of engine.old) }
    requires no_leader { engine.old.leader ≡ None }
    ensures { IfOk result (λ refusal. record { 0 = refusal; 1 = view_of engine.new } ≡ initialized first.now moment (view_of engine.old)) }
{
    let entry = first_entry(alloc, first)?;
    refusal_of(engine.initialize(entry, moment))
}

/// Starts an election. Returns the number of the refusal, if any.
pub fn elect(moment: u64, engine: &mut Engine<WorldConfig>) -> Result<Option<u8>, AllocError>
    requires resting { IsResting (view_of engine.old) }
    requires no_leader { engine.old.leader ≡ None }
    ensures { IfOk result (λ refusal. record { 0 = refusal; 1 = view_of engine.new } ≡ elected moment (view_of engine.old)) }
{
    refusal_of(engine.elect(moment))
}
