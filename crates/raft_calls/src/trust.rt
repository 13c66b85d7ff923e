//! Whether a node's note and its store are as a node of a world has them: what a server tests before a call that asks for
//! it.

ghost use Rattle.std.specs.Prelude.{◌≡◌, true, None};
ghost use Rattle.std.specs.Ordering.{nat_cmp};
ghost use Rattle.raft_state.specs.Fits.{fits};
ghost use Rattle.raft_state.specs.Invariants.{IsSoundState};
ghost use Rattle.raft_calls.specs.Engines.{view_of};
ghost use Rattle.raft_calls.specs.Held.{NoteFits};
ghost use Rattle.raft_calls.specs.Trust.{continues, has_order, in_order, rise};

use crate::feed::last_sent;
use raft_engine::Engine;
use raft_engine::raft_handler_common::refusals::{is_below, is_found, is_within};
use raft_state::{LeaderId, LogId, LogIds, RaftState};
use raft_store::{Entry, WorldConfig};

/// Whether an id may stand at this index of a log, after this last one, under the vote of this leader.
fn continues(leader: &LeaderId<u64>, last: &Option<LogId<u64>>, index: u64, id: &LogId<u64>) -> bool
    ensures { result ≡ continues leader.now last.now index id.now }
{
    id.index == index && index < u64::MAX && id.leader_id <= *leader && *last < Some(*id)
}

/// Whether ids are in order under the vote of this leader, the first at this index.
fn in_order(leader: &LeaderId<u64>, first: u64, ids: &LogIds<u64>) -> bool
    ensures { result ≡ in_order leader.now None first ids.now }
{
    let mut last = None;
    let mut index = first;
    for id in ids.iter() {
        if !continues(leader, &last, index, id) {
            return false;
        }
        last = Some(*id);
        index += 1;
    }
    true
}

/// Whether the log of a state is in order, with a purged id as its first.
fn has_order(state: &RaftState<u64, ()>) -> bool
    ensures { result ≡ has_order state.now }
{
    let (first, held) = match &state.purged {
        Some(id) => (id.index, is_found(state, id)),
        None => (0, true),
    };
    in_order(&state.vote.leader_id, first, &state.ids) && held
}

/// Whether the log holds an id, or has purged one above it; true without an id.
fn fits(state: &RaftState<u64, ()>, id: &Option<LogId<u64>>) -> bool
    ensures { result ≡ fits nat_cmp state.now.ids state.now.purged id.now }
{
    match id {
        Some(id) => is_found(state, id) || is_below(&Some(*id), &state.purged),
        None => true,
    }
}

/// Whether the purged id, the purge target, the snapshot's id, the committed and the last id rise and fit the log.
fn rise(state: &RaftState<u64, ()>) -> bool
    ensures { result ≡ rise state.now }
{
    let snapshot = state.snap.last_log_id;
    is_within(&state.purged, &state.purge_to)
        && is_within(&state.purge_to, &snapshot)
        && is_within(&snapshot, &state.committed)
        && is_within(&state.committed, &state.ids.last())
        && fits(state, &state.purge_to)
        && fits(state, &snapshot)
        && fits(state, &state.committed)
}

/// Whether an engine can start with this state: it is sound (`IsSoundState`), and was accepted from no leader yet.
#[tactic(auto, using(crate::proofs::Trusted::sound_by, crate::proofs::Trusted::by_sound))]
pub fn is_sound(state: &RaftState<u64, ()>) -> bool
    ensures sound { result ≡ true → IsSoundState nat_cmp state.now }
    ensures all { IsSoundState nat_cmp state.now → state.now.accepted_by ≡ None → result ≡ true }
{
    state.accepted_by.is_none() && has_order(state) && rise(state)
}

/// Whether what is noted for a snapshot ends with a committed id of the engine's log.
pub fn note_fits(entries: &[Entry], engine: &Engine<WorldConfig>) -> bool
    ensures fits { result ≡ true → NoteFits (view_of engine.now) entries.now }
    ensures all { NoteFits (view_of engine.now) entries.now → result ≡ true }
{
    let last = last_sent(&None, entries);
    fits(&engine.state, &last) && is_within(&last, &engine.state.committed)
}
