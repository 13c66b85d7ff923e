//! What the policy sees of a node.

ghost use Rattle.std.specs.Prelude.{◌≡◌, IfSome, Some};
ghost use Rattle.std.specs.Option.{option_copied, option_map};
ghost use Rattle.raft_calls.specs.Engines.{view_of};
ghost use Rattle.raft_core.specs.Calls.{IsNext, engine_in, leader_id_of};

use raft_engine::Engine;
use raft_peers::raft_packed_server::Server;
use raft_peers::raft_packed_server::raft_packed::Machine;
use raft_progress::{Joint, QuorumSet};
use raft_state::{LeaderId, LogId};
use raft_store::WorldConfig;
use std::alloc::{AllocError, Global};

/// The engine of a server, while it runs.
pub fn engine_of<M: Machine>(server: &Server<M>) -> Option<&Engine<WorldConfig>>
    ensures { option_map view_of (option_copied result) ≡ engine_in server.now.serving }
{
    server.node()?.engine()
}

/// Whether a snapshot is noted at a server, whose build is to end.
pub fn is_building<M: Machine>(server: &Server<M>) -> bool {
    match server.node() {
        Some(node) => node.noted().is_some(),
        None => false,
    }
}

/// The leader id under which a node leads.
pub fn leader_of(engine: &Engine<WorldConfig>) -> Option<LeaderId<u64>>
    ensures { IfSome result (λ id. leader_id_of (view_of engine.now) ≡ Some id) }
{
    match &engine.leader {
        Some(leader) if leader.vote == engine.state.vote => Some(leader.vote.leader_id),
        _ => None,
    }
}

/// The other server that leads, as far as the node knows.
pub fn other_leader(engine: &Engine<WorldConfig>) -> Option<u64> {
    let vote = engine.state.vote;
    if vote.committed && vote.leader_id.node_id != engine.config.id {
        Some(vote.leader_id.node_id)
    } else {
        None
    }
}

/// The id that the leader's next entry gets.
pub fn next_id(engine: &Engine<WorldConfig>) -> Option<LogId<u64>>
    ensures { IfSome result (λ first. IsNext (view_of engine.now) first) }
{
    let leader_id = leader_of(engine)?;
    let index = match engine.state.last_log_id() {
        Some(last) => last.index.checked_add(1)?,
        None => 0,
    };
    Some(LogId { leader_id, index })
}

/// Whether these are a quorum of the effective membership.
pub fn is_quorum(
    alloc: Global,
    engine: &Engine<WorldConfig>,
    ids: &[u64],
) -> Result<bool, AllocError> {
    let groups = Joint::of_membership(alloc, &engine.state.em.membership)?;
    Ok(groups.is_quorum(ids))
}

/// Whether the node is a member of the effective membership.
pub fn is_member(engine: &Engine<WorldConfig>) -> bool {
    engine.state.em.membership.contains(&engine.config.id)
}

/// Whether a leader was heard within the lease.
pub fn is_leased(engine: &Engine<WorldConfig>, moment: u64) -> bool {
    match engine.state.time {
        Some(since) => {
            engine.state.vote.committed
                && moment.saturating_sub(since) <= engine.config.timer_config.leader_lease
        }
        None => false,
    }
}
