//! Changes of the members (Raft paper, section 6; dissertation, section 4): new voters come as learners, are caught up, then come
//! joint groups of the old and the new voters, then the new group alone. Those that leave stay learners until that is committed.

use crate::moves::Move;
use raft_engine::Engine;
use raft_state::Items;
use raft_store::WorldConfig;
use std::alloc::{AllocError, Global};

/// The members that are wanted.
#[derive(Drop)]
pub struct Target {
    pub voters: Vec<u64>,
    pub learners: Vec<u64>,
}

/// The ids of the first list, and those of the second that it lacks.
fn union(alloc: Global, one: &[u64], other: &[u64]) -> Result<Vec<u64>, AllocError> {
    let mut ids = Vec::from_slice(alloc, one)?;
    for id in other {
        if !ids.contains(id) {
            ids.push(*id)?;
        }
    }
    Ok(ids)
}

/// The ids of the first list that the second lacks.
fn without(alloc: Global, one: &[u64], other: &[u64]) -> Result<Vec<u64>, AllocError> {
    let mut ids = Vec::new(alloc);
    for id in one {
        if !other.contains(id) {
            ids.push(*id)?;
        }
    }
    Ok(ids)
}

/// Whether each id of the first list is in the second.
fn is_within(one: &[u64], other: &[u64]) -> bool {
    for id in one {
        if !other.contains(id) {
            return false;
        }
    }
    true
}

fn is_same(one: &[u64], other: &[u64]) -> bool {
    is_within(one, other) && is_within(other, one)
}

/// Whether a change may be proposed: the effective membership and the leader's no-op entry are committed.
fn may_change(engine: &Engine<WorldConfig>) -> bool {
    let Some(leader) = &engine.leader else {
        return false;
    };
    engine.state.em.log_id <= engine.state.committed
        && Some(leader.noop_log_id) <= engine.state.committed
}

/// Whether a target's log lacks at most so many entries.
fn is_caught_up(engine: &Engine<WorldConfig>, target: u64, margin: u64) -> bool {
    let Some(leader) = &engine.leader else {
        return false;
    };
    let Some(last) = leader.last_log_id else {
        return true;
    };
    match leader.progress.get(&target) {
        Some(progress) => match progress.matching {
            Some(id) => last.index.saturating_sub(id.index) <= margin,
            None => false,
        },
        None => target == engine.config.id,
    }
}

fn are_caught_up(engine: &Engine<WorldConfig>, ids: &[u64], margin: u64) -> bool {
    for id in ids {
        if !is_caught_up(engine, *id, margin) {
            return false;
        }
    }
    true
}

/// The new group alone: those that leave stay learners.
fn finish(alloc: Global, engine: &Engine<WorldConfig>, last: &[u64]) -> Result<Move, AllocError> {
    let members = &engine.state.em.membership;
    let left = without(alloc, &members.voter_ids()?, last)?;
    let learners = union(alloc, &members.learner_ids()?, &left)?;
    let mut groups = Items::new(alloc);
    groups.push(Items::from_vec(Vec::from_slice(alloc, last)?))?;
    Ok(Move::ChangeVoters {
        groups,
        learners: Items::from_vec(learners),
    })
}

/// Joint groups of the voters and those that are wanted.
fn join(
    alloc: Global,
    voters: &[u64],
    learners: &[u64],
    wanted: &[u64],
) -> Result<Move, AllocError> {
    let mut groups = Items::new(alloc);
    groups.push(Items::from_vec(Vec::from_slice(alloc, voters)?))?;
    groups.push(Items::from_vec(Vec::from_slice(alloc, wanted)?))?;
    Ok(Move::ChangeVoters {
        groups,
        learners: Items::from_vec(without(alloc, learners, wanted)?),
    })
}

/// The next change towards the target, from one group of voters.
fn approach(
    alloc: Global,
    engine: &Engine<WorldConfig>,
    voters: &[u64],
    target: &Target,
    margin: u64,
) -> Result<Option<Move>, AllocError> {
    let learners = engine.state.em.membership.learner_ids()?;
    if is_same(voters, &target.voters) {
        if is_same(&learners, &target.learners) {
            return Ok(None);
        }
        let wanted = without(alloc, &target.learners, voters)?;
        return Ok(Some(Move::ChangeLearners(Items::from_vec(wanted))));
    }
    let present = union(alloc, voters, &learners)?;
    let missing = without(alloc, &target.voters, &present)?;
    if !missing.is_empty() {
        let more = union(alloc, &learners, &missing)?;
        return Ok(Some(Move::ChangeLearners(Items::from_vec(more))));
    }
    if !are_caught_up(engine, &target.voters, margin) {
        return Ok(None);
    }
    Ok(Some(join(alloc, voters, &learners, &target.voters)?))
}

/// The next change of the members, if it is time for one: joint groups are finished by whichever leader there is.
pub fn next_change(
    alloc: Global,
    engine: &Engine<WorldConfig>,
    target: &Option<Target>,
    margin: u64,
) -> Result<Option<Move>, AllocError> {
    if !may_change(engine) {
        return Ok(None);
    }
    match (engine.state.em.membership.groups(), target) {
        ([group], Some(target)) => approach(alloc, engine, group.as_slice(), target, margin),
        ([_, .., last], _) => Ok(Some(finish(alloc, engine, last.as_slice())?)),
        _ => Ok(None),
    }
}

/// Whether the members are those that are wanted.
pub fn is_reached(engine: &Engine<WorldConfig>, target: &Target) -> Result<bool, AllocError> {
    let members = &engine.state.em.membership;
    let learners = members.learner_ids()?;
    match members.groups() {
        [group] => Ok(
            engine.state.em.log_id <= engine.state.committed
                && is_same(group.as_slice(), &target.voters)
                && is_same(&learners, &target.learners),
        ),
        _ => Ok(false),
    }
}
