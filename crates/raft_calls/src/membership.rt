//! Changes of the membership.

ghost use Rattle.std.specs.Prelude.{◌≡◌, IfOk, None, map};
ghost use Rattle.std.specs.List.{list_any};
ghost use Rattle.std.specs.Ordering.{nat_cmp};
ghost use Rattle.raft_state.specs.Members.{is_voter};
ghost use Rattle.raft_calls.specs.Engines.{view_of};
ghost use Rattle.raft_calls.specs.Held.{IsResting};
ghost use Rattle.raft_calls.specs.Memberships.{learners_changed, members_with, membership_changed, membership_entry, skip_change, skip_learners};
ghost use Rattle.raft_calls.specs.Memberships.{skip_members, skip_pending};

use crate::lead::{propose_entry, skip_propose};
use raft_engine::{Engine, shares_group};
use raft_schedule::event::SkipReason;
use raft_state::{Items, LogId, Membership, RaftState};
use raft_store::{Entry, Payload, WorldConfig};
use std::alloc::{AllocError, Global};

/// The groups as their ids.
fn ids_of(alloc: Global, groups: &[Items<u64>]) -> Result<Vec<Vec<u64>>, AllocError>
    ensures { IfOk result (λ copied. map (λ group. group.items) copied.items ≡ groups.now) }
{
    let mut copied = Vec::new(alloc);
    for group in groups {
        copied.push(group.copy()?.into_vec())?;
    }
    Ok(copied)
}

/// Nodes without data.
fn nodes_of(alloc: Global, ids: &[u64]) -> Result<Vec<(u64, ())>, AllocError>
    ensures { IfOk result (λ nodes. nodes.items ≡ map (λ id. (id, record {})) ids.now) }
{
    ids.iter().map(|id| (*id, ())).collect(alloc)
}

/// The membership of these voter groups and learners.
fn members_with(
    alloc: Global,
    groups: &[Items<u64>],
    learners: &[u64],
) -> Result<Membership<u64, ()>, AllocError>
    ensures { IfOk result (λ members. members ≡ members_with groups.now learners.now) }
{
    Membership::new(alloc, ids_of(alloc, groups)?, nodes_of(alloc, learners)?)
}

/// An entry with a membership; the leader gives it its id.
pub fn membership_entry(membership: Membership<u64, ()>) -> Entry
    ensures { result ≡ membership_entry membership }
{
    Entry {
        log_id: LogId::default(),
        payload: Payload::Membership(membership),
    }
}

/// Skips a change while one is pending, or before the leader's no-op entry is committed.
fn skip_pending(noop_log_id: LogId<u64>, state: &RaftState<u64, ()>) -> Option<SkipReason>
    ensures { result ≡ skip_pending noop_log_id state.now }
{
    if state.em.log_id > state.committed {
        Some(SkipReason::MembershipPending)
    } else if Some(noop_log_id) > state.committed {
        Some(SkipReason::BlankPending)
    } else {
        None
    }
}

/// Whether one of these ids is a voter's.
fn has_voter(members: &Membership<u64, ()>, ids: &[u64]) -> bool
    ensures { result ≡ list_any (is_voter nat_cmp members.now) ids.now }
{
    ids.iter().any(|id| members.is_voter(id))
}

/// Skips a change to more than four voter groups, to groups of which none is the present membership's, or to learners of
/// whom one is a voter; `new` is the membership that the change makes.
fn skip_new(
    present: &Membership<u64, ()>,
    new: &Membership<u64, ()>,
    groups: &[Items<u64>],
    learners: &[u64],
) -> Option<SkipReason>
    requires { new.now ≡ members_with groups.now learners.now }
    ensures { result ≡ skip_members present.now groups.now learners.now }
{
    if groups.len() > 4 {
        Some(SkipReason::BadGroups)
    } else if !shares_group(present, new) {
        Some(SkipReason::NoSharedGroup)
    } else if has_voter(new, learners) {
        Some(SkipReason::BadLearners)
    } else {
        None
    }
}

/// The same, once the membership is made.
fn skip_members(
    alloc: Global,
    present: &Membership<u64, ()>,
    groups: &[Items<u64>],
    learners: &[u64],
) -> Result<Option<SkipReason>, AllocError>
    ensures { IfOk result (λ reason. reason ≡ skip_members present.now groups.now learners.now) }
{
    let new = members_with(alloc, groups, learners)?;
    Ok(skip_new(present, &new, groups, learners))
}

/// Why the leader proposes no membership of these voter groups and learners: the first reason that applies. At a node that
/// doesn't lead it is refused instead.
///
/// Source: Raft paper, section 6; openraft's `change_membership`.
pub fn skip_change(
    alloc: Global,
    groups: &[Items<u64>],
    learners: &[u64],
    engine: &Engine<WorldConfig>,
) -> Result<Option<SkipReason>, AllocError>
    ensures { IfOk result (λ reason. reason ≡ skip_change groups.now learners.now (view_of engine.now)) }
{
    let Some(leader) = &engine.leader else {
        return Ok(None);
    };
    if let Some(reason) = skip_propose(engine) {
        return Ok(Some(reason));
    }
    if let Some(reason) = skip_pending(leader.noop_log_id, &engine.state) {
        return Ok(Some(reason));
    }
    skip_members(alloc, &engine.state.em.membership, groups, learners)
}

/// Why the leader doesn't propose these learners beside the effective membership's voter groups.
pub fn skip_learners(
    alloc: Global,
    learners: &[u64],
    engine: &Engine<WorldConfig>,
) -> Result<Option<SkipReason>, AllocError>
    ensures { IfOk result (λ reason. reason ≡ skip_learners learners.now (view_of engine.now)) }
{
    skip_change(alloc, engine.state.em.membership.groups(), learners, engine)
}

/// Has the leader propose a membership of these voter groups and learners. Returns the number of the refusal, if any.
pub fn change_membership(
    alloc: Global,
    groups: &[Items<u64>],
    learners: &[u64],
    engine: &mut Engine<WorldConfig>,
) -> Result<Option<u8>, AllocError>
    requires resting { IsResting (view_of engine.old) }
    requires taken { skip_change groups.now learners.now (view_of engine.old) ≡ None }
    ensures { IfOk result (λ refusal. record { 0 = refusal; 1 = view_of engine.new }
        ≡ membership_changed groups.now learners.now (view_of engine.old)) }
{
    let membership = members_with(alloc, groups, learners)?;
    propose_entry(alloc, membership_entry(membership), engine)
}

/// Has the leader propose these learners beside the effective membership's voter groups. Returns the number of the
/// refusal, if any.
pub fn change_learners(
    alloc: Global,
    learners: &[u64],
    engine: &mut Engine<WorldConfig>,
) -> Result<Option<u8>, AllocError>
    requires resting { IsResting (view_of engine.old) }
    requires taken { skip_learners learners.now (view_of engine.old) ≡ None }
    ensures { IfOk result (λ refusal. record { 0 = refusal; 1 = view_of engine.new } ≡ learners_changed learners.now (view_of engine.old)) }
{
    let membership = members_with(alloc, engine.state.em.membership.groups(), learners)?;
    propose_entry(alloc, membership_entry(membership), engine)
}
