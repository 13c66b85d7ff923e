//! Tables and quorums of another quorum set than the engine's.

ghost use Rattle.std.specs.Prelude.{◌≡◌, ◌<◌, ℕ, List, [], ◌∷◌, true, length, Contains};
ghost use Rattle.std.specs.Ordering.{nat_cmp};
ghost use Rattle.raft_state.specs.Sorted.{has_id};
ghost use Rattle.raft_state.proofs.Groups.{group_ascends};
ghost use Rattle.raft_progress.specs.QuorumLaws.{contains_from_has, has_from_contains};
ghost use Rattle.std.specs.Cmp.{nat_cmp_total};
ghost use Rattle.std.proofs.lemmas.Map.Lookups.{exact_unsigned};

use raft_progress::{Joint, QuorumSet, VecProgress};
use std::alloc::{AllocError, Global};
use std::process::Abort;

/// A quorum is what has this node.
#[derive(Drop)]
struct Chief {
    id: u64,
}

impl QuorumSet<u64> for Chief {
    ghost members = { λ chief. chief.id ∷ [] };

    ghost has_quorum = { λ chief ids. has_id nat_cmp ids chief.id };

    ghost copy_gives = { λ chief copied. copied.id ≡ chief.id };

    ghost copy_is = { λ chief copied e. (λ i. e i ∷ [], λ ids. λ i. has_id nat_cmp ids (e i)) };

    ghost ascends = { λ chief. group_ascends nat_cmp nat_cmp_total (chief.id ∷ []) };

    ghost grows = { λ chief few many within h.
        has_from_contains nat_cmp exact_unsigned nat_cmp_total many chief.id
        (within chief.id (contains_from_has nat_cmp exact_unsigned few chief.id h)) };

    ghost meets = { λ chief one other some h k. (
      chief.id,
      contains_from_has nat_cmp exact_unsigned one chief.id h,
      contains_from_has nat_cmp exact_unsigned other chief.id k,
    ) };

    fn ids(&self, alloc: Global) -> Result<Vec<u64>, AllocError> {
        Ok(vec![in alloc; self.id]?)
    }

    fn is_quorum(&self, ids: &[u64]) -> bool {
        ids.iter().any(|id| self.id.cmp(id).is_eq())
    }

    fn copy(&self, _alloc: Global) -> Result<Self, AllocError> {
        Ok(Chief { id: self.id })
    }
}

/// Two quorums of any set that has ids have a common id.
fn meet<QS: QuorumSet<u64>>(_set: &QS, _one: &[u64], _other: &[u64])
    requires some { 0 < length (QS.members _set.now) }
    requires one { QS.has_quorum _set.now _one.now ≡ true }
    requires other { QS.has_quorum _set.now _other.now ≡ true }
    ensures { (id : ℕ) × Contains _one.now id × Contains _other.now id }
{}

fn try_joint(alloc: Global, group: &[u64]) -> Result<Joint<u64>, AllocError> {
    Joint::new(vec![in alloc; Vec::from_slice(alloc, group)?]?)
}

/// The quorum set of one group.
fn joint(rt: &impl Abort, alloc: Global, group: &[u64]) -> Joint<u64> {
    try_joint(alloc, group).expect(rt, "memory")
}

/// Moments at which nodes answered last.
type Clocks<QS> = VecProgress<u64, Option<u64>, Option<u64>, QS>;

fn ticks<QS: QuorumSet<u64>>(clocks: &mut Clocks<QS>, id: u64, moment: u64) -> Option<u64> {
    let _ = clocks.increase_to(&id, Some(moment));
    *clocks.granted()
}

fn clock<QS: QuorumSet<u64>>(clocks: &Clocks<QS>, id: u64) -> Option<Option<u64>> {
    clocks.get(&id).copied()
}

fn walked<QS: QuorumSet<u64>>(
    rt: &impl Abort,
    alloc: Global,
    clocks: Clocks<QS>,
) -> Vec<(u64, Option<u64>)> {
    clocks.iter().copied().collect(alloc).expect(rt, "memory")
}

/// The moments of voter 1 and of learners 2 and 9, of which the last is still unknown.
fn is_walked<QS: QuorumSet<u64>>(rt: &impl Abort, alloc: Global, set: QS) {
    let mut clocks: Clocks<QS> = VecProgress::new(alloc, set, &[9, 1, 2, 9], None).expect(
        rt, "memory",
    );
    // a learner's moment grants nothing
    assert!(rt; ticks(&mut clocks, 2, 8).is_none());
    assert!(rt; ticks(&mut clocks, 1, 5) == Some(5));
    // an earlier moment changes nothing
    assert!(rt; ticks(&mut clocks, 1, 4) == Some(5));
    assert!(rt; clock(&clocks, 2) == Some(Some(8)));
    assert!(rt; clock(&clocks, 3).is_none());
    let rows = walked(rt, alloc, clocks);
    let want = [(1, Some(5)), (2, Some(8)), (9, None)];
    assert!(rt; rows.as_slice() == want.as_slice());
}

#[test]
fn a_table_is_walked_voters_first(rt: HostRuntime) {
    is_walked(&rt, rt.alloc(), joint(&rt, rt.alloc(), &[1]));
    is_walked(&rt, rt.alloc(), Chief { id: 1 });
}

/// Who has granted, where node 1 alone is a quorum.
type Grants = VecProgress<u64, bool, bool, Chief>;

fn grants_of(rt: &impl Abort, alloc: Global) -> Grants {
    VecProgress::new(alloc, Chief { id: 1 }, &[], false).expect(rt, "memory")
}

/// The id of the quorum, by a copy.
fn chief_of(rt: &impl Abort, grants: &Grants) -> u64 {
    grants.copy().expect(rt, "memory").into_quorum_set().id
}

#[test]
fn an_update_sets_the_value(rt: HostRuntime) {
    let mut grants = grants_of(&rt, rt.alloc());
    assert!(rt; grants.update(&2, true) == Err(&false));
    assert!(rt; grants.update(&1, true) == Ok(&true));
    assert!(rt; chief_of(&rt, &grants) == grants.quorum_set().id);
}

#[test]
fn an_update_by_a_function_sets_the_value(rt: HostRuntime) {
    let mut grants = grants_of(&rt, rt.alloc());
    assert!(rt; grants.update_with(&1, |_granted| true) == Ok(&true));
}

/// Two quorums of the set meet, where it has ids.
fn meets(rt: &impl Abort, alloc: Global, set: &Joint<u64>, one: &[u64], other: &[u64]) {
    let ids = set.ids(alloc).expect(rt, "memory");
    assert!(rt; set.is_quorum(one) && set.is_quorum(other) && !ids.is_empty());
    meet(set, one, other);
}

#[test]
fn two_quorums_meet(rt: HostRuntime) {
    let set = joint(&rt, rt.alloc(), &[1, 2, 3]);
    meets(&rt, rt.alloc(), &set, &[1, 2], &[2, 3]);
    meet(&Chief { id: 4 }, &[4, 5], &[6, 4]);
}
