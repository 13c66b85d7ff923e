//! Quorum sets: which nodes are enough for a decision.

ghost use Rattle.std.specs.Prelude.{◌≡◌, ◌<◌, List, Bool, true, length, map, Contains, IfOk};
ghost use Rattle.std.specs.List.Sorted.{IsStrictlySortedBy};
ghost use Rattle.raft_progress.specs.Quorum.{is_majority, is_quorum, normalised, joined, ids_of};
ghost use Rattle.raft_state.specs.Sorted.{has_id};
ghost use Rattle.raft_progress.specs.QuorumLaws.{ids_ascend, quorum_grows, quorums_meet};

use raft_state::{Items, Membership, Node, NodeId, sorted_ids};
use std::alloc::{AllocError, Global};
use std::marker::Model;

/// Which nodes are enough for a decision.
///
/// Two laws hold of every implementation: a set of ids that contains a quorum is a quorum, and, if there are ids at
/// all, two quorums have a common id. Ids are sets: a repeated id counts once. Source: openraft's `QuorumSet`; Raft
/// paper, section 6.
pub trait QuorumSet<ID: NodeId>: Drop {
    /// The ids that count, ascending, each once.
    ghost members: { Self → List ID };

    /// Whether these ids are a quorum.
    ghost has_quorum: { Self → List ID → Bool };

    /// Whether the second set is what `copy` makes of the first.
    ghost copy_gives: { Self → Self → Type 0 };

    /// The ids that count, ascending, each once.
    fn ids(&self, alloc: Global) -> Result<Vec<ID>, AllocError>
        ensures { IfOk result (λ ids. ids.items ≡ members self.now) };

    /// Whether these ids are a quorum.
    fn is_quorum(&self, ids: &[ID]) -> bool
        ensures { result ≡ has_quorum self.now ids.now };

    /// A set with the same ids and the same quorums.
    fn copy(&self, alloc: Global) -> Result<Self, AllocError>
        ensures { IfOk result (λ copied. copy_gives self.now copied) };

    /// A copy has the ids and the quorums of the original.
    ghost copy_is: { (set copied : Self) → copy_gives set copied
        → (members copied ≡ members set)
        × ((ids : List ID) → has_quorum copied ids ≡ has_quorum set ids) };

    /// The ids ascend, each once.
    ghost ascends: { (set : Self) → IsStrictlySortedBy ID.cmp (members set) };

    /// Ids that contain a quorum are a quorum.
    ghost grows: { (set : Self) (few many : List ID)
        → ((id : ID) → Contains few id → Contains many id)
        → has_quorum set few ≡ true → has_quorum set many ≡ true };

    /// If there are ids, two quorums have a common one.
    ghost meets: { (set : Self) (one other : List ID) → 0 < length (members set)
        → has_quorum set one ≡ true → has_quorum set other ≡ true
        → (id : ID) × Contains one id × Contains other id };
}

/// Groups of voters, each ascending with each id once: a quorum has more than half of each group.
///
/// Source: openraft's `Joint`, the joint consensus of the Raft paper, section 6.
#[derive(PartialEq, Eq, Debug, Drop)]
pub struct Joint<ID> {
    groups: Items<Items<ID>>,
}

impl<ID> Model for Joint<ID> {
    ghost use Rattle.std.specs.Prelude.{List};

    ghost Value = { List (List ID) };

    ghost view = { λ joint. joint.groups };

    ghost inverse = { λ groups. record { groups = groups } };
}

impl<ID: NodeId> Joint<ID> {
    /// The groups as given, but each ascending with each id once.
    pub fn new(groups: Vec<Vec<ID>>) -> Result<Self, AllocError>
        ensures { IfOk result (λ joint. joint ≡
            normalised ID.cmp (map (λ group. group.items) groups.items)) }
    {
        let alloc = *groups.allocator();
        let mut normalised = Items::new(alloc);
        for group in groups {
            normalised.push(sorted_ids(alloc, group)?)?;
        }
        Ok(Joint { groups: normalised })
    }

    /// The groups of a membership, which ascend with each id once.
    pub fn of_membership<N: Node>(
        alloc: Global,
        membership: &Membership<ID, N>,
    ) -> Result<Self, AllocError>
        ensures { IfOk result (λ joint. joint ≡ membership.now.groups) }
    {
        let groups = copy_groups(alloc, membership.groups())?;
        Ok(Joint { groups })
    }

    /// The groups, each ascending with each id once.
    pub fn groups(&self) -> &[Items<ID>]
        ensures { result.now ≡ self.now }
    {
        self.groups.as_slice()
    }
}

/// Whether more than half of the group's ids are among these.
#[tactic(auto, using(crate::specs::QuorumLaws::half_exceeded))]
fn is_majority<ID: NodeId>(group: &Items<ID>, ids: &[ID]) -> bool
    ensures { result ≡ is_majority ID.cmp group.now ids.now }
{
    let held = group.as_slice().iter().filter(|id| holds(ids, id)).count();
    group.as_slice().len() / 2 < held
}

/// Whether an id is among these.
pub(crate) fn holds<ID: NodeId>(ids: &[ID], id: &ID) -> bool
    ensures { result ≡ has_id ID.cmp ids.now id.now }
{
    ids.iter().any(|x| id.cmp(x).is_eq())
}

impl<ID: NodeId> QuorumSet<ID> for Joint<ID> {
    ghost members = { λ groups. ids_of ID.cmp groups };

    ghost has_quorum = { λ groups ids. is_quorum ID.cmp groups ids };

    ghost copy_gives = { λ groups copied. copied ≡ groups };

    ghost copy_is = { λ groups copied e.
        (λ i. ids_of ID.cmp (e i), λ ids. λ i. is_quorum ID.cmp (e i) ids) };

    ghost ascends = { λ groups. ids_ascend ID.cmp ID.Ord.total groups };

    ghost grows = { λ groups few many within h.
        quorum_grows ID.cmp ID.equal_is_same ID.Ord.total groups few many within h };

    ghost meets = { λ groups one other some h k.
        quorums_meet ID.cmp ID.equal_is_same groups one other some h k };

    fn ids(&self, alloc: Global) -> Result<Vec<ID>, AllocError> {
        let ids = join(alloc, self.groups.as_slice())?;
        Ok(sorted_ids(alloc, ids)?.into_vec())
    }

    fn is_quorum(&self, ids: &[ID]) -> bool {
        self.groups
            .as_slice()
            .iter()
            .all(|group| is_majority(group, ids))
    }

    fn copy(&self, alloc: Global) -> Result<Self, AllocError> {
        let groups = copy_groups(alloc, self.groups.as_slice())?;
        Ok(Joint { groups })
    }
}

/// The ids of all groups, one group after another.
fn join<ID: NodeId>(alloc: Global, groups: &[Items<ID>]) -> Result<Vec<ID>, AllocError>
    ensures { IfOk result (λ ids. ids.items ≡ joined groups.now) }
{
    let mut ids = Vec::new(alloc);
    for group in groups {
        ids.extend_from_slice(group.as_slice())?;
    }
    Ok(ids)
}

/// The same groups.
fn copy_groups<ID: NodeId>(
    alloc: Global,
    groups: &[Items<ID>],
) -> Result<Items<Items<ID>>, AllocError>
    ensures { IfOk result (λ copied. copied ≡ groups.now) }
{
    let mut copied = Items::new(alloc);
    for group in groups {
        copied.push(group.copy()?)?;
    }
    Ok(copied)
}
