//! Memberships: who votes, and each node's data.

ghost use Rattle.std.specs.Prelude.{◌≡◌, IfOk, OnOk, OnSome, map, fold};
ghost use Rattle.std.specs.Map.{keys_of};
ghost use Rattle.std.specs.BTreeMap.{IsOrdered};
ghost use Rattle.std.specs.List.Sorted.{IsStrictlySortedBy};
ghost use Rattle.std.specs.Option.{option_copied};
ghost use Rattle.raft_state.specs.Sorted.{has_id, IsSound};
ghost use Rattle.raft_state.specs.Members.{group_of, placed_nodes, with_voter, with_voters, members_of, is_voter, contains, get_node};
ghost use Rattle.raft_state.specs.Members.{voter_ids, learner_ids, no_members};

use crate::display::DisplayOption;
use crate::ids::LogId;
use crate::items::Items;
use crate::node::{Node, NodeId, default_of};
use crate::text::Text;
use std::alloc::{AllocError, Global};
use std::collections::{BTreeMap, BTreeSet};
use std::fmt;
use std::marker::Model;

/// A group of voters: their ids, ascending, each once.
pub type Group<NID> = Items<NID>;

/// The parts of a membership: the groups of voters, and the nodes with their data.
#[derive(PartialEq, Eq, Debug, Drop)]
pub struct Members<NID, N> {
    pub groups: Items<Items<NID>>,
    pub nodes: Items<(NID, N)>,
}

/// Groups of voters, and the nodes with their data (openraft's `Membership`; Raft paper, section 6: a quorum is a
/// majority of each group).
///
/// Each group ascends and has each id once, the nodes ascend by id, and each voter is a node. A node in no group is a
/// learner.
#[derive(PartialEq, Eq, Debug, Drop)]
pub struct Membership<NID: NodeId, N: Node> {
    members: Members<NID, N>,
}

impl<NID: NodeId, N: Node> Model for Membership<NID, N> {
    ghost use Rattle.raft_state.specs.declared.membership.Members.{Members};
    ghost use Rattle.raft_state.specs.Sorted.{IsSound};

    ghost Value = { Members NID N };

    ghost view = { λ m. m.members };

    ghost inverse = { λ members. record { members = members } };

    ghost invariant = { λ m. IsSound NID.cmp m.members.groups m.members.nodes };
}

impl<NID: NodeId> Items<NID> {
    /// Whether an id is in the list.
    pub fn has(&self, id: &NID) -> bool
        ensures { result ≡ has_id NID.cmp self.now id.now }
    {
        self.items.iter().any(|x| id.cmp(x).is_eq())
    }
}

impl<NID: NodeId, N: Node> Membership<NID, N> {
    /// The membership of these groups and nodes.
    ///
    /// A group may repeat an id and have its ids in any order: each counts once. The last data of a repeated node
    /// counts, and a voter without data gets the default. No groups and empty groups stay as they are.
    pub fn new(
        alloc: Global,
        groups: Vec<Vec<NID>>,
        nodes: Vec<(NID, N)>,
    ) -> Result<Self, AllocError>
        ensures { IfOk result (λ m. m ≡ members_of NID.cmp N.default_node (map (λ group. group.items) groups.items) nodes.items) }
    {
        let groups = sorted_groups(alloc, groups)?;
        let nodes = nodes_of(alloc, nodes, &groups)?;
        Ok(Membership {
            members: Members {
                groups: Items::from_vec(groups),
                nodes: Items::from_vec(nodes),
            },
        })
    }

    /// No voters and no nodes. Allocates nothing.
    pub fn empty(alloc: Global) -> Self
        ensures { result ≡ no_members }
    {
        Membership {
            members: Members {
                groups: Items::new(alloc),
                nodes: Items::new(alloc),
            },
        }
    }

    /// An equal membership.
    pub fn copy(&self) -> Result<Self, AllocError>
        ensures { IfOk result (λ copied. copied ≡ self.now) }
    {
        let alloc = self.allocator();
        let groups = Items::from_vec(copy_groups(alloc, self.members.groups.as_slice())?);
        let nodes = Items::from_vec(copy_nodes(alloc, self.members.nodes.as_slice())?);
        Ok(Membership {
            members: Members { groups, nodes },
        })
    }

    fn allocator(&self) -> Global {
        *self.members.nodes.items.allocator()
    }

    /// The groups of voters, in the order given (openraft's `get_joint_config`).
    pub fn groups(&self) -> &[Group<NID>]
        ensures groups { result.now ≡ self.now.groups }
        ensures sound { IsSound NID.cmp self.now.groups self.now.nodes }
    {
        self.members.groups.as_slice()
    }

    /// Whether a node is in some group.
    pub fn is_voter(&self, id: &NID) -> bool
        ensures { result ≡ is_voter NID.cmp self.now id.now }
    {
        self.groups().iter().any(|group| group.has(id))
    }

    /// Whether a node is a member, as a voter or as a learner.
    pub fn contains(&self, id: &NID) -> bool
        ensures { result ≡ contains NID.cmp self.now id.now }
    {
        self.get_node(id).is_some()
    }

    /// A node's data, if it is a member.
    pub fn get_node(&self, id: &NID) -> Option<&N>
        ensures { option_copied result ≡ get_node NID.cmp self.now id.now }
    {
        self.members
            .nodes
            .as_slice()
            .iter()
            .find(|entry| id.cmp(&entry.0).is_eq())
            .map(|entry| &entry.1)
    }

    /// A copy of a node's data: none if it is no member, or out of memory.
    pub fn copy_node(&self, id: &NID) -> Option<N>
        ensures { OnSome result (result ≡ get_node NID.cmp self.now id.now) }
    {
        let node = self.get_node(id)?;
        node.copy(self.allocator()).ok()
    }

    /// The voters of all groups, ascending, each once.
    pub fn voter_ids(&self) -> Result<Vec<NID>, AllocError>
        ensures ids { IfOk result (λ ids. ids.items ≡ voter_ids NID.cmp self.now) }
        ensures ascending { IfOk result (λ ids. IsStrictlySortedBy NID.cmp ids.items) }
    {
        let _sound = &self.members;
        let ids = self.voters()?;
        Ok(ids)
    }

    fn voters(&self) -> Result<Vec<NID>, AllocError>
        ensures { IfOk result (λ ids. ids.items ≡ voter_ids NID.cmp self.now) }
    {
        let nodes = self.members.nodes.as_slice();
        let mut ids = Vec::new(self.allocator());
        for (id, _) in nodes {
            if self.is_voter(id) {
                ids.push(*id)?;
            }
        }
        Ok(ids)
    }

    /// The nodes that are in no group, ascending, each once.
    pub fn learner_ids(&self) -> Result<Vec<NID>, AllocError>
        ensures ids { IfOk result (λ ids. ids.items ≡ learner_ids NID.cmp self.now) }
        ensures ascending { IfOk result (λ ids. IsStrictlySortedBy NID.cmp ids.items) }
    {
        let _sound = &self.members;
        let ids = self.learners()?;
        Ok(ids)
    }

    fn learners(&self) -> Result<Vec<NID>, AllocError>
        ensures { IfOk result (λ ids. ids.items ≡ learner_ids NID.cmp self.now) }
    {
        let nodes = self.members.nodes.as_slice();
        let mut ids = Vec::new(self.allocator());
        for (id, _) in nodes {
            if !self.is_voter(id) {
                ids.push(*id)?;
            }
        }
        Ok(ids)
    }
}

/// Ids in order: ascending, each once, in whatever order they were given.
pub fn sorted_ids<NID: NodeId>(alloc: Global, ids: Vec<NID>) -> Result<Items<NID>, AllocError>
    ensures ids { IfOk result (λ sorted. sorted ≡ group_of NID.cmp ids.items) }
    ensures ascending { IfOk result (λ sorted. IsStrictlySortedBy NID.cmp sorted) }
{
    let mut placed = BTreeSet::new(alloc);
    for id in ids {
        placed.insert(id)?;
    }
    let sorted = keys_of(alloc, placed)?;
    Ok(Items::from_vec(sorted))
}

/// Each group's ids in order.
fn sorted_groups<NID: NodeId>(
    alloc: Global,
    groups: Vec<Vec<NID>>,
) -> Result<Vec<Group<NID>>, AllocError>
    ensures { IfOk result (λ sorted. sorted.items ≡ map (group_of NID.cmp) (map (λ group. group.items) groups.items)) }
{
    let mut sorted = Vec::new(alloc);
    for ids in groups {
        sorted.push(sorted_ids(alloc, ids)?)?;
    }
    Ok(sorted)
}

fn keys_of<NID: NodeId>(alloc: Global, placed: BTreeSet<NID>) -> Result<Vec<NID>, AllocError>
    ensures { IfOk result (λ ids. ids.items ≡ placed.keys) }
{
    placed.into_iter().collect(alloc)
}

/// The nodes by id, with each voter of these groups among them.
fn nodes_of<NID: NodeId, N: Node>(
    alloc: Global,
    nodes: Vec<(NID, N)>,
    groups: &[Group<NID>],
) -> Result<Vec<(NID, N)>, AllocError>
    ensures nodes { IfOk result (λ made. made.items ≡ fold (with_voters NID.cmp N.default_node) (placed_nodes NID.cmp nodes.items) groups.now) }
    ensures ascending { IfOk result (λ made. IsStrictlySortedBy NID.cmp (keys_of made.items)) }
{
    let mut placed = place_nodes(alloc, nodes)?;
    place_groups(&mut placed, groups)?;
    entries_of(alloc, placed)
}

/// The nodes by id: the last data of a repeated node counts.
fn place_nodes<NID: NodeId, N: Node>(
    alloc: Global,
    nodes: Vec<(NID, N)>,
) -> Result<BTreeMap<NID, N>, AllocError>
    ensures placed { IfOk result (λ placed. placed.entries ≡ placed_nodes NID.cmp nodes.items) }
    ensures ordered { IfOk result (λ placed. IsOrdered NID.cmp placed) }
{
    let mut placed = BTreeMap::new(alloc);
    for (id, node) in nodes {
        placed.insert(id, node)?;
    }
    Ok(placed)
}

fn entries_of<NID: NodeId, N: Node>(
    alloc: Global,
    placed: BTreeMap<NID, N>,
) -> Result<Vec<(NID, N)>, AllocError>
    ensures { IfOk result (λ entries. entries.items ≡ placed.entries) }
{
    placed.into_iter().collect(alloc)
}

/// Places each group's voters that are no nodes yet.
fn place_groups<NID: NodeId, N: Node>(
    placed: &mut BTreeMap<NID, N>,
    groups: &[Group<NID>],
) -> Result<(), AllocError>
    ensures placed { OnOk result (placed.new.entries ≡ fold (with_voters NID.cmp N.default_node) placed.old.entries groups.now) }
    ensures ordered { IsOrdered NID.cmp placed.old → IsOrdered NID.cmp placed.new }
{
    for group in groups {
        place_voters(placed, group.as_slice())?;
    }
    Ok(())
}

fn place_voters<NID: NodeId, N: Node>(
    placed: &mut BTreeMap<NID, N>,
    voters: &[NID],
) -> Result<(), AllocError>
    ensures placed { OnOk result (placed.new.entries ≡ with_voters NID.cmp N.default_node placed.old.entries voters.now) }
    ensures ordered { IsOrdered NID.cmp placed.old → IsOrdered NID.cmp placed.new }
{
    for id in voters {
        place_voter(placed, *id)?;
    }
    Ok(())
}

fn place_voter<NID: NodeId, N: Node>(
    placed: &mut BTreeMap<NID, N>,
    id: NID,
) -> Result<(), AllocError>
    ensures placed { OnOk result (placed.new.entries ≡ with_voter NID.cmp N.default_node placed.old.entries id) }
    ensures ordered { IsOrdered NID.cmp placed.old → IsOrdered NID.cmp placed.new }
{
    if !placed.contains_key(&id) {
        placed.insert(id, default_of())?;
    }
    Ok(())
}

fn copy_groups<NID: NodeId>(
    alloc: Global,
    groups: &[Group<NID>],
) -> Result<Vec<Group<NID>>, AllocError>
    ensures { IfOk result (λ copied. copied.items ≡ groups.now) }
{
    let mut copied = Vec::new(alloc);
    for group in groups {
        copied.push(group.copy()?)?;
    }
    Ok(copied)
}

fn copy_nodes<NID: NodeId, N: Node>(
    alloc: Global,
    nodes: &[(NID, N)],
) -> Result<Vec<(NID, N)>, AllocError>
    ensures { IfOk result (λ copied. copied.items ≡ nodes.now) }
{
    let mut copied = Vec::new(alloc);
    for (id, node) in nodes {
        copied.push((*id, node.copy(alloc)?))?;
    }
    Ok(copied)
}

/// A membership, with the id of its log entry (openraft's `StoredMembership`).
#[derive(PartialEq, Eq, Debug, Drop)]
pub struct StoredMembership<NID: NodeId, N: Node> {
    pub log_id: Option<LogId<NID>>,
    pub membership: Membership<NID, N>,
}

impl<NID: NodeId, N: Node> StoredMembership<NID, N> {
    /// No members, and no entry. Allocates nothing.
    pub fn empty(alloc: Global) -> Self
        ensures { result ≡ record { log_id = None; membership = no_members } }
    {
        StoredMembership {
            log_id: None,
            membership: Membership::empty(alloc),
        }
    }

    /// An equal membership with an equal id.
    pub fn copy(&self) -> Result<Self, AllocError>
        ensures { IfOk result (λ copied. copied ≡ self.now) }
    {
        Ok(StoredMembership {
            log_id: self.log_id,
            membership: self.membership.copy()?,
        })
    }
}

/// The meta of a snapshot: its last log id, its last membership, and its own id (openraft's `SnapshotMeta`).
#[derive(PartialEq, Eq, Debug, Drop)]
pub struct SnapshotMeta<NID: NodeId, N: Node> {
    pub last_log_id: Option<LogId<NID>>,
    pub last_membership: StoredMembership<NID, N>,
    pub snapshot_id: Text,
}

impl<NID: NodeId, N: Node> SnapshotMeta<NID, N> {
    /// An equal meta.
    pub fn copy(&self) -> Result<Self, AllocError>
        ensures { IfOk result (λ copied. copied ≡ self.now) }
    {
        Ok(SnapshotMeta {
            last_log_id: self.last_log_id,
            last_membership: self.last_membership.copy()?,
            snapshot_id: self.snapshot_id.copy()?,
        })
    }
}

impl<NID: NodeId, N: Node> fmt::Display for SnapshotMeta<NID, N> {
    ghost use Rattle.raft_state.specs.Texts.{meta_text, optional_id_text};

    ghost output = { λ meta. meta_text meta.snapshot_id (optional_id_text NID.output meta.last_log_id) (optional_id_text NID.output meta.last_membership.log_id) };

    fn fmt<W: fmt::Write>(&self, f: &mut fmt::Formatter<W>) -> fmt::Result {
        let id = self.snapshot_id.as_str();
        let last = DisplayOption(self.last_log_id);
        let membership = DisplayOption(self.last_membership.log_id);
        write!(f, "{{id:{id}, last:{last}, membership:{membership}}}")
    }
}
