//! The state of a node: its vote, its log ids, its memberships.

ghost use Rattle.std.specs.Prelude.{◌≡◌, false, OnSome, map, OnOk, OnErr, IfOk, if◌then◌else◌};
ghost use Rattle.raft_state.specs.Log.{last, at};
ghost use Rattle.raft_state.specs.State.{accepted, accept, is_leading, is_leader, server_state, append_membership, truncate};
ghost use Rattle.raft_state.specs.State.{undoes_membership, extend, has_log_id, commit, commits, settle, is_initialized, purge};
ghost use Rattle.raft_state.specs.State.{by_last_leader, empty, known_leader, known_leader_node};

use crate::config::{RaftEntry, log_ids};
use crate::ids::{LeaderId, LogId, Vote, is_upto, reaches};
use crate::log::LogIds;
use crate::membership::{SnapshotMeta, StoredMembership};
use crate::node::{Node, NodeId};
use crate::text::Text;
use std::alloc::{AllocError, Global};
use std::mem;

/// The role of a node in its cluster (Raft paper, section 5.1; a learner is a member that doesn't vote).
#[derive(Clone, Copy, PartialEq, Eq, Debug)]
pub enum ServerState {
    Learner,
    Follower,
    Candidate,
    Leader,
}

/// A node's vote, log ids and memberships (openraft's `RaftState`).
#[derive(PartialEq, Eq, Debug, Drop)]
pub struct RaftState<NID: NodeId, N: Node> {
    /// The vote.
    pub vote: Vote<NID>,
    /// When the vote was last adopted or heard again, in milliseconds, if known.
    pub time: Option<u64>,
    /// The ids of the log that are kept: after a purge, the last purged id is the first of them.
    pub ids: LogIds<NID>,
    /// The last purged id.
    pub purged: Option<LogId<NID>>,
    /// The purge target: up to where the log is to be purged, at or above the last purged id.
    pub purge_to: Option<LogId<NID>>,
    /// The committed id.
    pub committed: Option<LogId<NID>>,
    /// The last id that was accepted from a leader, with that leader.
    pub accepted_by: Option<(LeaderId<NID>, LogId<NID>)>,
    /// The last snapshot.
    pub snap: SnapshotMeta<NID, N>,
    /// The committed membership.
    pub cm: StoredMembership<NID, N>,
    /// The effective membership: the last one in the log, committed or not (Raft paper, section 6).
    pub em: StoredMembership<NID, N>,
    /// The role of the node.
    pub role: ServerState,
    /// Whether a snapshot is being built.
    pub building: bool,
}

impl<NID: NodeId, N: Node> RaftState<NID, N> {
    /// The state of a new node: a learner with the first vote, no log and no members. Allocates nothing.
    pub fn empty(alloc: Global) -> Self
        ensures { result ≡ empty NID.default_id }
    {
        RaftState {
            vote: Vote::default(),
            time: None,
            ids: LogIds::new(alloc),
            purged: None,
            purge_to: None,
            committed: None,
            accepted_by: None,
            snap: SnapshotMeta {
                last_log_id: None,
                last_membership: StoredMembership::empty(alloc),
                snapshot_id: Text::new(alloc),
            },
            cm: StoredMembership::empty(alloc),
            em: StoredMembership::empty(alloc),
            role: ServerState::Learner,
            building: false,
        }
    }

    /// The vote.
    pub fn vote_ref(&self) -> &Vote<NID>
        ensures { result.now ≡ self.now.vote }
    {
        &self.vote
    }

    /// When the vote was last adopted or heard again, in milliseconds, if known.
    pub fn vote_last_modified(&self) -> Option<u64>
        ensures { result ≡ self.now.time }
    {
        self.time
    }

    /// The last id of the log.
    pub fn last_log_id(&self) -> Option<LogId<NID>>
        ensures { result ≡ last self.now.ids }
    {
        self.ids.last()
    }

    /// The id at an index, if the log has one there.
    pub fn get_log_id(&self, index: u64) -> Option<LogId<NID>>
        ensures { result ≡ at self.now.ids index }
    {
        self.ids.at(index)
    }

    /// The committed id.
    pub fn committed(&self) -> Option<LogId<NID>>
        ensures { result ≡ self.now.committed }
    {
        self.committed
    }

    /// The last id that was accepted from the leader of the vote (openraft's `accepted`).
    pub fn accepted(&self) -> Option<LogId<NID>>
        ensures { result ≡ accepted NID.cmp self.now }
    {
        match &self.accepted_by {
            Some((leader, id)) if *leader == self.vote.leader_id => Some(*id),
            _ => None,
        }
    }

    /// The purge target: up to where the log is to be purged.
    pub fn purge_upto(&self) -> Option<LogId<NID>>
        ensures { result ≡ self.now.purge_to }
    {
        self.purge_to
    }

    /// The last purged id.
    pub fn last_purged_log_id(&self) -> Option<LogId<NID>>
        ensures { result ≡ self.now.purged }
    {
        self.purged
    }

    /// The last id of the last snapshot.
    pub fn snapshot_last_log_id(&self) -> Option<LogId<NID>>
        ensures { result ≡ self.now.snap.last_log_id }
    {
        self.snap.last_log_id
    }

    /// Whether an id is in the log: its index is at or below the committed one, or the log has exactly this id there.
    pub fn has_log_id(&self, id: &LogId<NID>) -> bool
        ensures { result ≡ has_log_id NID.cmp self.now id.now }
    {
        if reaches(&self.committed, id.index) {
            return true;
        }
        match self.ids.at(id.index) {
            Some(held) => held == *id,
            None => false,
        }
    }

    /// Whether the node has voted or has a log.
    pub fn is_initialized(&self) -> bool
        ensures { result ≡ is_initialized NID.cmp NID.default_id self.now }
    {
        !self.ids.is_empty() || self.vote != Vote::default()
    }

    /// Whether a node leads, or is about to: the vote names it, and it is a member.
    pub fn is_leading(&self, id: &NID) -> bool
        ensures { result ≡ is_leading NID.cmp self.now id.now }
    {
        self.vote.leader_id.node_id.cmp(id).is_eq() && self.em.membership.contains(id)
    }

    /// Whether a node is leader: it is leading, and a quorum has granted the vote.
    pub fn is_leader(&self, id: &NID) -> bool
        ensures { result ≡ is_leader NID.cmp self.now id.now }
    {
        self.is_leading(id) && self.vote.committed
    }

    /// The role that a node with this state has in its cluster.
    pub fn calc_server_state(&self, id: &NID) -> ServerState
        ensures { result ≡ server_state NID.cmp self.now id.now }
    {
        if self.is_leader(id) {
            ServerState::Leader
        } else if self.is_leading(id) {
            ServerState::Candidate
        } else if self.em.membership.is_voter(id) {
            ServerState::Follower
        } else {
            ServerState::Learner
        }
    }

    /// The first and the last id of the last id's leader: one id if they are the same, none if the log is empty.
    pub fn by_last_leader(&self) -> Result<Vec<LogId<NID>>, AllocError>
        ensures { IfOk result (λ ids. ids.items ≡ by_last_leader NID.cmp self.now.ids) }
    {
        let mut found = Vec::new(self.ids.allocator());
        let Some(last) = self.ids.last() else {
            return Ok(found);
        };
        if let Some(first) = self.ids.first_of(&last.leader_id) {
            if first.index != last.index {
                found.push(first)?;
            }
        }
        found.push(last)?;
        Ok(found)
    }

    /// Appends the ids of entries. Out of memory, nothing changes.
    pub fn extend_log_ids<E: RaftEntry<NID, N>>(&mut self, entries: &[E]) -> Result<(), AllocError>
        ensures ok { OnOk result (self.new ≡ extend self.old (map E.id_of entries.now)) }
        ensures err { OnErr result (self.new ≡ self.old) }
    {
        let ids = log_ids(self.ids.allocator(), entries)?;
        self.ids.extend(&ids)
    }

    /// Drops the ids at and above an index. If the effective membership is there, the committed one takes effect
    /// instead; answers whether it does. Out of memory, nothing changes.
    pub fn truncate(&mut self, index: u64) -> Result<bool, AllocError>
        ensures ok { OnOk result (self.new ≡ truncate self.old index) }
        ensures answer { IfOk result (λ undone. undone ≡ undoes_membership self.old index) }
        ensures err { OnErr result (self.new ≡ self.old) }
    {
        let undone = reaches(&self.em.log_id, index);
        if undone {
            self.em = self.cm.copy()?;
        }
        self.ids.truncate(index);
        Ok(undone)
    }

    /// Records an id as accepted from the leader of the vote, if it is above the one recorded before.
    pub fn accept(&mut self, id: &Option<LogId<NID>>)
        ensures { self.new ≡ accept NID.cmp self.old id.now }
    {
        if let Some(last) = id
            && id > &self.accepted()
        {
            self.accepted_by = Some((self.vote.leader_id, *last));
        }
    }

    /// Commits up to an id, if it is above the committed one; returns the old committed id. The effective membership
    /// becomes the committed one if its id is at or below. Out of memory, nothing changes.
    pub fn commit(
        &mut self,
        id: &Option<LogId<NID>>,
    ) -> Result<Option<Option<LogId<NID>>>, AllocError>
        ensures ok { OnOk result (self.new ≡ commit NID.cmp self.old id.now) }
        ensures answer { IfOk result (λ old. old ≡ (if commits NID.cmp self.old id.now then Some self.old.committed else None)) }
        ensures err { OnErr result (self.new ≡ self.old) }
    {
        let old = self.committed;
        if *id > old {
            self.settle_membership(id)?;
            self.committed = *id;
            Ok(Some(old))
        } else {
            Ok(None)
        }
    }

    /// Makes the effective membership the committed one, if its id is at or below this one.
    fn settle_membership(&mut self, id: &Option<LogId<NID>>) -> Result<(), AllocError>
        ensures ok { OnOk result (self.new ≡ settle NID.cmp self.old id.now) }
        ensures err { OnErr result (self.new ≡ self.old) }
    {
        if is_upto(&self.em.log_id, id) {
            self.cm = self.em.copy()?;
        }
        Ok(())
    }

    /// Puts a membership into effect; the one before it becomes the committed one.
    pub fn append_membership(&mut self, membership: StoredMembership<NID, N>)
        ensures { self.new ≡ append_membership self.old membership }
    {
        self.cm = mem::replace(&mut self.em, membership);
    }

    /// Purges the log up to an id: drops the ids below it; if its index is past the last one's, it is the only one left.
    /// Out of memory, nothing changes.
    pub fn purge_log(&mut self, id: &LogId<NID>) -> Result<(), AllocError>
        ensures ok { OnOk result (self.new ≡ purge NID.cmp self.old id.now) }
        ensures err { OnErr result (self.new ≡ self.old) }
    {
        if reaches(&self.ids.last(), id.index) {
            self.ids.drop_below(id.index);
        } else {
            let mut only = LogIds::new(self.ids.allocator());
            only.push(*id)?;
            self.ids = only;
        }
        self.purged = Some(*id);
        Ok(())
    }

    /// The leader that this node knows, with a copy of its data: the node of a committed vote, if it is a member. Out
    /// of memory, there is no copy.
    pub fn forward_to_leader(&self) -> (Option<NID>, Option<N>)
        ensures id { result.0 ≡ known_leader NID.cmp self.now }
        ensures node { OnSome result.1 (result.1 ≡ known_leader_node NID.cmp self.now) }
    {
        let id = self.vote.leader_id.node_id;
        if self.vote.committed && self.em.membership.contains(&id) {
            (Some(id), self.em.membership.copy_node(&id))
        } else {
            (None, None)
        }
    }
}
