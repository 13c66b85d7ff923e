//! Leader ids, log ids and votes.

ghost use Rattle.std.specs.Prelude.{◌≡◌, ◌<◌, ◌^◌, nat_lt, true, false, if◌then◌else◌};
ghost use Rattle.std.specs.Ordering.{is_eq, is_le};
ghost use Rattle.raft_state.specs.Order.{leader_id_cmp, last_id_cmp, next};

use crate::node::NodeId;
use std::fmt;

/// A leader's id: its term, then its node. One term may have several leaders (openraft's `leader_id_adv`).
#[derive(Clone, Copy, PartialEq, Eq, PartialOrd, Ord, Hash, Default, Debug)]
pub struct LeaderId<NID> {
    pub term: u64,
    pub node_id: NID,
}

/// The leader id of a committed vote (openraft's name for it in log ids).
pub type CommittedLeaderId<NID> = LeaderId<NID>;

/// A log entry's id: the leader that proposed it, then its index (openraft's `LogId`).
#[derive(Clone, Copy, PartialEq, Eq, PartialOrd, Ord, Hash, Default, Debug)]
pub struct LogId<NID> {
    pub leader_id: LeaderId<NID>,
    pub index: u64,
}

/// A vote: the leader id that a node votes for, and whether a quorum has granted it (openraft's `Vote`).
#[derive(Clone, Copy, PartialEq, Eq, PartialOrd, Ord, Hash, Default, Debug)]
pub struct Vote<NID> {
    pub leader_id: LeaderId<NID>,
    pub committed: bool,
}

impl<NID: NodeId> LeaderId<NID> {
    /// The leader id of a term and a node.
    pub fn new(term: u64, node_id: NID) -> Self
        ensures { result ≡ record { term = term; node_id = node_id } }
    {
        LeaderId { term, node_id }
    }

    /// The node that this leader id names: always one.
    pub fn voted_for(&self) -> Option<NID>
        ensures { result ≡ Some self.now.node_id }
    {
        Some(self.node_id)
    }
}

impl<NID: NodeId> LogId<NID> {
    /// The id of this leader's entry at this index.
    pub fn new(leader_id: CommittedLeaderId<NID>, index: u64) -> Self
        ensures { result ≡ record { leader_id = leader_id; index = index } }
    {
        LogId { leader_id, index }
    }

    /// The leader that proposed the entry.
    pub fn committed_leader_id(&self) -> &CommittedLeaderId<NID>
        ensures { result.now ≡ self.now.leader_id }
    {
        &self.leader_id
    }
}

impl<NID: NodeId> Vote<NID> {
    /// A vote for a node in a term, not granted by a quorum yet.
    pub fn new(term: u64, node_id: NID) -> Self
        ensures { result ≡ record { leader_id = record { term = term; node_id = node_id }; committed = false } }
    {
        Vote {
            leader_id: LeaderId::new(term, node_id),
            committed: false,
        }
    }

    /// A vote for a node in a term that a quorum has granted.
    pub fn new_committed(term: u64, node_id: NID) -> Self
        ensures { result ≡ record { leader_id = record { term = term; node_id = node_id }; committed = true } }
    {
        Vote {
            leader_id: LeaderId::new(term, node_id),
            committed: true,
        }
    }

    /// The leader id that the vote is for.
    pub fn leader_id(&self) -> &LeaderId<NID>
        ensures { result.now ≡ self.now.leader_id }
    {
        &self.leader_id
    }

    /// Whether a quorum has granted the vote.
    pub fn is_committed(&self) -> bool
        ensures { result ≡ self.now.committed }
    {
        self.committed
    }

    /// Marks the vote as granted by a quorum.
    pub fn commit(&mut self)
        ensures { self.new ≡ record self.old { committed = true } }
    {
        self.committed = true;
    }

    /// Whether the vote is for this leader, committed or not.
    pub fn is_same_leader(&self, leader_id: &CommittedLeaderId<NID>) -> bool
        ensures { result ≡ is_eq (leader_id_cmp NID.cmp self.now.leader_id leader_id.now) }
    {
        self.leader_id == *leader_id
    }

    /// The leader of the vote, if a quorum has granted it.
    pub fn committed_leader_id(&self) -> Option<CommittedLeaderId<NID>>
        ensures { result ≡ (if self.now.committed then Some self.now.leader_id else None) }
    {
        if self.committed {
            Some(self.leader_id)
        } else {
            None
        }
    }
}

/// Whether a log id, or none, is at or below another.
pub(crate) fn is_upto<NID: NodeId>(id: &Option<LogId<NID>>, other: &Option<LogId<NID>>) -> bool
    ensures { result ≡ is_le (last_id_cmp NID.cmp id.now other.now) }
{
    id <= other
}

/// Whether a log that ends with this id reaches an index.
pub fn reaches<NID: NodeId>(last: &Option<LogId<NID>>, index: u64) -> bool
    ensures { result ≡ nat_lt index (next last.now) }
{
    match last {
        Some(id) => index <= id.index,
        None => false,
    }
}

/// The index after a log id, 0 without one (openraft's `LogIdOptionExt::next_index`).
pub fn next_index<NID: NodeId>(last: &Option<LogId<NID>>) -> u64
    requires { next last.now < 2 ^ 64 }
    ensures { result ≡ next last.now }
{
    match last {
        Some(id) => id.index + 1,
        None => 0,
    }
}

impl<NID: NodeId> fmt::Display for LeaderId<NID> {
    ghost use Rattle.std.specs.Option.{option_map};
    ghost use Rattle.raft_state.specs.Texts.{leader_id_text};

    ghost output = { λ id. option_map (λ node. leader_id_text id.term node) (NID.output id.node_id) };

    fn fmt<W: fmt::Write>(&self, f: &mut fmt::Formatter<W>) -> fmt::Result {
        let term = self.term;
        let node_id = self.node_id;
        write!(f, "{term}-{node_id}")
    }
}

impl<NID: NodeId> fmt::Display for LogId<NID> {
    ghost use Rattle.std.specs.Option.{option_map};
    ghost use Rattle.raft_state.specs.Texts.{log_id_text};

    ghost output = { λ id. option_map (λ node. log_id_text id.leader_id.term node id.index) (NID.output id.leader_id.node_id) };

    fn fmt<W: fmt::Write>(&self, f: &mut fmt::Formatter<W>) -> fmt::Result {
        let leader_id = self.leader_id;
        let index = self.index;
        write!(f, "{leader_id}-{index}")
    }
}

impl<NID: NodeId> fmt::Display for Vote<NID> {
    ghost use Rattle.std.specs.Option.{option_map};
    ghost use Rattle.raft_state.specs.Texts.{vote_text};

    ghost output = { λ vote. option_map (λ node. vote_text vote.leader_id.term node vote.committed) (NID.output vote.leader_id.node_id) };

    fn fmt<W: fmt::Write>(&self, f: &mut fmt::Formatter<W>) -> fmt::Result {
        let leader_id = self.leader_id;
        let mark = if self.committed { "Q" } else { "-" };
        write!(f, "<{leader_id}:{mark}>")
    }
}
