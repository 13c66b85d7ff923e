//! A node that proposes entries.

ghost use Rattle.std.specs.Prelude.{◌≡◌, ◌+◌, ◌<◌, ◌≤◌, ◌^◌, IfOk, IfErr, OnOk, nat_lt, length, true, false, None, Some};
ghost use Rattle.raft_progress.specs.raft_state.Order.{next};
ghost use Rattle.raft_progress.specs.raft_state.Log.{last};
ghost use Rattle.raft_progress.specs.Table.{learners_beside};
ghost use Rattle.raft_progress.specs.raft_error.declared.error.EngineError.TheVariants.{IndexEnd};
ghost use Rattle.raft_proposer.specs.Joint.{u64_max};
ghost use Rattle.raft_proposer.specs.Leader.{blank_id, leader_over, assigned, last_assigned, numbered, last_quorum_acked, granted_time};

use raft_progress::raft_error::EngineError;
use raft_progress::raft_progress_entry::ProgressEntry;
use raft_progress::raft_state::{
    LeaderId, LogId, NodeId, RaftEntry, RaftTypeConfig, Vote, next_index,
};
use raft_progress::{QuorumSet, VecProgress};
use std::alloc::{AllocError, Global};

/// A node that proposes entries (Raft paper, section 5.3; openraft's `Leader`).
#[derive(Debug, Drop)]
#[derive_where(PartialEq, Eq; QS)]
pub struct Leader<C: RaftTypeConfig, QS: QuorumSet<C::NodeId>> {
    /// The vote under which it leads.
    pub vote: Vote<C::NodeId>,
    /// The last log id of its log. To be changed by `assign_log_ids` and `assign` alone; contracts of other crates
    /// mention it.
    pub last_log_id: Option<LogId<C::NodeId>>,
    /// The id of its no-op entry, which it proposes first.
    pub noop_log_id: LogId<C::NodeId>,
    /// How far each node's log is known to match.
    pub progress: VecProgress<C::NodeId, ProgressEntry<C::NodeId>, Option<LogId<C::NodeId>>, QS>,
    /// When the latest request that each node has acknowledged was sent, in milliseconds; none before the first.
    pub clock_progress: VecProgress<C::NodeId, Option<u64>, Option<u64>, QS>,
}

impl<C: RaftTypeConfig, QS: QuorumSet<C::NodeId>> Leader<C, QS> {
    /// Makes a leader under a committed vote, given the first and the last log id of the log's last leader.
    ///
    /// Its no-op entry gets the first given id if that is of this leader, else the index after the last. A learner that
    /// is also a voter counts as a voter, and repeated ids count once. Source: openraft's `Leader::new`.
    pub fn new(
        alloc: Global,
        vote: Vote<C::NodeId>,
        quorum_set: QS,
        learner_ids: &[C::NodeId],
        last_leader_log_ids: &[LogId<C::NodeId>],
    ) -> Result<Self, AllocError>
        requires { next (last last_leader_log_ids.now) < 2 ^ 64 }
        ensures { IfOk result (λ l. QS.copy_gives quorum_set l.clock_progress.set
            × (l ≡ leader_over C.NodeId.cmp vote quorum_set l.clock_progress.set (QS.members quorum_set) (learners_beside C.NodeId.cmp (QS.members quorum_set) learner_ids.now) last_leader_log_ids.now)) }
    {
        let last_log_id = last_leader_log_ids.last().copied();
        let noop_log_id = blank_id(&vote, last_leader_log_ids);
        let clock_quorum_set = copy_of::<C, QS>(alloc, &quorum_set)?;
        let entry = ProgressEntry::empty(next_index(&last_log_id));
        let progress = VecProgress::new(alloc, quorum_set, learner_ids, entry)?;
        let clock_progress = VecProgress::new(alloc, clock_quorum_set, learner_ids, None)?;
        Ok(Leader {
            vote,
            last_log_id,
            noop_log_id,
            progress,
            clock_progress,
        })
    }

    /// The id of its no-op entry, which it proposes first.
    pub fn noop_log_id(&self) -> &LogId<C::NodeId>
        ensures { result.now ≡ self.now.noop_log_id }
    {
        &self.noop_log_id
    }

    /// The last log id, proposed entries included.
    pub fn last_log_id(&self) -> Option<LogId<C::NodeId>>
        ensures { result ≡ self.now.last_log_id }
    {
        self.last_log_id
    }

    /// The vote under which it leads.
    pub fn vote_ref(&self) -> &Vote<C::NodeId>
        ensures { result.now ≡ self.now.vote }
    {
        &self.vote
    }

    /// Gives entries this leader's id and the indexes after the last. Allocates nothing.
    ///
    /// Refusal: `IndexEnd`, with nothing changed, if the last would get the greatest index or one above it. Source:
    /// openraft's `assign_log_ids`.
    pub fn assign_log_ids(
        &mut self,
        entries: &mut [C::Entry],
    ) -> Result<(), EngineError<C::NodeId, C::Node>>
        ensures done { OnOk result ((nat_lt u64_max (next self.old.last_log_id + length entries.old) ≡ false)
            × (entries.new ≡ assigned C.Entry.RaftEntry.own self.old entries.old)
            × (self.new ≡ record self.old { last_log_id = last_assigned self.old entries.old })) }
        ensures refused { IfErr result (λ e. (e ≡ IndexEnd) × (nat_lt u64_max (next self.old.last_log_id + length entries.old) ≡ true)
            × (entries.new ≡ entries.old) × (self.new ≡ self.old)) }
    {
        if self.is_at_end(entries.len()) {
            return Err(EngineError::IndexEnd);
        }
        self.assign(entries);
        Ok(())
    }

    /// Whether the last of so many entries would get the greatest index or one above it.
    pub fn is_at_end(&self, count: usize) -> bool
        ensures { result ≡ nat_lt u64_max (next self.now.last_log_id + count) }
    {
        match self.last_log_id {
            Some(id) => u64::MAX.saturating_sub(id.index) <= count as u64,
            None => false,
        }
    }

    /// Gives entries this leader's id and the indexes after the last.
    pub fn assign(&mut self, entries: &mut [C::Entry])
        requires { next self.old.last_log_id + length entries.old < 2 ^ 64 }
        ensures entries { entries.new ≡ assigned C.Entry.RaftEntry.own self.old entries.old }
        ensures leader { self.new ≡ record self.old { last_log_id = last_assigned self.old entries.old } }
    {
        let count = entries.len() as u64;
        if count == 0 {
            return;
        }
        let first = next_index(&self.last_log_id);
        number::<C>(self.vote.leader_id, first, entries);
        self.last_log_id = Some(LogId::new(self.vote.leader_id, first + (count - 1)));
    }

    /// Raises this node's own clock to `now`, in milliseconds, and returns the last moment that a quorum has
    /// acknowledged.
    ///
    /// Allocates nothing. Source: openraft's `last_quorum_acked_time`.
    #[tactic(auto, using(crate::proofs::Tables::increased_absent))]
    pub fn last_quorum_acked_time(&mut self, now: u64) -> Option<u64>
        ensures leader { self.new ≡ last_quorum_acked C.NodeId.cmp self.old now }
        ensures answer { result ≡ granted_time C.NodeId.cmp QS.has_quorum self.new }
    {
        let node_id = self.vote.leader_id.node_id;
        let _known = self.clock_progress.increase_to(&node_id, Some(now)).is_ok();
        *self.clock_progress.granted()
    }

    /// A leader with copies of both tables.
    pub fn copy(&self) -> Result<Self, AllocError>
        ensures { IfOk result (λ l. QS.copy_gives self.now.progress.set l.progress.set × QS.copy_gives self.now.clock_progress.set l.clock_progress.set
            × (l ≡ record self.now { progress = record self.now.progress { set = l.progress.set }; clock_progress = record self.now.clock_progress { set = l.clock_progress.set } })) }
    {
        Ok(Leader {
            vote: self.vote,
            last_log_id: self.last_log_id,
            noop_log_id: self.noop_log_id,
            progress: self.progress.copy()?,
            clock_progress: self.clock_progress.copy()?,
        })
    }
}

/// The id of a leader's no-op entry.
fn blank_id<NID: NodeId>(vote: &Vote<NID>, ids: &[LogId<NID>]) -> LogId<NID>
    requires { next (last ids.now) < 2 ^ 64 }
    ensures { result ≡ blank_id NID.cmp vote.now ids.now }
{
    match ids.first() {
        Some(first) if first.leader_id == vote.leader_id => *first,
        _ => LogId::new(vote.leader_id, next_index(&ids.last().copied())),
    }
}

/// A quorum set with the same ids and quorums.
fn copy_of<C: RaftTypeConfig, QS: QuorumSet<C::NodeId>>(
    alloc: Global,
    quorum_set: &QS,
) -> Result<QS, AllocError>
    ensures copy { IfOk result (λ copied. QS.copy_gives quorum_set.now copied) }
    ensures ids { IfOk result (λ copied. QS.members copied ≡ QS.members quorum_set.now) }
{
    let copied = quorum_set.copy(alloc)?;
    Ok(copied)
}

/// Gives entries a leader's id and the indexes from the first on.
#[tactic(auto, using(crate::proofs::Numbered::numbered_more))]
fn number<C: RaftTypeConfig>(leader_id: LeaderId<C::NodeId>, first: u64, entries: &mut [C::Entry])
    requires { first + length entries.old < 2 ^ 64 }
    ensures { entries.new ≡ numbered C.Entry.RaftEntry.own leader_id first entries.old }
{
    let mut index = first;
    for entry in entries.iter_mut() {
        entry.set_log_id(&LogId::new(leader_id, index));
        index += 1;
    }
}
