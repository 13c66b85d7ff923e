//! A node that asks for votes.

ghost use Rattle.std.specs.Prelude.{◌≡◌, ◌<◌, ◌^◌, IfOk, IfErr, true, false, []};
ghost use Rattle.std.specs.Iterator.{YieldsFirst, item_count};
ghost use Rattle.std.specs.Option.{option_to_list};
ghost use Rattle.raft_progress.specs.raft_state.Order.{next};
ghost use Rattle.raft_progress.specs.raft_state.Sorted.{has_id};
ghost use Rattle.raft_progress.specs.Table.{is_in, learners_beside, row_ids, table_of};
ghost use Rattle.raft_progress.specs.raft_error.declared.error.EngineError.TheVariants.{UnknownTarget};
ghost use Rattle.raft_proposer.specs.Candidate.{candidate_with, grant_by, is_granted, as_committed};
ghost use Rattle.raft_proposer.specs.Granters.{granters, granters_left};
ghost use Rattle.raft_proposer.specs.Leader.{leader_over};
ghost use Rattle.raft_proposer.specs.Texts.{grant_text};
ghost use Rattle.std.specs.Fmt.{DisplaysOnOk};

use crate::leader::Leader;
use raft_progress::raft_error::EngineError;
use raft_progress::raft_state::{
    DisplayOption, Items, LogId, NodeId, RaftTypeConfig, Vote, sorted_ids,
};
use raft_progress::{ProgressIter, QuorumSet, VecProgress};
use std::alloc::{AllocError, Global};
use std::fmt;
use std::marker::Model;

/// A node that asks for votes (Raft paper, section 5.2; openraft's `Candidate`).
///
/// Its table holds the voters alone; the learners are kept for the leader that it becomes.
#[derive(Debug, Drop)]
#[derive_where(PartialEq, Eq; QS)]
pub struct Candidate<C: RaftTypeConfig, QS: QuorumSet<C::NodeId>> {
    starting_time: u64,
    vote: Vote<C::NodeId>,
    last_log_id: Option<LogId<C::NodeId>>,
    progress: VecProgress<C::NodeId, bool, bool, QS>,
    learner_ids: Items<C::NodeId>,
}

impl<C: RaftTypeConfig, QS: QuorumSet<C::NodeId>> Model for Candidate<C, QS> {
    ghost use Rattle.std.specs.Prelude.{◌≡◌};
    ghost use Rattle.raft_progress.specs.Table.{row_ids, learners_beside};
    ghost use Rattle.raft_proposer.specs.Candidacy.{Candidacy};

    ghost Value = { Candidacy C.NodeId QS };

    ghost view = { λ c. record { starting_time = c.starting_time; vote = c.vote; last_log_id = c.last_log_id; progress = c.progress; learner_ids = c.learner_ids } };

    ghost inverse = { λ c. record { starting_time = c.starting_time; vote = c.vote; last_log_id = c.last_log_id; progress = c.progress; learner_ids = c.learner_ids } };

    // The table holds the quorum set's ids, and the learners ascend and are no voters.
    ghost invariant = { λ c.
        (row_ids c.progress ≡ QS.members c.progress.set)
        × (learners_beside C.NodeId.cmp (QS.members c.progress.set) c.learner_ids ≡ c.learner_ids) };
}

/// The voters that have granted a candidate, in its table's order (openraft's `granters`).
#[derive(Drop)]
pub struct GrantersIter<'a, NID> {
    inner: ProgressIter<'a, NID, bool>,
}

impl<NID: Copy> Iterator for GrantersIter<'_, NID> {
    type Item = NID;

    ghost next_gives = { YieldsFirst granters_left };

    ghost remaining = { item_count granters_left };

    fn next(&mut self) -> Option<NID> {
        while let Some(row) = self.inner.next() {
            if row.1 {
                return Some(row.0);
            }
        }
        None
    }
}

impl<C: RaftTypeConfig, QS: QuorumSet<C::NodeId>> Candidate<C, QS> {
    /// Makes a candidate that has no grant. A learner that is also a voter counts as a voter, and repeated ids count
    /// once. `starting_time` is in milliseconds.
    ///
    /// Source: openraft's `Candidate::new`.
    pub fn new(
        alloc: Global,
        starting_time: u64,
        vote: Vote<C::NodeId>,
        last_log_id: Option<LogId<C::NodeId>>,
        quorum_set: QS,
        learner_ids: &[C::NodeId],
    ) -> Result<Self, AllocError>
        ensures { IfOk result (λ c. c ≡ candidate_with starting_time vote last_log_id quorum_set (QS.members quorum_set) (learners_beside C.NodeId.cmp (QS.members quorum_set) learner_ids.now)) }
    {
        let learner_ids = ids_beside::<C, QS>(alloc, &quorum_set, learner_ids)?;
        let progress = grants_of::<C, QS>(alloc, quorum_set)?;
        Ok(Candidate {
            starting_time,
            vote,
            last_log_id,
            progress,
            learner_ids,
        })
    }

    /// The vote that it asks for.
    pub fn vote_ref(&self) -> &Vote<C::NodeId>
        ensures { result.now ≡ self.now.vote }
    {
        &self.vote
    }

    /// The last log id when the election began.
    pub fn last_log_id(&self) -> Option<LogId<C::NodeId>>
        ensures { result ≡ self.now.last_log_id }
    {
        self.last_log_id
    }

    /// What each voter has granted.
    pub fn progress(&self) -> &VecProgress<C::NodeId, bool, bool, QS>
        ensures { result.now ≡ self.now.progress }
    {
        &self.progress
    }

    /// Counts the grant of a voter, and answers whether a quorum has granted. Allocates nothing.
    ///
    /// Refusal: `UnknownTarget`, with nothing changed, if the node is no voter. Source: openraft's `grant_by`.
    #[tactic(auto, using(crate::proofs::Tables::grant_rises, crate::proofs::Tables::row_ids_updated))]
    pub fn grant_by(&mut self, target: &C::NodeId) -> Result<bool, EngineError<C::NodeId, C::Node>>
        ensures done { IfOk result (λ granted. (is_in C.NodeId.cmp self.old.progress target.now ≡ true) × (self.new ≡ grant_by C.NodeId.cmp self.old target.now) × (granted ≡ is_granted QS.has_quorum self.new)) }
        ensures refused { IfErr result (λ e. (is_in C.NodeId.cmp self.old.progress target.now ≡ false) × (e ≡ UnknownTarget) × (self.new ≡ self.old)) }
    {
        if self.progress.update(target, true).is_ok() {
            Ok(*self.progress.granted())
        } else {
            Err(EngineError::UnknownTarget)
        }
    }

    /// Whether a quorum would have granted with this voter. Changes and allocates nothing.
    pub fn would_grant(&mut self, target: &C::NodeId) -> bool
        ensures value { result ≡ is_granted QS.has_quorum (grant_by C.NodeId.cmp self.old target.now) }
        ensures same { self.new ≡ self.old }
    {
        self.progress.granted_with(target, true)
    }

    /// The voters that have granted, in the table's order: ascending, each once. Allocates nothing. Source: openraft's
    /// `granters`.
    pub fn granters(&self) -> GrantersIter<'_, C::NodeId>
        ensures { granters_left result ≡ granters self.now }
    {
        GrantersIter {
            inner: self.progress.iter(),
        }
    }

    /// A candidate with a copy of the table.
    pub fn copy(&self) -> Result<Self, AllocError>
        ensures { IfOk result (λ c. QS.copy_gives self.now.progress.set c.progress.set
            × (c ≡ record self.now { progress = record self.now.progress { set = c.progress.set } })) }
    {
        Ok(Candidate {
            starting_time: self.starting_time,
            vote: self.vote,
            last_log_id: self.last_log_id,
            progress: self.progress.copy()?,
            learner_ids: self.learner_ids.copy()?,
        })
    }

    /// The leader that the candidate becomes: its vote, committed, and its voters and learners.
    ///
    /// Source: openraft's `into_leader`.
    pub fn into_leader(self, alloc: Global) -> Result<Leader<C, QS>, AllocError>
        requires { next self.last_log_id < 2 ^ 64 }
        ensures { IfOk result (λ l. QS.copy_gives self.progress.set l.clock_progress.set
            × (l ≡ leader_over C.NodeId.cmp (as_committed self.vote) self.progress.set l.clock_progress.set (row_ids self.progress) self.learner_ids (option_to_list self.last_log_id))) }
    {
        let Candidate {
            vote,
            last_log_id,
            progress,
            learner_ids,
            ..
        } = self;
        let mut vote = vote;
        vote.commit();
        let quorum_set = progress.into_quorum_set();
        leader_after(alloc, vote, quorum_set, learner_ids.as_slice(), last_log_id)
    }
}

impl<C: RaftTypeConfig, QS: QuorumSet<C::NodeId>> fmt::Display for Candidate<C, QS> {
    ghost use Rattle.raft_proposer.specs.Texts.{candidate_text};

    ghost output = { candidate_text C.NodeId.output };

    fn fmt<W: fmt::Write>(&self, f: &mut fmt::Formatter<W>) -> fmt::Result {
        let vote = self.vote;
        let time = self.starting_time;
        let last = DisplayOption(self.last_log_id);
        let grants = Grants(&self.progress);
        write!(
            f,
            "{{{vote}@{time}, last_log_id:{last} progress:{{{grants}}}}}"
        )
    }
}

/// What each voter has granted, which prints as `1: true, 2: false`.
#[derive(Drop)]
struct Grants<'a, NID: NodeId, QS: QuorumSet<NID>>(&'a VecProgress<NID, bool, bool, QS>);

impl<NID: NodeId, QS: QuorumSet<NID>> fmt::Display for Grants<'_, NID, QS> {
    ghost use Rattle.raft_proposer.specs.Texts.{grants_text};

    ghost output = { λ grants. grants_text NID.output grants.0.now.rows };

    fn fmt<W: fmt::Write>(&self, f: &mut fmt::Formatter<W>) -> fmt::Result {
        let mut rows = self.0.iter();
        let Some(first) = rows.next() else {
            return Ok(());
        };
        write_grant(f, *first)?;
        for row in rows {
            f.write_str(", ")?;
            write_grant(f, *row)?;
        }
        Ok(())
    }
}

/// Writes a voter and whether it has granted.
fn write_grant<NID: NodeId, W: fmt::Write>(
    f: &mut fmt::Formatter<W>,
    row: (NID, bool),
) -> fmt::Result
    ensures { DisplaysOnOk W.write_str_gives f.old result (grant_text NID.output row) f.new }
{
    let (id, granted) = row;
    write!(f, "{id}: {granted}")
}

/// The leader of a log that ends with this id.
fn leader_after<C: RaftTypeConfig, QS: QuorumSet<C::NodeId>>(
    alloc: Global,
    vote: Vote<C::NodeId>,
    quorum_set: QS,
    learner_ids: &[C::NodeId],
    last_log_id: Option<LogId<C::NodeId>>,
) -> Result<Leader<C, QS>, AllocError>
    requires { next last_log_id < 2 ^ 64 }
    ensures { IfOk result (λ l. QS.copy_gives quorum_set l.clock_progress.set
        × (l ≡ leader_over C.NodeId.cmp vote quorum_set l.clock_progress.set (QS.members quorum_set) (learners_beside C.NodeId.cmp (QS.members quorum_set) learner_ids.now) (option_to_list last_log_id))) }
{
    let ids = ids_of_last(alloc, last_log_id)?;
    Leader::new(alloc, vote, quorum_set, learner_ids, &ids)
}

/// The last id alone, if there is one.
fn ids_of_last<NID: NodeId>(
    alloc: Global,
    last_log_id: Option<LogId<NID>>,
) -> Result<Vec<LogId<NID>>, AllocError>
    ensures { IfOk result (λ ids. ids.items ≡ option_to_list last_log_id) }
{
    let mut ids = Vec::new(alloc);
    if let Some(id) = last_log_id {
        ids.push(id)?;
    }
    Ok(ids)
}

/// A table without a grant.
#[tactic(auto, using(crate::proofs::Tables::ids_of_voters))]
fn grants_of<C: RaftTypeConfig, QS: QuorumSet<C::NodeId>>(
    alloc: Global,
    quorum_set: QS,
) -> Result<VecProgress<C::NodeId, bool, bool, QS>, AllocError>
    ensures table { IfOk result (λ t. t ≡ table_of (λ g. g) quorum_set (QS.members quorum_set) [] false) }
    ensures ids { IfOk result (λ t. row_ids t ≡ QS.members quorum_set) }
{
    let grants = VecProgress::new(alloc, quorum_set, &[], false)?;
    Ok(grants)
}

/// The ids that aren't in a quorum set, ascending, each once.
#[tactic(auto, using(crate::proofs::Beside::stay_beside))]
fn ids_beside<C: RaftTypeConfig, QS: QuorumSet<C::NodeId>>(
    alloc: Global,
    quorum_set: &QS,
    ids: &[C::NodeId],
) -> Result<Items<C::NodeId>, AllocError>
    ensures ids { IfOk result (λ beside. beside ≡ learners_beside C.NodeId.cmp (QS.members quorum_set.now) ids.now) }
    ensures again { IfOk result (λ beside. learners_beside C.NodeId.cmp (QS.members quorum_set.now) beside ≡ beside) }
{
    let voters = quorum_set.ids(alloc)?;
    let beside = ids_without::<C>(alloc, ids, &voters)?;
    Ok(beside)
}

/// The ids that are none of the others, ascending, each once.
fn ids_without<C: RaftTypeConfig>(
    alloc: Global,
    ids: &[C::NodeId],
    others: &[C::NodeId],
) -> Result<Items<C::NodeId>, AllocError>
    ensures { IfOk result (λ left. left ≡ learners_beside C.NodeId.cmp others.now ids.now) }
{
    let ordered = sorted_ids(alloc, Vec::from_slice(alloc, ids)?)?;
    let left = ordered
        .as_slice()
        .iter()
        .copied()
        .filter(|id| !has_id(others, id))
        .collect(alloc)?;
    Ok(Items::from_vec(left))
}

/// Whether an id is among these.
fn has_id<NID: NodeId>(ids: &[NID], id: &NID) -> bool
    ensures { result ≡ has_id NID.cmp ids.now id.now }
{
    ids.iter().any(|other| id.cmp(other).is_eq())
}
