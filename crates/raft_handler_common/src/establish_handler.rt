//! How a candidate becomes the leader by votes.

ghost use Rattle.std.specs.Prelude.{◌≡◌, ◌+◌, ◌^◌, ◌<◌, OnOk, OnErr, IfOk, IfErr, IfSome, true, false, if◌then◌else◌};
ghost use Rattle.std.specs.Option.{option_map, option_or};
ghost use Rattle.raft_state.specs.Order.{next};
ghost use Rattle.raft_error.specs.declared.error.EngineError.TheVariants.{OutOfMemory, Spent};
ghost use Rattle.raft_proposer.specs.Candidate.{into_leader};
ghost use Rattle.raft_steps.specs.Engine.{may_establish};
ghost use Rattle.raft_steps.specs.EstablishHandler.{outvotes, established};
ghost use Rattle.raft_handler_common.specs.Handlers.{view_of_establish};
ghost use Rattle.raft_steps.specs.Invariants.{IsSoundUnlessSpent, LeaderFits};
ghost use Rattle.raft_steps.specs.Parts.{unboxed};

use crate::order::is_lower_vote;
use raft_command::{EngineConfig, EngineOutput};
use raft_error::EngineError;
use raft_proposer::{Candidate, Leader};
use raft_state::{NodeId, RaftState, RaftTypeConfig};
use raft_steps::raft_progress::Joint;
use std::alloc::{AllocError, Global};

/// Makes a candidate with a quorum the leader (openraft's `EstablishHandler`; the state and the queue are this
/// project's).
#[derive(Drop)]
pub struct EstablishHandler<'x, C: RaftTypeConfig> {
    pub config: &'x EngineConfig<C::NodeId>,
    pub state: &'x RaftState<C::NodeId, C::Node>,
    pub output: &'x mut EngineOutput<C>,
    pub leader: &'x mut Option<Box<Leader<C, Joint<C::NodeId>>>>,
}

impl<'x, C: RaftTypeConfig> EstablishHandler<'x, C> {
    /// Uses up a candidate. If its vote is still the state's and no leader's vote is at or above it, makes its leader
    /// and answers it; else answers none. Queues nothing. The candidate must be sound.
    ///
    /// Refusal: `Spent` after `OutOfMemory`. Source: openraft's `establish`; Raft paper, section 5.2.
    pub fn establish(
        self,
        candidate: Candidate<C, Joint<C::NodeId>>,
    ) -> Result<Option<&'x mut Leader<C, Joint<C::NodeId>>>, EngineError<C::NodeId, C::Node>>
        requires { IsSoundUnlessSpent C.NodeId.cmp self.config.now (record (view_of_establish self) { candidate = Some candidate }) }
        ensures answer { IfOk result (λ made. (self.entry.output.now.spent ≡ false)
            × (option_map (λ l. l.now) made ≡ established C.NodeId.cmp self.entry.state.now (unboxed self.entry.leader.now) candidate)) }
        ensures fits { IfOk result (λ made. IfSome made (λ l. LeaderFits C.NodeId.cmp self.entry.config.now.id self.entry.state.now.ids self.entry.state.now.purged self.entry.state.now.em.membership l.now)) }
        ensures refused { IfErr result (λ e. e ≡ (if self.entry.output.now.spent then Spent else OutOfMemory)) }
    {
        let EstablishHandler {
            state,
            output,
            leader,
            ..
        } = self;
        if output.is_spent() {
            return Err(EngineError::Spent);
        }
        let done = establish(state, output.allocator(), leader, candidate);
        if output.settle(done)? {
            Ok(leader.as_deref_mut())
        } else {
            Ok(None)
        }
    }
}

/// Makes a candidate the leader, if it may lead, and answers whether it did.
fn establish<C: RaftTypeConfig>(
    state: &RaftState<C::NodeId, C::Node>,
    alloc: Global,
    leader: &mut Option<Box<Leader<C, Joint<C::NodeId>>>>,
    candidate: Candidate<C, Joint<C::NodeId>>,
) -> Result<bool, AllocError>
    requires { may_establish C.NodeId.cmp state.now (unboxed leader.old) candidate ≡ true → next candidate.last_log_id < 2 ^ 64 }
    ensures made { IfOk result (λ made. made ≡ may_establish C.NodeId.cmp state.now (unboxed leader.old) candidate) }
    ensures leader { OnOk result (unboxed leader.new ≡ option_or (established C.NodeId.cmp state.now (unboxed leader.old) candidate) (unboxed leader.old)) }
    ensures refused { OnErr result (leader.new ≡ leader.old) }
{
    if !may_establish(state, leader, &candidate) {
        return Ok(false);
    }
    *leader = Some(boxed_leader_of(alloc, candidate)?);
    Ok(true)
}

/// The leader that a candidate becomes.
#[tactic(auto, using(raft_proposer::proofs::Tables::over_one_set))]
pub fn leader_of<C: RaftTypeConfig>(
    alloc: Global,
    candidate: Candidate<C, Joint<C::NodeId>>,
) -> Result<Leader<C, Joint<C::NodeId>>, AllocError>
    requires { next candidate.last_log_id < 2 ^ 64 }
    ensures { IfOk result (λ l. l ≡ into_leader C.NodeId.cmp candidate) }
{
    let leader = candidate.into_leader(alloc)?;
    Ok(leader)
}

/// The leader that a candidate becomes, in a box.
fn boxed_leader_of<C: RaftTypeConfig>(
    alloc: Global,
    candidate: Candidate<C, Joint<C::NodeId>>,
) -> Result<Box<Leader<C, Joint<C::NodeId>>>, AllocError>
    requires { next candidate.last_log_id < 2 ^ 64 }
    ensures { IfOk result (λ b. b.value ≡ into_leader C.NodeId.cmp candidate) }
{
    let leader = leader_of(alloc, candidate)?;
    Ok(Box::new(alloc, leader)?)
}

/// Whether no leader's vote is at or above the candidate's.
fn outvotes<C: RaftTypeConfig>(
    leader: &Option<Box<Leader<C, Joint<C::NodeId>>>>,
    candidate: &Candidate<C, Joint<C::NodeId>>,
) -> bool
    ensures { result ≡ outvotes C.NodeId.cmp (unboxed leader.now) candidate.now }
{
    match leader {
        Some(leader) => is_lower_vote(&leader.vote, candidate.vote_ref()),
        None => true,
    }
}

/// Whether a candidate may lead: its vote is still the state's, and no leader's vote is at or above it.
pub fn may_establish<C: RaftTypeConfig>(
    state: &RaftState<C::NodeId, C::Node>,
    leader: &Option<Box<Leader<C, Joint<C::NodeId>>>>,
    candidate: &Candidate<C, Joint<C::NodeId>>,
) -> bool
    ensures { result ≡ may_establish C.NodeId.cmp state.now (unboxed leader.now) candidate.now }
{
    *candidate.vote_ref() == state.vote && outvotes(leader, candidate)
}
