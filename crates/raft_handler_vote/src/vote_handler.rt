//! Which votes are adopted, and which role a node has by them.

ghost use Rattle.std.specs.Prelude.{◌≡◌, ◌+◌, ◌^◌, ◌<◌, OnOk, IfOk, IsSome, true, false, [], ◌∷◌, None, Some};
ghost use Rattle.std.specs.Borrow.{Bor};
ghost use Rattle.std.specs.Ordering.{is_lt};
ghost use Rattle.raft_state.specs.Order.{next, last_id_cmp};
ghost use Rattle.raft_state.specs.Log.{last};
ghost use Rattle.raft_state.specs.State.{by_last_leader, is_leader};
ghost use Rattle.raft_state.specs.declared.policy.RejectVoteRequest.TheVariants.{ByVote};
ghost use Rattle.raft_command.specs.Ends.{Ends};
ghost use Rattle.raft_steps.specs.Accepts.{Accepts, MakesReply};
ghost use Rattle.raft_steps.specs.Refusals.{refusals_of_spent, refusals_of_lead, refusals_of_update_vote};
ghost use Rattle.raft_handler_vote.specs.Handlers.{view_of_vote, SameVoteBorrows};
ghost use Rattle.raft_handler_leader.specs.Handlers.{view_of_leader};
ghost use Rattle.raft_handler_leader.specs.Handlers.{view_of_replication};
ghost use Rattle.raft_handler_leader.specs.raft_handler_common.Handlers.{view_of_server_state};
ghost use Rattle.raft_steps.specs.Invariants.{IsSoundUnlessSpent};
ghost use Rattle.raft_steps.specs.raft_proposer.Leader.{leader_in};
ghost use Rattle.raft_steps.specs.LeaderHandler.{leader_append_entries};
ghost use Rattle.raft_steps.specs.Parts.{led_in};
ghost use Rattle.raft_steps.specs.Parts.{core_of, led_of, machine_of, unboxed};
ghost use Rattle.raft_steps.specs.Room.{HasRoom, MayLead};
ghost use Rattle.raft_steps.specs.Sending.{MaySend};
ghost use Rattle.raft_steps.specs.VoteHandler.{begin_lead, lead_anew, become_leader, become_following, update_internal_server_state};
ghost use Rattle.raft_steps.specs.VoteHandler.{update_vote, vote_answer, take_vote, rejects_vote};

use raft_command::{Command, EngineConfig, EngineOutput, Respond, Token};
use raft_error::EngineError;
use raft_handler_leader::leader_handler::{LeaderHandler, leader_append_entries};
use raft_handler_leader::raft_handler_common::order::{is_greater_vote, is_lower_id, rejects_vote};
use raft_handler_leader::raft_handler_common::refusals::{blank_is_at_end, taken_blank_is_at_end};
use raft_handler_leader::raft_handler_common::server_state_handler::{
    ServerStateHandler, update_role,
};
use raft_handler_leader::replication_handler::{
    ReplicationHandler, joint_of, learners_of, rebuild_replication_streams,
};
use raft_state::{
    LogId, Node, NodeId, RaftEntry, RaftState, RaftTypeConfig, RejectVoteRequest, Vote,
};
use raft_steps::raft_progress::Joint;
use raft_steps::raft_proposer::{Candidate, Leader};
use std::alloc::{AllocError, Global};

/// Adopts votes, and switches the node to the role that follows (openraft's `VoteHandler`).
#[derive(Drop)]
pub struct VoteHandler<'x, C: RaftTypeConfig> {
    pub config: &'x EngineConfig<C::NodeId>,
    pub state: &'x mut RaftState<C::NodeId, C::Node>,
    pub output: &'x mut EngineOutput<C>,
    pub leader: &'x mut Option<Box<Leader<C, Joint<C::NodeId>>>>,
    pub candidate: &'x mut Option<Candidate<C, Joint<C::NodeId>>>,
}

/// What the closure of `accept_vote` is shown: the state. Meant for `RaftState` alone; a callable over that type itself
/// can't be stated yet.
pub trait StateOf<NID: NodeId, N: Node> {
    ghost use Rattle.raft_state.specs.declared.state.RaftState.{RaftState};

    /// What is shown of a state.
    ghost shown_of: { RaftState NID N → Self };

    /// The state.
    fn shown(state: &RaftState<NID, N>) -> &Self
        ensures { result.now ≡ shown_of state.now };
}

impl<NID: NodeId, N: Node> StateOf<NID, N> for RaftState<NID, N> {
    ghost shown_of = { λ s. s };

    fn shown(state: &RaftState<NID, N>) -> &Self {
        state
    }
}

/// What the closure of `accept_vote` answers: the reply. Meant for `Respond` alone, as `StateOf` is for `RaftState`.
pub trait ReplyOf<C: RaftTypeConfig>: Drop {
    ghost use Rattle.raft_command.specs.declared.respond.Respond.{Respond};

    /// The reply.
    ghost reply_of: { Self → Respond C C.NodeId C.Node C.Entry C.D C.R C.SnapshotData };

    /// The reply.
    fn into_reply(self) -> Respond<C>
        ensures { result ≡ reply_of self };
}

impl<C: RaftTypeConfig> ReplyOf<C> for Respond<C> {
    ghost reply_of = { λ r. r };

    fn into_reply(self) -> Respond<C> {
        self
    }
}

impl<C: RaftTypeConfig> VoteHandler<'_, C> {
    /// Adopts a vote that isn't below ours: saves it if it is above, renews its time, and makes the node lead, wait for
    /// votes or follow. A vote below ours is rejected, and nothing changes. `now` is in milliseconds.
    ///
    /// Refusals, in this order:
    /// - `Spent` after `OutOfMemory`,
    /// - `IndexEnd` if the node would lead anew and its no-op entry would get the greatest index.
    ///
    /// Source: openraft's `update_vote`; Raft paper, section 5.1.
    #[tactic(auto, using(raft_steps::proofs::Room::may_take, raft_steps::proofs::Room::log_end))]
    pub fn update_vote(
        &mut self,
        vote: &Vote<C::NodeId>,
        now: u64,
    ) -> Result<Result<(), RejectVoteRequest<C::NodeId>>, EngineError<C::NodeId, C::Node>>
        requires { IsSoundUnlessSpent C.NodeId.cmp self.old.config.now (view_of_vote self.old) }
        ensures borrows { SameVoteBorrows self.old self.new }
        ensures step { Ends (refusals_of_update_vote C.NodeId.cmp self.old.config.now vote.now (view_of_vote self.old)) result self.new.output.now
            (λ answer. (answer ≡ vote_answer C.NodeId.cmp self.old.state.now vote.now)
            × (view_of_vote self.new ≡ update_vote C.NodeId.cmp C.Entry.RaftEntry.own self.old.config.now vote.now now (view_of_vote self.old)))
            (view_of_vote self.old) (view_of_vote self.new) }
        ensures sound { IsSoundUnlessSpent C.NodeId.cmp self.new.config.now (view_of_vote self.new) }
    {
        if self.output.is_spent() {
            return Err(EngineError::Spent);
        }
        if taken_blank_is_at_end(self.config, self.state, self.leader, vote) {
            return Err(EngineError::IndexEnd);
        }
        let done = update_vote(
            self.config,
            self.state,
            self.output,
            self.leader,
            self.candidate,
            vote,
            now,
        );
        self.output.settle(done)
    }

    /// Like `update_vote`, and hands the token back; or, if the vote is below ours, queues the reply that `f` makes of
    /// the state, our vote and the token. `now` is in milliseconds.
    ///
    /// Refused as `update_vote` is. Source: openraft's `accept_vote`.
    #[tactic(auto, using(raft_steps::proofs::Room::may_take, raft_steps::proofs::Room::log_end))]
    pub fn accept_vote<
        S: StateOf<C::NodeId, C::Node>,
        A: ReplyOf<C>,
        F: FnOnce(&S, RejectVoteRequest<C::NodeId>, Token) -> A,
    >(
        &mut self,
        vote: &Vote<C::NodeId>,
        token: Token,
        f: F,
        now: u64,
    ) -> Result<Option<Token>, EngineError<C::NodeId, C::Node>>
        requires sound { IsSoundUnlessSpent C.NodeId.cmp self.old.config.now (view_of_vote self.old) }
        requires callable { rejects_vote C.NodeId.cmp self.old.state.now vote.now ≡ true → (s : Bor S) → s.now ≡ S.shown_of self.old.state.now → F.pre f s (ByVote self.old.state.now.vote) token }
        ensures borrows { SameVoteBorrows self.old self.new }
        ensures step { Ends (refusals_of_update_vote C.NodeId.cmp self.old.config.now vote.now (view_of_vote self.old)) result self.new.output.now
            (λ answer. Accepts C.NodeId.cmp C.Entry.RaftEntry.own self.old.config.now (MakesReply S.shown_of A.reply_of F.FnOnce f) vote.now token now answer (view_of_vote self.old) (view_of_vote self.new))
            (view_of_vote self.old) (view_of_vote self.new) }
        ensures sound { IsSoundUnlessSpent C.NodeId.cmp self.new.config.now (view_of_vote self.new) }
    {
        if self.output.is_spent() {
            return Err(EngineError::Spent);
        }
        let is_at_end = taken_blank_is_at_end(self.config, self.state, self.leader, vote);
        if is_at_end {
            return Err(EngineError::IndexEnd);
        }
        let done = accept_vote(
            self.config,
            self.state,
            self.output,
            self.leader,
            self.candidate,
            vote,
            token,
            f,
            now,
        );
        self.output.settle(done)
    }

    /// Makes the node lead, wait for votes or follow, as its vote and effective membership say.
    ///
    /// Refusals, in this order:
    /// - `Spent` after `OutOfMemory`,
    /// - `IndexEnd` if the node would lead anew and its no-op entry would get the greatest index.
    ///
    /// Source: openraft's `update_internal_server_state`.
    #[tactic(auto, using(raft_steps::proofs::Room::may_lead, raft_steps::proofs::Room::log_end))]
    pub fn update_internal_server_state(&mut self) -> Result<(), EngineError<C::NodeId, C::Node>>
        requires { IsSoundUnlessSpent C.NodeId.cmp self.old.config.now (view_of_vote self.old) }
        ensures borrows { SameVoteBorrows self.old self.new }
        ensures step { Ends (refusals_of_lead C.NodeId.cmp self.old.config.now (view_of_vote self.old)) result self.new.output.now
            (λ _. view_of_vote self.new ≡ update_internal_server_state C.NodeId.cmp C.Entry.RaftEntry.own self.old.config.now (view_of_vote self.old))
            (view_of_vote self.old) (view_of_vote self.new) }
        ensures sound { IsSoundUnlessSpent C.NodeId.cmp self.new.config.now (view_of_vote self.new) }
    {
        if self.output.is_spent() {
            return Err(EngineError::Spent);
        }
        let vote = self.state.vote;
        if blank_is_at_end(self.config, self.state, self.leader, &vote) {
            return Err(EngineError::IndexEnd);
        }
        let done = update_internal_server_state(
            self.config,
            self.state,
            self.output,
            self.leader,
            self.candidate,
        );
        self.output.settle(done)
    }

    /// Makes the node lead: its leader goes on under the state's vote if it has its leader id, else there is a new one.
    /// The vote and the effective membership must make the node leader.
    ///
    /// Refusals, in this order:
    /// - `Spent` after `OutOfMemory`,
    /// - `IndexEnd` if the node would lead anew and its no-op entry would get the greatest index.
    ///
    /// Source: openraft's `become_leader`.
    #[tactic(auto, using(raft_steps::proofs::Room::may_lead, raft_steps::proofs::Room::log_end))]
    pub fn become_leader(&mut self) -> Result<(), EngineError<C::NodeId, C::Node>>
        requires leads { is_leader C.NodeId.cmp self.old.state.now self.old.config.now.id ≡ true }
        requires sound { IsSoundUnlessSpent C.NodeId.cmp self.old.config.now (view_of_vote self.old) }
        ensures borrows { SameVoteBorrows self.old self.new }
        ensures step { Ends (refusals_of_lead C.NodeId.cmp self.old.config.now (view_of_vote self.old)) result self.new.output.now
            (λ _. view_of_vote self.new ≡ become_leader C.NodeId.cmp C.Entry.RaftEntry.own self.old.config.now (view_of_vote self.old))
            (view_of_vote self.old) (view_of_vote self.new) }
        ensures sound { IsSoundUnlessSpent C.NodeId.cmp self.new.config.now (view_of_vote self.new) }
    {
        if self.output.is_spent() {
            return Err(EngineError::Spent);
        }
        let vote = self.state.vote;
        if blank_is_at_end(self.config, self.state, self.leader, &vote) {
            return Err(EngineError::IndexEnd);
        }
        let done = become_leader(
            self.config,
            self.state,
            self.output,
            self.leader,
            self.candidate,
        );
        self.output.settle(done)
    }

    /// Drops the leader and the candidate, and gives the node the role of its vote and effective membership.
    ///
    /// Refusal: `Spent` after `OutOfMemory`. Source: openraft's `become_following`.
    pub fn become_following(&mut self) -> Result<(), EngineError<C::NodeId, C::Node>>
        ensures borrows { SameVoteBorrows self.old self.new }
        ensures step { Ends (refusals_of_spent (view_of_vote self.old)) result self.new.output.now
            (λ _. view_of_vote self.new ≡ become_following C.NodeId.cmp self.old.config.now (view_of_vote self.old))
            (view_of_vote self.old) (view_of_vote self.new) }
        ensures sound { IsSoundUnlessSpent C.NodeId.cmp self.old.config.now (view_of_vote self.old) → IsSoundUnlessSpent C.NodeId.cmp self.new.config.now (view_of_vote self.new) }
    {
        if self.output.is_spent() {
            return Err(EngineError::Spent);
        }
        let done = become_following(
            self.config,
            self.state,
            self.output,
            self.leader,
            self.candidate,
        );
        self.output.settle(done)
    }

    /// The handler of the role.
    pub fn server_state_handler(&mut self) -> ServerStateHandler<'_, C>
        ensures config { result.config.now ≡ self.old.config.now }
        ensures lent { view_of_server_state result ≡ core_of self.old.state.now self.old.output.now }
    {
        let VoteHandler {
            config,
            state,
            output,
            ..
        } = self;
        ServerStateHandler {
            config,
            state,
            output,
        }
    }

    /// The handler of the leader. The node must lead.
    pub fn leader_handler(&mut self) -> LeaderHandler<'_, C>
        requires { IsSome self.old.leader.now }
        ensures config { result.config.now ≡ self.old.config.now }
        ensures lent { led_in (view_of_vote self.old) ≡ Some (view_of_leader result) }
    {
        let VoteHandler {
            config,
            state,
            output,
            leader,
            ..
        } = self;
        let leader = leader.as_deref_mut().unwrap();
        LeaderHandler {
            config,
            leader,
            state,
            output,
        }
    }

    /// The handler of replication. The node must lead.
    pub fn replication_handler(&mut self) -> ReplicationHandler<'_, C>
        requires { IsSome self.old.leader.now }
        ensures config { result.config.now ≡ self.old.config.now }
        ensures lent { led_in (view_of_vote self.old) ≡ Some (view_of_replication result) }
    {
        let VoteHandler {
            config,
            state,
            output,
            leader,
            ..
        } = self;
        let leader = leader.as_deref_mut().unwrap();
        ReplicationHandler {
            config,
            leader,
            state,
            output,
        }
    }
}

/// Drops the leader and the candidate, and gives the node the role of its vote and effective membership.
#[tactic(auto, unfolding(raft_steps::specs::VoteHandler::become_following))]
pub fn become_following<C: RaftTypeConfig>(
    config: &EngineConfig<C::NodeId>,
    state: &mut RaftState<C::NodeId, C::Node>,
    output: &mut EngineOutput<C>,
    leader: &mut Option<Box<Leader<C, Joint<C::NodeId>>>>,
    candidate: &mut Option<Candidate<C, Joint<C::NodeId>>>,
) -> Result<(), AllocError>
    ensures { OnOk result (machine_of state.new output.new leader.new candidate.new
        ≡ become_following C.NodeId.cmp config.now (machine_of state.old output.old leader.old candidate.old)) }
{
    *leader = None;
    *candidate = None;
    update_role(config, state, output)
}

/// A leader under the state's vote and effective membership.
#[tactic(auto, using(raft_steps::proofs::Ends::by_last_leader_ends))]
fn new_leader<C: RaftTypeConfig>(
    alloc: Global,
    state: &RaftState<C::NodeId, C::Node>,
) -> Result<Leader<C, Joint<C::NodeId>>, AllocError>
    requires { next (last state.now.ids) < 2 ^ 64 }
    ensures { IfOk result (λ l. l ≡ leader_in C.NodeId.cmp state.now.vote state.now.em.membership (by_last_leader C.NodeId.cmp state.now.ids)) }
{
    let membership = &state.em.membership;
    let ids = state.by_last_leader()?;
    let learners = learners_of(membership)?;
    let voters = joint_of(alloc, membership)?;
    let leader = Leader::new(alloc, state.vote, voters, &learners, &ids)?;
    Ok(leader)
}

/// Proposes a no-op entry under an id.
pub fn propose_blank<C: RaftTypeConfig>(
    config: &EngineConfig<C::NodeId>,
    leader: &mut Leader<C, Joint<C::NodeId>>,
    state: &mut RaftState<C::NodeId, C::Node>,
    output: &mut EngineOutput<C>,
    log_id: LogId<C::NodeId>,
) -> Result<(), AllocError>
    requires send { MaySend 2 (led_of leader.old state.old output.old) }
    requires room { next leader.old.last_log_id + 1 < 2 ^ 64 }
    ensures { OnOk result (led_of leader.new state.new output.new
        ≡ leader_append_entries C.NodeId.cmp C.Entry.RaftEntry.own config.now (C.Entry.blank log_id ∷ []) (led_of leader.old state.old output.old)) }
{
    let mut entries = Vec::new(output.allocator());
    entries.push(C::Entry::new_blank(log_id))?;
    leader_append_entries(config, leader, state, output, entries)
}

/// Starts a new leader's streams, and proposes its no-op entry if the log has no entry of it.
#[tactic(auto, using(raft_steps::proofs::Sending::rebuilt_may, raft_steps::proofs::Sending::same_may), unfolding(raft_steps::specs::VoteHandler::begin_lead, raft_steps::specs::ServerStateHandler::update_role, raft_steps::specs::ReplicationHandler::rebuild_replication_streams))]
fn begin_lead<C: RaftTypeConfig>(
    config: &EngineConfig<C::NodeId>,
    leader: &mut Leader<C, Joint<C::NodeId>>,
    state: &mut RaftState<C::NodeId, C::Node>,
    output: &mut EngineOutput<C>,
) -> Result<(), AllocError>
    requires send { MaySend 2 (led_of leader.old state.old output.old) }
    requires room { is_lt (last_id_cmp C.NodeId.cmp leader.old.last_log_id (Some leader.old.noop_log_id)) ≡ true → next leader.old.last_log_id + 1 < 2 ^ 64 }
    ensures { OnOk result (led_of leader.new state.new output.new ≡ begin_lead C.NodeId.cmp C.Entry.RaftEntry.own config.now (led_of leader.old state.old output.old)) }
{
    update_role(config, state, output)?;
    rebuild_replication_streams(config, leader, state, output)?;
    let log_id = leader.noop_log_id;
    if is_lower_id(&leader.last_log_id(), &Some(log_id)) {
        propose_blank(config, leader, state, output, log_id)
    } else {
        Ok(())
    }
}

/// Makes the node lead with a new leader.
#[tactic(auto, using(raft_steps::proofs::Leads::fresh_may, raft_steps::proofs::Leads::fresh_room), unfolding(raft_steps::specs::VoteHandler::lead_anew))]
fn lead_anew<C: RaftTypeConfig>(
    config: &EngineConfig<C::NodeId>,
    state: &mut RaftState<C::NodeId, C::Node>,
    output: &mut EngineOutput<C>,
    leader: &mut Option<Box<Leader<C, Joint<C::NodeId>>>>,
    candidate: &Option<Candidate<C, Joint<C::NodeId>>>,
) -> Result<(), AllocError>
    requires log { next (last state.old.ids) < 2 ^ 64 }
    requires room { HasRoom C.NodeId.cmp state.old.vote state.old }
    ensures { OnOk result (machine_of state.new output.new leader.new candidate.now
        ≡ lead_anew C.NodeId.cmp C.Entry.RaftEntry.own config.now (machine_of state.old output.old leader.old candidate.now)) }
{
    let alloc = output.allocator();
    let mut new = new_leader::<C>(alloc, state)?;
    begin_lead(config, &mut new, state, output)?;
    *leader = Some(Box::new(alloc, new)?);
    Ok(())
}

/// Makes the node lead: its leader goes on under the state's vote if it has its leader id, else there is a new one.
#[tactic(auto, using(raft_steps::proofs::Leads::anew_room), unfolding(raft_steps::specs::VoteHandler::become_leader))]
pub fn become_leader<C: RaftTypeConfig>(
    config: &EngineConfig<C::NodeId>,
    state: &mut RaftState<C::NodeId, C::Node>,
    output: &mut EngineOutput<C>,
    leader: &mut Option<Box<Leader<C, Joint<C::NodeId>>>>,
    candidate: &Option<Candidate<C, Joint<C::NodeId>>>,
) -> Result<(), AllocError>
    requires log { next (last state.old.ids) < 2 ^ 64 }
    requires room { MayLead C.NodeId.cmp config.now state.old.vote state.old.em.membership state.old.ids (unboxed leader.old) }
    requires leads { is_leader C.NodeId.cmp state.old config.now.id ≡ true }
    ensures { OnOk result (machine_of state.new output.new leader.new candidate.now
        ≡ become_leader C.NodeId.cmp C.Entry.RaftEntry.own config.now (machine_of state.old output.old leader.old candidate.now)) }
{
    match leader {
        None => lead_anew(config, state, output, leader, candidate),
        Some(led) => {
            if led.vote.leader_id == state.vote.leader_id {
                led.vote = state.vote;
                update_role(config, state, output)
            } else {
                lead_anew(config, state, output, leader, candidate)
            }
        }
    }
}

/// Makes the node lead, wait for votes or follow, as its vote and effective membership say.
#[tactic(auto, unfolding(raft_steps::specs::VoteHandler::update_internal_server_state))]
pub fn update_internal_server_state<C: RaftTypeConfig>(
    config: &EngineConfig<C::NodeId>,
    state: &mut RaftState<C::NodeId, C::Node>,
    output: &mut EngineOutput<C>,
    leader: &mut Option<Box<Leader<C, Joint<C::NodeId>>>>,
    candidate: &mut Option<Candidate<C, Joint<C::NodeId>>>,
) -> Result<(), AllocError>
    requires log { next (last state.old.ids) < 2 ^ 64 }
    requires room { MayLead C.NodeId.cmp config.now state.old.vote state.old.em.membership state.old.ids (unboxed leader.old) }
    ensures { OnOk result (machine_of state.new output.new leader.new candidate.new
        ≡ update_internal_server_state C.NodeId.cmp C.Entry.RaftEntry.own config.now (machine_of state.old output.old leader.old candidate.old)) }
{
    if state.is_leader(&config.id) {
        become_leader(config, state, output, leader, candidate)
    } else if state.is_leading(&config.id) {
        Ok(())
    } else {
        become_following(config, state, output, leader, candidate)
    }
}

/// Adopts a vote that isn't below ours, and saves it if it is above.
#[tactic(auto, using(raft_steps::proofs::Leads::vote_is))]
fn take_vote<C: RaftTypeConfig>(
    state: &mut RaftState<C::NodeId, C::Node>,
    output: &mut EngineOutput<C>,
    config: &EngineConfig<C::NodeId>,
    vote: &Vote<C::NodeId>,
    now: u64,
) -> Result<(), AllocError>
    requires { rejects_vote C.NodeId.cmp state.old vote.now ≡ false }
    ensures vote { OnOk result (state.new.vote ≡ vote.now) }
    ensures others { OnOk result (state.new ≡ record state.old { vote = state.new.vote; time = Some now }) }
    ensures step { OnOk result (core_of state.new output.new ≡ take_vote C.NodeId.cmp config.now vote.now now (core_of state.old output.old)) }
{
    if is_greater_vote(vote, &state.vote) {
        output.try_push(Command::SaveVote { vote: *vote })?;
        state.vote = *vote;
    }
    state.time = Some(now);
    Ok(())
}

/// Adopts a vote that isn't below ours, and switches the node to the role that follows.
#[tactic(auto, using(raft_steps::proofs::Leads::may_lead_on), unfolding(raft_steps::specs::VoteHandler::update_vote))]
pub fn update_vote<C: RaftTypeConfig>(
    config: &EngineConfig<C::NodeId>,
    state: &mut RaftState<C::NodeId, C::Node>,
    output: &mut EngineOutput<C>,
    leader: &mut Option<Box<Leader<C, Joint<C::NodeId>>>>,
    candidate: &mut Option<Candidate<C, Joint<C::NodeId>>>,
    vote: &Vote<C::NodeId>,
    now: u64,
) -> Result<Result<(), RejectVoteRequest<C::NodeId>>, AllocError>
    requires log { next (last state.old.ids) < 2 ^ 64 }
    requires room { rejects_vote C.NodeId.cmp state.old vote.now ≡ false → MayLead C.NodeId.cmp config.now vote.now state.old.em.membership state.old.ids (unboxed leader.old) }
    ensures answer { IfOk result (λ answer. answer ≡ vote_answer C.NodeId.cmp state.old vote.now) }
    ensures step { OnOk result (machine_of state.new output.new leader.new candidate.new
        ≡ update_vote C.NodeId.cmp C.Entry.RaftEntry.own config.now vote.now now (machine_of state.old output.old leader.old candidate.old)) }
{
    if rejects_vote(state, vote) {
        return Ok(Err(RejectVoteRequest::ByVote(state.vote)));
    }
    take_vote(state, output, config, vote, now)?;
    update_internal_server_state(config, state, output, leader, candidate)?;
    Ok(Ok(()))
}

/// Adopts a vote that isn't below ours, and hands the token back; or queues a reply.
fn accept_vote<
    C: RaftTypeConfig,
    S: StateOf<C::NodeId, C::Node>,
    A: ReplyOf<C>,
    F: FnOnce(&S, RejectVoteRequest<C::NodeId>, Token) -> A,
>(
    config: &EngineConfig<C::NodeId>,
    state: &mut RaftState<C::NodeId, C::Node>,
    output: &mut EngineOutput<C>,
    leader: &mut Option<Box<Leader<C, Joint<C::NodeId>>>>,
    candidate: &mut Option<Candidate<C, Joint<C::NodeId>>>,
    vote: &Vote<C::NodeId>,
    token: Token,
    f: F,
    now: u64,
) -> Result<Option<Token>, AllocError>
    requires log { next (last state.old.ids) < 2 ^ 64 }
    requires room { rejects_vote C.NodeId.cmp state.old vote.now ≡ false → MayLead C.NodeId.cmp config.now vote.now state.old.em.membership state.old.ids (unboxed leader.old) }
    requires callable { rejects_vote C.NodeId.cmp state.old vote.now ≡ true → (s : Bor S) → s.now ≡ S.shown_of state.old → F.pre f s (ByVote state.old.vote) token }
    ensures { IfOk result (λ answer. Accepts C.NodeId.cmp C.Entry.RaftEntry.own config.now (MakesReply S.shown_of A.reply_of F.FnOnce f) vote.now token now answer
        (machine_of state.old output.old leader.old candidate.old) (machine_of state.new output.new leader.new candidate.new)) }
{
    match update_vote(config, state, output, leader, candidate, vote, now)? {
        Ok(()) => Ok(Some(token)),
        Err(rejected) => {
            let resp = f(S::shown(state), rejected, token).into_reply();
            output.try_push(Command::Respond { when: None, resp })?;
            Ok(None)
        }
    }
}
