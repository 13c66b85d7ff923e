//! The engine.

ghost use Rattle.std.specs.Prelude.{◌≡◌, ◌+◌, ◌-◌, ◌==◌, ◌^◌, ◌<◌, ◌&&◌, ◌||◌, OnOk, IfOk, IfErr, IfSome, IsOk, IsSome, None, Some, []};
ghost use Rattle.std.specs.Prelude.{◌∷◌, true, false};
ghost use Rattle.std.specs.Borrow.{LendsIf, sem};
ghost use Rattle.std.specs.Option.{option_copied, option_map};
ghost use Rattle.raft_engine.specs.contracts.engine.Engine.{the_row};
ghost use Rattle.raft_proposer.specs.contracts.candidate.Candidate.{the_row as candidate_row};
ghost use Rattle.raft_progress.specs.contracts.quorum.Joint.{the_row as joint_row};
ghost use Rattle.raft_progress.specs.Quorum.{ids_of};
ghost use Rattle.std.specs.Ordering.{is_eq, is_gt};
ghost use Rattle.raft_state.specs.Invariants.{IsSoundState};
ghost use Rattle.raft_state.specs.Order.{next, last_id_cmp, vote_cmp};
ghost use Rattle.raft_state.specs.Log.{last};
ghost use Rattle.raft_state.specs.State.{empty, server_state};
ghost use Rattle.raft_error.specs.declared.error.EngineError.TheVariants.{OutOfMemory};
ghost use Rattle.raft_progress.specs.Quorum.{is_quorum};
ghost use Rattle.raft_progress.specs.Table.{is_in};
ghost use Rattle.raft_command.specs.Config.{default_config};
ghost use Rattle.raft_command.specs.Ends.{Ends, is_memory};
ghost use Rattle.raft_steps.specs.Refusals.{refusals_of_elect, refusals_of_initialize, refusals_of_vote_resp, refusals_of_grant};
ghost use Rattle.raft_steps.specs.Refusals.{refusals_of_reply_of};
ghost use Rattle.raft_proposer.specs.Joint.{u64_max};
ghost use Rattle.raft_proposer.specs.Candidate.{candidate_of, grant_by, is_granted};
ghost use Rattle.raft_steps.specs.Engine.{elect, initialize, take_rejection, lead_by_votes, handle_vote_resp, take_grant, may_establish};
ghost use Rattle.raft_steps.specs.Engine.{default_log_id, sees_greater_log};
ghost use Rattle.raft_handler_vote.specs.Handlers.{view_of_vote};
ghost use Rattle.raft_handler_vote.specs.raft_handler_leader.Handlers.{view_of_replication};
ghost use Rattle.raft_handler_follower.specs.raft_handler_common.Handlers.{view_of_server_state, view_of_snapshot, view_of_establish};
ghost use Rattle.raft_handler_follower.specs.Handlers.{view_of_following};
ghost use Rattle.raft_steps.specs.Invariants.{IsSound, IsSoundUnlessSpent};
ghost use Rattle.raft_steps.specs.LeaderHandler.{leader_append_entries};
ghost use Rattle.raft_engine.specs.Makers.{LeaderLent, LeaderLentFor};
ghost use Rattle.raft_steps.specs.VoteHandler.{update_vote};
ghost use Rattle.raft_steps.specs.Parts.{idle, core_of, led_of, machine_of, unboxed, leading, on_leader, led_in};
ghost use Rattle.raft_engine.specs.Whole.{parts};
ghost use Rattle.raft_steps.specs.Sending.{MaySend};

use raft_command::{Command, EngineConfig, EngineOutput, Token, VoteRequest, VoteResponse};
use raft_error::EngineError;
use raft_handler_follower::following_handler::{FollowingHandler, do_append_entries};
use raft_handler_follower::raft_handler_common::establish_handler::{
    EstablishHandler, leader_of, may_establish,
};
use raft_handler_follower::raft_handler_common::order::is_greater_id;
use raft_handler_follower::raft_handler_common::server_state_handler::{
    ServerStateHandler, update_role,
};
use raft_handler_follower::raft_handler_common::snapshot_handler::SnapshotHandler;
use raft_handler_vote::raft_handler_leader::leader_handler::LeaderHandler;
use raft_handler_vote::raft_handler_leader::replication_handler::{
    ReplicationHandler, joint_of, learners_of, rebuild_replication_streams,
};
use raft_handler_vote::vote_handler::{VoteHandler, propose_blank, update_vote};
use raft_progress::Joint;
use raft_proposer::{Candidate, Leader};
use raft_state::{
    Items, LeaderId, LogId, NodeId, RaftEntry, RaftState, RaftTypeConfig, ServerState, Vote,
};
use std::alloc::{AllocError, Global};

/// A Raft node without I/O: its calls change its state and queue what the runtime has to do (openraft's `Engine`).
#[derive_where(Debug; C, C::Entry, C::SnapshotData)]
pub struct Engine<C: RaftTypeConfig> {
    /// The settings.
    pub config: EngineConfig<C::NodeId>,
    /// The node's vote, log and memberships.
    pub state: RaftState<C::NodeId, C::Node>,
    /// Whether a node with a greater log was seen since this was last cleared.
    pub seen_greater_log: bool,
    /// The leader, while this node leads.
    pub leader: Option<Box<Leader<C, Joint<C::NodeId>>>>,
    /// The candidate, while this node asks for votes.
    pub candidate: Option<Candidate<C, Joint<C::NodeId>>>,
    /// The commands for the runtime.
    pub output: EngineOutput<C>,
}

// Written out, so that it is proved once: a derived one is laid out wherever an engine may be dropped.
impl<C: RaftTypeConfig> Drop for Engine<C> {
    fn drop(self) {
        let Engine {
            config: _,
            state: _,
            seen_greater_log: _,
            leader: _,
            candidate: _,
            output: _,
        } = self;
    }
}

impl<C: RaftTypeConfig> Engine<C> {
    /// Makes an engine of a state and settings, without leader and candidate. The state must be sound: its log, its
    /// watermarks and its accepted record.
    ///
    /// Refusal: `OutOfMemory` alone. Source: openraft's `Engine::new`.
    pub fn new(
        alloc: Global,
        init_state: RaftState<C::NodeId, C::Node>,
        config: EngineConfig<C::NodeId>,
    ) -> Result<Self, EngineError<C::NodeId, C::Node>>
        requires { IsSoundState C.NodeId.cmp init_state }
        ensures engine { IfOk result (λ e. (e.config ≡ config) × (e.seen_greater_log ≡ false) × (parts e ≡ idle init_state)) }
        ensures sound { IfOk result (λ e. IsSound C.NodeId.cmp e.config (parts e)) }
        ensures refused { IfErr result (λ e. e ≡ OutOfMemory) }
    {
        let Ok(output) = EngineOutput::new(alloc, 4096) else {
            return Err(EngineError::OutOfMemory);
        };
        Ok(Engine {
            config,
            state: init_state,
            seen_greater_log: false,
            leader: None,
            candidate: None,
            output,
        })
    }

    /// Makes an engine with the default state and settings, and with this id.
    ///
    /// Refusal: `OutOfMemory` alone. Source: openraft's `testing_default`.
    pub fn testing_default(
        alloc: Global,
        id: C::NodeId,
    ) -> Result<Self, EngineError<C::NodeId, C::Node>>
        ensures engine { IfOk result (λ e. (e.config ≡ record (default_config C.NodeId.default_id) { id = id }) × (e.seen_greater_log ≡ false) × (parts e ≡ idle (empty C.NodeId.default_id))) }
        ensures sound { IfOk result (λ e. IsSound C.NodeId.cmp e.config (parts e)) }
        ensures refused { IfErr result (λ e. e ≡ OutOfMemory) }
    {
        let config = EngineConfig {
            id,
            ..EngineConfig::default()
        };
        Engine::new(alloc, RaftState::empty(alloc), config)
    }

    /// The state of an engine that is no more: another may start with it.
    pub fn into_state(self) -> RaftState<C::NodeId, C::Node>
        ensures { result ≡ self.state }
    {
        let Engine {
            config: _,
            state: kept,
            seen_greater_log: _,
            leader: _,
            candidate: _,
            output: _,
        } = self;
        kept
    }

    /// Appends the first entry of a cluster, under the first log id, and starts an election. The entry carries a
    /// membership in which this node is a voter. `now` is in milliseconds. The node must not lead.
    ///
    /// Refusals, in this order:
    /// - `Spent` after `OutOfMemory`,
    /// - `NotAllowed` if the log isn't empty or the vote isn't the first one,
    /// - `NoMembership` if the entry has none,
    /// - `NotInMembers` if this node is no voter of it.
    ///
    /// Source: openraft's `Engine::initialize`.
    pub fn initialize(
        &mut self,
        entry: C::Entry,
        now: u64,
    ) -> Result<(), EngineError<C::NodeId, C::Node>>
        requires no_leader { self.old.leader ≡ None }
        requires sound { IsSoundUnlessSpent C.NodeId.cmp self.old.config (parts self.old) }
        ensures config { self.new.config ≡ self.old.config }
        ensures flag { self.new.seen_greater_log ≡ self.old.seen_greater_log }
        ensures step { Ends (refusals_of_initialize C.NodeId.cmp C.Entry.RaftEntry.own self.old.config C.NodeId.default_id entry (parts self.old)) result self.new.output
            (λ _. parts self.new ≡ initialize C.NodeId.cmp C.Entry.RaftEntry.own self.old.config C.NodeId.default_id entry now (parts self.old))
            (parts self.old) (parts self.new) }
        ensures sound { IsSoundUnlessSpent C.NodeId.cmp self.new.config (parts self.new) }
    {
        if self.output.is_spent() {
            return Err(EngineError::Spent);
        }
        if self.state.is_initialized() {
            return Err(EngineError::NotAllowed {
                last_log_id: self.state.last_log_id(),
                vote: self.state.vote,
            });
        }
        let Some(members) = entry.get_membership() else {
            return Err(EngineError::NoMembership);
        };
        if !members.is_voter(&self.config.id) {
            return Err(EngineError::NotInMembers {
                node_id: self.config.id,
            });
        }
        let done = initialize(
            &self.config,
            &mut self.state,
            &mut self.output,
            &mut self.leader,
            &mut self.candidate,
            entry,
            now,
        );
        self.output.settle(done)
    }

    /// Starts an election: votes for this node in the next term and queues the vote requests. `now` is in milliseconds.
    /// The node must not lead.
    ///
    /// Refusals, in this order:
    /// - `Spent` after `OutOfMemory`,
    /// - `TermEnd` if the term is the greatest u64.
    ///
    /// Source: openraft's `Engine::elect`; Raft paper, section 5.2.
    #[tactic(auto, using(raft_steps::proofs::Room::log_end))]
    pub fn elect(&mut self, now: u64) -> Result<(), EngineError<C::NodeId, C::Node>>
        requires no_leader { self.old.leader ≡ None }
        requires sound { IsSoundUnlessSpent C.NodeId.cmp self.old.config (parts self.old) }
        ensures config { self.new.config ≡ self.old.config }
        ensures flag { self.new.seen_greater_log ≡ self.old.seen_greater_log }
        ensures step { Ends (refusals_of_elect C.NodeId.cmp self.old.config (parts self.old)) result self.new.output
            (λ _. parts self.new ≡ elect C.NodeId.cmp C.Entry.RaftEntry.own self.old.config now (parts self.old))
            (parts self.old) (parts self.new) }
        ensures sound { IsSoundUnlessSpent C.NodeId.cmp self.new.config (parts self.new) }
    {
        if self.output.is_spent() {
            return Err(EngineError::Spent);
        }
        if self.state.vote.leader_id.term == u64::MAX {
            return Err(EngineError::TermEnd);
        }
        let done = elect(
            &self.config,
            &mut self.state,
            &mut self.output,
            &mut self.leader,
            &mut self.candidate,
            now,
        );
        self.output.settle(done)
    }

    /// Handles a reply to the candidate's vote request. A grant is counted; on a quorum the candidate is used up, and
    /// if its vote is still the state's the node leads and proposes a no-op entry. On a rejection the node adopts the
    /// reply's vote as uncommitted, unless that is below its own, and sets `seen_greater_log` if the replier's last log id is
    /// above its own. `now` is in milliseconds.
    ///
    /// Refusals, in this order:
    /// - `Spent` after `OutOfMemory`,
    /// - `UnknownTarget` if a grant isn't from a voter of the candidate's membership,
    /// - `IndexEnd` if the no-op entry would get the greatest index.
    ///
    /// Allocates nothing without a candidate. Source: openraft's `handle_vote_resp`; Raft paper, section 5.2.
    #[tactic(auto, using(raft_steps::proofs::Room::log_end, raft_steps::proofs::Led::candidate_ends))]
    pub fn handle_vote_resp(
        &mut self,
        target: C::NodeId,
        resp: VoteResponse<C::NodeId>,
        now: u64,
    ) -> Result<(), EngineError<C::NodeId, C::Node>>
        requires { IsSoundUnlessSpent C.NodeId.cmp self.old.config (parts self.old) }
        ensures config { self.new.config ≡ self.old.config }
        ensures flag { IfOk result (λ _. self.new.seen_greater_log ≡ (self.old.seen_greater_log || sees_greater_log C.NodeId.cmp resp self.old.candidate self.old.state)) }
        ensures refused { IfErr result (λ e. is_memory e ≡ false → self.new.seen_greater_log ≡ self.old.seen_greater_log) }
        ensures free { self.old.candidate ≡ None → IfErr result (λ e. is_memory e ≡ false) }
        ensures step { Ends (refusals_of_vote_resp C.NodeId.cmp self.old.config target resp (parts self.old)) result self.new.output
            (λ _. parts self.new ≡ handle_vote_resp C.NodeId.cmp C.Entry.RaftEntry.own self.old.config target resp now (parts self.old))
            (parts self.old) (parts self.new) }
        ensures sound { IsSoundUnlessSpent C.NodeId.cmp self.new.config (parts self.new) }
    {
        if self.output.is_spent() {
            return Err(EngineError::Spent);
        }
        check_reply(
            &self.state,
            &self.leader,
            &mut self.candidate,
            &target,
            &resp,
        )?;
        if sees_greater_log(&self.state, &self.candidate, &resp) {
            self.seen_greater_log = true;
        }
        let done = take_reply(
            &self.config,
            &mut self.state,
            &mut self.output,
            &mut self.leader,
            &mut self.candidate,
            &target,
            &resp,
            now,
        );
        self.output.settle(done)
    }

    /// The candidate, while this node asks for votes.
    pub fn candidate_ref(&self) -> Option<&Candidate<C, Joint<C::NodeId>>>
        ensures { option_copied result ≡ self.now.candidate }
    {
        self.candidate.as_ref()
    }

    /// The candidate, mutably, while this node asks for votes. When the borrow ends, the engine has the candidate as it was left.
    pub fn candidate_mut(&mut self) -> Option<&mut Candidate<C, Joint<C::NodeId>>>
        ensures lent { option_map (λ c. c.now) result ≡ self.old.candidate }
        ensures* after { sem 𝓛 (LendsIf (the_row C.row C.NodeId.row C.Node.row C.Entry.row C.D.row C.R.row C.SnapshotData.row
            C.NodeId.NodeId.own C.NodeId.Clone.own C.NodeId.Ord.own C.NodeId.Eq.own C.NodeId.PartialEq.own C.NodeId.PartialOrd.own
            C.NodeId.Hash.own C.NodeId.Default.own C.NodeId.Debug.own C.NodeId.Display.own
            C.Node.Node.own C.Node.PartialEq.own C.Node.Default.own C.Node.Debug.own C.Entry.RaftEntry.own)
            (candidate_row C.row (joint_row C.NodeId.row) C.NodeId.row C.Node.row C.Entry.row C.D.row C.R.row C.SnapshotData.row
            C.NodeId.NodeId.own C.NodeId.Ord.own C.NodeId.PartialEq.own C.NodeId.PartialOrd.own
            C.NodeId.Hash.own C.NodeId.Default.own C.NodeId.Debug.own C.NodeId.Display.own
            C.Node.Node.own C.Node.PartialEq.own C.Node.Default.own C.Node.Debug.own C.Entry.RaftEntry.own
            (record { members = ids_of C.NodeId.cmp; has_quorum = is_quorum C.NodeId.cmp; copy_gives = λ groups copied. copied ≡ groups })) self.entry result (λ c. record self.old { candidate = Some c }) self.old) }
    {
        self.candidate.as_mut()
    }

    /// Records that a node with a greater log was seen.
    pub fn set_greater_log(&mut self)
        ensures { self.new ≡ record self.old { seen_greater_log = true } }
    {
        self.seen_greater_log = true;
    }

    /// Clears the record of a node with a greater log.
    pub fn reset_greater_log(&mut self)
        ensures { self.new ≡ record self.old { seen_greater_log = false } }
    {
        self.seen_greater_log = false;
    }

    /// Whether a node with a greater log was seen.
    pub fn is_there_greater_log(&self) -> bool
        ensures { result ≡ self.now.seen_greater_log }
    {
        self.seen_greater_log
    }

    /// The role that follows from the vote and the effective membership.
    pub fn calc_server_state(&self) -> ServerState
        ensures { result ≡ server_state C.NodeId.cmp self.now.state self.now.config.id }
    {
        self.state.calc_server_state(&self.config.id)
    }

    /// The handler of votes.
    pub fn vote_handler(&mut self) -> VoteHandler<'_, C>
        ensures config { result.config.now ≡ self.old.config }
        ensures lent { view_of_vote result ≡ parts self.old }
    {
        VoteHandler {
            config: &self.config,
            state: &mut self.state,
            output: &mut self.output,
            leader: &mut self.leader,
            candidate: &mut self.candidate,
        }
    }

    /// The handler of the role.
    pub fn server_state_handler(&mut self) -> ServerStateHandler<'_, C>
        ensures config { result.config.now ≡ self.old.config }
        ensures lent { view_of_server_state result ≡ core_of self.old.state self.old.output }
    {
        ServerStateHandler {
            config: &self.config,
            state: &mut self.state,
            output: &mut self.output,
        }
    }

    /// The handler of snapshots.
    pub fn snapshot_handler(&mut self) -> SnapshotHandler<'_, C>
        ensures { view_of_snapshot result ≡ core_of self.old.state self.old.output }
    {
        SnapshotHandler {
            state: &mut self.state,
            output: &mut self.output,
        }
    }

    /// The handler of the leader.
    ///
    /// Refusals, in this order:
    /// - `Spent` after `OutOfMemory`,
    /// - `ForwardToLeader`, with the known leader, if this node doesn't lead.
    ///
    /// Source: openraft's `leader_handler`.
    pub fn leader_handler(
        &mut self,
    ) -> Result<LeaderHandler<'_, C>, EngineError<C::NodeId, C::Node>>
        ensures { LeaderLent C.NodeId.cmp self.old result }
    {
        if self.output.is_spent() {
            return Err(EngineError::Spent);
        }
        match self.leader.as_deref_mut() {
            None => {
                let (leader_id, leader_node) = self.state.forward_to_leader();
                Err(EngineError::ForwardToLeader {
                    leader_id,
                    leader_node,
                })
            }
            Some(leader) => Ok(LeaderHandler {
                config: &self.config,
                leader,
                state: &mut self.state,
                output: &mut self.output,
            }),
        }
    }

    /// The handler of the leader, or its refusal, with the caller's token.
    ///
    /// Refused as `leader_handler` is; the token is handed back. Source: openraft's `get_leader_handler_or_reject`.
    pub fn get_leader_handler_or_reject(
        &mut self,
        token: Option<Token>,
    ) -> Result<
        (LeaderHandler<'_, C>, Option<Token>),
        (EngineError<C::NodeId, C::Node>, Option<Token>),
    >
        ensures { LeaderLentFor C.NodeId.cmp self.old token result }
    {
        match self.leader_handler() {
            Ok(handler) => Ok((handler, token)),
            Err(error) => Err((error, token)),
        }
    }

    /// The handler of replication. The node must lead.
    pub fn replication_handler(&mut self) -> ReplicationHandler<'_, C>
        requires { IsSome self.old.leader }
        ensures config { result.config.now ≡ self.old.config }
        ensures lent { led_in (parts self.old) ≡ Some (view_of_replication result) }
    {
        let leader = self.leader.as_deref_mut().unwrap();
        ReplicationHandler {
            config: &self.config,
            leader,
            state: &mut self.state,
            output: &mut self.output,
        }
    }

    /// The handler of a leader's entries. The node must not lead, and must be no candidate under its vote.
    pub fn following_handler(&mut self) -> FollowingHandler<'_, C>
        requires no_leader { self.old.leader ≡ None }
        requires no_candidate { IfSome self.old.candidate (λ c. is_eq (vote_cmp C.NodeId.cmp c.vote self.old.state.vote) ≡ false) }
        ensures config { result.config.now ≡ self.old.config }
        ensures lent { view_of_following result ≡ core_of self.old.state self.old.output }
    {
        FollowingHandler {
            config: &self.config,
            state: &mut self.state,
            output: &mut self.output,
        }
    }

    /// The handler that makes a candidate the leader.
    pub fn establish_handler(&mut self) -> EstablishHandler<'_, C>
        ensures config { result.config.now ≡ self.old.config }
        ensures lent { view_of_establish result ≡ record (parts self.old) { candidate = None } }
    {
        EstablishHandler {
            config: &self.config,
            state: &self.state,
            output: &mut self.output,
            leader: &mut self.leader,
        }
    }
}

/// A candidate for the votes of the effective membership.
#[tactic(auto, using(raft_proposer::proofs::Beside::candidate_in))]
fn new_candidate<C: RaftTypeConfig>(
    alloc: Global,
    state: &RaftState<C::NodeId, C::Node>,
    vote: Vote<C::NodeId>,
    now: u64,
) -> Result<Candidate<C, Joint<C::NodeId>>, AllocError>
    ensures { IfOk result (λ c. c ≡ candidate_of C.NodeId.cmp now vote (last state.now.ids) state.now.em.membership) }
{
    let membership = &state.em.membership;
    let learners = learners_of(membership)?;
    let voters = joint_of(alloc, membership)?;
    let candidate = Candidate::new(alloc, now, vote, state.last_log_id(), voters, &learners)?;
    Ok(candidate)
}

/// Starts an election: votes for this node in the next term and queues the vote requests.
#[tactic(auto, using(raft_steps::proofs::Leads::pending_may), unfolding(raft_steps::specs::Engine::elect))]
fn elect<C: RaftTypeConfig>(
    config: &EngineConfig<C::NodeId>,
    state: &mut RaftState<C::NodeId, C::Node>,
    output: &mut EngineOutput<C>,
    leader: &mut Option<Box<Leader<C, Joint<C::NodeId>>>>,
    candidate: &mut Option<Candidate<C, Joint<C::NodeId>>>,
    now: u64,
) -> Result<(), AllocError>
    requires term { state.old.vote.leader_id.term + 1 < 2 ^ 64 }
    requires log { next (last state.old.ids) < 2 ^ 64 }
    ensures { OnOk result (machine_of state.new output.new leader.new candidate.new
        ≡ elect C.NodeId.cmp C.Entry.RaftEntry.own config.now now (machine_of state.old output.old leader.old candidate.old)) }
{
    let vote = Vote::new(state.vote.leader_id.term + 1, config.id);
    let last_log_id = state.last_log_id();
    *candidate = Some(new_candidate::<C>(output.allocator(), state, vote, now)?);
    let _taken = update_vote(config, state, output, leader, candidate, &vote, now)?;
    output.try_push(Command::SendVote {
        vote_req: VoteRequest::new(vote, last_log_id),
    })?;
    update_role(config, state, output)
}

/// The first log id, of the default node.
fn first_log_id<NID: NodeId>() -> LogId<NID>
    ensures { result ≡ default_log_id NID.default_id }
{
    LogId::new(LeaderId::new(0, NID::default()), 0)
}

/// Appends the first entry of a cluster, and starts an election.
#[tactic(auto, using(raft_steps::proofs::Proposing::first_end), unfolding(raft_steps::specs::Engine::initialize))]
fn initialize<C: RaftTypeConfig>(
    config: &EngineConfig<C::NodeId>,
    state: &mut RaftState<C::NodeId, C::Node>,
    output: &mut EngineOutput<C>,
    leader: &mut Option<Box<Leader<C, Joint<C::NodeId>>>>,
    candidate: &mut Option<Candidate<C, Joint<C::NodeId>>>,
    entry: C::Entry,
    now: u64,
) -> Result<(), AllocError>
    requires term { state.old.vote.leader_id.term + 1 < 2 ^ 64 }
    requires log { state.old.ids ≡ [] }
    ensures { OnOk result (machine_of state.new output.new leader.new candidate.new
        ≡ initialize C.NodeId.cmp C.Entry.RaftEntry.own config.now C.NodeId.default_id entry now (machine_of state.old output.old leader.old candidate.old)) }
{
    let mut entry = entry;
    entry.set_log_id(&first_log_id());
    let mut entries = Vec::new(output.allocator());
    entries.push(entry)?;
    do_append_entries(config, state, output, Items::from_vec(entries))?;
    elect(config, state, output, leader, candidate, now)
}

/// Adopts the vote of a rejection, as uncommitted.
#[tactic(auto, using(raft_steps::proofs::Leads::pending_may), unfolding(raft_steps::specs::Engine::take_rejection))]
fn take_rejection<C: RaftTypeConfig>(
    config: &EngineConfig<C::NodeId>,
    state: &mut RaftState<C::NodeId, C::Node>,
    output: &mut EngineOutput<C>,
    leader: &mut Option<Box<Leader<C, Joint<C::NodeId>>>>,
    candidate: &mut Option<Candidate<C, Joint<C::NodeId>>>,
    resp: &VoteResponse<C::NodeId>,
    now: u64,
) -> Result<(), AllocError>
    requires { next (last state.old.ids) < 2 ^ 64 }
    ensures { OnOk result (machine_of state.new output.new leader.new candidate.new
        ≡ take_rejection C.NodeId.cmp C.Entry.RaftEntry.own config.now resp.now now (machine_of state.old output.old leader.old candidate.old)) }
{
    let mut vote = resp.vote;
    vote.committed = false;
    let _taken = update_vote(config, state, output, leader, candidate, &vote, now)?;
    Ok(())
}

/// Checks a grant: `UnknownTarget` if it isn't from a voter; `IndexEnd` if it completes a quorum and no index is left
/// for the no-op entry.
fn check_grant<C: RaftTypeConfig>(
    state: &RaftState<C::NodeId, C::Node>,
    leader: &Option<Box<Leader<C, Joint<C::NodeId>>>>,
    asking: &mut Candidate<C, Joint<C::NodeId>>,
    target: &C::NodeId,
) -> Result<(), EngineError<C::NodeId, C::Node>>
    ensures same { asking.new ≡ asking.old }
    ensures passed { OnOk result (refusals_of_grant C.NodeId.cmp target.now asking.old state.now (unboxed leader.now) ≡ None) }
    ensures refused { IfErr result (λ e. (is_memory e ≡ false) × (refusals_of_grant C.NodeId.cmp target.now asking.old state.now (unboxed leader.now) ≡ Some e)) }
{
    if asking.progress().get(target).is_none() {
        return Err(EngineError::UnknownTarget);
    }
    if asking.would_grant(target) && may_establish(state, leader, asking) && is_at_end(asking) {
        return Err(EngineError::IndexEnd);
    }
    Ok(())
}

/// Whether the index after the candidate's last id is the greatest.
fn is_at_end<C: RaftTypeConfig>(candidate: &Candidate<C, Joint<C::NodeId>>) -> bool
    ensures { result ≡ (next candidate.now.last_log_id == u64_max) }
{
    match candidate.last_log_id() {
        Some(id) => id.index == u64::MAX - 1,
        None => false,
    }
}

/// Proposes a no-op entry under an id, if there is a leader.
fn propose_where_leading<C: RaftTypeConfig>(
    config: &EngineConfig<C::NodeId>,
    state: &mut RaftState<C::NodeId, C::Node>,
    output: &mut EngineOutput<C>,
    leader: &mut Option<Box<Leader<C, Joint<C::NodeId>>>>,
    candidate: &Option<Candidate<C, Joint<C::NodeId>>>,
    log_id: LogId<C::NodeId>,
) -> Result<(), AllocError>
    requires send { IfSome (unboxed leader.old) (λ l. MaySend 2 (led_of l state.old output.old)) }
    requires room { IfSome (unboxed leader.old) (λ l. next l.last_log_id + 1 < 2 ^ 64) }
    ensures { OnOk result (machine_of state.new output.new leader.new candidate.now
        ≡ on_leader (leader_append_entries C.NodeId.cmp C.Entry.RaftEntry.own config.now (C.Entry.blank log_id ∷ [])) (machine_of state.old output.old leader.old candidate.now)) }
{
    match leader {
        None => Ok(()),
        Some(leader) => propose_blank(config, &mut **leader, state, output, log_id),
    }
}

/// Makes an elected leader adopt its vote, and propose its no-op entry.
fn start_leading<C: RaftTypeConfig>(
    config: &EngineConfig<C::NodeId>,
    state: &mut RaftState<C::NodeId, C::Node>,
    output: &mut EngineOutput<C>,
    leader: &mut Option<Box<Leader<C, Joint<C::NodeId>>>>,
    candidate: &mut Option<Candidate<C, Joint<C::NodeId>>>,
    led: Leader<C, Joint<C::NodeId>>,
    log_id: LogId<C::NodeId>,
    now: u64,
) -> Result<(), AllocError>
    requires send { MaySend 2 (led_of led state.old output.old) }
    requires room { next led.last_log_id + 1 < 2 ^ 64 }
    ensures { OnOk result (machine_of state.new output.new leader.new candidate.new
        ≡ on_leader (leader_append_entries C.NodeId.cmp C.Entry.RaftEntry.own config.now (C.Entry.blank log_id ∷ []))
        (update_vote C.NodeId.cmp C.Entry.RaftEntry.own config.now led.vote now (leading (machine_of state.old output.old leader.old candidate.old) (led_of led state.old output.old)))) }
{
    let vote = led.vote;
    *leader = Some(Box::new(output.allocator(), led)?);
    let _taken = update_vote(config, state, output, leader, candidate, &vote, now)?;
    propose_where_leading(config, state, output, leader, candidate, log_id)?;
    Ok(())
}

/// Makes a candidate with a quorum the leader, if it may lead, and proposes a no-op entry.
#[tactic(auto, using(raft_steps::proofs::Led::by_votes_is), unfolding(raft_steps::specs::Engine::lead_by_votes))]
fn lead_by_votes<C: RaftTypeConfig>(
    config: &EngineConfig<C::NodeId>,
    state: &mut RaftState<C::NodeId, C::Node>,
    output: &mut EngineOutput<C>,
    leader: &mut Option<Box<Leader<C, Joint<C::NodeId>>>>,
    candidate: &mut Option<Candidate<C, Joint<C::NodeId>>>,
    asking: Candidate<C, Joint<C::NodeId>>,
    now: u64,
) -> Result<(), AllocError>
    requires log { next (last state.old.ids) < 2 ^ 64 }
    requires room { may_establish C.NodeId.cmp state.old (unboxed leader.old) asking ≡ true → next asking.last_log_id + 1 < 2 ^ 64 }
    ensures { OnOk result (machine_of state.new output.new leader.new candidate.new
        ≡ lead_by_votes C.NodeId.cmp C.Entry.RaftEntry.own config.now asking now (machine_of state.old output.old leader.old candidate.old)) }
{
    *candidate = None;
    if !may_establish(state, leader, &asking) {
        drop(asking);
        return Ok(());
    }
    let mut led = leader_of(output.allocator(), asking)?;
    let log_id = led.noop_log_id;
    rebuild_replication_streams(config, &mut led, state, output)?;
    start_leading(config, state, output, leader, candidate, led, log_id, now)
}

/// Counts the grant of a voter, and answers whether a quorum has granted.
fn grant<C: RaftTypeConfig>(asking: &mut Candidate<C, Joint<C::NodeId>>, target: &C::NodeId) -> bool
    requires { is_in C.NodeId.cmp asking.old.progress target.now ≡ true }
    ensures value { result ≡ is_granted (is_quorum C.NodeId.cmp) (grant_by C.NodeId.cmp asking.old target.now) }
    ensures after { asking.new ≡ grant_by C.NodeId.cmp asking.old target.now }
{
    match asking.grant_by(target) {
        Ok(granted) => granted,
        Err(_) => false,
    }
}

/// Counts a grant; on a quorum the candidate is used up and becomes the leader, if it may lead.
#[tactic(auto, using(raft_steps::proofs::Led::grant_room), unfolding(raft_steps::specs::Engine::take_grant))]
fn take_grant<C: RaftTypeConfig>(
    config: &EngineConfig<C::NodeId>,
    state: &mut RaftState<C::NodeId, C::Node>,
    output: &mut EngineOutput<C>,
    leader: &mut Option<Box<Leader<C, Joint<C::NodeId>>>>,
    candidate: &mut Option<Candidate<C, Joint<C::NodeId>>>,
    asking: Candidate<C, Joint<C::NodeId>>,
    target: &C::NodeId,
    now: u64,
) -> Result<(), AllocError>
    requires log { next (last state.old.ids) < 2 ^ 64 }
    requires end { may_establish C.NodeId.cmp state.old (unboxed leader.old) asking ≡ true → next asking.last_log_id < 2 ^ 64 }
    requires passed { refusals_of_grant C.NodeId.cmp target.now asking state.old (unboxed leader.old) ≡ None }
    ensures { OnOk result (machine_of state.new output.new leader.new candidate.new
        ≡ take_grant C.NodeId.cmp C.Entry.RaftEntry.own config.now asking target.now now (machine_of state.old output.old leader.old candidate.old)) }
{
    let mut asking = asking;
    if grant(&mut asking, target) {
        lead_by_votes(config, state, output, leader, candidate, asking, now)
    } else {
        *candidate = Some(asking);
        Ok(())
    }
}

/// Checks a reply to the candidate's vote request: only a grant is refused.
fn check_reply<C: RaftTypeConfig>(
    state: &RaftState<C::NodeId, C::Node>,
    leader: &Option<Box<Leader<C, Joint<C::NodeId>>>>,
    candidate: &mut Option<Candidate<C, Joint<C::NodeId>>>,
    target: &C::NodeId,
    resp: &VoteResponse<C::NodeId>,
) -> Result<(), EngineError<C::NodeId, C::Node>>
    ensures same { candidate.new ≡ candidate.old }
    ensures passed { OnOk result (refusals_of_reply_of C.NodeId.cmp target.now resp.now candidate.old state.now (unboxed leader.now) ≡ None) }
    ensures refused { IfErr result (λ e. (is_memory e ≡ false) × (refusals_of_reply_of C.NodeId.cmp target.now resp.now candidate.old state.now (unboxed leader.now) ≡ Some e)) }
{
    match candidate {
        None => Ok(()),
        Some(asking) => {
            if resp.is_granted_to(asking.vote_ref()) {
                check_grant(state, leader, asking, target)
            } else {
                Ok(())
            }
        }
    }
}

/// Whether a reply is a rejection of the candidate by a node with a greater log.
fn sees_greater_log<C: RaftTypeConfig>(
    state: &RaftState<C::NodeId, C::Node>,
    candidate: &Option<Candidate<C, Joint<C::NodeId>>>,
    resp: &VoteResponse<C::NodeId>,
) -> bool
    ensures { result ≡ sees_greater_log C.NodeId.cmp resp.now candidate.now state.now }
{
    match candidate {
        None => false,
        Some(asking) => !resp.is_granted_to(asking.vote_ref())
            && is_greater_id(&resp.last_log_id, &state.last_log_id()),
    }
}

/// Handles a reply to the candidate's vote request: counts a grant, or adopts the vote as uncommitted.
#[tactic(auto, unfolding(raft_steps::specs::Engine::handle_vote_resp))]
fn take_reply<C: RaftTypeConfig>(
    config: &EngineConfig<C::NodeId>,
    state: &mut RaftState<C::NodeId, C::Node>,
    output: &mut EngineOutput<C>,
    leader: &mut Option<Box<Leader<C, Joint<C::NodeId>>>>,
    candidate: &mut Option<Candidate<C, Joint<C::NodeId>>>,
    target: &C::NodeId,
    resp: &VoteResponse<C::NodeId>,
    now: u64,
) -> Result<(), AllocError>
    requires log { next (last state.old.ids) < 2 ^ 64 }
    requires end { IfSome candidate.old (λ c. may_establish C.NodeId.cmp state.old (unboxed leader.old) c ≡ true → next c.last_log_id < 2 ^ 64) }
    requires passed { refusals_of_reply_of C.NodeId.cmp target.now resp.now candidate.old state.old (unboxed leader.old) ≡ None }
    ensures free { candidate.old ≡ None → IsOk result }
    ensures step { OnOk result (machine_of state.new output.new leader.new candidate.new
        ≡ handle_vote_resp C.NodeId.cmp C.Entry.RaftEntry.own config.now target.now resp.now now (machine_of state.old output.old leader.old candidate.old)) }
{
    match candidate.take() {
        None => Ok(()),
        Some(asking) => {
            if resp.is_granted_to(asking.vote_ref()) {
                take_counted(
                    config, state, output, leader, candidate, asking, target, now,
                )
            } else {
                *candidate = Some(asking);
                take_rejection(config, state, output, leader, candidate, resp, now)
            }
        }
    }
}

/// Counts a grant of the candidate that was taken out.
#[tactic(auto, using(raft_steps::proofs::Led::grant_of))]
fn take_counted<C: RaftTypeConfig>(
    config: &EngineConfig<C::NodeId>,
    state: &mut RaftState<C::NodeId, C::Node>,
    output: &mut EngineOutput<C>,
    leader: &mut Option<Box<Leader<C, Joint<C::NodeId>>>>,
    candidate: &mut Option<Candidate<C, Joint<C::NodeId>>>,
    asking: Candidate<C, Joint<C::NodeId>>,
    target: &C::NodeId,
    now: u64,
) -> Result<(), AllocError>
    requires log { next (last state.old.ids) < 2 ^ 64 }
    requires end { may_establish C.NodeId.cmp state.old (unboxed leader.old) asking ≡ true → next asking.last_log_id < 2 ^ 64 }
    requires passed { refusals_of_grant C.NodeId.cmp target.now asking state.old (unboxed leader.old) ≡ None }
    ensures { OnOk result (machine_of state.new output.new leader.new candidate.new
        ≡ take_grant C.NodeId.cmp C.Entry.RaftEntry.own config.now asking target.now now (record (machine_of state.old output.old leader.old candidate.old) { candidate = Some asking })) }
{
    take_grant(
        config, state, output, leader, candidate, asking, target, now,
    )?;
    Ok(())
}
