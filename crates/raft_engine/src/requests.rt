//! The engine's calls for requests from candidates and leaders.

ghost use Rattle.std.specs.Prelude.{◌≡◌, ◌+◌, ◌^◌, ◌<◌, not, OnOk, IfOk, IfErr, map, [], false, true, None, Some, if◌then◌else◌};
ghost use Rattle.raft_state.specs.Log.{last};
ghost use Rattle.raft_state.specs.Order.{next};
ghost use Rattle.raft_command.specs.Ends.{Ends, is_memory};
ghost use Rattle.raft_command.specs.Message.{append_response};
ghost use Rattle.raft_steps.specs.Refusals.{is_counter_end, is_near_end, refusals_of_update_vote, rows_in};
ghost use Rattle.std.specs.List.{list_any};
ghost use Rattle.std.specs.Result.{is_ok};
ghost use Rattle.raft_steps.specs.Conditions.{IsFollowing};
ghost use Rattle.raft_steps.specs.FollowingHandler.{consecutive_answer, holds_previous};
ghost use Rattle.raft_steps.specs.Invariants.{IsSoundUnlessSpent};
ghost use Rattle.raft_steps.specs.Parts.{core_of, machine_of, unboxed};
ghost use Rattle.raft_engine.specs.Whole.{parts};
ghost use Rattle.raft_steps.specs.RequestRefusals.{refusals_of_vote_req, refusals_of_append, refusals_of_commit};
ghost use Rattle.raft_steps.specs.Requests.{is_leased, refuses_vote_req, vote_response, handle_vote_req, vote_req_answer, follow};
ghost use Rattle.raft_steps.specs.Requests.{append_entries, append_answer, replied, is_within_lease, handle_append_entries};
ghost use Rattle.raft_steps.specs.Requests.{handle_commit_entries};
ghost use Rattle.raft_steps.specs.Room.{MayLead};
ghost use Rattle.raft_steps.specs.VoteHandler.{rejects_vote, update_vote, vote_answer};

use crate::engine::Engine;
use raft_command::{
    Command, EngineConfig, EngineOutput, Respond, Token, VoteRequest, VoteResponse,
};
use raft_error::EngineError;
use raft_handler_follower::following_handler;
use raft_handler_follower::following_handler::{commit_entries, ensure_log_consecutive};
use raft_handler_follower::raft_handler_common::order::{is_lower_id, rejects_vote};
use raft_handler_follower::raft_handler_common::refusals::{is_near_end, taken_blank_is_at_end};
use raft_handler_follower::request_refusals::{check_follow, check_held};
use raft_handler_vote::vote_handler::update_vote;
use raft_progress::Joint;
use raft_proposer::{Candidate, Leader};
use raft_state::{
    LogId, Node, NodeId, RaftState, RaftTypeConfig, RejectAppendEntries, RejectVoteRequest, Vote,
};
use std::alloc::AllocError;

impl<C: RaftTypeConfig> Engine<C> {
    /// Adopts a vote that isn't below ours, as a reply tells of it: saves it if it is above, renews its time, and makes the
    /// node lead, wait for votes or follow. A vote below ours is rejected, and nothing changes. `now` is in milliseconds.
    ///
    /// Refusals, in this order:
    /// - `Spent` after `OutOfMemory`,
    /// - `IndexEnd` if the node would lead anew and its no-op entry would get the greatest index.
    ///
    /// Source: openraft's `VoteHandler::update_vote`; Raft paper, section 5.1.
    #[tactic(auto, using(raft_steps::proofs::Room::may_take, raft_steps::proofs::Room::log_end))]
    pub fn update_vote(
        &mut self,
        vote: &Vote<C::NodeId>,
        now: u64,
    ) -> Result<Result<(), RejectVoteRequest<C::NodeId>>, EngineError<C::NodeId, C::Node>>
        requires { IsSoundUnlessSpent C.NodeId.cmp self.old.config (parts self.old) }
        ensures config { self.new.config ≡ self.old.config }
        ensures flag { self.new.seen_greater_log ≡ self.old.seen_greater_log }
        ensures step { Ends (refusals_of_update_vote C.NodeId.cmp self.old.config vote.now (parts self.old)) result self.new.output
            (λ answer. (answer ≡ vote_answer C.NodeId.cmp self.old.state vote.now)
            × (parts self.new ≡ update_vote C.NodeId.cmp C.Entry.RaftEntry.own self.old.config vote.now now (parts self.old)))
            (parts self.old) (parts self.new) }
        ensures sound { IsSoundUnlessSpent C.NodeId.cmp self.new.config (parts self.new) }
    {
        if self.output.is_spent() {
            return Err(EngineError::Spent);
        }
        if taken_blank_is_at_end(&self.config, &self.state, &self.leader, vote) {
            return Err(EngineError::IndexEnd);
        }
        let done = update_vote(
            &self.config,
            &mut self.state,
            &mut self.output,
            &mut self.leader,
            &mut self.candidate,
            vote,
            now,
        );
        self.output.settle(done)
    }

    /// Answers a vote request. Denies, and changes and allocates nothing, while a leader's lease is in force (its last
    /// millisecond included) or if the candidate's log is behind ours. Otherwise grants, and adopts the vote, if it is
    /// not below ours. The answer has the vote and the last log id that the node then has. `now` is in milliseconds.
    ///
    /// Refusals, in this order:
    /// - `Spent` after `OutOfMemory`,
    /// - `IndexEnd` if by the vote the node would lead anew and its no-op entry would get the greatest index.
    ///
    /// Source: openraft's `handle_vote_req`; Raft paper, sections 5.2, 5.4.1 and 6.
    #[tactic(auto, using(raft_steps::proofs::Room::may_take, raft_steps::proofs::Room::log_end), unfolding(raft_steps::specs::Requests::handle_vote_req, raft_steps::specs::Requests::vote_req_answer))]
    pub fn handle_vote_req(
        &mut self,
        req: VoteRequest<C::NodeId>,
        now: u64,
    ) -> Result<VoteResponse<C::NodeId>, EngineError<C::NodeId, C::Node>>
        requires { IsSoundUnlessSpent C.NodeId.cmp self.old.config (parts self.old) }
        ensures config { self.new.config ≡ self.old.config }
        ensures flag { self.new.seen_greater_log ≡ self.old.seen_greater_log }
        ensures free { refuses_vote_req C.NodeId.cmp self.old.config self.old.state req now ≡ true → IfErr result (λ e. is_memory e ≡ false) }
        ensures step { Ends (refusals_of_vote_req C.NodeId.cmp self.old.config req now (parts self.old)) result self.new.output
            (λ answer. (answer ≡ vote_req_answer C.NodeId.cmp C.Entry.RaftEntry.own self.old.config req now (parts self.old))
            × (parts self.new ≡ handle_vote_req C.NodeId.cmp C.Entry.RaftEntry.own self.old.config req now (parts self.old)))
            (parts self.old) (parts self.new) }
        ensures sound { IsSoundUnlessSpent C.NodeId.cmp self.new.config (parts self.new) }
    {
        if self.output.is_spent() {
            return Err(EngineError::Spent);
        }
        if refuses_vote_req::<C>(&self.config, &self.state, &req, now) {
            return Ok(vote_response(&self.state, false));
        }
        if taken_blank_is_at_end(&self.config, &self.state, &self.leader, &req.vote) {
            return Err(EngineError::IndexEnd);
        }
        let done = take_vote_req(
            &self.config,
            &mut self.state,
            &mut self.output,
            &mut self.leader,
            &mut self.candidate,
            &req.vote,
            now,
        );
        self.output.settle(done)
    }

    /// Appends a leader's entries after the previous id, or answers why not: the vote is below ours, or the previous id
    /// isn't held. A vote that isn't below ours is adopted; if the previous id isn't held, the log is deleted from its
    /// index on. `now` is in milliseconds.
    ///
    /// Refusals, in this order, from `IndexEnd` on only if the vote isn't below ours:
    /// - `Spent` after `OutOfMemory`,
    /// - `CounterEnd` if a sequence or inflight number is near its end,
    /// - `VoteNotCommitted`,
    /// - `OwnVote` if the vote names this node,
    /// - `IndexEnd` if an id has the greatest index,
    /// - `NotFollowing` if the ids aren't consecutive, or one is of a leader above the vote's,
    /// - `ContradictsHeld` if one contradicts what is committed, or what was accepted from the leader.
    ///
    /// Source: openraft's `Engine::append_entries`; Raft paper, figure 2 (AppendEntries).
    #[tactic(auto, using(raft_steps::proofs::Room::log_end, raft_steps::proofs::Followed::append_may))]
    pub fn append_entries(
        &mut self,
        vote: &Vote<C::NodeId>,
        prev_log_id: Option<LogId<C::NodeId>>,
        entries: Vec<C::Entry>,
        now: u64,
    ) -> Result<Result<(), RejectAppendEntries<C::NodeId>>, EngineError<C::NodeId, C::Node>>
        requires { IsSoundUnlessSpent C.NodeId.cmp self.old.config (parts self.old) }
        ensures config { self.new.config ≡ self.old.config }
        ensures flag { self.new.seen_greater_log ≡ self.old.seen_greater_log }
        ensures step { Ends (refusals_of_append C.NodeId.cmp self.old.config vote.now prev_log_id (map C.Entry.id_of entries.items) (parts self.old)) result self.new.output
            (λ answer. (answer ≡ append_answer C.NodeId.cmp C.Entry.RaftEntry.own self.old.config vote.now prev_log_id now (parts self.old))
            × (parts self.new ≡ append_entries C.NodeId.cmp C.Entry.RaftEntry.own self.old.config vote.now prev_log_id entries.items now (parts self.old)))
            (parts self.old) (parts self.new) }
        ensures sound { IsSoundUnlessSpent C.NodeId.cmp self.new.config (parts self.new) }
    {
        if self.output.is_spent() {
            return Err(EngineError::Spent);
        }
        self.check_append(vote, &prev_log_id, &entries)?;
        let done = append_entries(
            &self.config,
            &mut self.state,
            &mut self.output,
            &mut self.leader,
            &mut self.candidate,
            vote,
            &prev_log_id,
            entries,
            now,
        );
        self.output.settle(done)
    }

    /// Like `append_entries`. With a token, also queues the reply, after the commands of the append. Returns whether
    /// the entries were appended. `now` is in milliseconds.
    ///
    /// Refused as `append_entries` is. Source: openraft's `handle_append_entries`; Raft paper, figure 2
    /// (AppendEntries).
    #[tactic(auto, using(raft_steps::proofs::Room::log_end, raft_steps::proofs::Followed::append_may))]
    pub fn handle_append_entries(
        &mut self,
        vote: &Vote<C::NodeId>,
        prev_log_id: Option<LogId<C::NodeId>>,
        entries: Vec<C::Entry>,
        token: Option<Token>,
        now: u64,
    ) -> Result<bool, EngineError<C::NodeId, C::Node>>
        requires { IsSoundUnlessSpent C.NodeId.cmp self.old.config (parts self.old) }
        ensures config { self.new.config ≡ self.old.config }
        ensures flag { self.new.seen_greater_log ≡ self.old.seen_greater_log }
        ensures step { Ends (refusals_of_append C.NodeId.cmp self.old.config vote.now prev_log_id (map C.Entry.id_of entries.items) (parts self.old)) result self.new.output
            (λ appended. (appended ≡ is_ok (append_answer C.NodeId.cmp C.Entry.RaftEntry.own self.old.config vote.now prev_log_id now (parts self.old)))
            × (parts self.new ≡ handle_append_entries C.NodeId.cmp C.Entry.RaftEntry.own self.old.config vote.now prev_log_id entries.items token now (parts self.old)))
            (parts self.old) (parts self.new) }
        ensures sound { IsSoundUnlessSpent C.NodeId.cmp self.new.config (parts self.new) }
    {
        if self.output.is_spent() {
            return Err(EngineError::Spent);
        }
        self.check_append(vote, &prev_log_id, entries.as_slice())?;
        let done = handle_append_entries(
            &self.config,
            &mut self.state,
            &mut self.output,
            &mut self.leader,
            &mut self.candidate,
            vote,
            &prev_log_id,
            entries,
            token,
            now,
        );
        self.output.settle(done)
    }

    /// Commits up to a leader's committed id, as far as this node has accepted from that leader, and triggers a
    /// snapshot if the policy asks for one. The node must follow: it doesn't lead, and is no candidate under its vote.
    ///
    /// Refusals, in this order:
    /// - `Spent` after `OutOfMemory`,
    /// - `CounterEnd` if a sequence or inflight number is near its end,
    /// - `CommittedNotHeld` if the log doesn't hold what would be committed.
    ///
    /// Source: openraft's `handle_commit_entries`; Raft paper, figure 2 (AppendEntries, step 5).
    #[tactic(auto, using(raft_steps::proofs::Followed::counted_engine), unfolding(raft_steps::specs::Requests::handle_commit_entries))]
    pub fn handle_commit_entries(
        &mut self,
        leader_committed: Option<LogId<C::NodeId>>,
    ) -> Result<(), EngineError<C::NodeId, C::Node>>
        requires following { IsFollowing C.NodeId.cmp (parts self.old) }
        requires sound { IsSoundUnlessSpent C.NodeId.cmp self.old.config (parts self.old) }
        ensures config { self.new.config ≡ self.old.config }
        ensures flag { self.new.seen_greater_log ≡ self.old.seen_greater_log }
        ensures step { Ends (refusals_of_commit C.NodeId.cmp leader_committed (parts self.old)) result self.new.output
            (λ _. parts self.new ≡ handle_commit_entries C.NodeId.cmp C.Entry.RaftEntry.own self.old.config leader_committed (parts self.old))
            (parts self.old) (parts self.new) }
        ensures sound { IsSoundUnlessSpent C.NodeId.cmp self.new.config (parts self.new) }
    {
        if self.output.is_spent() {
            return Err(EngineError::Spent);
        }
        if self.is_counter_end() {
            return Err(EngineError::CounterEnd);
        }
        check_held(&self.state, &leader_committed)?;
        let done = commit_entries(
            &self.config,
            &mut self.state,
            &mut self.output,
            &leader_committed,
        );
        self.output.settle(done)
    }

    /// Whether the last sequence number or an inflight number of the leader is near its end.
    pub(crate) fn is_counter_end(&self) -> bool
        ensures { result ≡ is_counter_end (parts self.now) }
    {
        is_near_end(self.output.last_sm_seq()) || has_number_near_end(&self.leader)
    }

    /// Checks an append; beyond its vote only if that isn't below ours.
    fn check_append(
        &self,
        vote: &Vote<C::NodeId>,
        prev: &Option<LogId<C::NodeId>>,
        entries: &[C::Entry],
    ) -> Result<(), EngineError<C::NodeId, C::Node>>
        requires { self.now.output.spent ≡ false }
        ensures passed { OnOk result (refusals_of_append C.NodeId.cmp self.now.config vote.now prev.now (map C.Entry.id_of entries.now) (parts self.now) ≡ None) }
        ensures refused { IfErr result (λ e. (is_memory e ≡ false) × (refusals_of_append C.NodeId.cmp self.now.config vote.now prev.now (map C.Entry.id_of entries.now) (parts self.now) ≡ Some e)) }
    {
        if self.is_counter_end() {
            return Err(EngineError::CounterEnd);
        }
        if !vote.committed {
            return Err(EngineError::VoteNotCommitted);
        }
        if vote.leader_id.node_id.cmp(&self.config.id).is_eq() {
            return Err(EngineError::OwnVote);
        }
        if rejects_vote(&self.state, vote) {
            return Ok(());
        }
        check_follow::<C>(&self.state, vote, prev, entries)
    }
}

/// Whether an inflight number of the leader, if there is one, is near its end.
fn has_number_near_end<C: RaftTypeConfig>(leader: &Option<Box<Leader<C, Joint<C::NodeId>>>>) -> bool
    ensures { result ≡ list_any (λ row. is_near_end row.1.last_inflight_id) (elim (unboxed leader.now) [ None ↦ [] | Some l ↦ l.progress.rows ]) }
{
    match leader {
        Some(leader) => sent_near_end(leader),
        None => false,
    }
}

/// Whether an inflight number of this leader is near its end.
fn sent_near_end<C: RaftTypeConfig>(leader: &Leader<C, Joint<C::NodeId>>) -> bool
    ensures { result ≡ list_any (λ row. is_near_end row.1.last_inflight_id) leader.now.progress.rows }
{
    leader.progress.has_number_above(u64::MAX - 8)
}

/// Whether a vote request is denied: a leader's lease is in force, or the candidate's log is behind ours.
fn refuses_vote_req<C: RaftTypeConfig>(
    config: &EngineConfig<C::NodeId>,
    state: &RaftState<C::NodeId, C::Node>,
    req: &VoteRequest<C::NodeId>,
    now: u64,
) -> bool
    ensures { result ≡ refuses_vote_req C.NodeId.cmp config.now state.now req.now now }
{
    is_leased::<C>(config, state, now) || is_lower_id(&req.last_log_id, &state.last_log_id())
}

/// Whether a leader's lease is in force.
fn is_leased<C: RaftTypeConfig>(
    config: &EngineConfig<C::NodeId>,
    state: &RaftState<C::NodeId, C::Node>,
    now: u64,
) -> bool
    ensures { result ≡ is_leased config.now state.now now }
{
    state.vote.committed && is_within_lease(state.time, config.timer_config.leader_lease, now)
}

/// Whether `now` is within `lease` milliseconds of `since`; false without `since`.
#[tactic(auto, using(raft_steps::proofs::Followed::lease_is))]
fn is_within_lease(since: Option<u64>, lease: u64, now: u64) -> bool
    ensures { result ≡ is_within_lease since lease now }
{
    match since {
        Some(since) => now.saturating_sub(since) <= lease,
        None => false,
    }
}

/// The reply to a vote request: this node's vote and last log id, and whether it granted.
fn vote_response<NID: NodeId, N: Node>(
    state: &RaftState<NID, N>,
    granted: bool,
) -> VoteResponse<NID>
    ensures { result ≡ vote_response state.now granted }
{
    VoteResponse::new(&state.vote, state.last_log_id(), granted)
}

/// Adopts the vote of a request that neither the lease nor the log denies, and answers it.
#[tactic(auto, unfolding(raft_steps::specs::VoteHandler::update_vote))]
fn take_vote_req<C: RaftTypeConfig>(
    config: &EngineConfig<C::NodeId>,
    state: &mut RaftState<C::NodeId, C::Node>,
    output: &mut EngineOutput<C>,
    leader: &mut Option<Box<Leader<C, Joint<C::NodeId>>>>,
    candidate: &mut Option<Candidate<C, Joint<C::NodeId>>>,
    vote: &Vote<C::NodeId>,
    now: u64,
) -> Result<VoteResponse<C::NodeId>, AllocError>
    requires log { next (last state.old.ids) < 2 ^ 64 }
    requires room { rejects_vote C.NodeId.cmp state.old vote.now ≡ false → MayLead C.NodeId.cmp config.now vote.now state.old.em.membership state.old.ids (unboxed leader.old) }
    ensures answer { IfOk result (λ answer. answer ≡ vote_response state.new (not (rejects_vote C.NodeId.cmp state.old vote.now))) }
    ensures step { OnOk result (machine_of state.new output.new leader.new candidate.new
        ≡ update_vote C.NodeId.cmp C.Entry.RaftEntry.own config.now vote.now now (machine_of state.old output.old leader.old candidate.old)) }
{
    let taken = update_vote(config, state, output, leader, candidate, vote, now)?;
    Ok(vote_response(state, taken.is_ok()))
}

/// Adopts a leader's vote and appends its entries after the previous id; or answers why not.
#[tactic(auto, unfolding(raft_steps::specs::Requests::append_entries, raft_steps::specs::Requests::append_answer))]
fn append_entries<C: RaftTypeConfig>(
    config: &EngineConfig<C::NodeId>,
    state: &mut RaftState<C::NodeId, C::Node>,
    output: &mut EngineOutput<C>,
    leader: &mut Option<Box<Leader<C, Joint<C::NodeId>>>>,
    candidate: &mut Option<Candidate<C, Joint<C::NodeId>>>,
    vote: &Vote<C::NodeId>,
    prev_log_id: &Option<LogId<C::NodeId>>,
    entries: Vec<C::Entry>,
    now: u64,
) -> Result<Result<(), RejectAppendEntries<C::NodeId>>, AllocError>
    requires log { next (last state.old.ids) < 2 ^ 64 }
    requires room { rejects_vote C.NodeId.cmp state.old vote.now ≡ false → MayLead C.NodeId.cmp config.now vote.now state.old.em.membership state.old.ids (unboxed leader.old) }
    ensures answer { IfOk result (λ answer. answer
        ≡ append_answer C.NodeId.cmp C.Entry.RaftEntry.own config.now vote.now prev_log_id.now now (machine_of state.old output.old leader.old candidate.old)) }
    ensures step { OnOk result (machine_of state.new output.new leader.new candidate.new
        ≡ append_entries C.NodeId.cmp C.Entry.RaftEntry.own config.now vote.now prev_log_id.now entries.items now (machine_of state.old output.old leader.old candidate.old)) }
{
    if rejects_vote(state, vote) {
        return Ok(Err(RejectAppendEntries::ByVote(state.vote)));
    }
    let _taken = update_vote(config, state, output, leader, candidate, vote, now)?;
    let answer = follow(config, state, output, prev_log_id, entries)?;
    Ok(answer)
}

/// Appends the entries of a leader whose vote was adopted, if the previous id is held; else deletes the log from its
/// index on.
#[tactic(auto, using(raft_steps::proofs::Followed::held_answer), unfolding(raft_steps::specs::Requests::follow))]
fn follow<C: RaftTypeConfig>(
    config: &EngineConfig<C::NodeId>,
    state: &mut RaftState<C::NodeId, C::Node>,
    output: &mut EngineOutput<C>,
    prev_log_id: &Option<LogId<C::NodeId>>,
    entries: Vec<C::Entry>,
) -> Result<Result<(), RejectAppendEntries<C::NodeId>>, AllocError>
    ensures answer { IfOk result (λ answer. answer ≡ consecutive_answer C.NodeId.cmp state.old prev_log_id.now) }
    ensures step { OnOk result (core_of state.new output.new
        ≡ follow C.NodeId.cmp C.Entry.RaftEntry.own config.now prev_log_id.now entries.items (core_of state.old output.old)) }
{
    if !holds_previous(state, prev_log_id) {
        return ensure_log_consecutive(config, state, output, prev_log_id);
    }
    following_handler::append_entries(config, state, output, prev_log_id, entries)?;
    Ok(Ok(()))
}

/// Whether the id before a leader's entries is held; true without one.
fn holds_previous<NID: NodeId, N: Node>(
    state: &RaftState<NID, N>,
    prev_log_id: &Option<LogId<NID>>,
) -> bool
    ensures { result ≡ holds_previous NID.cmp state.now prev_log_id.now }
{
    match prev_log_id {
        Some(id) => state.has_log_id(id),
        None => true,
    }
}

/// Adopts a leader's vote, appends its entries, and queues the reply if there is a token. Returns whether they were
/// appended.
#[tactic(auto, unfolding(raft_steps::specs::Requests::handle_append_entries))]
fn handle_append_entries<C: RaftTypeConfig>(
    config: &EngineConfig<C::NodeId>,
    state: &mut RaftState<C::NodeId, C::Node>,
    output: &mut EngineOutput<C>,
    leader: &mut Option<Box<Leader<C, Joint<C::NodeId>>>>,
    candidate: &mut Option<Candidate<C, Joint<C::NodeId>>>,
    vote: &Vote<C::NodeId>,
    prev_log_id: &Option<LogId<C::NodeId>>,
    entries: Vec<C::Entry>,
    token: Option<Token>,
    now: u64,
) -> Result<bool, AllocError>
    requires log { next (last state.old.ids) < 2 ^ 64 }
    requires room { rejects_vote C.NodeId.cmp state.old vote.now ≡ false → MayLead C.NodeId.cmp config.now vote.now state.old.em.membership state.old.ids (unboxed leader.old) }
    ensures answer { IfOk result (λ appended. appended
        ≡ is_ok (append_answer C.NodeId.cmp C.Entry.RaftEntry.own config.now vote.now prev_log_id.now now (machine_of state.old output.old leader.old candidate.old))) }
    ensures step { OnOk result (machine_of state.new output.new leader.new candidate.new
        ≡ handle_append_entries C.NodeId.cmp C.Entry.RaftEntry.own config.now vote.now prev_log_id.now entries.items token now (machine_of state.old output.old leader.old candidate.old)) }
{
    let answer = append_entries(
        config,
        state,
        output,
        leader,
        candidate,
        vote,
        prev_log_id,
        entries,
        now,
    )?;
    let appended = answer.is_ok();
    reply_append(output, token, answer)?;
    Ok(appended)
}

/// Queues the reply to an append, if there is a token.
fn reply_append<C: RaftTypeConfig>(
    output: &mut EngineOutput<C>,
    token: Option<Token>,
    answer: Result<(), RejectAppendEntries<C::NodeId>>,
) -> Result<(), AllocError>
    ensures { OnOk result (output.new ≡ replied token (append_response answer) output.old) }
{
    if let Some(token) = token {
        let resp = Respond::new_append_entries(answer.into(), token);
        output.try_push(Command::Respond { when: None, resp })?;
    }
    Ok(())
}
