//! The calls by which an engine starts, and by which its leader steps down.

ghost use Rattle.std.specs.Prelude.{◌≡◌, ◌+◌, ◌^◌, ◌<◌, OnOk, IsSome, IfSome, None, Some, false, true};
ghost use Rattle.raft_state.specs.Log.{last};
ghost use Rattle.raft_state.specs.Order.{next};
ghost use Rattle.raft_command.specs.Ends.{Ends};
ghost use Rattle.raft_steps.specs.Refusals.{is_counter_end};
ghost use Rattle.raft_steps.specs.Invariants.{IsSound, IsSoundUnlessSpent};
ghost use Rattle.raft_steps.specs.Parts.{led_of, machine_of, unboxed, on_leader};
ghost use Rattle.raft_engine.specs.Whole.{parts};
ghost use Rattle.raft_steps.specs.Room.{MayLead};
ghost use Rattle.raft_steps.specs.Sending.{MaySend};
ghost use Rattle.raft_steps.specs.Starts.{started_role, is_settled, lead_on, startup, leader_step_down, refusals_of_startup, refusals_of_step_down};
ghost use Rattle.raft_steps.specs.VoteHandler.{update_internal_server_state};

use crate::engine::Engine;
use raft_command::{EngineConfig, EngineOutput};
use raft_error::EngineError;
use raft_handler_follower::raft_handler_common::refusals::blank_is_at_end;
use raft_handler_vote::raft_handler_leader::replication_handler::{
    initiate_replication, update_local_progress,
};
use raft_handler_vote::vote_handler::update_internal_server_state;
use raft_progress::Joint;
use raft_proposer::{Candidate, Leader};
use raft_state::{Node, NodeId, RaftState, RaftTypeConfig, ServerState};
use std::alloc::AllocError;

impl<C: RaftTypeConfig> Engine<C> {
    /// Starts the engine on the state that it was made of. A node that was leader leads at once: it proposes its no-op
    /// entry if the log has no entry of its leader id, acknowledges its whole log, that entry included, and replicates to
    /// the other nodes. Any other node becomes a follower or a learner, and queues nothing. `now` is in milliseconds, and is not used.
    ///
    /// Refusals, in this order:
    /// - `Spent` after `OutOfMemory`,
    /// - `CounterEnd` if a sequence or inflight number is near its end,
    /// - `IndexEnd` if the no-op entry would get the greatest index.
    ///
    /// Source: openraft's `startup`.
    #[tactic(auto, using(raft_steps::proofs::Room::may_lead))]
    pub fn startup(&mut self, now: u64) -> Result<(), EngineError<C::NodeId, C::Node>>
        requires { IsSoundUnlessSpent C.NodeId.cmp self.old.config (parts self.old) }
        ensures config { self.new.config ≡ self.old.config }
        ensures flag { self.new.seen_greater_log ≡ self.old.seen_greater_log }
        ensures step { Ends (refusals_of_startup C.NodeId.cmp self.old.config (parts self.old)) result self.new.output
            (λ _. parts self.new ≡ startup C.NodeId.cmp C.Entry.RaftEntry.own self.old.config (parts self.old))
            (parts self.old) (parts self.new) }
        ensures sound { IsSoundUnlessSpent C.NodeId.cmp self.new.config (parts self.new) }
    {
        let _now = now;
        if self.output.is_spent() {
            return Err(EngineError::Spent);
        }
        if self.is_counter_end() {
            return Err(EngineError::CounterEnd);
        }
        let vote = self.state.vote;
        if blank_is_at_end(&self.config, &self.state, &self.leader, &vote) {
            return Err(EngineError::IndexEnd);
        }
        let done = startup(
            &self.config,
            &mut self.state,
            &mut self.output,
            &mut self.leader,
            &mut self.candidate,
        );
        self.output.settle(done)
    }

    /// Makes a leader that is no longer a member follow, once the effective membership is committed; else changes
    /// nothing. The node must lead.
    ///
    /// Refusals, in this order:
    /// - `Spent` after `OutOfMemory`,
    /// - `IndexEnd` if the node would lead anew and its no-op entry would get the greatest index.
    ///
    /// Source: openraft's `leader_step_down`; Raft paper, section 6.
    #[tactic(auto, using(raft_steps::proofs::Room::may_lead, raft_steps::proofs::Room::log_end))]
    pub fn leader_step_down(&mut self) -> Result<(), EngineError<C::NodeId, C::Node>>
        requires leader { IsSome self.old.leader }
        requires sound { IsSoundUnlessSpent C.NodeId.cmp self.old.config (parts self.old) }
        ensures config { self.new.config ≡ self.old.config }
        ensures flag { self.new.seen_greater_log ≡ self.old.seen_greater_log }
        ensures step { Ends (refusals_of_step_down C.NodeId.cmp self.old.config (parts self.old)) result self.new.output
            (λ _. parts self.new ≡ leader_step_down C.NodeId.cmp C.Entry.RaftEntry.own self.old.config (parts self.old))
            (parts self.old) (parts self.new) }
        ensures sound { IsSoundUnlessSpent C.NodeId.cmp self.new.config (parts self.new) }
    {
        if self.output.is_spent() {
            return Err(EngineError::Spent);
        }
        if !is_settled(&self.state) {
            return Ok(());
        }
        let vote = self.state.vote;
        if blank_is_at_end(&self.config, &self.state, &self.leader, &vote) {
            return Err(EngineError::IndexEnd);
        }
        let done = step_down(
            &self.config,
            &mut self.state,
            &mut self.output,
            &mut self.leader,
            &mut self.candidate,
        );
        self.output.settle(done)
    }
}

/// Whether the effective membership is committed.
fn is_settled<NID: NodeId, N: Node>(state: &RaftState<NID, N>) -> bool
    ensures { result ≡ is_settled NID.cmp state.now }
{
    state.em.log_id <= state.committed
}

/// Makes a leader whose membership is committed lead on or follow, as the membership says.
#[tactic(auto, unfolding(raft_steps::specs::Starts::leader_step_down))]
fn step_down<C: RaftTypeConfig>(
    config: &EngineConfig<C::NodeId>,
    state: &mut RaftState<C::NodeId, C::Node>,
    output: &mut EngineOutput<C>,
    leader: &mut Option<Box<Leader<C, Joint<C::NodeId>>>>,
    candidate: &mut Option<Candidate<C, Joint<C::NodeId>>>,
) -> Result<(), AllocError>
    requires settled { is_settled C.NodeId.cmp state.old ≡ true }
    requires log { next (last state.old.ids) < 2 ^ 64 }
    requires room { MayLead C.NodeId.cmp config.now state.old.vote state.old.em.membership state.old.ids (unboxed leader.old) }
    ensures { OnOk result (machine_of state.new output.new leader.new candidate.new
        ≡ leader_step_down C.NodeId.cmp C.Entry.RaftEntry.own config.now (machine_of state.old output.old leader.old candidate.old)) }
{
    update_internal_server_state(config, state, output, leader, candidate)?;
    Ok(())
}

/// Starts an engine on its state.
#[tactic(auto, using(raft_steps::proofs::Room::log_end), unfolding(raft_steps::specs::Starts::startup))]
fn startup<C: RaftTypeConfig>(
    config: &EngineConfig<C::NodeId>,
    state: &mut RaftState<C::NodeId, C::Node>,
    output: &mut EngineOutput<C>,
    leader: &mut Option<Box<Leader<C, Joint<C::NodeId>>>>,
    candidate: &mut Option<Candidate<C, Joint<C::NodeId>>>,
) -> Result<(), AllocError>
    requires counters { is_counter_end (machine_of state.old output.old leader.old candidate.old) ≡ false }
    requires room { MayLead C.NodeId.cmp config.now state.old.vote state.old.em.membership state.old.ids (unboxed leader.old) }
    requires sound { IsSound C.NodeId.cmp config.now (machine_of state.old output.old leader.old candidate.old) }
    ensures { OnOk result (machine_of state.new output.new leader.new candidate.new
        ≡ startup C.NodeId.cmp C.Entry.RaftEntry.own config.now (machine_of state.old output.old leader.old candidate.old)) }
{
    if state.is_leader(&config.id) {
        update_internal_server_state(config, state, output, leader, candidate)?;
        lead_on_where_leading(config, state, output, leader, candidate)
    } else {
        state.role = started_role::<C>(config, state);
        Ok(())
    }
}

/// The role of a node that starts and does not lead.
fn started_role<C: RaftTypeConfig>(
    config: &EngineConfig<C::NodeId>,
    state: &RaftState<C::NodeId, C::Node>,
) -> ServerState
    ensures { result ≡ started_role C.NodeId.cmp config.now state.now }
{
    if state.em.membership.is_voter(&config.id) {
        ServerState::Follower
    } else {
        ServerState::Learner
    }
}

/// Lets a leader lead on, if there is one.
fn lead_on_where_leading<C: RaftTypeConfig>(
    config: &EngineConfig<C::NodeId>,
    state: &mut RaftState<C::NodeId, C::Node>,
    output: &mut EngineOutput<C>,
    leader: &mut Option<Box<Leader<C, Joint<C::NodeId>>>>,
    candidate: &Option<Candidate<C, Joint<C::NodeId>>>,
) -> Result<(), AllocError>
    requires send { IfSome (unboxed leader.old) (λ l. MaySend 1 (led_of l state.old output.old)) }
    requires number { output.old.seq + 2 < 2 ^ 64 }
    ensures { OnOk result (machine_of state.new output.new leader.new candidate.now
        ≡ on_leader (lead_on C.NodeId.cmp config.now) (machine_of state.old output.old leader.old candidate.now)) }
{
    match leader {
        None => Ok(()),
        Some(leader) => lead_on(config, &mut **leader, state, output),
    }
}

/// Records that a starting leader holds its whole log, and replicates to the other nodes.
fn lead_on<C: RaftTypeConfig>(
    config: &EngineConfig<C::NodeId>,
    leader: &mut Leader<C, Joint<C::NodeId>>,
    state: &mut RaftState<C::NodeId, C::Node>,
    output: &mut EngineOutput<C>,
) -> Result<(), AllocError>
    requires send { MaySend 1 (led_of leader.old state.old output.old) }
    requires number { output.old.seq + 2 < 2 ^ 64 }
    ensures { OnOk result (led_of leader.new state.new output.new ≡ lead_on C.NodeId.cmp config.now (led_of leader.old state.old output.old)) }
{
    let last = state.last_log_id();
    update_local_progress(config, leader, state, output, &last)?;
    initiate_replication(config, leader, state, output, false)
}
