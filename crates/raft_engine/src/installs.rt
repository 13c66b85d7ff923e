//! The call by which a node installs a leader's snapshot.

ghost use Rattle.std.specs.Prelude.{◌≡◌, ◌+◌, ◌^◌, ◌<◌, OnOk, IfErr, None, Some, false};
ghost use Rattle.raft_state.specs.Log.{last};
ghost use Rattle.raft_state.specs.Order.{next};
ghost use Rattle.raft_command.specs.Ends.{Ends, is_memory};
ghost use Rattle.raft_steps.specs.InstallRefusals.{refusals_of_install};
ghost use Rattle.raft_steps.specs.Installs.{install_full_snapshot, reply_install, install_and_reply, handle_install_full_snapshot};
ghost use Rattle.raft_steps.specs.Invariants.{IsSoundUnlessSpent};
ghost use Rattle.raft_steps.specs.Parts.{core_of, machine_of, unboxed};
ghost use Rattle.raft_engine.specs.Whole.{parts};
ghost use Rattle.raft_steps.specs.Room.{MayLead};
ghost use Rattle.raft_steps.specs.VoteHandler.{rejects_vote};

use crate::engine::Engine;
use raft_command::{
    Command, Condition, EngineConfig, EngineOutput, Respond, Snapshot, SnapshotResponse, Token,
};
use raft_error::EngineError;
use raft_handler_follower::installs::{check_fit, install_full_snapshot};
use raft_handler_follower::raft_handler_common::order::rejects_vote;
use raft_handler_vote::vote_handler::update_vote;
use raft_progress::Joint;
use raft_proposer::{Candidate, Leader};
use raft_state::{Node, NodeId, RaftState, RaftTypeConfig, SnapshotMeta, Vote};
use std::alloc::AllocError;

impl<C: RaftTypeConfig> Engine<C> {
    /// Installs a leader's snapshot, and replies with the vote that the node then has. A vote below ours is only
    /// replied to; else the vote is adopted, the snapshot is installed if it is above the committed id and the recorded
    /// snapshot, and the reply waits for the install. `now` is in milliseconds.
    ///
    /// Refusals, in this order, from `IndexEnd` on only if the vote isn't below ours:
    /// - `Spent` after `OutOfMemory`,
    /// - `CounterEnd` if a sequence or inflight number is near its end,
    /// - `VoteNotCommitted`,
    /// - `OwnVote` if the vote names this node,
    /// - `IndexEnd` if the last id has the greatest index,
    /// - `SnapshotUnfit` if the last id contradicts what is committed, the vote, or what was accepted from the leader,
    ///   or if the membership is above it.
    ///
    /// Source: openraft's `handle_install_full_snapshot`; Raft paper, section 7.
    #[tactic(auto, using(raft_steps::proofs::Room::log_end, raft_steps::proofs::Installed::request_may, raft_steps::proofs::Followed::counted_engine))]
    pub fn handle_install_full_snapshot(
        &mut self,
        vote: Vote<C::NodeId>,
        snapshot: Snapshot<C>,
        token: Token,
        now: u64,
    ) -> Result<(), EngineError<C::NodeId, C::Node>>
        requires { IsSoundUnlessSpent C.NodeId.cmp self.old.config (parts self.old) }
        ensures config { self.new.config ≡ self.old.config }
        ensures flag { self.new.seen_greater_log ≡ self.old.seen_greater_log }
        ensures step { Ends (refusals_of_install C.NodeId.cmp self.old.config vote snapshot.meta (parts self.old)) result self.new.output
            (λ _. parts self.new ≡ handle_install_full_snapshot C.NodeId.cmp C.Entry.RaftEntry.own self.old.config vote snapshot token now (parts self.old))
            (parts self.old) (parts self.new) }
        ensures sound { IsSoundUnlessSpent C.NodeId.cmp self.new.config (parts self.new) }
    {
        if self.output.is_spent() {
            return Err(EngineError::Spent);
        }
        self.check_install(&vote, &snapshot.meta)?;
        let done = handle_install_full_snapshot(
            &self.config,
            &mut self.state,
            &mut self.output,
            &mut self.leader,
            &mut self.candidate,
            &vote,
            snapshot,
            token,
            now,
        );
        self.output.settle(done)
    }

    /// Checks a leader's snapshot; beyond its vote only if that isn't below ours.
    fn check_install(
        &self,
        vote: &Vote<C::NodeId>,
        meta: &SnapshotMeta<C::NodeId, C::Node>,
    ) -> Result<(), EngineError<C::NodeId, C::Node>>
        requires { self.now.output.spent ≡ false }
        ensures passed { OnOk result (refusals_of_install C.NodeId.cmp self.now.config vote.now meta.now (parts self.now) ≡ None) }
        ensures refused { IfErr result (λ e. (is_memory e ≡ false) × (refusals_of_install C.NodeId.cmp self.now.config vote.now meta.now (parts self.now) ≡ Some e)) }
    {
        if self.is_counter_end() {
            return Err(EngineError::CounterEnd);
        }
        if !vote.committed {
            return Err(EngineError::VoteNotCommitted);
        }
        if vote.leader_id.node_id.cmp(&self.config.id).is_eq() {
            return Err(EngineError::OwnVote);
        }
        if rejects_vote(&self.state, vote) {
            return Ok(());
        }
        check_fit(&self.state, vote, meta)
    }
}

/// Queues the reply to a leader's snapshot, with this node's vote.
fn reply_install<C: RaftTypeConfig>(
    state: &RaftState<C::NodeId, C::Node>,
    output: &mut EngineOutput<C>,
    when: Option<Condition<C::NodeId>>,
    token: Token,
) -> Result<(), AllocError>
    ensures { OnOk result (core_of state.now output.new ≡ reply_install when token (core_of state.now output.old)) }
{
    let resp = Respond::new_install_full_snapshot(SnapshotResponse::new(state.vote), token);
    output.try_push(Command::Respond { when, resp })?;
    Ok(())
}

/// Adopts a leader's vote, installs its snapshot, and queues the reply; a vote below ours is only replied to.
#[tactic(auto, using(raft_steps::proofs::Installed::heard_seq), unfolding(raft_steps::specs::Installs::handle_install_full_snapshot))]
fn handle_install_full_snapshot<C: RaftTypeConfig>(
    config: &EngineConfig<C::NodeId>,
    state: &mut RaftState<C::NodeId, C::Node>,
    output: &mut EngineOutput<C>,
    leader: &mut Option<Box<Leader<C, Joint<C::NodeId>>>>,
    candidate: &mut Option<Candidate<C, Joint<C::NodeId>>>,
    vote: &Vote<C::NodeId>,
    snapshot: Snapshot<C>,
    token: Token,
    now: u64,
) -> Result<(), AllocError>
    requires log { next (last state.old.ids) < 2 ^ 64 }
    requires number { output.old.seq + 1 < 2 ^ 64 }
    requires room { rejects_vote C.NodeId.cmp state.old vote.now ≡ false → MayLead C.NodeId.cmp config.now vote.now state.old.em.membership state.old.ids (unboxed leader.old) }
    ensures { OnOk result (machine_of state.new output.new leader.new candidate.new
        ≡ handle_install_full_snapshot C.NodeId.cmp C.Entry.RaftEntry.own config.now vote.now snapshot token now (machine_of state.old output.old leader.old candidate.old)) }
{
    if rejects_vote(state, vote) {
        return reply_install(state, output, None, token);
    }
    let _taken = update_vote(config, state, output, leader, candidate, vote, now)?;
    install_and_reply(config, state, output, snapshot, token)
}

/// Installs the snapshot of a leader whose vote was adopted, and queues the reply after it.
fn install_and_reply<C: RaftTypeConfig>(
    config: &EngineConfig<C::NodeId>,
    state: &mut RaftState<C::NodeId, C::Node>,
    output: &mut EngineOutput<C>,
    snapshot: Snapshot<C>,
    token: Token,
) -> Result<(), AllocError>
    requires { output.old.seq + 1 < 2 ^ 64 }
    ensures { OnOk result (core_of state.new output.new ≡ install_and_reply C.NodeId.cmp C.Entry.RaftEntry.own config.now snapshot token (core_of state.old output.old)) }
{
    let when = install_full_snapshot(config, state, output, snapshot)?;
    reply_install(state, output, when, token)
}
