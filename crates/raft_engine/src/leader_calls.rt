//! The engine's calls of a leader: proposals, heartbeats, reads, and what was stored and acknowledged.

ghost use Rattle.std.specs.Prelude.{◌≡◌, OnOk, IfSome, length, None, Some, Bool, true, false};
ghost use Rattle.raft_state.specs.Fits.{fits};
ghost use Rattle.raft_command.specs.Ends.{Ends, is_memory};
ghost use Rattle.raft_engine.specs.LeaderCalls.{RefusesLed, EndsLed, AnswersLed, CommitsLatestWhere};
ghost use Rattle.raft_engine.specs.Whole.{parts};
ghost use Rattle.raft_steps.specs.Conditions.{MayPropose, may_change_membership};
ghost use Rattle.raft_steps.specs.Invariants.{IsSoundLedUnlessSpent, IsSoundUnlessSpent, StaysSoundLed};
ghost use Rattle.raft_steps.specs.Laws.{CommitsLatest, takes_local};
ghost use Rattle.raft_steps.specs.LeaderHandler.{leader_append_entries, read_log_id};
ghost use Rattle.raft_steps.specs.Parts.{led_in, led_of, machine_of};
ghost use Rattle.raft_steps.specs.Refusals.{refusals_of_counter_led, refusals_of_local_progress, refusals_of_propose};
ghost use Rattle.raft_steps.specs.Replies.{update_progress};
ghost use Rattle.raft_steps.specs.ReplicationHandler.{initiate_replication, update_local_progress};
ghost use Rattle.raft_steps.specs.ReplyLaws.{takes_matching};
ghost use Rattle.raft_steps.specs.ReplyRefusals.{refusals_of_progress};

use crate::engine::Engine;
use raft_command::{EngineConfig, EngineOutput, ReplicationResult, RequestId};
use raft_error::EngineError;
use raft_handler_vote::raft_handler_leader::leader_handler::{
    LeaderHandler, may_change_membership, read_log_id,
};
use raft_handler_vote::raft_handler_leader::replication_handler::ReplicationHandler;
use raft_progress::Joint;
use raft_proposer::Leader;
use raft_state::{LogId, Membership, Node, NodeId, RaftState, RaftTypeConfig};

impl<C: RaftTypeConfig> Engine<C> {
    /// Proposes entries: they get the ids after the leader's last one, are appended to its log, and are replicated to
    /// the other nodes. A membership among them, at most one, takes effect. A leader's vote must be the state's, and a
    /// membership must be one that `may_change_membership` allows. Changes nothing without entries.
    ///
    /// Refusals, in this order:
    /// - `Spent` after `OutOfMemory`,
    /// - `ForwardToLeader`, with the known leader, if this node doesn't lead,
    /// - `CounterEnd` if a sequence or inflight number is near its end,
    /// - `IndexEnd` if the last entry would get the greatest index or one above it.
    ///
    /// Source: openraft's `leader_append_entries`; Raft paper, sections 5.3 and 6.
    pub fn propose(&mut self, entries: Vec<C::Entry>) -> Result<(), EngineError<C::NodeId, C::Node>>
        requires sound { IsSoundUnlessSpent C.NodeId.cmp self.old.config (parts self.old) }
        requires may { IfSome (led_in (parts self.old)) (λ l. MayPropose C.NodeId.cmp C.Entry.RaftEntry.own l entries.items) }
        ensures config { self.new.config ≡ self.old.config }
        ensures flag { self.new.seen_greater_log ≡ self.old.seen_greater_log }
        ensures step { EndsLed C.NodeId.cmp (refusals_of_propose (length entries.items)) result
            (leader_append_entries C.NodeId.cmp C.Entry.RaftEntry.own self.old.config entries.items)
            (parts self.old) (parts self.new) }
        ensures sound { IsSoundUnlessSpent C.NodeId.cmp self.new.config (parts self.new) }
    {
        match &mut self.leader {
            None => Err(no_leader(&self.state, &self.output)),
            Some(leader) => propose(
                &self.config,
                &mut **leader,
                &mut self.state,
                &mut self.output,
                entries,
            ),
        }
    }

    /// Whether a membership may be proposed: the effective one and the leader's no-op entry are committed, and the two
    /// memberships have a voter group in common. False if this node doesn't lead.
    ///
    /// Source: Raft paper, section 6; openraft's `Coherent::is_coherent_with`.
    pub fn may_change_membership(&self, membership: &Membership<C::NodeId, C::Node>) -> bool
        ensures { result ≡ elim (led_in (parts self.now)) as (λ _. Bool) [ None ↦ false | Some l ↦ may_change_membership C.NodeId.cmp l membership.now ] }
    {
        match &self.leader {
            None => false,
            Some(leader) => may_change_membership(&**leader, &self.state, membership),
        }
    }

    /// Replicates to each other node, in the table's order, and sends a heartbeat to those that lack nothing. A node to
    /// which something is in flight is sent nothing.
    ///
    /// Refusals, in this order:
    /// - `Spent` after `OutOfMemory`,
    /// - `ForwardToLeader`, with the known leader, if this node doesn't lead,
    /// - `CounterEnd` if a sequence or inflight number is near its end.
    ///
    /// Source: openraft's `send_heartbeat`; Raft paper, section 5.2.
    pub fn send_heartbeat(&mut self) -> Result<(), EngineError<C::NodeId, C::Node>>
        requires { IsSoundUnlessSpent C.NodeId.cmp self.old.config (parts self.old) }
        ensures config { self.new.config ≡ self.old.config }
        ensures flag { self.new.seen_greater_log ≡ self.old.seen_greater_log }
        ensures step { EndsLed C.NodeId.cmp refusals_of_counter_led result
            (initiate_replication C.NodeId.cmp self.old.config true)
            (parts self.old) (parts self.new) }
        ensures sound { IsSoundUnlessSpent C.NodeId.cmp self.new.config (parts self.new) }
    {
        match &mut self.leader {
            None => Err(no_leader(&self.state, &self.output)),
            Some(leader) => send_heartbeat(
                &self.config,
                &mut **leader,
                &mut self.state,
                &mut self.output,
            ),
        }
    }

    /// The id that a read has to wait for: the committed one, and at least that of the leader's no-op entry.
    ///
    /// Refusals, in this order:
    /// - `Spent` after `OutOfMemory`,
    /// - `ForwardToLeader`, with the known leader, if this node doesn't lead.
    ///
    /// Source: openraft's `get_read_log_id`; Raft paper, section 8.
    pub fn get_read_log_id(
        &self,
    ) -> Result<Option<LogId<C::NodeId>>, EngineError<C::NodeId, C::Node>>
        ensures { AnswersLed C.NodeId.cmp result (read_log_id C.NodeId.cmp) (parts self.now) }
    {
        match &self.leader {
            Some(leader) if !self.output.is_spent() => Ok(read_log_id(&**leader, &self.state)),
            Some(_) => Err(EngineError::Spent),
            None => Err(no_leader(&self.state, &self.output)),
        }
    }

    /// Acknowledges the leader's own log up to an id that is stored, and commits what a quorum then has acknowledged.
    /// Changes nothing without an id, if this node isn't in the leader's table, or if its matching id is at or above.
    /// The id, if any, must fit the log.
    ///
    /// Refusals, in this order:
    /// - `Spent` after `OutOfMemory`,
    /// - `ForwardToLeader`, with the known leader, if this node doesn't lead,
    /// - `CounterEnd` if a sequence or inflight number is near its end,
    /// - `OutsideInflight` if the id is above this node's matching one by order and below it by index.
    ///
    /// Source: openraft's `update_local_progress`.
    pub fn update_local_progress(
        &mut self,
        upto: Option<LogId<C::NodeId>>,
    ) -> Result<(), EngineError<C::NodeId, C::Node>>
        requires sound { IsSoundUnlessSpent C.NodeId.cmp self.old.config (parts self.old) }
        requires fit { fits C.NodeId.cmp self.old.state.ids self.old.state.purged upto ≡ true }
        ensures config { self.new.config ≡ self.old.config }
        ensures flag { self.new.seen_greater_log ≡ self.old.seen_greater_log }
        ensures step { EndsLed C.NodeId.cmp (refusals_of_local_progress C.NodeId.cmp self.old.config upto) result
            (update_local_progress C.NodeId.cmp self.old.config upto)
            (parts self.old) (parts self.new) }
        ensures commits { OnOk result (CommitsLatestWhere C.NodeId.cmp (takes_local C.NodeId.cmp self.old.config upto) (parts self.old) (parts self.new)) }
        ensures sound { IsSoundUnlessSpent C.NodeId.cmp self.new.config (parts self.new) }
    {
        match &mut self.leader {
            None => Err(no_leader(&self.state, &self.output)),
            Some(leader) => update_local_progress(
                &self.config,
                &mut **leader,
                &mut self.state,
                &mut self.output,
                upto,
            ),
        }
    }

    /// Handles the reply to a request to another node, or its failure: a reply raises the node's clock to the moment of
    /// sending, and says that its log matches or conflicts; what a quorum has acknowledged is committed. Then the log
    /// is purged, unless the purge target is in flight, and the node is sent what it lacks next.
    ///
    /// Refusals, in this order:
    /// - `Spent` after `OutOfMemory`,
    /// - `ForwardToLeader`, with the known leader, if this node doesn't lead,
    /// - `CounterEnd` if a sequence or inflight number is near its end,
    /// - `UnknownTarget` if the node is not in the table, or is this one,
    /// - `ForeignInflight` if the request isn't the one in flight,
    /// - `OutsideInflight` if an id is outside of what is in flight, or an acknowledged one doesn't fit the log,
    /// - `LogReverted` if the node conflicts at or below what it has acknowledged.
    ///
    /// Source: openraft's `update_progress`; Raft paper, section 5.3.
    pub fn update_progress(
        &mut self,
        target: C::NodeId,
        request_id: RequestId,
        repl_res: Result<ReplicationResult<C::NodeId>, String>,
    ) -> Result<(), EngineError<C::NodeId, C::Node>>
        requires { IsSoundUnlessSpent C.NodeId.cmp self.old.config (parts self.old) }
        ensures config { self.new.config ≡ self.old.config }
        ensures flag { self.new.seen_greater_log ≡ self.old.seen_greater_log }
        ensures step { EndsLed C.NodeId.cmp (refusals_of_progress C.NodeId.cmp self.old.config target request_id repl_res) result
            (update_progress C.NodeId.cmp self.old.config target request_id repl_res)
            (parts self.old) (parts self.new) }
        ensures commits { OnOk result (CommitsLatestWhere C.NodeId.cmp (λ _. takes_matching request_id repl_res) (parts self.old) (parts self.new)) }
        ensures sound { IsSoundUnlessSpent C.NodeId.cmp self.new.config (parts self.new) }
    {
        match &mut self.leader {
            None => Err(no_leader(&self.state, &self.output)),
            Some(leader) => update_progress(
                &self.config,
                &mut **leader,
                &mut self.state,
                &mut self.output,
                target,
                request_id,
                repl_res,
            ),
        }
    }
}

/// The refusal of a leader's call on a node that doesn't lead.
fn no_leader<C: RaftTypeConfig>(
    state: &RaftState<C::NodeId, C::Node>,
    output: &EngineOutput<C>,
) -> EngineError<C::NodeId, C::Node>
    ensures memory { is_memory result ≡ false }
    ensures refusal { RefusesLed C.NodeId.cmp (λ _. None) result (machine_of state.now output.now None None) }
{
    if output.is_spent() {
        return EngineError::Spent;
    }
    let (leader_id, leader_node) = state.forward_to_leader();
    EngineError::ForwardToLeader {
        leader_id,
        leader_node,
    }
}

/// Proposes a leader's entries.
fn propose<'x, C: RaftTypeConfig>(
    config: &'x EngineConfig<C::NodeId>,
    leader: &'x mut Leader<C, Joint<C::NodeId>>,
    state: &'x mut RaftState<C::NodeId, C::Node>,
    output: &'x mut EngineOutput<C>,
    entries: Vec<C::Entry>,
) -> Result<(), EngineError<C::NodeId, C::Node>>
    requires sound { IsSoundLedUnlessSpent C.NodeId.cmp config.now (led_of leader.old state.old output.old) }
    requires may { MayPropose C.NodeId.cmp C.Entry.RaftEntry.own (led_of leader.old state.old output.old) entries.items }
    ensures step { Ends (refusals_of_propose (length entries.items) (led_of leader.old state.old output.old)) result output.new
        (λ _. led_of leader.new state.new output.new ≡ leader_append_entries C.NodeId.cmp C.Entry.RaftEntry.own config.now entries.items (led_of leader.old state.old output.old))
        (led_of leader.old state.old output.old) (led_of leader.new state.new output.new) }
    ensures beside { StaysSoundLed C.NodeId.cmp config.now (led_of leader.old state.old output.old) (led_of leader.new state.new output.new) }
{
    let mut handler = LeaderHandler {
        config,
        leader,
        state,
        output,
    };
    handler.leader_append_entries(entries)
}

/// Sends a leader's heartbeats.
fn send_heartbeat<'x, C: RaftTypeConfig>(
    config: &'x EngineConfig<C::NodeId>,
    leader: &'x mut Leader<C, Joint<C::NodeId>>,
    state: &'x mut RaftState<C::NodeId, C::Node>,
    output: &'x mut EngineOutput<C>,
) -> Result<(), EngineError<C::NodeId, C::Node>>
    requires { IsSoundLedUnlessSpent C.NodeId.cmp config.now (led_of leader.old state.old output.old) }
    ensures step { Ends (refusals_of_counter_led (led_of leader.old state.old output.old)) result output.new
        (λ _. led_of leader.new state.new output.new ≡ initiate_replication C.NodeId.cmp config.now true (led_of leader.old state.old output.old))
        (led_of leader.old state.old output.old) (led_of leader.new state.new output.new) }
    ensures beside { StaysSoundLed C.NodeId.cmp config.now (led_of leader.old state.old output.old) (led_of leader.new state.new output.new) }
{
    let mut handler = LeaderHandler {
        config,
        leader,
        state,
        output,
    };
    handler.send_heartbeat()
}

/// Acknowledges a leader's own log up to an id.
fn update_local_progress<'x, C: RaftTypeConfig>(
    config: &'x EngineConfig<C::NodeId>,
    leader: &'x mut Leader<C, Joint<C::NodeId>>,
    state: &'x mut RaftState<C::NodeId, C::Node>,
    output: &'x mut EngineOutput<C>,
    upto: Option<LogId<C::NodeId>>,
) -> Result<(), EngineError<C::NodeId, C::Node>>
    requires sound { IsSoundLedUnlessSpent C.NodeId.cmp config.now (led_of leader.old state.old output.old) }
    requires fit { fits C.NodeId.cmp state.old.ids state.old.purged upto ≡ true }
    ensures step { Ends (refusals_of_local_progress C.NodeId.cmp config.now upto (led_of leader.old state.old output.old)) result output.new
        (λ _. led_of leader.new state.new output.new ≡ update_local_progress C.NodeId.cmp config.now upto (led_of leader.old state.old output.old))
        (led_of leader.old state.old output.old) (led_of leader.new state.new output.new) }
    ensures commits { OnOk result (takes_local C.NodeId.cmp config.now upto (led_of leader.old state.old output.old) ≡ true → CommitsLatest C.NodeId.cmp state.old.committed (led_of leader.new state.new output.new)) }
    ensures beside { StaysSoundLed C.NodeId.cmp config.now (led_of leader.old state.old output.old) (led_of leader.new state.new output.new) }
{
    let mut handler = ReplicationHandler {
        config,
        leader,
        state,
        output,
    };
    handler.update_local_progress(upto)
}

/// Handles the reply to a leader's request, or its failure.
fn update_progress<'x, C: RaftTypeConfig>(
    config: &'x EngineConfig<C::NodeId>,
    leader: &'x mut Leader<C, Joint<C::NodeId>>,
    state: &'x mut RaftState<C::NodeId, C::Node>,
    output: &'x mut EngineOutput<C>,
    target: C::NodeId,
    request_id: RequestId,
    repl_res: Result<ReplicationResult<C::NodeId>, String>,
) -> Result<(), EngineError<C::NodeId, C::Node>>
    requires { IsSoundLedUnlessSpent C.NodeId.cmp config.now (led_of leader.old state.old output.old) }
    ensures step { Ends (refusals_of_progress C.NodeId.cmp config.now target request_id repl_res (led_of leader.old state.old output.old)) result output.new
        (λ _. led_of leader.new state.new output.new ≡ update_progress C.NodeId.cmp config.now target request_id repl_res (led_of leader.old state.old output.old))
        (led_of leader.old state.old output.old) (led_of leader.new state.new output.new) }
    ensures commits { OnOk result (takes_matching request_id repl_res ≡ true → CommitsLatest C.NodeId.cmp state.old.committed (led_of leader.new state.new output.new)) }
    ensures beside { StaysSoundLed C.NodeId.cmp config.now (led_of leader.old state.old output.old) (led_of leader.new state.new output.new) }
{
    let mut handler = ReplicationHandler {
        config,
        leader,
        state,
        output,
    };
    handler.update_progress(target, request_id, repl_res)
}
