//! What a leader sends to the other nodes, and what it commits.

ghost use Rattle.std.specs.Prelude.{◌≡◌, ◌+◌, ◌^◌, ◌<◌, OnOk, IfOk, All, Some, length, map, filter, not, true, [], ◌∷◌};
ghost use Rattle.std.specs.List.{flat_map};
ghost use Rattle.std.specs.Ordering.{is_ge};
ghost use Rattle.raft_state.specs.Fits.{fits, is_within};
ghost use Rattle.raft_state.specs.Order.{next, last_id_cmp};
ghost use Rattle.raft_state.specs.Log.{last};
ghost use Rattle.raft_state.specs.Members.{voter_ids, learner_ids};
ghost use Rattle.raft_progress.specs.Quorum.{ids_of};
ghost use Rattle.raft_progress.specs.Table.{learners_beside, upgraded, updated, get, is_in, measures};
ghost use Rattle.raft_progress.specs.Updates.{Rises};
ghost use Rattle.raft_command.specs.Ends.{Ends, refusals_of_spent};
ghost use Rattle.raft_command.specs.declared.command.Command.TheVariants.{Replicate};
ghost use Rattle.raft_command.specs.Queue.{queued};
ghost use Rattle.raft_steps.specs.Refusals.{refusals_of_counter_led, refusals_of_local_progress, is_outside};
ghost use Rattle.raft_steps.specs.Conditions.{MayJoin};
ghost use Rattle.raft_handler_common.specs.Handlers.{view_of_log};
ghost use Rattle.raft_handler_leader.specs.Handlers.{view_of_replication, SameReplicationBorrows};
ghost use Rattle.raft_steps.specs.Invariants.{IsSoundLedUnlessSpent, StaysSoundLed};
ghost use Rattle.raft_steps.specs.Laws.{CommitsLatest, takes_local};
ghost use Rattle.raft_steps.specs.Parts.{core_of, led_of};
ghost use Rattle.raft_steps.specs.Sending.{CanSend, MaySend};
ghost use Rattle.raft_handler_leader.specs.ReplicationHandler.{forces};
ghost use Rattle.raft_steps.specs.ReplicationHandler.{is_other, silenced_row, sent_row, sends_of, send_commands};
ghost use Rattle.raft_steps.specs.ReplicationHandler.{rebuild_replication_streams, initiate_replication, rebuild_progresses};
ghost use Rattle.raft_steps.specs.ReplicationHandler.{append_membership_led, try_commit_quorum_accepted, update_local_progress};
ghost use Rattle.raft_steps.specs.ReplicationHandler.{own_matched};

use crate::replies::{entry_of, granted_of};
use raft_command::{Command, EngineConfig, EngineOutput};
use raft_error::EngineError;
use raft_handler_common::commit::commit_by;
use raft_handler_common::log_handler::LogHandler;
use raft_handler_common::order::is_lower_id;
use raft_handler_common::refusals::{is_counter_end, is_within};
use raft_progress::{Joint, Measured, VecProgress};
use raft_progress_entry::{Inflight, ProgressEntry};
use raft_proposer::Leader;
use raft_state::{
    Items, LogId, Membership, Node, NodeId, RaftState, RaftTypeConfig, StoredMembership,
    next_index, reaches,
};
use std::alloc::{AllocError, Global};

/// Replicates a leader's log, and commits it (openraft's `ReplicationHandler`).
#[derive(Drop)]
pub struct ReplicationHandler<'x, C: RaftTypeConfig> {
    pub config: &'x EngineConfig<C::NodeId>,
    pub leader: &'x mut Leader<C, Joint<C::NodeId>>,
    pub state: &'x mut RaftState<C::NodeId, C::Node>,
    pub output: &'x mut EngineOutput<C>,
}

/// Whether a target that lacks nothing, and to which nothing is in flight, gets a heartbeat (openraft's `SendNone`).
#[derive(Clone, Copy, PartialEq, Eq, Debug)]
pub enum SendNone {
    False,
    True,
}

impl<C: RaftTypeConfig> ReplicationHandler<'_, C> {
    /// Puts a membership, of the entry with this id, into effect: the tables hold its nodes, of which those that stay
    /// keep their values, the streams are rebuilt, and the log is replicated to each other node. The leader's vote must
    /// be the state's, and the id must fit the log and be above the effective membership's.
    ///
    /// Refusals, in this order:
    /// - `Spent` after `OutOfMemory`,
    /// - `CounterEnd` if a sequence or inflight number is near its end.
    ///
    /// Source: openraft's `append_membership`.
    pub fn append_membership(
        &mut self,
        log_id: &LogId<C::NodeId>,
        membership: &Membership<C::NodeId, C::Node>,
    ) -> Result<(), EngineError<C::NodeId, C::Node>>
        requires sound { IsSoundLedUnlessSpent C.NodeId.cmp self.old.config.now (view_of_replication self.old) }
        requires may { MayJoin C.NodeId.cmp C.Entry.RaftEntry.own (view_of_replication self.old) (record { log_id = Some log_id.now; membership = membership.now }) }
        ensures borrows { SameReplicationBorrows self.old self.new }
        ensures step { Ends (refusals_of_counter_led (view_of_replication self.old)) result self.new.output.now
            (λ _. view_of_replication self.new
            ≡ append_membership_led C.NodeId.cmp self.old.config.now (record { log_id = Some log_id.now; membership = membership.now }) (view_of_replication self.old))
            (view_of_replication self.old) (view_of_replication self.new) }
        ensures sound { IsSoundLedUnlessSpent C.NodeId.cmp self.new.config.now (view_of_replication self.new) }
        ensures beside { StaysSoundLed C.NodeId.cmp self.old.config.now (view_of_replication self.old) (view_of_replication self.new) }
    {
        if self.output.is_spent() {
            return Err(EngineError::Spent);
        }
        if is_counter_end(self.state, self.output, self.leader) {
            return Err(EngineError::CounterEnd);
        }
        let done = append_copy(
            self.config,
            self.leader,
            self.state,
            self.output,
            log_id,
            membership,
        );
        self.output.settle(done)
    }

    /// Makes the tables hold the effective membership's nodes; those that stay keep their values.
    ///
    /// Refusal: `Spent` after `OutOfMemory`. Source: openraft's `rebuild_progresses`.
    #[tactic(auto, using(raft_steps::proofs::Room::log_end))]
    pub fn rebuild_progresses(&mut self) -> Result<(), EngineError<C::NodeId, C::Node>>
        requires { IsSoundLedUnlessSpent C.NodeId.cmp self.old.config.now (view_of_replication self.old) }
        ensures borrows { SameReplicationBorrows self.old self.new }
        ensures step { Ends (refusals_of_spent self.old.output.now) result self.new.output.now
            (λ _. view_of_replication self.new ≡ rebuild_progresses C.NodeId.cmp (view_of_replication self.old))
            (view_of_replication self.old) (view_of_replication self.new) }
        ensures sound { IsSoundLedUnlessSpent C.NodeId.cmp self.new.config.now (view_of_replication self.new) }
        ensures beside { StaysSoundLed C.NodeId.cmp self.old.config.now (view_of_replication self.old) (view_of_replication self.new) }
    {
        if self.output.is_spent() {
            return Err(EngineError::Spent);
        }
        let done = rebuild_progresses(self.leader, self.state, self.output);
        self.output.settle(done)
    }

    /// Drops what is in flight to the other nodes, and rebuilds their streams.
    ///
    /// Refusal: `Spent` after `OutOfMemory`. Source: openraft's `rebuild_replication_streams`.
    pub fn rebuild_replication_streams(&mut self) -> Result<(), EngineError<C::NodeId, C::Node>>
        ensures borrows { SameReplicationBorrows self.old self.new }
        ensures step { Ends (refusals_of_spent self.old.output.now) result self.new.output.now
            (λ _. view_of_replication self.new ≡ rebuild_replication_streams C.NodeId.cmp self.old.config.now (view_of_replication self.old))
            (view_of_replication self.old) (view_of_replication self.new) }
        ensures sound { IsSoundLedUnlessSpent C.NodeId.cmp self.old.config.now (view_of_replication self.old) → IsSoundLedUnlessSpent C.NodeId.cmp self.new.config.now (view_of_replication self.new) }
        ensures beside { StaysSoundLed C.NodeId.cmp self.old.config.now (view_of_replication self.old) (view_of_replication self.new) }
    {
        if self.output.is_spent() {
            return Err(EngineError::Spent);
        }
        let done = rebuild_replication_streams(self.config, self.leader, self.state, self.output);
        self.output.settle(done)
    }

    /// Sends each other node what it lacks next, in the table's order; if it lacks nothing, a heartbeat on request. A node to
    /// which something is in flight is sent nothing.
    ///
    /// Refusals, in this order:
    /// - `Spent` after `OutOfMemory`,
    /// - `CounterEnd` if a sequence or inflight number is near its end.
    ///
    /// Source: openraft's `initiate_replication`; Raft paper, section 5.3.
    pub fn initiate_replication(
        &mut self,
        send_none: SendNone,
    ) -> Result<(), EngineError<C::NodeId, C::Node>>
        requires { IsSoundLedUnlessSpent C.NodeId.cmp self.old.config.now (view_of_replication self.old) }
        ensures borrows { SameReplicationBorrows self.old self.new }
        ensures step { Ends (refusals_of_counter_led (view_of_replication self.old)) result self.new.output.now
            (λ _. view_of_replication self.new ≡ initiate_replication C.NodeId.cmp self.old.config.now (forces send_none) (view_of_replication self.old))
            (view_of_replication self.old) (view_of_replication self.new) }
        ensures sound { IsSoundLedUnlessSpent C.NodeId.cmp self.new.config.now (view_of_replication self.new) }
        ensures beside { StaysSoundLed C.NodeId.cmp self.old.config.now (view_of_replication self.old) (view_of_replication self.new) }
    {
        if self.output.is_spent() {
            return Err(EngineError::Spent);
        }
        if is_counter_end(self.state, self.output, self.leader) {
            return Err(EngineError::CounterEnd);
        }
        let force = send_none == SendNone::True;
        let done = initiate_replication(self.config, self.leader, self.state, self.output, force);
        self.output.settle(done)
    }

    /// Commits what a quorum has acknowledged, if it is an entry of this leader: queues the commit for the streams,
    /// then for the runtime, and triggers a snapshot if the policy asks for one. The id, if any, must fit the log.
    ///
    /// Refusals, in this order:
    /// - `Spent` after `OutOfMemory`,
    /// - `CounterEnd` if a sequence or inflight number is near its end.
    ///
    /// Source: openraft's `try_commit_quorum_accepted`; Raft paper, section 5.4.2.
    #[tactic(auto, using(raft_steps::proofs::Counted::counted_seq))]
    pub fn try_commit_quorum_accepted(
        &mut self,
        granted: Option<LogId<C::NodeId>>,
    ) -> Result<(), EngineError<C::NodeId, C::Node>>
        requires sound { IsSoundLedUnlessSpent C.NodeId.cmp self.old.config.now (view_of_replication self.old) }
        requires fit { fits C.NodeId.cmp self.old.state.now.ids self.old.state.now.purged granted ≡ true }
        ensures borrows { SameReplicationBorrows self.old self.new }
        ensures leader { self.new.leader.now ≡ self.old.leader.now }
        ensures step { Ends (refusals_of_counter_led (view_of_replication self.old)) result self.new.output.now
            (λ _. core_of self.new.state.now self.new.output.now
            ≡ try_commit_quorum_accepted C.NodeId.cmp self.old.config.now granted (core_of self.old.state.now self.old.output.now))
            (view_of_replication self.old) (view_of_replication self.new) }
        ensures sound { IsSoundLedUnlessSpent C.NodeId.cmp self.new.config.now (view_of_replication self.new) }
        ensures beside { StaysSoundLed C.NodeId.cmp self.old.config.now (view_of_replication self.old) (view_of_replication self.new) }
    {
        if self.output.is_spent() {
            return Err(EngineError::Spent);
        }
        if is_counter_end(self.state, self.output, self.leader) {
            return Err(EngineError::CounterEnd);
        }
        let done = try_commit_quorum_accepted(self.config, self.state, self.output, &granted);
        self.output.settle(done)
    }

    /// Acknowledges this node's own log up to an id, and commits what a quorum then has acknowledged. Changes nothing
    /// without an id, if this node isn't in the table, or if its matching id is at or above. The id, if any, must fit
    /// the log.
    ///
    /// Refusals, in this order:
    /// - `Spent` after `OutOfMemory`,
    /// - `CounterEnd` if a sequence or inflight number is near its end,
    /// - `OutsideInflight` if the id is above this node's matching one by order and below it by index.
    ///
    /// Source: openraft's `update_local_progress`.
    pub fn update_local_progress(
        &mut self,
        upto: Option<LogId<C::NodeId>>,
    ) -> Result<(), EngineError<C::NodeId, C::Node>>
        requires sound { IsSoundLedUnlessSpent C.NodeId.cmp self.old.config.now (view_of_replication self.old) }
        requires fit { fits C.NodeId.cmp self.old.state.now.ids self.old.state.now.purged upto ≡ true }
        ensures borrows { SameReplicationBorrows self.old self.new }
        ensures step { Ends (refusals_of_local_progress C.NodeId.cmp self.old.config.now upto (view_of_replication self.old)) result self.new.output.now
            (λ _. view_of_replication self.new ≡ update_local_progress C.NodeId.cmp self.old.config.now upto (view_of_replication self.old))
            (view_of_replication self.old) (view_of_replication self.new) }
        ensures commits { OnOk result (takes_local C.NodeId.cmp self.old.config.now upto (view_of_replication self.old) ≡ true → CommitsLatest C.NodeId.cmp self.old.state.now.committed (view_of_replication self.new)) }
        ensures sound { IsSoundLedUnlessSpent C.NodeId.cmp self.new.config.now (view_of_replication self.new) }
        ensures beside { StaysSoundLed C.NodeId.cmp self.old.config.now (view_of_replication self.old) (view_of_replication self.new) }
    {
        if self.output.is_spent() {
            return Err(EngineError::Spent);
        }
        if is_counter_end(self.state, self.output, self.leader) {
            return Err(EngineError::CounterEnd);
        }
        if is_outside(self.config, self.leader, &upto) {
            return Err(EngineError::OutsideInflight);
        }
        let done = update_local_progress(self.config, self.leader, self.state, self.output, &upto);
        self.output.settle(done)
    }

    /// The handler of the log.
    pub fn log_handler(&mut self) -> LogHandler<'_, C>
        ensures config { result.config.now ≡ self.old.config.now }
        ensures lent { view_of_log result ≡ core_of self.old.state.now self.old.output.now }
    {
        let ReplicationHandler {
            config,
            state,
            output,
            ..
        } = self;
        LogHandler {
            config,
            state,
            output,
        }
    }

    /// Queues a command that sends something to a target.
    ///
    /// Refusal: `Spent` after `OutOfMemory`. Source: openraft's `send_to_target`.
    pub fn send_to_target(
        output: &mut EngineOutput<C>,
        target: &C::NodeId,
        inflight: &Inflight<C::NodeId>,
    ) -> Result<(), EngineError<C::NodeId, C::Node>>
        ensures { Ends (refusals_of_spent output.old) result output.new (λ _. output.new ≡ queued output.old (Replicate target.now inflight.now ∷ [])) output.old output.new }
    {
        output.push_command(Command::Replicate {
            target: *target,
            req: *inflight,
        })
    }
}

/// Whether a row is another node's.
fn is_other<NID: NodeId>(config: &EngineConfig<NID>, row: &(NID, ProgressEntry<NID>)) -> bool
    ensures { result ≡ is_other NID.cmp config.now row.now }
{
    !config.id.cmp(&row.0).is_eq()
}

/// Drops what is in flight to another node.
fn silence<NID: NodeId>(
    config: &EngineConfig<NID>,
    row: &(NID, ProgressEntry<NID>),
) -> (NID, ProgressEntry<NID>)
    ensures { result ≡ silenced_row NID.cmp config.now row.now }
{
    if !is_other(config, row) {
        return *row;
    }
    let mut entry = row.1;
    entry.inflight = Inflight::None;
    (row.0, entry)
}

/// Drops what is in flight to the other nodes.
fn silenced_rows<NID: NodeId>(
    alloc: Global,
    config: &EngineConfig<NID>,
    rows: &[(NID, ProgressEntry<NID>)],
) -> Result<Vec<(NID, ProgressEntry<NID>)>, AllocError>
    ensures { IfOk result (λ silenced. silenced.items ≡ map (silenced_row NID.cmp config.now) rows.now) }
{
    rows.iter().map(|row| silence(config, row)).collect(alloc)
}

/// The rows of the other nodes.
fn other_rows<NID: NodeId>(
    alloc: Global,
    config: &EngineConfig<NID>,
    rows: &[(NID, ProgressEntry<NID>)],
) -> Result<Vec<(NID, ProgressEntry<NID>)>, AllocError>
    ensures { IfOk result (λ others. others.items ≡ filter (is_other NID.cmp config.now) rows.now) }
{
    rows.iter()
        .copied()
        .filter(|row| is_other(config, row))
        .collect(alloc)
}

/// Gives each row of a leader's table another value of the same matching id.
fn replace_rows<C: RaftTypeConfig>(
    leader: &mut Leader<C, Joint<C::NodeId>>,
    rows: Vec<(C::NodeId, ProgressEntry<C::NodeId>)>,
)
    requires count { length rows.items ≡ length leader.old.progress.rows }
    requires same { measures (λ e. e.matching) rows.items ≡ measures (λ e. e.matching) leader.old.progress.rows }
    ensures { leader.new ≡ record leader.old { progress = record leader.old.progress { rows = rows.items } } }
{
    leader.progress.replace_values(rows);
}

/// Drops what is in flight to the other nodes, and rebuilds their streams.
#[tactic(auto, unfolding(raft_steps::specs::ReplicationHandler::rebuild_replication_streams))]
pub fn rebuild_replication_streams<C: RaftTypeConfig>(
    config: &EngineConfig<C::NodeId>,
    leader: &mut Leader<C, Joint<C::NodeId>>,
    state: &RaftState<C::NodeId, C::Node>,
    output: &mut EngineOutput<C>,
) -> Result<(), AllocError>
    ensures others { OnOk result (leader.new ≡ record leader.old { progress = leader.new.progress }) }
    ensures step { OnOk result (led_of leader.new state.now output.new ≡ rebuild_replication_streams C.NodeId.cmp config.now (led_of leader.old state.now output.old)) }
{
    let alloc = output.allocator();
    let rows = leader.progress.rows()?;
    let silenced = silenced_rows(alloc, config, &rows)?;
    let targets = other_rows(alloc, config, &silenced)?;
    replace_rows(leader, silenced);
    output.try_push(Command::RebuildReplicationStreams {
        targets: Items::from_vec(targets),
    })?;
    Ok(())
}

/// Queues a command that sends something to a target.
pub fn push_replicate<C: RaftTypeConfig>(
    output: &mut EngineOutput<C>,
    target: C::NodeId,
    req: Inflight<C::NodeId>,
) -> Result<(), AllocError>
    ensures { OnOk result (output.new ≡ queued output.old (Replicate target req ∷ [])) }
{
    output.try_push(Command::Replicate { target, req })
}

/// Queues what another node lacks next; with force a heartbeat if it lacks nothing.
fn push_send<C: RaftTypeConfig>(
    config: &EngineConfig<C::NodeId>,
    state: &RaftState<C::NodeId, C::Node>,
    output: &mut EngineOutput<C>,
    row: &(C::NodeId, ProgressEntry<C::NodeId>),
    force: bool,
) -> Result<(), AllocError>
    requires row { CanSend 1 row.now }
    requires log { next (last state.now.ids) < 2 ^ 64 }
    ensures { OnOk result (output.new ≡ queued output.old (sends_of C.NodeId.cmp config.now force state.now row.now)) }
{
    if !is_other(config, row) {
        return Ok(());
    }
    let mut entry = row.1;
    match entry.next_send(state, config.max_payload_entries) {
        Ok(req) => push_replicate(output, row.0, req),
        Err(Inflight::None) if force => push_replicate(output, row.0, Inflight::None),
        Err(_) => Ok(()),
    }
}

/// Queues what each other node lacks next.
fn push_sends<C: RaftTypeConfig>(
    config: &EngineConfig<C::NodeId>,
    state: &RaftState<C::NodeId, C::Node>,
    output: &mut EngineOutput<C>,
    rows: &[(C::NodeId, ProgressEntry<C::NodeId>)],
    force: bool,
) -> Result<(), AllocError>
    requires rows { All (CanSend 1) rows.now }
    requires log { next (last state.now.ids) < 2 ^ 64 }
    ensures { OnOk result (output.new ≡ queued output.old (flat_map (sends_of C.NodeId.cmp config.now force state.now) rows.now)) }
{
    for row in rows {
        push_send(config, state, output, row, force)?;
    }
    Ok(())
}

/// A row after its node was sent what it lacks next.
fn send_row<NID: NodeId, N: Node>(
    config: &EngineConfig<NID>,
    state: &RaftState<NID, N>,
    row: &(NID, ProgressEntry<NID>),
) -> (NID, ProgressEntry<NID>)
    requires row { CanSend 1 row.now }
    requires log { next (last state.now.ids) < 2 ^ 64 }
    ensures { result ≡ sent_row NID.cmp config.now state.now row.now }
{
    if !is_other(config, row) {
        return *row;
    }
    let mut entry = row.1;
    let _ = entry.next_send(state, config.max_payload_entries);
    (row.0, entry)
}

/// The rows after each other node was sent what it lacks next.
fn sent_rows<NID: NodeId, N: Node>(
    alloc: Global,
    config: &EngineConfig<NID>,
    state: &RaftState<NID, N>,
    rows: &[(NID, ProgressEntry<NID>)],
) -> Result<Vec<(NID, ProgressEntry<NID>)>, AllocError>
    requires rows { All (CanSend 1) rows.now }
    requires log { next (last state.now.ids) < 2 ^ 64 }
    ensures { IfOk result (λ sent. sent.items ≡ map (sent_row NID.cmp config.now state.now) rows.now) }
{
    let mut sent = Vec::new(alloc);
    for row in rows {
        sent.push(send_row(config, state, row))?;
    }
    Ok(sent)
}

/// Sends each other node what it lacks next; with force a heartbeat if it lacks nothing.
#[tactic(auto, unfolding(raft_steps::specs::ReplicationHandler::initiate_replication))]
pub fn initiate_replication<C: RaftTypeConfig>(
    config: &EngineConfig<C::NodeId>,
    leader: &mut Leader<C, Joint<C::NodeId>>,
    state: &RaftState<C::NodeId, C::Node>,
    output: &mut EngineOutput<C>,
    force: bool,
) -> Result<(), AllocError>
    requires rows { All (CanSend 1) leader.old.progress.rows }
    requires log { next (last state.now.ids) < 2 ^ 64 }
    ensures { OnOk result (led_of leader.new state.now output.new ≡ initiate_replication C.NodeId.cmp config.now force (led_of leader.old state.now output.old)) }
{
    let alloc = output.allocator();
    let rows = leader.progress.rows()?;
    push_sends(config, state, output, &rows, force)?;
    let sent = sent_rows(alloc, config, state, &rows)?;
    replace_rows(leader, sent);
    Ok(())
}

/// The groups of a membership as a quorum set.
#[tactic(auto, using(raft_progress::proofs::Memberships::voters_are))]
pub fn joint_of<NID: NodeId, N: Node>(
    alloc: Global,
    membership: &Membership<NID, N>,
) -> Result<Joint<NID>, AllocError>
    ensures groups { IfOk result (λ joint. joint ≡ membership.now.groups) }
    ensures ids { IfOk result (λ joint. ids_of NID.cmp joint ≡ voter_ids NID.cmp membership.now) }
{
    let _sound = membership.groups();
    let joint = Joint::of_membership(alloc, membership)?;
    Ok(joint)
}

/// The learners of a membership, besides its voters.
#[tactic(auto, using(raft_proposer::proofs::Beside::stand_beside))]
pub fn learners_of<NID: NodeId, N: Node>(
    membership: &Membership<NID, N>,
) -> Result<Vec<NID>, AllocError>
    ensures learners { IfOk result (λ ids. ids.items ≡ learner_ids NID.cmp membership.now) }
    ensures beside { IfOk result (λ ids. learners_beside NID.cmp (voter_ids NID.cmp membership.now) ids.items ≡ learner_ids NID.cmp membership.now) }
{
    let _sound = membership.groups();
    let learners = membership.learner_ids()?;
    Ok(learners)
}

/// Gives a table a membership's nodes: those that stay keep their values, the others get the default.
#[tactic(auto, using(raft_proposer::proofs::Beside::upgraded_in))]
fn upgrade<NID: NodeId, N: Node, V: Measured<P> + Copy, P: Ord + Copy>(
    alloc: Global,
    table: &mut VecProgress<NID, V, P, Joint<NID>>,
    membership: &Membership<NID, N>,
    default: V,
) -> Result<(), AllocError>
    ensures { OnOk result (table.new
        ≡ upgraded NID.cmp P.cmp V.measured table.old membership.now.groups (voter_ids NID.cmp membership.now) (learner_ids NID.cmp membership.now) default) }
{
    let learners = learners_of(membership)?;
    let voters = joint_of(alloc, membership)?;
    table.upgrade_quorum_set(voters, &learners, default)?;
    Ok(())
}

/// Makes the tables hold the effective membership's nodes; those that stay keep their values.
#[tactic(auto, unfolding(raft_steps::specs::ReplicationHandler::rebuild_progresses))]
pub fn rebuild_progresses<C: RaftTypeConfig>(
    leader: &mut Leader<C, Joint<C::NodeId>>,
    state: &RaftState<C::NodeId, C::Node>,
    output: &EngineOutput<C>,
) -> Result<(), AllocError>
    requires { next (last state.now.ids) < 2 ^ 64 }
    ensures { OnOk result (led_of leader.new state.now output.now ≡ rebuild_progresses C.NodeId.cmp (led_of leader.old state.now output.now)) }
{
    let alloc = output.allocator();
    let membership = &state.em.membership;
    let entry = ProgressEntry::empty(next_index(&state.last_log_id()));
    upgrade(alloc, &mut leader.progress, membership, entry)?;
    upgrade(alloc, &mut leader.clock_progress, membership, None)?;
    Ok(())
}

/// Puts a membership into effect: the tables hold its nodes, and the streams are rebuilt.
#[tactic(auto, using(raft_steps::proofs::Sending::rebuilt_may, raft_steps::proofs::Sending::progresses_may, raft_steps::proofs::Sending::same_may), unfolding(raft_steps::specs::ReplicationHandler::append_membership_led))]
pub fn append_membership<C: RaftTypeConfig>(
    config: &EngineConfig<C::NodeId>,
    leader: &mut Leader<C, Joint<C::NodeId>>,
    state: &mut RaftState<C::NodeId, C::Node>,
    output: &mut EngineOutput<C>,
    membership: StoredMembership<C::NodeId, C::Node>,
) -> Result<(), AllocError>
    requires may { MaySend 1 (led_of leader.old state.old output.old) }
    requires log { next (last state.old.ids) < 2 ^ 64 }
    ensures { OnOk result (led_of leader.new state.new output.new ≡ append_membership_led C.NodeId.cmp config.now membership (led_of leader.old state.old output.old)) }
{
    state.append_membership(membership);
    rebuild_progresses(leader, state, output)?;
    rebuild_replication_streams(config, leader, state, output)?;
    initiate_replication(config, leader, state, output, false)
}

/// Commits what a quorum has acknowledged, if it is an entry of this leader.
#[tactic(auto, unfolding(raft_steps::specs::ReplicationHandler::try_commit_quorum_accepted))]
pub fn try_commit_quorum_accepted<C: RaftTypeConfig>(
    config: &EngineConfig<C::NodeId>,
    state: &mut RaftState<C::NodeId, C::Node>,
    output: &mut EngineOutput<C>,
    granted: &Option<LogId<C::NodeId>>,
) -> Result<(), AllocError>
    requires { output.old.seq + 2 < 2 ^ 64 }
    ensures { OnOk result (core_of state.new output.new ≡ try_commit_quorum_accepted C.NodeId.cmp config.now granted.now (core_of state.old output.old)) }
{
    match granted {
        Some(upto) if upto.leader_id == state.vote.leader_id => commit_by(
            config, state, output, true, *upto,
        ),
        _ => Ok(()),
    }
}

/// Puts a copy of a membership, of the entry with this id, into effect.
fn append_copy<C: RaftTypeConfig>(
    config: &EngineConfig<C::NodeId>,
    leader: &mut Leader<C, Joint<C::NodeId>>,
    state: &mut RaftState<C::NodeId, C::Node>,
    output: &mut EngineOutput<C>,
    log_id: &LogId<C::NodeId>,
    membership: &Membership<C::NodeId, C::Node>,
) -> Result<(), AllocError>
    requires may { MaySend 1 (led_of leader.old state.old output.old) }
    requires log { next (last state.old.ids) < 2 ^ 64 }
    ensures { OnOk result (led_of leader.new state.new output.new
        ≡ append_membership_led C.NodeId.cmp config.now (record { log_id = Some log_id.now; membership = membership.now }) (led_of leader.old state.old output.old)) }
{
    let stored = StoredMembership {
        log_id: Some(*log_id),
        membership: membership.copy()?,
    };
    append_membership(config, leader, state, output, stored)
}

/// Whether an id is above this node's matching one by order, and below it by index.
fn is_outside<C: RaftTypeConfig>(
    config: &EngineConfig<C::NodeId>,
    leader: &Leader<C, Joint<C::NodeId>>,
    upto: &Option<LogId<C::NodeId>>,
) -> bool
    ensures { result ≡ is_outside C.NodeId.cmp upto.now (get C.NodeId.cmp leader.now.progress config.now.id) }
{
    match entry_of(leader, &config.id) {
        Some(entry) => is_lower_id(&entry.matching, upto) && !is_within(&entry.matching, upto),
        None => false,
    }
}

/// Whether a node's matching id is at or above an id.
fn has_matched<NID: NodeId>(entry: &ProgressEntry<NID>, upto: LogId<NID>) -> bool
    ensures { result ≡ is_ge (last_id_cmp NID.cmp entry.now.matching (Some upto)) }
{
    entry.matching >= Some(upto)
}

/// This node's entry after its own log acknowledged an id.
#[tactic(auto, using(raft_steps::proofs::Own::own_remaining))]
fn own_matched<NID: NodeId>(entry: &ProgressEntry<NID>, upto: LogId<NID>) -> ProgressEntry<NID>
    requires { upto.index + 1 < 2 ^ 64 }
    ensures { result ≡ own_matched NID.cmp (Some upto) entry.now }
{
    ProgressEntry {
        matching: Some(upto),
        searching_end: entry.searching_end.max(upto.index + 1),
        inflight: Inflight::None,
        last_inflight_id: entry.last_inflight_id,
    }
}

/// Gives a target's row an entry whose matching id isn't lower.
pub fn acknowledge<C: RaftTypeConfig>(
    leader: &mut Leader<C, Joint<C::NodeId>>,
    target: &C::NodeId,
    entry: ProgressEntry<C::NodeId>,
)
    requires known { is_in C.NodeId.cmp leader.old.progress target.now ≡ true }
    requires rises { Rises C.NodeId.cmp (last_id_cmp C.NodeId.cmp) (λ e. e.matching) leader.old.progress target.now entry }
    ensures { leader.new ≡ record leader.old { progress = updated C.NodeId.cmp leader.old.progress target.now entry } }
{
    let _known = leader.progress.update(target, entry).is_ok();
}

/// Acknowledges this node's own log up to an id, and commits what a quorum then has acknowledged.
#[tactic(auto, unfolding(raft_steps::specs::ReplicationHandler::update_local_progress))]
pub fn update_local_progress<C: RaftTypeConfig>(
    config: &EngineConfig<C::NodeId>,
    leader: &mut Leader<C, Joint<C::NodeId>>,
    state: &mut RaftState<C::NodeId, C::Node>,
    output: &mut EngineOutput<C>,
    upto: &Option<LogId<C::NodeId>>,
) -> Result<(), AllocError>
    requires number { output.old.seq + 2 < 2 ^ 64 }
    requires end { next upto.now < 2 ^ 64 }
    ensures { OnOk result (led_of leader.new state.new output.new ≡ update_local_progress C.NodeId.cmp config.now upto.now (led_of leader.old state.old output.old)) }
{
    let Some(upto) = *upto else {
        return Ok(());
    };
    let Some(entry) = entry_of(leader, &config.id) else {
        return Ok(());
    };
    if has_matched(&entry, upto) {
        return Ok(());
    }
    acknowledge(leader, &config.id, own_matched(&entry, upto));
    let granted = granted_of(leader);
    try_commit_quorum_accepted(config, state, output, &granted)?;
    Ok(())
}
