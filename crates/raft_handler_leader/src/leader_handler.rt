//! A leader's proposals.

ghost use Rattle.std.specs.Prelude.{◌≡◌, ◌+◌, ◌-◌, ◌^◌, ◌<◌, OnOk, IfOk, length, slice_get, fold, None, Some, true};
ghost use Rattle.std.specs.List.{list_any};
ghost use Rattle.std.specs.Ordering.{is_le};
ghost use Rattle.raft_state.specs.Log.{last};
ghost use Rattle.raft_state.specs.Order.{last_id_cmp, next};
ghost use Rattle.raft_command.specs.Ends.{Ends};
ghost use Rattle.raft_steps.specs.Refusals.{refusals_of_counter_led, refusals_of_propose};
ghost use Rattle.raft_steps.specs.Conditions.{MayPropose, is_same_group, shares_group, may_change_membership};
ghost use Rattle.raft_handler_leader.specs.Handlers.{view_of_leader, SameLeaderBorrows};
ghost use Rattle.raft_handler_leader.specs.Handlers.{view_of_replication};
ghost use Rattle.raft_steps.specs.Invariants.{IsSoundLedUnlessSpent, StaysSoundLed};
ghost use Rattle.raft_steps.specs.Laws.{later};
ghost use Rattle.raft_steps.specs.Parts.{core_of, led_of};
ghost use Rattle.raft_steps.specs.Sending.{MaySend};
ghost use Rattle.raft_steps.specs.FollowingHandler.{memberships_in, stored_in};
ghost use Rattle.raft_steps.specs.LeaderHandler.{leader_append_entries, later_membership, joined, proposed, last_proposed, read_log_id};
ghost use Rattle.raft_steps.specs.ReplicationHandler.{initiate_replication};

use crate::replication_handler::{ReplicationHandler, append_membership, initiate_replication};
use raft_command::{Command, EngineConfig, EngineOutput};
use raft_error::EngineError;
use raft_handler_common::order::is_greater_id;
use raft_handler_common::refusals::is_counter_end;
use raft_progress::Joint;
use raft_proposer::Leader;
use raft_state::{
    Group, Items, LogId, Membership, Node, NodeId, RaftEntry, RaftState, RaftTypeConfig,
    StoredMembership,
};
use std::alloc::AllocError;

/// Proposes entries (openraft's `LeaderHandler`).
#[derive(Drop)]
pub struct LeaderHandler<'x, C: RaftTypeConfig> {
    pub config: &'x EngineConfig<C::NodeId>,
    pub leader: &'x mut Leader<C, Joint<C::NodeId>>,
    pub state: &'x mut RaftState<C::NodeId, C::Node>,
    pub output: &'x mut EngineOutput<C>,
}

impl<C: RaftTypeConfig> LeaderHandler<'_, C> {
    /// Proposes entries: they get the ids after the leader's last one, are appended to its log, and are replicated to
    /// the other nodes. A membership among them, at most one, takes effect. The leader's vote must be the state's, and
    /// a membership must be one that `may_change_membership` allows. Changes nothing without entries.
    ///
    /// Refusals, in this order:
    /// - `Spent` after `OutOfMemory`,
    /// - `CounterEnd` if a sequence or inflight number is near its end,
    /// - `IndexEnd` if the last entry would get the greatest index or one above it.
    ///
    /// Source: openraft's `leader_append_entries`; Raft paper, sections 5.3 and 6.
    pub fn leader_append_entries(
        &mut self,
        entries: Vec<C::Entry>,
    ) -> Result<(), EngineError<C::NodeId, C::Node>>
        requires sound { IsSoundLedUnlessSpent C.NodeId.cmp self.old.config.now (view_of_leader self.old) }
        requires may { MayPropose C.NodeId.cmp C.Entry.RaftEntry.own (view_of_leader self.old) entries.items }
        ensures borrows { SameLeaderBorrows self.old self.new }
        ensures step { Ends (refusals_of_propose (length entries.items) (view_of_leader self.old)) result self.new.output.now
            (λ _. view_of_leader self.new ≡ leader_append_entries C.NodeId.cmp C.Entry.RaftEntry.own self.old.config.now entries.items (view_of_leader self.old))
            (view_of_leader self.old) (view_of_leader self.new) }
        ensures sound { IsSoundLedUnlessSpent C.NodeId.cmp self.new.config.now (view_of_leader self.new) }
        ensures beside { StaysSoundLed C.NodeId.cmp self.old.config.now (view_of_leader self.old) (view_of_leader self.new) }
    {
        if self.output.is_spent() {
            return Err(EngineError::Spent);
        }
        if is_counter_end(self.state, self.output, self.leader) {
            return Err(EngineError::CounterEnd);
        }
        if self.leader.is_at_end(entries.len()) {
            return Err(EngineError::IndexEnd);
        }
        let done = leader_append_entries(
            self.config,
            self.leader,
            self.state,
            self.output,
            entries,
        );
        self.output.settle(done)
    }

    /// Whether the leader may propose a membership: the effective one and the leader's no-op entry are committed, and
    /// the two memberships have a voter group in common.
    ///
    /// Source: Raft paper, section 6; openraft's `Coherent::is_coherent_with`.
    pub fn may_change_membership(&self, membership: &Membership<C::NodeId, C::Node>) -> bool
        ensures { result ≡ may_change_membership C.NodeId.cmp (view_of_leader self.now) membership.now }
    {
        may_change_membership(self.leader, self.state, membership)
    }

    /// Replicates to each other node, in the table's order, and sends a heartbeat to those that lack nothing. A node to
    /// which something is in flight is sent nothing.
    ///
    /// Refusals, in this order:
    /// - `Spent` after `OutOfMemory`,
    /// - `CounterEnd` if a sequence or inflight number is near its end.
    ///
    /// Source: openraft's `send_heartbeat`; Raft paper, section 5.2.
    pub fn send_heartbeat(&mut self) -> Result<(), EngineError<C::NodeId, C::Node>>
        requires { IsSoundLedUnlessSpent C.NodeId.cmp self.old.config.now (view_of_leader self.old) }
        ensures borrows { SameLeaderBorrows self.old self.new }
        ensures step { Ends (refusals_of_counter_led (view_of_leader self.old)) result self.new.output.now
            (λ _. view_of_leader self.new ≡ initiate_replication C.NodeId.cmp self.old.config.now true (view_of_leader self.old))
            (view_of_leader self.old) (view_of_leader self.new) }
        ensures sound { IsSoundLedUnlessSpent C.NodeId.cmp self.new.config.now (view_of_leader self.new) }
        ensures beside { StaysSoundLed C.NodeId.cmp self.old.config.now (view_of_leader self.old) (view_of_leader self.new) }
    {
        if self.output.is_spent() {
            return Err(EngineError::Spent);
        }
        if is_counter_end(self.state, self.output, self.leader) {
            return Err(EngineError::CounterEnd);
        }
        let done = initiate_replication(self.config, self.leader, self.state, self.output, true);
        self.output.settle(done)
    }

    /// The id that a read has to wait for: the committed one, and at least that of the leader's no-op entry.
    ///
    /// Source: openraft's `get_read_log_id`; Raft paper, section 8.
    pub fn get_read_log_id(&self) -> Option<LogId<C::NodeId>>
        ensures { result ≡ read_log_id C.NodeId.cmp (view_of_leader self.now) }
    {
        read_log_id(self.leader, self.state)
    }

    /// The handler of replication.
    pub fn replication_handler(&mut self) -> ReplicationHandler<'_, C>
        ensures config { result.config.now ≡ self.old.config.now }
        ensures lent { view_of_replication result ≡ view_of_leader self.old }
    {
        let LeaderHandler {
            config,
            leader,
            state,
            output,
        } = self;
        ReplicationHandler {
            config,
            leader,
            state,
            output,
        }
    }
}

/// Whether two groups have the same voters.
fn is_same_group<NID: NodeId>(group: &Group<NID>, other: &Group<NID>) -> bool
    ensures { result ≡ is_same_group NID.cmp group.now other.now }
{
    group == other
}

/// Whether a group's voters are one of the groups.
fn has_group<NID: NodeId>(groups: &[Group<NID>], group: &Group<NID>) -> bool
    ensures { result ≡ list_any (is_same_group NID.cmp group.now) groups.now }
{
    groups.iter().any(|other| is_same_group(group, other))
}

/// Whether two memberships have a voter group in common.
pub fn shares_group<NID: NodeId, N: Node>(
    present: &Membership<NID, N>,
    new: &Membership<NID, N>,
) -> bool
    ensures { result ≡ shares_group NID.cmp present.now new.now }
{
    present
        .groups()
        .iter()
        .any(|group| has_group(new.groups(), group))
}

/// Whether an id is at or below the committed one.
fn is_committed<NID: NodeId, N: Node>(state: &RaftState<NID, N>, id: &Option<LogId<NID>>) -> bool
    ensures { result ≡ is_le (last_id_cmp NID.cmp id.now state.now.committed) }
{
    *id <= state.committed
}

/// Whether a leader may propose a membership.
pub fn may_change_membership<C: RaftTypeConfig>(
    leader: &Leader<C, Joint<C::NodeId>>,
    state: &RaftState<C::NodeId, C::Node>,
    membership: &Membership<C::NodeId, C::Node>,
) -> bool
    ensures { (output : _) → result ≡ may_change_membership C.NodeId.cmp (led_of leader.now state.now output) membership.now }
{
    is_committed(state, &state.em.log_id)
        && is_committed(state, &Some(leader.noop_log_id))
        && shares_group(&state.em.membership, membership)
}

/// The committed id, and at least the leader's no-op entry.
pub fn read_log_id<C: RaftTypeConfig>(
    leader: &Leader<C, Joint<C::NodeId>>,
    state: &RaftState<C::NodeId, C::Node>,
) -> Option<LogId<C::NodeId>>
    ensures { result ≡ later C.NodeId.cmp (Some leader.now.noop_log_id) state.now.committed }
{
    let noop = Some(leader.noop_log_id);
    let committed = state.committed;
    if is_greater_id(&committed, &noop) {
        committed
    } else {
        noop
    }
}

/// The membership of the last entry that has one.
#[tactic(auto, using(raft_steps::proofs::Memberships::last_membership))]
fn last_membership<C: RaftTypeConfig>(
    entries: &[C::Entry],
) -> Result<Option<StoredMembership<C::NodeId, C::Node>>, AllocError>
    ensures { IfOk result (λ m. m ≡ slice_get (memberships_in C.Entry.RaftEntry.own entries.now) (length (memberships_in C.Entry.RaftEntry.own entries.now) - 1)) }
{
    let mut last = None;
    for entry in entries {
        last = later_membership::<C>(last, entry)?;
    }
    Ok(last)
}

/// The membership of an entry, or an earlier one if it has none.
fn later_membership<C: RaftTypeConfig>(
    earlier: Option<StoredMembership<C::NodeId, C::Node>>,
    entry: &C::Entry,
) -> Result<Option<StoredMembership<C::NodeId, C::Node>>, AllocError>
    ensures { IfOk result (λ m. m ≡ later_membership C.Entry.RaftEntry.own earlier entry.now) }
{
    let Some(membership) = entry.get_membership() else {
        return Ok(earlier);
    };
    Ok(Some(StoredMembership {
        log_id: Some(*entry.get_log_id()),
        membership: membership.copy()?,
    }))
}

/// Gives entries their ids, appends them to the log, and queues the command for it.
#[tactic(auto, unfolding(raft_steps::specs::LeaderHandler::proposed))]
fn propose<C: RaftTypeConfig>(
    leader: &mut Leader<C, Joint<C::NodeId>>,
    state: &mut RaftState<C::NodeId, C::Node>,
    output: &mut EngineOutput<C>,
    entries: Vec<C::Entry>,
) -> Result<Option<StoredMembership<C::NodeId, C::Node>>, AllocError>
    requires { next leader.old.last_log_id + length entries.items < 2 ^ 64 }
    ensures step { OnOk result (led_of leader.new state.new output.new ≡ proposed C.Entry.RaftEntry.own entries.items (led_of leader.old state.old output.old)) }
    ensures membership { IfOk result (λ m. m ≡ last_proposed C.Entry.RaftEntry.own leader.old entries.items) }
{
    let mut entries = entries;
    leader.assign(entries.as_mut_slice());
    state.extend_log_ids(&entries)?;
    let membership = last_membership::<C>(&entries)?;
    output.try_push(Command::AppendInputEntries {
        vote: leader.vote,
        entries: Items::from_vec(entries),
    })?;
    Ok(membership)
}

/// Puts a membership into effect, if there is one.
fn join<C: RaftTypeConfig>(
    config: &EngineConfig<C::NodeId>,
    leader: &mut Leader<C, Joint<C::NodeId>>,
    state: &mut RaftState<C::NodeId, C::Node>,
    output: &mut EngineOutput<C>,
    membership: Option<StoredMembership<C::NodeId, C::Node>>,
) -> Result<(), AllocError>
    requires may { MaySend 1 (led_of leader.old state.old output.old) }
    requires log { next (last state.old.ids) < 2 ^ 64 }
    ensures { OnOk result (led_of leader.new state.new output.new ≡ joined C.NodeId.cmp config.now membership (led_of leader.old state.old output.old)) }
{
    match membership {
        Some(membership) => append_membership(config, leader, state, output, membership),
        None => Ok(()),
    }
}

/// Gives a leader's entries their ids, appends and replicates them; a membership among them takes effect.
#[tactic(auto, using(raft_steps::proofs::Proposing::proposed_may, raft_steps::proofs::Proposing::joined_may), unfolding(raft_steps::specs::LeaderHandler::leader_append_entries))]
pub fn leader_append_entries<C: RaftTypeConfig>(
    config: &EngineConfig<C::NodeId>,
    leader: &mut Leader<C, Joint<C::NodeId>>,
    state: &mut RaftState<C::NodeId, C::Node>,
    output: &mut EngineOutput<C>,
    entries: Vec<C::Entry>,
) -> Result<(), AllocError>
    requires send { MaySend 2 (led_of leader.old state.old output.old) }
    requires room { next leader.old.last_log_id + length entries.items < 2 ^ 64 }
    ensures { OnOk result (led_of leader.new state.new output.new ≡ leader_append_entries C.NodeId.cmp C.Entry.RaftEntry.own config.now entries.items (led_of leader.old state.old output.old)) }
{
    if entries.is_empty() {
        return Ok(());
    }
    let membership = propose(leader, state, output, entries)?;
    join(config, leader, state, output, membership)?;
    initiate_replication(config, leader, state, output, false)
}
