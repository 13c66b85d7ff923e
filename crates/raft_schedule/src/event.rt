//! Events and their outcomes.

ghost use Rattle.std.specs.Prelude.{◌≡◌, IfOk};

use raft_state::Items;
use raft_store::Value;
use std::alloc::{AllocError, Global};

/// How a node starts on its store.
#[derive(Clone, Copy, PartialEq, Eq, Debug)]
pub enum Start {
    /// Its snapshot's last id counts as committed; a node that led leads on.
    Plain,
    /// The saved committed id counts as committed, if the log holds it; a node that led leads on.
    Saved,
    /// The saved committed id is forgotten, and the node never leads on: one that led stands for election anew.
    Bare,
}

/// What happens, and at which node.
#[derive(PartialEq, Eq, Debug, Drop)]
pub enum EventKind {
    /// The node with this id is given the first entry.
    Init(u64),
    /// The node with this id starts an election, if it is a voter of its effective membership.
    Timeout(u64),
    /// The node with this id stands for election, if it is a member of its effective membership: a learner may, too.
    Stand(u64),
    /// The message with this number, counted from 1, is delivered to its addressee.
    Deliver(u64),
    /// The leader at the node with this id appends an entry for each of these values, in order.
    Propose {
        id: u64,
        values: Items<Value>,
    },
    /// The leader at the node with this id sends heartbeats.
    Heartbeat(u64),
    /// The request in flight from the leader at the node with this id to this target fails.
    Fail {
        id: u64,
        target: u64,
    },
    /// The node with this id is told to build a snapshot.
    Snapshot(u64),
    /// The snapshot that the node with this id builds is finished.
    Built(u64),
    /// The node with this id is told to purge its log up to this index.
    Purge {
        id: u64,
        index: u64,
    },
    /// The node with this id starts on its store; a running one is stopped first.
    Restart {
        id: u64,
        start: Start,
    },
    /// The leader at the node with this id proposes the effective membership's voter groups with these learners.
    Member {
        id: u64,
        learners: Items<u64>,
    },
    /// The leader at the node with this id proposes a membership with these voter groups and learners.
    Change {
        id: u64,
        groups: Items<Items<u64>>,
        learners: Items<u64>,
    },
    /// The leader at the node with this id is asked for the log id that a read has to wait for.
    Read(u64),
    /// The leader at the node with this id steps down, if it is no member of the effective membership, and that is
    /// committed.
    Down(u64),
    /// The node with this id stops: it keeps its store and its clock alone.
    Stop(u64),
}

impl EventKind {
    /// A copy.
    pub fn copy(&self, alloc: Global) -> Result<EventKind, AllocError>
        ensures { IfOk result (λ copied. copied ≡ self.now) }
    {
        Ok(match self {
            EventKind::Init(id) => EventKind::Init(*id),
            EventKind::Timeout(id) => EventKind::Timeout(*id),
            EventKind::Stand(id) => EventKind::Stand(*id),
            EventKind::Deliver(number) => EventKind::Deliver(*number),
            EventKind::Propose { id, values } => EventKind::Propose {
                id: *id,
                values: copy_values(alloc, values)?,
            },
            EventKind::Heartbeat(id) => EventKind::Heartbeat(*id),
            EventKind::Fail { id, target } => EventKind::Fail {
                id: *id,
                target: *target,
            },
            EventKind::Snapshot(id) => EventKind::Snapshot(*id),
            EventKind::Built(id) => EventKind::Built(*id),
            EventKind::Purge { id, index } => EventKind::Purge {
                id: *id,
                index: *index,
            },
            EventKind::Restart { id, start } => EventKind::Restart {
                id: *id,
                start: *start,
            },
            EventKind::Member { id, learners } => EventKind::Member {
                id: *id,
                learners: learners.copy()?,
            },
            EventKind::Change {
                id,
                groups,
                learners,
            } => EventKind::Change {
                id: *id,
                groups: copy_groups(alloc, groups)?,
                learners: learners.copy()?,
            },
            EventKind::Read(id) => EventKind::Read(*id),
            EventKind::Down(id) => EventKind::Down(*id),
            EventKind::Stop(id) => EventKind::Stop(*id),
        })
    }
}

/// A copy of values.
fn copy_values(alloc: Global, values: &Items<Value>) -> Result<Items<Value>, AllocError>
    ensures { IfOk result (λ copied. copied ≡ values.now) }
{
    let mut copied = Vec::new(alloc);
    for value in values.as_slice() {
        copied.push(value.copy()?)?;
    }
    Ok(Items::from_vec(copied))
}

/// A copy of voter groups.
fn copy_groups(alloc: Global, groups: &Items<Items<u64>>) -> Result<Items<Items<u64>>, AllocError>
    ensures { IfOk result (λ copied. copied ≡ groups.now) }
{
    let mut copied = Vec::new(alloc);
    for group in groups.as_slice() {
        copied.push(group.copy()?)?;
    }
    Ok(Items::from_vec(copied))
}

/// What happens, at which moment in milliseconds, and after how many commands the node stops. Without a moment, or with an
/// earlier one, it is the node's last one; without a number of commands, with 0, or with more than there are, the node
/// doesn't stop.
#[derive(PartialEq, Eq, Debug, Drop)]
pub struct Event {
    pub kind: EventKind,
    pub at: Option<u64>,
    pub stop: Option<u64>,
}

impl Event {
    /// A copy.
    pub fn copy(&self, alloc: Global) -> Result<Event, AllocError>
        ensures { IfOk result (λ copied. copied ≡ self.now) }
    {
        Ok(Event {
            kind: self.kind.copy(alloc)?,
            at: self.at,
            stop: self.stop,
        })
    }
}

/// Why an event is skipped.
#[derive(Clone, Copy, PartialEq, Eq, Debug)]
pub enum SkipReason {
    /// No such message was sent.
    NoMessage,
    /// Its node is stopped, or there is none with that id.
    NotRunning,
    /// Its node leads.
    HasLeader,
    /// Its node is no voter of the effective membership.
    NotVoter,
    /// Its node is no member of the effective membership: neither a voter nor a learner.
    NotMember,
    /// It delivers a reply to a replication request, and its node doesn't lead in the session of that request.
    StaleSession,
    /// It proposes to a leader whose vote isn't the node's vote any more.
    NotOwnVote,
    /// It fails a request to a target to which none is in flight.
    NothingInFlight,
    /// It finishes a snapshot, and its node builds none.
    NothingBuilt,
    /// It proposes a membership before the effective one is committed.
    MembershipPending,
    /// It proposes a membership before the leader's no-op entry is committed.
    BlankPending,
    /// It proposes a membership with more than four voter groups.
    BadGroups,
    /// It proposes a membership that shares no voter group with the effective one.
    NoSharedGroup,
    /// It proposes a membership in which a learner is a voter too.
    BadLearners,
    /// It asks a node that doesn't lead to step down.
    NotLeader,
}

/// The outcome of an event.
#[derive(Clone, Copy, PartialEq, Eq, Debug)]
pub enum Outcome {
    /// Its calls and commands were executed.
    Done,
    /// A call was refused, with this number.
    Refused(u8),
    /// It was skipped.
    Skipped(SkipReason),
    /// The node stopped after a command, which may be the last, before that was reported to its engine.
    Stopped,
}

/// An event, its outcome, and how many messages had been sent after it.
#[derive(PartialEq, Eq, Debug, Drop)]
pub struct AppliedEvent {
    pub event: Event,
    pub outcome: Outcome,
    pub sent: u64,
}

impl AppliedEvent {
    /// A copy.
    pub fn copy(&self, alloc: Global) -> Result<AppliedEvent, AllocError>
        ensures { IfOk result (λ copied. copied ≡ self.now) }
    {
        Ok(AppliedEvent {
            event: self.event.copy(alloc)?,
            outcome: self.outcome,
            sent: self.sent,
        })
    }
}
