//! What a line in the place of events says: an event, a delivery that the run resolves, or what is expected.

ghost use Rattle.std.specs.Prelude.{◌≡◌, IfOk};
ghost use Rattle.raft_schedule.specs.Steps.{kind_rank, role_rank, same_fact, same_index, same_kind};

use crate::event::Event;
use raft_state::{Items, LogId, ServerState, Vote};
use std::alloc::{AllocError, Global};

/// The kind of a message.
#[derive(Clone, Copy, PartialEq, Eq, Debug)]
pub enum MessageKind {
    VoteRequest,
    VoteReply,
    /// An append request that is no heartbeat.
    Append,
    Heartbeat,
    /// The reply to an append request or a heartbeat.
    AppendReply,
    Snapshot,
    SnapshotReply,
}

impl MessageKind {
    fn rank(self) -> u8
        ensures { result ≡ kind_rank self }
    {
        match self {
            MessageKind::VoteRequest => 0,
            MessageKind::VoteReply => 1,
            MessageKind::Append => 2,
            MessageKind::Heartbeat => 3,
            MessageKind::AppendReply => 4,
            MessageKind::Snapshot => 5,
            MessageKind::SnapshotReply => 6,
        }
    }

    /// Whether it is the same.
    pub fn is_same(self, other: MessageKind) -> bool
        ensures { result ≡ same_kind self other }
    {
        self.rank() == other.rank()
    }
}

/// The messages of a kind from one node to another.
#[derive(Clone, Copy, PartialEq, Eq, Debug)]
pub struct Link {
    pub from: u64,
    pub to: u64,
    pub kind: MessageKind,
}

/// Something that is true of a node.
#[derive(Clone, Copy, PartialEq, Eq, Debug)]
pub enum Fact {
    /// It is stopped.
    Stopped,
    /// It runs in this role.
    Role(ServerState),
    /// Its engine's vote.
    Vote(Vote<u64>),
    /// Its engine's last log id.
    Last(Option<LogId<u64>>),
    /// Its engine's committed id.
    Committed(Option<LogId<u64>>),
    /// The index of the last entry that its state machine has applied.
    Applied(Option<u64>),
}

fn role_rank(role: ServerState) -> u8
    ensures { result ≡ role_rank role }
{
    match role {
        ServerState::Learner => 0,
        ServerState::Follower => 1,
        ServerState::Candidate => 2,
        ServerState::Leader => 3,
    }
}

fn same_index(one: Option<u64>, other: Option<u64>) -> bool
    ensures { result ≡ same_index one other }
{
    match (one, other) {
        (None, None) => true,
        (Some(one), Some(other)) => one == other,
        _ => false,
    }
}

impl Fact {
    /// Whether it is the same.
    pub fn is_same(&self, other: &Fact) -> bool
        ensures { result ≡ same_fact self.now other.now }
    {
        match (self, other) {
            (Fact::Stopped, Fact::Stopped) => true,
            (Fact::Role(one), Fact::Role(other)) => role_rank(*one) == role_rank(*other),
            (Fact::Vote(one), Fact::Vote(other)) => one == other,
            (Fact::Last(one), Fact::Last(other)) => one == other,
            (Fact::Committed(one), Fact::Committed(other)) => one == other,
            (Fact::Applied(one), Fact::Applied(other)) => same_index(*one, *other),
            _ => false,
        }
    }
}

/// What is expected at a point of a run.
#[derive(PartialEq, Eq, Debug, Drop)]
pub enum Expectation {
    /// Each of these facts is true of the node with this id.
    Node { id: u64, facts: Items<Fact> },
    /// The last answer to a read is this log id.
    Read(Option<LogId<u64>>),
    /// No two state machines differ.
    Agree,
}

impl Expectation {
    /// A copy.
    pub fn copy(&self) -> Result<Expectation, AllocError>
        ensures { IfOk result (λ copied. copied ≡ self.now) }
    {
        Ok(match self {
            Expectation::Node { id, facts } => Expectation::Node {
                id: *id,
                facts: facts.copy()?,
            },
            Expectation::Read(log_id) => Expectation::Read(*log_id),
            Expectation::Agree => Expectation::Agree,
        })
    }
}

/// What a line in the place of events says.
#[derive(PartialEq, Eq, Debug, Drop)]
pub enum Step {
    /// This happens.
    Happens(Event),
    /// The oldest undelivered message of a link is delivered, at this moment, and its node stops after so many commands.
    Next {
        link: Link,
        at: Option<u64>,
        stop: Option<u64>,
    },
    /// The oldest undelivered message is delivered, again and again, at most so many times.
    All(u64),
    /// This is expected, or the run ends.
    Expects(Expectation),
}

/// A step, and the line of its text, counted from 1.
#[derive(PartialEq, Eq, Debug, Drop)]
pub struct Numbered {
    pub line: u64,
    pub step: Step,
}
