//! The node of an event, and what it does there.

ghost use Rattle.std.specs.Prelude.{◌≡◌, IfOk};
ghost use Rattle.std.specs.Option.{option_copied};
ghost use Rattle.raft_node.specs.Events.{aim_of, message_at, requested, skip_stopped};

use raft_calls::elections::Candidates;
use raft_calls::message::Message;
use raft_schedule::event::{EventKind, SkipReason, Start};
use raft_state::Items;
use raft_store::Value;
use std::alloc::{AllocError, Global};

/// What an event does at its node.
#[derive(Drop)]
pub enum Act {
    /// The node is given the first entry.
    Initialize,
    /// The node starts an election, if it is one of these candidates.
    Elect(Candidates),
    /// The node is given a message.
    Take(Message),
    /// The leader appends an entry for each of these values, in order.
    Propose(Items<Value>),
    /// The leader sends heartbeats.
    SendHeartbeat,
    /// The request in flight to this target fails.
    Fail(u64),
    /// The node is told to build a snapshot.
    TriggerSnapshot,
    /// The build of the noted snapshot ends.
    FinishSnapshot,
    /// The node is told to purge its log up to this index.
    TriggerPurge(u64),
    /// The node starts on its store.
    Restart(Start),
    /// The leader proposes the effective membership's voter groups with these learners.
    ChangeLearners(Items<u64>),
    /// The leader proposes a membership with these voter groups and learners.
    ChangeMembership {
        groups: Items<Items<u64>>,
        learners: Items<u64>,
    },
    /// The leader is asked for the log id that a read has to wait for.
    Read,
    /// The leader steps down, if it is no member of a committed membership.
    StepDown,
    /// The node stops.
    Stop,
}

/// An event's node, and what it does there.
#[derive(Drop)]
pub struct Aim {
    pub id: u64,
    pub act: Act,
}

/// The message with a number: they are counted from 1, in the order of sending.
fn message_at(bag: &[Message], number: u64) -> Option<&Message>
    ensures { option_copied result ≡ message_at bag.now number }
{
    if number == 0 {
        return None;
    }
    bag.get((number - 1) as usize)
}

/// An event's node, and what it does there; none if it delivers a message that was never sent.
pub fn aim_of(alloc: Global, bag: &[Message], kind: &EventKind) -> Result<Option<Aim>, AllocError>
    ensures { IfOk result (λ aim. aim ≡ aim_of bag.now kind.now) }
{
    // an act owns its lists
    match kind.copy(alloc)? {
        EventKind::Init(id) => Ok(Some(Aim {
            id,
            act: Act::Initialize,
        })),
        EventKind::Timeout(id) => Ok(Some(Aim {
            id,
            act: Act::Elect(Candidates::Voters),
        })),
        EventKind::Stand(id) => Ok(Some(Aim {
            id,
            act: Act::Elect(Candidates::AllMembers),
        })),
        EventKind::Deliver(number) => match message_at(bag, number) {
            None => Ok(None),
            Some(message) => Ok(Some(Aim {
                id: message.to,
                act: Act::Take(message.copy(alloc)?),
            })),
        },
        EventKind::Propose { id, values } => Ok(Some(Aim {
            id,
            act: Act::Propose(values),
        })),
        EventKind::Heartbeat(id) => Ok(Some(Aim {
            id,
            act: Act::SendHeartbeat,
        })),
        EventKind::Fail { id, target } => Ok(Some(Aim {
            id,
            act: Act::Fail(target),
        })),
        EventKind::Snapshot(id) => Ok(Some(Aim {
            id,
            act: Act::TriggerSnapshot,
        })),
        EventKind::Built(id) => Ok(Some(Aim {
            id,
            act: Act::FinishSnapshot,
        })),
        EventKind::Purge { id, index } => Ok(Some(Aim {
            id,
            act: Act::TriggerPurge(index),
        })),
        EventKind::Restart { id, start } => Ok(Some(Aim {
            id,
            act: Act::Restart(start),
        })),
        EventKind::Member { id, learners } => Ok(Some(Aim {
            id,
            act: Act::ChangeLearners(learners),
        })),
        EventKind::Change {
            id,
            groups,
            learners,
        } => Ok(Some(Aim {
            id,
            act: Act::ChangeMembership { groups, learners },
        })),
        EventKind::Read(id) => Ok(Some(Aim { id, act: Act::Read })),
        EventKind::Down(id) => Ok(Some(Aim {
            id,
            act: Act::StepDown,
        })),
        EventKind::Stop(id) => Ok(Some(Aim { id, act: Act::Stop })),
    }
}

impl Act {
    /// The delivered message: its sender gets the reply.
    pub fn requested(self) -> Option<Message>
        ensures { result ≡ requested self }
    {
        match self {
            Act::Take(message) => Some(message),
            _ => None,
        }
    }
}

/// Skips every act but a restart: the node is stopped.
pub fn skip_stopped(act: &Act) -> Option<SkipReason>
    ensures { result ≡ skip_stopped act.now }
{
    match act {
        Act::Restart(_) => None,
        _ => Some(SkipReason::NotRunning),
    }
}
