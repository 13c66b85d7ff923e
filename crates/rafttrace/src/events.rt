//! Events and their outcomes, as text.

use crate::messages::print_message;
use raft_world::{Event, EventKind, Message, Outcome, SkipReason};
use std::io::{self, Write};

/// The message with a number: they are counted from 1, in the order of sending.
pub fn message_at(messages: &[Message], number: u64) -> Option<&Message> {
    if number == 0 {
        return None;
    }
    messages.get((number - 1) as usize)
}

/// The id of an event's node; none if it delivers a message that was never sent.
pub fn node_of(event: &Event, messages: &[Message]) -> Option<u64> {
    match &event.kind {
        EventKind::Init(id)
        | EventKind::Timeout(id)
        | EventKind::Stand(id)
        | EventKind::Propose { id, .. }
        | EventKind::Heartbeat(id)
        | EventKind::Fail { id, .. }
        | EventKind::Snapshot(id)
        | EventKind::Built(id)
        | EventKind::Purge { id, .. }
        | EventKind::Restart { id, .. }
        | EventKind::Member { id, .. }
        | EventKind::Change { id, .. }
        | EventKind::Read(id)
        | EventKind::Down(id)
        | EventKind::Stop(id) => Some(*id),
        EventKind::Deliver(number) => Some(message_at(messages, *number)?.to),
    }
}

/// An event as a line of the schedule under its number, with the message that it delivers.
pub fn print_event<W: Write>(
    number: u64,
    event: &Event,
    messages: &[Message],
    output: &mut W,
) -> io::Result<()> {
    write!(output, "{number} {event}")?;
    print_delivered(&event.kind, messages, output)?;
    writeln!(output, "")
}

fn print_delivered<W: Write>(
    kind: &EventKind,
    messages: &[Message],
    output: &mut W,
) -> io::Result<()> {
    let EventKind::Deliver(number) = kind else {
        return Ok(());
    };
    let Some(message) = message_at(messages, *number) else {
        return Ok(());
    };
    write!(output, ": ")?;
    print_message(message, output)
}

/// A line for an event that wasn't done.
pub fn print_outcome<W: Write>(outcome: Outcome, output: &mut W) -> io::Result<()> {
    match outcome {
        Outcome::Done => Ok(()),
        Outcome::Refused(refusal) => writeln!(output, "    refused: {refusal}"),
        Outcome::Stopped => writeln!(output, "    stopped"),
        Outcome::Skipped(reason) => {
            let reason = reason_text(reason);
            writeln!(output, "    skipped: {reason}")
        }
    }
}

fn reason_text(reason: SkipReason) -> &'static str {
    match reason {
        SkipReason::NoMessage => "no such message",
        SkipReason::NotRunning => "the node is not running",
        SkipReason::HasLeader => "the node leads",
        SkipReason::NotVoter => "the node is no voter",
        SkipReason::NotMember => "the node is no member",
        SkipReason::StaleSession => "a reply to another session",
        SkipReason::NotOwnVote => "the leader's vote isn't the node's any more",
        SkipReason::NothingInFlight => "nothing is in flight to the target",
        SkipReason::NothingBuilt => "the node builds no snapshot",
        SkipReason::MembershipPending => "the effective membership isn't committed",
        SkipReason::BlankPending => "the leader's no-op entry isn't committed",
        SkipReason::BadGroups => "more than four voter groups",
        SkipReason::NoSharedGroup => "no voter group of the effective membership stays",
        SkipReason::BadLearners => "a learner is a voter too",
        SkipReason::NotLeader => "the node doesn't lead",
    }
}
