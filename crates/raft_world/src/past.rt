//! The events of a world so far, and which messages they delivered.

ghost use Rattle.std.specs.Prelude.{◌≡◌, ◌<◌, ◌++◌, ◌∷◌, ℕ, [], OnOk, Option, None, Some, IfSome, false, get_or, length};
ghost use Rattle.raft_world.specs.Undelivered.{append_kind, delivered_by, first_from, is_delivered, is_of, kind_of};

use raft_calls::message::{Body, Message};
use raft_command::RequestId;
use raft_schedule::event::{AppliedEvent, EventKind, Outcome, SkipReason};
use raft_schedule::step::{Link, MessageKind};
use std::alloc::{AllocError, Global};
use std::marker::Model;

/// The number of the message that an event delivered, whatever came of that; none if the message wasn't there.
fn delivered_by(applied: &AppliedEvent) -> Option<u64>
    ensures { result ≡ delivered_by applied.now.event.kind applied.now.outcome }
{
    match (&applied.event.kind, applied.outcome) {
        (EventKind::Deliver(_), Outcome::Skipped(SkipReason::NoMessage)) => None,
        (EventKind::Deliver(number), _) => Some(*number),
        _ => None,
    }
}

/// The kind of an append request.
fn append_kind(request_id: RequestId) -> MessageKind
    ensures { result ≡ append_kind request_id }
{
    match request_id {
        RequestId::HeartBeat => MessageKind::Heartbeat,
        _ => MessageKind::Append,
    }
}

fn kind_of(body: &Body) -> MessageKind
    ensures { result ≡ kind_of body.now }
{
    match body {
        Body::VoteRequest(_) => MessageKind::VoteRequest,
        Body::VoteReply(_) => MessageKind::VoteReply,
        Body::AppendRequest { origin, .. } => append_kind(origin.request_id),
        Body::AppendReply { .. } => MessageKind::AppendReply,
        Body::SnapshotRequest { .. } => MessageKind::Snapshot,
        Body::SnapshotReply { .. } => MessageKind::SnapshotReply,
    }
}

/// Whether a message is of this link, if one is given.
fn is_of(link: Option<Link>, message: &Message) -> bool
    ensures { result ≡ is_of link message.now }
{
    match link {
        None => true,
        Some(Link { from, to, kind }) => {
            message.from == from && message.to == to && kind_of(&message.body).is_same(kind)
        }
    }
}

/// The events so far with their outcomes, and which messages they delivered.
#[derive(Debug, Drop)]
pub(crate) struct Past {
    events: Vec<AppliedEvent>,
    /// At the place of a message's number, whether it was delivered.
    marks: Vec<bool>,
}

impl Model for Past {
    ghost use Rattle.std.specs.Prelude.{List};
    ghost use Rattle.raft_schedule.specs.declared.event.AppliedEvent.{AppliedEvent};
    ghost use Rattle.raft_world.specs.Undelivered.{Marks};

    ghost Value = { List AppliedEvent };

    ghost view = { λ s. s.events.items };

    ghost invariant = { λ s. Marks s.marks.items s.events.items };
}

/// Makes room for the mark at a place.
fn make_room(marks: &mut Vec<bool>, place: usize) -> Result<(), AllocError>
    ensures same { (k : ℕ) → get_or marks.new.items k false ≡ get_or marks.old.items k false }
    ensures room { OnOk result (place < length marks.new.items) }
{
    'grow: while marks.len() <= place {
        marks.push(false)?;
    }
    Ok(())
}

impl Past {
    pub fn new(alloc: Global) -> Self
        ensures { result ≡ [] }
    {
        Past {
            events: Vec::new(alloc),
            marks: Vec::new(alloc),
        }
    }

    /// The events with their outcomes.
    pub fn events(&self) -> &[AppliedEvent]
        ensures { result.now ≡ self.now }
    {
        &self.events
    }

    /// The events with their outcomes, moved.
    pub fn into_events(self) -> Vec<AppliedEvent>
        ensures { result.items ≡ self }
    {
        self.events
    }

    /// One more event.
    pub fn push(&mut self, applied: AppliedEvent) -> Result<(), AllocError>
        ensures { OnOk result (self.new ≡ self.old ++ applied ∷ []) }
    {
        match delivered_by(&applied) {
            Some(number) => self.push_delivery(applied, number as usize),
            None => {
                self.events.push(applied)?;
                Ok(())
            }
        }
    }

    /// One more event, which delivered the message with this number.
    fn push_delivery(&mut self, applied: AppliedEvent, place: usize) -> Result<(), AllocError>
        requires { delivered_by applied.event.kind applied.outcome ≡ Some place }
        ensures { OnOk result (self.new ≡ self.old ++ applied ∷ []) }
    {
        make_room(&mut self.marks, place)?;
        self.events.push(applied)?;
        self.marks[place] = true;
        Ok(())
    }

    /// Whether the message with this number was delivered.
    fn has_delivered(&self, number: u64) -> bool
        ensures { result ≡ is_delivered self.now number }
    {
        match self.marks.get(number as usize) {
            Some(mark) => *mark,
            None => false,
        }
    }

    /// The number of the first of all messages that wasn't delivered, of this link if one is given.
    pub fn oldest(&self, link: Option<Link>, messages: &[Message]) -> Option<u64>
        ensures { result ≡ first_from 1 (is_of link) (is_delivered self.now) messages.now }
    {
        let mut number = 0u64;
        for message in messages {
            number = number.saturating_add(1);
            if is_of(link, message) && !self.has_delivered(number) {
                return Some(number);
            }
        }
        None
    }
}
