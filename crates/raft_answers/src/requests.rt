//! The requests of a server's clients.

ghost use Rattle.std.specs.Prelude.{◌≡◌, ◌++◌, ◌∷◌, [], IfOk, OnErr, OnOk, map, ◌↔◌, IsTrue, ◌≢◌, ℕ, drop, take};
ghost use Rattle.std.specs.List.{prefix_len, take_while};
ghost use Rattle.raft_answers.specs.declared.answer.Answer.TheVariants.{Failed};
ghost use Rattle.raft_answers.specs.Answers.{came_upto, ended, expired, expired_replies, failed, proposed_left, proposed_upto, refused};
ghost use Rattle.raft_answers.specs.Answers.{settled, settled_left, settled_replies};
ghost use Rattle.raft_answers.specs.Requests.{IsBatched, batch_of, batched, id_at, no_requests, proposal_at};

use crate::answer::{Answer, Reply, answer_at, push_reply};
use crate::batch::{Batch, Place};
use crate::limits::{Limits, Refusal};
use crate::request::{Proposal, Request};
use raft_state::LogId;
use std::alloc::{AllocError, Global};
use std::collections::VecDeque;
use std::marker::Model;

/// The requests without an answer, in the order in which they came: those that were proposed, and those that wait for it.
#[derive(Debug, Drop)]
pub struct Requests {
    alloc: Global,
    proposed: VecDeque<Proposal>,
    waiting: VecDeque<Request>,
    /// How many bytes the waiting ones have.
    bytes: usize,
}

impl Model for Requests {
    ghost use Rattle.raft_answers.specs.Requests.{Open};

    ghost Value = { Open };

    ghost view = { λ s. record { proposed = s.proposed.items; waiting = s.waiting.items } };
}

impl Requests {
    /// No requests.
    pub fn new(alloc: Global) -> Self
        ensures { result ≡ no_requests }
    {
        Requests {
            alloc,
            proposed: VecDeque::new(alloc),
            waiting: VecDeque::new(alloc),
            bytes: 0,
        }
    }

    /// Whether none was proposed.
    pub fn has_proposed(&self) -> bool
        ensures { IsTrue result ↔ (self.now.proposed ≢ []) }
    {
        !self.proposed.is_empty()
    }

    /// Whether some wait to be proposed.
    pub fn has_waiting(&self) -> bool
        ensures { IsTrue result ↔ (self.now.waiting ≢ []) }
    {
        !self.waiting.is_empty()
    }

    /// Takes a request.
    ///
    /// Refusals, which change nothing:
    /// - `TooLarge` if its value has more bytes than the limit,
    /// - `Busy` if as many requests as the limit have no answer, or if the values that wait would have too many bytes,
    /// - `OutOfMemory`.
    pub fn admit(&mut self, limits: &Limits, request: Request) -> Result<(), Refusal>
        ensures ok { OnOk result (self.new ≡ record self.old { waiting = self.old.waiting ++ request ∷ [] }) }
        ensures err { OnErr result (self.new ≡ self.old) }
    {
        let bytes = request.operation.len();
        if bytes > limits.value_bytes {
            return Err(Refusal::TooLarge);
        }
        let count = self.proposed.len().saturating_add(self.waiting.len());
        let total = self.bytes.saturating_add(bytes);
        if total > limits.waiting_bytes || count >= limits.requests {
            return Err(Refusal::Busy);
        }
        push_request(&mut self.waiting, request)?;
        self.bytes = total;
        Ok(())
    }

    /// Takes the oldest requests that wait, until the values of those have as many bytes as the limit.
    pub fn take_batch(&mut self, limits: &Limits) -> Result<Batch, AllocError>
        ensures { IfOk result (λ batch. IsBatched self.old self.new (batched batch)) }
    {
        let batch = take_requests(self.alloc, &mut self.waiting, limits.batch_bytes)?;
        self.bytes = self.bytes.saturating_sub(batch.bytes);
        Ok(batch)
    }

    /// A batch was proposed, whose first value got this id: each request of it waits for the entry of its value.
    pub fn propose(&mut self, places: Vec<Place>, first: LogId<u64>) -> Result<(), AllocError>
        ensures { OnOk result (self.new ≡ record self.old { proposed = self.old.proposed ++ map (proposal_at first) places.items }) }
    {
        push_places(&mut self.proposed, places, first)
    }

    /// An entry was executed: those that wait for it, or for one below, are answered.
    pub fn settle(&mut self, id: &LogId<u64>, replies: &mut Vec<Reply>) -> Result<(), AllocError>
        ensures left { OnOk result (self.new ≡ settled id.now self.old) }
        ensures replies { OnOk result (replies.new.items ≡ replies.old.items ++ settled_replies id.now self.old.proposed) }
    {
        settle_proposed(&mut self.proposed, id, replies)
    }

    /// The lead under which they were proposed is over: whether they are done is not known.
    pub fn end(&mut self, replies: &mut Vec<Reply>) -> Result<(), AllocError>
        ensures left { OnOk result (self.new ≡ record self.old { proposed = [] }) }
        ensures replies { OnOk result (replies.new.items ≡ replies.old.items ++ ended self.old.proposed) }
    {
        end_proposed(&mut self.proposed, replies)
    }

    /// Those that wait get this answer.
    pub fn refuse(&mut self, answer: Answer, replies: &mut Vec<Reply>) -> Result<(), AllocError>
        ensures left { OnOk result (self.new ≡ record self.old { waiting = [] }) }
        ensures replies { OnOk result (replies.new.items ≡ replies.old.items ++ refused answer self.old.waiting) }
    {
        self.bytes = 0;
        refuse_waiting(&mut self.waiting, answer, replies)
    }

    /// Those that came before this moment are answered: whether a proposed one is done is not known, and one that
    /// waits has failed. Moments are in milliseconds.
    pub fn expire(&mut self, upto: u64, replies: &mut Vec<Reply>) -> Result<(), AllocError>
        ensures left { OnOk result (self.new ≡ expired upto self.old) }
        ensures replies { OnOk result (replies.new.items ≡ replies.old.items ++ expired_replies upto self.old) }
    {
        expire_proposed(&mut self.proposed, upto, replies)?;
        if self.proposed.is_empty() {
            expire_waiting(&mut self.waiting, &mut self.bytes, upto, replies)?;
        }
        Ok(())
    }
}

/// Answers proposed requests that came before this moment.
fn expire_proposed(
    proposed: &mut VecDeque<Proposal>,
    upto: u64,
    replies: &mut Vec<Reply>,
) -> Result<(), AllocError>
    ensures left { OnOk result (proposed.new.items ≡ proposed_left upto proposed.old.items) }
    ensures replies { OnOk result (replies.new.items ≡ replies.old.items ++ ended (take_while (proposed_upto upto) proposed.old.items)) }
{
    'proposals: while let Some(proposal) = proposed.front() {
        if proposal.since >= upto {
            break;
        }
        push_reply(proposal.token, Answer::Unknown, replies)?;
        proposed.pop_front();
    }
    Ok(())
}

/// Answers waiting requests that came before this moment; `bytes` is how many bytes the waiting ones have.
fn expire_waiting(
    waiting: &mut VecDeque<Request>,
    bytes: &mut usize,
    upto: u64,
    replies: &mut Vec<Reply>,
) -> Result<(), AllocError>
    ensures left { OnOk result (waiting.new.items ≡ drop (prefix_len (came_upto upto) waiting.old.items) waiting.old.items) }
    ensures replies { OnOk result (replies.new.items ≡ replies.old.items ++ refused Failed (take_while (came_upto upto) waiting.old.items)) }
{
    'requests: while let Some(request) = waiting.front() {
        if request.since >= upto {
            break;
        }
        *bytes = bytes.saturating_sub(request.operation.len());
        push_reply(request.token, Answer::Failed, replies)?;
        waiting.pop_front();
    }
    Ok(())
}

/// The oldest requests of these, until their values have so many bytes.
fn take_requests(
    alloc: Global,
    waiting: &mut VecDeque<Request>,
    limit: usize,
) -> Result<Batch, AllocError>
    ensures { IfOk result (λ batch. (count : ℕ) × (batched batch ≡ batch_of (take count waiting.old.items))
        × (waiting.new.items ≡ drop count waiting.old.items)) }
{
    let mut batch = Batch::new(alloc);
    'requests: while batch.bytes < limit {
        let Some(request) = waiting.pop_front() else {
            break;
        };
        batch.add(alloc, request)?;
    }
    Ok(batch)
}

/// The id of a value of a batch, by the id of the first.
fn id_of(first: LogId<u64>, value: u64) -> LogId<u64>
    ensures { result ≡ id_at first value }
{
    LogId {
        leader_id: first.leader_id,
        index: first.index.saturating_add(value),
    }
}

/// Adds the requests of a batch, whose first value has this id.
fn push_places(
    proposed: &mut VecDeque<Proposal>,
    places: Vec<Place>,
    first: LogId<u64>,
) -> Result<(), AllocError>
    ensures { OnOk result (proposed.new.items ≡ proposed.old.items ++ map (proposal_at first) places.items) }
{
    for place in places {
        proposed.push_back(Proposal {
            token: place.token,
            since: place.since,
            log_id: id_of(first, place.value),
        })?;
    }
    Ok(())
}

/// Answers those that wait for an entry that was executed, or for one below.
fn settle_proposed(
    proposed: &mut VecDeque<Proposal>,
    id: &LogId<u64>,
    replies: &mut Vec<Reply>,
) -> Result<(), AllocError>
    ensures left { OnOk result (proposed.new.items ≡ settled_left id.now.index proposed.old.items) }
    ensures replies { OnOk result (replies.new.items ≡ replies.old.items ++ settled_replies id.now proposed.old.items) }
{
    'proposals: while let Some(proposal) = proposed.front() {
        if proposal.log_id.index > id.index {
            break;
        }
        push_reply(proposal.token, answer_at(id, proposal), replies)?;
        proposed.pop_front();
    }
    Ok(())
}

/// Answers all of them: whether they are done is not known.
fn end_proposed(
    proposed: &mut VecDeque<Proposal>,
    replies: &mut Vec<Reply>,
) -> Result<(), AllocError>
    ensures left { OnOk result (proposed.new.items ≡ []) }
    ensures replies { OnOk result (replies.new.items ≡ replies.old.items ++ ended proposed.old.items) }
{
    'proposals: while let Some(proposal) = proposed.pop_front() {
        push_reply(proposal.token, Answer::Unknown, replies)?;
    }
    Ok(())
}

/// Answers all of them so.
fn refuse_waiting(
    waiting: &mut VecDeque<Request>,
    answer: Answer,
    replies: &mut Vec<Reply>,
) -> Result<(), AllocError>
    ensures left { OnOk result (waiting.new.items ≡ []) }
    ensures replies { OnOk result (replies.new.items ≡ replies.old.items ++ refused answer waiting.old.items) }
{
    'requests: while let Some(request) = waiting.pop_front() {
        push_reply(request.token, answer, replies)?;
    }
    Ok(())
}

fn push_request(waiting: &mut VecDeque<Request>, request: Request) -> Result<(), AllocError>
    ensures ok { OnOk result (waiting.new.items ≡ waiting.old.items ++ request ∷ []) }
    ensures err { OnErr result (waiting.new.items ≡ waiting.old.items) }
{
    Ok(waiting.push_back(request)?)
}

/// The requests of places have failed: their proposal was refused.
pub fn fail(places: Vec<Place>, replies: &mut Vec<Reply>) -> Result<(), AllocError>
    ensures { OnOk result (replies.new.items ≡ replies.old.items ++ failed places.items) }
{
    for place in places {
        push_reply(place.token, Answer::Failed, replies)?;
    }
    Ok(())
}
