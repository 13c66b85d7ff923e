//! A connection: what was received, what is known of its client, and the requests that wait.

ghost use Rattle.std.specs.Prelude.{◌≡◌, ◌++◌, ◌||◌, length, nat_le, IfOk, OnOk, OnErr, MatchResult};
ghost use Rattle.raft_connection.specs.Pending.{ready_total};
ghost use Rattle.raft_connection.specs.Connection.{replies_of, opened, room, receive, is_waiting, closed, forgetful, responded, asked};
ghost use Rattle.raft_connection.specs.Connection.{malformed, unfinished, finished, run, step, taken, output, is_alone, is_closing};
ghost use Rattle.raft_connection.specs.Connection.{Takes, answered};

use crate::answer::{Answer, AnswerError, answer_bytes};
use crate::keys::work_slot;
use crate::limits::{Limits, Settings};
use crate::pending::{Pending, Replies, Slot, Waiting};
use crate::reading::{Front, front_of};
use crate::received::Received;
use crate::refusal::Refusal;
use crate::requests::outcome;
use crate::response::{Response, response_bytes};
use crate::session::{Outcome, Session, Work};
use raft_resp::Fault;
use raft_state::Items;
use std::alloc::{AllocError, Global};

/// A request for the state machine.
#[derive(Debug, Drop)]
pub struct Asked {
    /// Its number, by which it is answered.
    pub number: u64,
    pub work: Work,
}

/// What a step came to.
#[derive(Debug, Drop)]
pub enum Step {
    /// No request is read until more bytes come, or until some of the answers that wait are taken.
    Waits,

    /// A request was read, and the connection answered it.
    Answered,

    /// A request was read that the state machine answers.
    Asks(Asked),
}

/// One connection of a client.
#[derive(Debug, Drop)]
pub struct Connection {
    pub(crate) received: Received,
    pub(crate) session: Session,
    pub(crate) pending: Pending,
}

/// How many replies are asked for.
fn replies_of(work: &Work) -> Replies
    ensures { result ≡ replies_of work.now }
{
    match work {
        Work::Query(_) | Work::Command(..) => Replies::One,
        Work::Transaction(_, commands) => Replies::Array(commands.as_slice().len()),
    }
}

impl Connection {
    /// A connection that begins, of a number that its client may ask for. The client speaks version 2 of the protocol.
    pub fn new(alloc: Global, settings: &Settings, id: u64) -> Self
        ensures { result ≡ opened settings.now id }
    {
        Connection {
            received: Received::new(alloc),
            session: Session::new(alloc, id, settings.secret.is_none()),
            pending: Pending::new(alloc),
        }
    }

    /// How many bytes it takes now. None once its client has quit, or sent what is no request.
    pub fn room(&self, limits: &Limits) -> usize
        ensures { result ≡ room limits.now self.now }
    {
        if self.session.is_closing {
            0
        } else {
            limits.received.saturating_sub(self.received.len())
        }
    }

    /// Takes bytes that were received, from the first one on, as many as there is room for, and says how many.
    /// Out of memory, it takes none.
    #[tactic(auto, using(std::proofs::lemmas::List::take_min))]
    pub fn receive(&mut self, limits: &Limits, bytes: &[u8]) -> Result<usize, AllocError>
        ensures ok { IfOk result (λ taken. (self.new, taken) ≡ receive limits.now self.old bytes.now) }
        ensures err { OnErr result (self.new ≡ self.old) }
    {
        let taken = bytes.len().min(self.room(limits));
        self.received.extend(&bytes[..taken])?;
        Ok(taken)
    }

    /// Whether it reads no request now.
    fn is_waiting(&self, limits: &Limits) -> bool
        ensures { result ≡ is_waiting limits.now self.now }
    {
        self.session.is_closing || self.is_full(limits)
    }

    /// Whether too many requests wait, or answers of too many bytes.
    fn is_full(&self, limits: &Limits) -> bool
        ensures { result ≡ (nat_le limits.now.requests (length self.now.pending.slots) || nat_le limits.now.received (ready_total self.now.pending.slots)) }
    {
        self.pending.len() >= limits.requests || self.pending.holds(limits.received)
    }

    /// Reads no request any more.
    fn close(&mut self, alloc: Global)
        ensures { self.new ≡ closed self.old }
    {
        self.session.is_closing = true;
        self.received = Received::new(alloc);
    }

    /// Forgets what was received, if no request is read any more.
    fn forget(&mut self, alloc: Global)
        ensures { self.new ≡ forgetful self.old }
    {
        if self.session.is_closing {
            self.received = Received::new(alloc);
        }
    }

    /// Answers a request itself.
    fn respond(&mut self, alloc: Global, response: &Response) -> Result<(), AllocError>
        ensures { OnOk result (self.new ≡ responded self.old response.now) }
    {
        let bytes = response_bytes(alloc, self.session.protocol, response)?;
        self.pending.push(Slot::Ready(bytes))
    }

    /// What stands at the front is no request: it is answered so, and none is read any more.
    fn malformed(&mut self, alloc: Global, fault: Fault) -> Result<Step, AllocError>
        ensures { IfOk result (λ step. (self.new, step) ≡ malformed self.old fault) }
    {
        self.close(alloc);
        self.respond(alloc, &Response::Refused(Refusal::Protocol(fault)))?;
        Ok(Step::Answered)
    }

    /// More bytes have to come, unless as many are there as may be.
    fn unfinished(&mut self, alloc: Global, limits: &Limits) -> Step
        ensures { (self.new, result) ≡ unfinished limits.now self.old }
    {
        if self.received.len() >= limits.received {
            self.close(alloc);
        }
        Step::Waits
    }

    /// Hands a request out.
    fn ask(&mut self, work: Work) -> Result<Step, AllocError>
        ensures { IfOk result (λ step. (self.new, step) ≡ asked self.old work) }
    {
        let number = self.pending.next_number();
        self.pending.push(Slot::Waits(Waiting {
            protocol: self.session.protocol,
            replies: replies_of(&work),
            slot: work_slot(&work),
        }))?;
        Ok(Step::Asks(Asked { number, work }))
    }

    /// What a request came to.
    fn finished(&mut self, alloc: Global, outcome: Outcome) -> Result<Step, AllocError>
        ensures { IfOk result (λ step. (self.new, step) ≡ finished self.old outcome) }
    {
        match outcome {
            Outcome::Answers(response) => {
                self.respond(alloc, &response)?;
                Ok(Step::Answered)
            }
            Outcome::Asks(work) => self.ask(work),
        }
    }

    /// Runs a request of these words. One of none is answered by nothing.
    fn run(
        &mut self,
        alloc: Global,
        settings: &Settings,
        now: u64,
        words: &[Items<u8>],
    ) -> Result<Step, AllocError>
        ensures { IfOk result (λ step. (self.new, step) ≡ run settings.now now self.old words.now) }
    {
        match words.split_first() {
            None => Ok(Step::Answered),
            Some((name, args)) => {
                let came_to = outcome(
                    alloc,
                    settings,
                    &mut self.session,
                    now,
                    name.as_slice(),
                    args,
                )?;
                self.forget(alloc);
                self.finished(alloc, came_to)
            }
        }
    }

    /// Reads one request, if a whole one is there and not too many wait, and answers it or hands it out. Times in it count from
    /// now, in milliseconds since the Unix epoch.
    #[tactic(auto, unfolding(crate::specs::Connection::step))]
    pub fn step(&mut self, alloc: Global, settings: &Settings, now: u64) -> Result<Step, AllocError>
        ensures { IfOk result (λ step_now. (self.new, step_now) ≡ step settings.now now self.old) }
    {
        if self.is_waiting(&settings.limits) {
            return Ok(Step::Waits);
        }
        match front_of(alloc, &settings.limits.request, self.received.as_slice())? {
            Front::Unfinished => Ok(self.unfinished(alloc, &settings.limits)),
            Front::Malformed(fault) => self.malformed(alloc, fault),
            Front::Request(words, left) => {
                self.received.keep_last(left);
                self.run(alloc, settings, now, words.as_slice())
            }
        }
    }

    /// Takes the answer to a request that was handed out, once. Refusals, which change nothing:
    ///
    /// - [`AnswerError::NotWaiting`]: no request of this number waits.
    /// - [`AnswerError::WrongNumberOfReplies`]: there are more replies than commands, or fewer.
    /// - [`AnswerError::OutOfMemory`].
    pub fn answer(&mut self, alloc: Global, number: u64, answer: &Answer) -> Result<(), AnswerError>
        ensures { Takes self.old self.new result (answered self.old number answer.now) }
    {
        let Some(waiting) = self.pending.waiting(number) else {
            return Err(AnswerError::NotWaiting);
        };
        let bytes = answer_bytes(alloc, waiting, answer)?;
        self.pending.fill(number, bytes);
        Ok(())
    }

    /// Appends the bytes to send next: the answers of all requests before the first one that waits.
    pub fn take_output(&mut self, out: &mut Vec<u8>) -> Result<(), AllocError>
        ensures taken { OnOk result (self.new ≡ taken self.old) }
        ensures sent { OnOk result (out.new.items ≡ out.old.items ++ output self.old) }
    {
        while let Some(bytes) = self.pending.pop_ready() {
            out.extend_from_slice(bytes.as_slice())?;
        }
        Ok(())
    }

    /// Whether exactly one request has no answer that was taken, and no bytes wait to be read.
    pub fn is_alone(&self) -> bool
        ensures { result ≡ is_alone self.now }
    {
        self.pending.len() == 1 && self.received.len() == 0
    }

    /// Whether its socket is to be closed, once what was taken is sent: the client has quit, sent what is no request, or sent
    /// more than may wait, and each of its requests is answered.
    pub fn is_closing(&self) -> bool
        ensures { result ≡ is_closing self.now }
    {
        self.session.is_closing && self.pending.len() == 0
    }
}
