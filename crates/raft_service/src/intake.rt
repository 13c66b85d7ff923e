//! Requests on their way to the server, and the questions that wait for its replies.

ghost use Rattle.std.specs.Prelude.{◌≡◌, ◌+◌, IfOk, OnErr, OnOk, length};
ghost use Rattle.raft_service.specs.Intake.{AdmitsBy, Asks, AsksRound, Begins, EntersLog, TakesFirst, TakesRead, goes_by_round};
ghost use Rattle.raft_service.specs.Intake.{is_reading, not_leader, refused, too_large, with_token};

use crate::plan::{Plan, Way, count_of, plan_of};
use crate::question::Question;
use crate::settings::Address;
use raft_answers::{Operation, Refusal, Token};
use raft_connection::{Answer, Asked};
use raft_core::{RaftCore, RequestError};
use raft_executor::KeyValue;
use raft_machine::{Failure, Reply};
use raft_state::Items;
use std::alloc::{AllocError, Global};
use std::collections::{BTreeMap, BTreeSet, VecDeque};

/// The server, and the questions that wait for its answers. Times are in milliseconds since the Unix epoch.
#[derive(Drop)]
pub(crate) struct Intake {
    alloc: Global,
    pub(crate) core: RaftCore<KeyValue>,
    /// The questions that go through the log, in their order.
    waiting: VecDeque<Question>,
    /// The queries that are asked by a round, in their order.
    reading: VecDeque<Question>,
    /// The clients of these.
    readers: BTreeSet<u64>,
    /// The token of the next question.
    next: u64,
    /// The time.
    pub(crate) time: u64,
    /// The state machine's moment.
    pub(crate) reached: u64,
    /// The greatest time that a request was given.
    told: u64,
    addresses: BTreeMap<u64, Address>,
}

/// None of so many commands was run: the request is too large.
fn too_large(alloc: Global, count: usize) -> Result<Answer, AllocError>
    ensures { IfOk result (λ answer. answer ≡ too_large count) }
{
    let mut replies = Vec::new(alloc);
    for _ in 0..count {
        replies.push(Reply::Failed(Failure::TooLong))?;
    }
    Ok(Answer::Replies(Items::from_vec(replies)))
}

/// Another server leads, or none is known to.
fn not_leader(addresses: &BTreeMap<u64, Address>, leader: Option<u64>) -> Result<Answer, AllocError>
    ensures { IfOk result (λ answer. answer ≡ not_leader addresses.now leader) }
{
    let Some(leader) = leader else {
        return Ok(Answer::NoLeader);
    };
    match addresses.get(&leader) {
        Some(address) => Ok(Answer::Moved {
            host: address.host.copy()?,
            port: address.port,
        }),
        None => Ok(Answer::NoLeader),
    }
}

/// Why a request of so many commands was not taken, as an answer.
fn refused(
    alloc: Global,
    addresses: &BTreeMap<u64, Address>,
    count: usize,
    error: RequestError,
) -> Result<Answer, AllocError>
    ensures { IfOk result (λ answer. answer ≡ refused addresses.now count error) }
{
    match error {
        RequestError::NotLeader { leader } => not_leader(addresses, leader),
        RequestError::Refused(Refusal::TooLarge) => too_large(alloc, count),
        RequestError::Refused(Refusal::Busy) => Ok(Answer::Busy),
        RequestError::Refused(Refusal::OutOfMemory) => Err(AllocError),
    }
}

/// A question, if it has this token.
fn with_token(question: Question, token: Token) -> Option<Question>
    ensures { result ≡ with_token token question }
{
    if question.token == token {
        Some(question)
    } else {
        None
    }
}

impl Intake {
    /// No question waits.
    pub(crate) fn new(
        alloc: Global,
        core: RaftCore<KeyValue>,
        addresses: BTreeMap<u64, Address>,
    ) -> Self
        ensures { Begins core addresses result }
    {
        Intake {
            alloc,
            core,
            waiting: VecDeque::new(alloc),
            reading: VecDeque::new(alloc),
            readers: BTreeSet::new(alloc),
            next: 0,
            time: 0,
            reached: 0,
            told: 0,
            addresses,
        }
    }

    /// How many questions wait.
    pub(crate) fn len(&self) -> usize
        ensures { result ≡ length self.now.waiting.items + length self.now.reading.items }
    {
        self.waiting.len() + self.reading.len()
    }

    /// Whether a query of a client is asked by a round, and has no answer yet.
    pub(crate) fn is_reading(&self, client: u64) -> bool
        ensures { result ≡ is_reading self.now client }
    {
        self.readers.contains(&client)
    }

    /// Whether a query may be asked by a round: it is the only request of its client, and the state machine has reached the time, by
    /// which keys expire.
    fn goes_by_round(&self, is_alone: bool) -> bool
        ensures { result ≡ goes_by_round self.now is_alone }
    {
        is_alone && self.time <= self.reached
    }

    /// Gives the server a request, for which a question waits from then on; or it is refused, and nothing is done.
    fn enter_log(
        &mut self,
        question: Question,
        operation: Operation,
    ) -> Result<Result<(), RequestError>, AllocError>
        ensures taken { IfOk result (λ taken. OnOk taken (EntersLog operation question self.old self.new)) }
        ensures refused { IfOk result (λ taken. OnErr taken (self.new ≡ self.old)) }
    {
        if let Err(error) = self.core.request(question.token, operation) {
            return Ok(Err(error));
        }
        self.waiting.push_back(question)?;
        Ok(Ok(()))
    }

    /// Asks the server for a round, for which a question waits from then on; or it is refused, and nothing is done.
    fn ask_round(&mut self, question: Question) -> Result<Result<(), RequestError>, AllocError>
        ensures taken { IfOk result (λ taken. OnOk taken (AsksRound question self.old self.new)) }
        ensures refused { IfOk result (λ taken. OnErr taken (self.new ≡ self.old)) }
    {
        if let Err(error) = self.core.read(question.token) {
            return Ok(Err(error));
        }
        self.readers.insert(question.client)?;
        self.reading.push_back(question)?;
        Ok(Ok(()))
    }

    /// The server takes a question on its way, or refuses it.
    fn admit(
        &mut self,
        question: Question,
        way: Way,
    ) -> Result<Result<(), RequestError>, AllocError>
        ensures taken { IfOk result (λ taken. OnOk taken (AdmitsBy way question self.old self.new)) }
        ensures refused { IfOk result (λ taken. OnErr taken (self.new ≡ self.old)) }
    {
        match way {
            Way::Entry(operation) => self.enter_log(question, operation),
            Way::Round => self.ask_round(question),
        }
    }

    /// Asks what a client's connection handed out; `is_alone` says that the client has no other request on its way, and sent none
    /// behind it. If the server doesn't take it, that is its answer, and nothing is done.
    pub(crate) fn ask(
        &mut self,
        client: u64,
        asked: Asked,
        is_alone: bool,
    ) -> Result<Option<Answer>, AllocError>
        ensures { IfOk result (λ answer. Asks client asked is_alone self.old self.new answer) }
    {
        let Asked { number, work } = asked;
        let count = count_of(&work);
        let by_round = self.goes_by_round(is_alone);
        let Plan { wanted, way, told } = plan_of(self.alloc, self.time, self.told, by_round, work)?;
        let question = Question {
            token: Token(self.next),
            client,
            number,
            wanted,
        };
        if let Err(error) = self.admit(question, way)? {
            let answer = refused(self.alloc, &self.addresses, count, error)?;
            return Ok(Some(answer));
        }
        self.next = self.next.wrapping_add(1);
        self.told = told;
        Ok(None)
    }

    /// The first question that goes through the log, which is answered next, if it has this token.
    pub(crate) fn take(&mut self, token: Token) -> Option<Question>
        ensures { TakesFirst token self.old self.new result }
    {
        let question = self.waiting.pop_front()?;
        with_token(question, token)
    }

    /// The first query that is asked by a round, which is answered next, if it has this token.
    pub(crate) fn take_read(&mut self, token: Token) -> Option<Question>
        ensures { TakesRead token self.old self.new result }
    {
        let question = self.reading.pop_front()?;
        self.readers.remove(&question.client);
        with_token(question, token)
    }

    /// Another server leads, or none is known to.
    pub(crate) fn not_leader(&self, leader: Option<u64>) -> Result<Answer, AllocError>
        ensures { IfOk result (λ answer. answer ≡ not_leader self.now.addresses leader) }
    {
        not_leader(&self.addresses, leader)
    }
}
