//! Reads that need no entry in the log, and the rounds by which they are answered (Raft paper, section 8; Ongaro's thesis, section
//! 6.4: the read index). Reads that come while a round is under way wait for no answer to it: the next round begins beside it.

ghost use Rattle.std.specs.Prelude.{◌≡◌, ◌++◌, ◌∷◌, [], true, IfOk, OnErr, OnOk, drop, length, map, take};
ghost use Rattle.std.specs.List.{list_all, prefix_len};
ghost use Rattle.std.specs.Ordering.{nat_cmp};
ghost use Rattle.raft_state.specs.Sorted.{has_id};
ghost use Rattle.raft_reads.specs.Reads.{answer_left, answered_in, asked_for, came_before, count_over, failed_left, failed_replies};
ghost use Rattle.raft_reads.specs.Reads.{heard_in, is_free, is_late, is_news, is_over, no_reads, not_over, reaches, read_left};
ghost use Rattle.raft_reads.specs.Reads.{read_replies, round_of, told, with_heard, with_left, with_round, without_first};

use raft_answers::{Answer, Refusal, Reply, Token};
use raft_calls::lead::Answer as NodeAnswer;
use raft_calls::message::{Body, Message};
use raft_command::AppendEntriesResponse;
use raft_progress::{Joint, QuorumSet};
use raft_state::{LeaderId, LogId};
use std::alloc::{AllocError, Global};
use std::collections::VecDeque;
use std::marker::Model;

/// So many rounds may be under way at once.
const MOST_ROUNDS: usize = 16;

/// A read without an answer.
#[derive(Clone, Copy, PartialEq, Eq, Debug)]
pub struct Reader {
    pub token: Token,
    /// When it came, in milliseconds.
    pub since: u64,
}

/// What the node answers to reads, and the voter groups that are effective then.
#[derive(Drop)]
pub struct Question {
    pub answer: NodeAnswer,
    pub groups: Joint<u64>,
}

/// One step asked for reads.
#[derive(Drop)]
pub struct Round {
    answer: NodeAnswer,
    /// The moment of the step, in milliseconds.
    moment: u64,
    groups: Joint<u64>,
    /// Of how many of the first reads it is.
    asked: usize,
    /// Whether the answer has left: what stood before the step is on disk.
    left: bool,
    /// Who was heard since, this server included.
    heard: Vec<u64>,
}

impl Model for Round {
    ghost use Rattle.raft_reads.specs.Reads.{RoundView};

    ghost Value = { RoundView };

    ghost view = { λ s. record { answer = s.answer; moment = s.moment; groups = s.groups; asked = s.asked; left = s.left; heard = s.heard.items } };
}

/// The reads without an answer, in the order in which they came, and the rounds under way, in that in which they began.
#[derive(Drop)]
pub struct Reads {
    alloc: Global,
    rounds: Vec<Round>,
    readers: VecDeque<Reader>,
}

impl Model for Reads {
    ghost use Rattle.raft_reads.specs.Reads.{ReadsView};

    ghost Value = { ReadsView };

    ghost view = { λ s. record { rounds = s.rounds.items; readers = s.readers.items } };
}

/// Whether a node is among these.
fn is_among(ids: &[u64], id: u64) -> bool
    ensures { result ≡ has_id nat_cmp ids.now id }
{
    ids.iter().any(|x| id.cmp(x).is_eq())
}

/// Whether all up to a log id is executed, if that is so up to this index.
fn reaches(log_id: Option<LogId<u64>>, index: u64) -> bool
    ensures { result ≡ reaches log_id index }
{
    match log_id {
        Some(id) => id.index <= index,
        None => true,
    }
}

impl Round {
    /// A round of so many reads, for which a step of this moment, in milliseconds, asked.
    fn new(alloc: Global, question: Question, moment: u64, asked: usize) -> Result<Self, AllocError>
        ensures { IfOk result (λ round. round ≡ round_of question.answer moment question.groups asked) }
    {
        let Question { answer, groups } = question;
        let mut heard = Vec::new(alloc);
        heard.push(answer.node)?;
        Ok(Round {
            answer,
            moment,
            groups,
            asked,
            left: false,
            heard,
        })
    }

    /// Whether this is a reply, which tells no higher vote, to a request that the leader sent after the round's moment.
    fn is_late(&self, body: &Body) -> bool
        ensures { result ≡ is_late body.now self.now }
    {
        match body {
            Body::AppendReply { origin, reply, .. } => match reply {
                AppendEntriesResponse::HigherVote(_) => false,
                _ => {
                    origin.session_id.vote.leader_id == self.answer.leader_id
                        && self.moment < origin.sent_at
                }
            },
            _ => false,
        }
    }

    /// Whether the sender of a message is heard by it, who wasn't.
    fn is_news(&self, message: &Message) -> bool
        ensures { result ≡ is_news message.now self.now }
    {
        self.is_late(&message.body) && !is_among(&self.heard, message.from)
    }

    /// The sender of a message is heard, if it is such a reply.
    fn hear(&mut self, message: &Message) -> Result<(), AllocError>
        ensures { OnOk result (self.new ≡ heard_in message.now self.old) }
    {
        if self.is_news(message) {
            self.heard.push(message.from)?;
        }
        Ok(())
    }

    /// The answer has left.
    fn leave(&mut self)
        ensures { self.new ≡ answer_left self.old }
    {
        self.left = true;
    }

    /// So many of the first reads have an answer.
    fn forget(&mut self, count: usize)
        ensures { self.new ≡ answered_in count self.old }
    {
        self.asked = self.asked.saturating_sub(count);
    }

    /// Whether its reads are to be answered, if all up to this index is executed.
    fn is_over(&self, index: u64) -> bool
        ensures { result ≡ is_over index self.now }
    {
        self.left && reaches(self.answer.log_id, index) && self.groups.is_quorum(&self.heard)
    }
}

/// The answers of rounds leave.
fn leave_all(rounds: &mut [Round])
    ensures { rounds.new ≡ map answer_left rounds.old }
{
    for round in rounds.iter_mut() {
        round.leave();
    }
}

/// The sender of a message is heard by rounds.
fn hear_all(rounds: &mut [Round], message: &Message) -> Result<(), AllocError>
    ensures { OnOk result (rounds.new ≡ map (heard_in message.now) rounds.old) }
{
    for round in rounds.iter_mut() {
        round.hear(message)?;
    }
    Ok(())
}

/// So many of the first reads have an answer.
fn forget_all(rounds: &mut [Round], count: usize)
    ensures { rounds.new ≡ map (answered_in count) rounds.old }
{
    for round in rounds.iter_mut() {
        round.forget(count);
    }
}

/// Of how many of the first reads rounds are: the last one's.
fn asked_for(rounds: &[Round]) -> usize
    ensures { result ≡ asked_for rounds.now }
{
    match rounds {
        [.., round] => round.asked,
        [] => 0,
    }
}

/// Whether the answers of all rounds have left.
fn have_left(rounds: &[Round]) -> bool
    ensures { result ≡ list_all (λ o. o.left) rounds.now }
{
    rounds.iter().all(|round| round.left)
}

/// The most reads of a round that is over, if all up to this index is executed.
fn count_over(rounds: &[Round], index: u64) -> usize
    ensures { result ≡ count_over index rounds.now }
{
    let mut most = 0;
    for round in rounds {
        if round.is_over(index) && most < round.asked {
            most = round.asked;
        }
    }
    most
}

/// The rounds end that are over, if all up to this index is executed.
fn end_over(rounds: &mut Vec<Round>, index: u64)
    ensures { rounds.new.items ≡ not_over index rounds.old.items }
{
    rounds.retain(|round| !round.is_over(index));
}

/// Whether a read came before a moment, in milliseconds.
fn came_before(reader: &Reader, moment: u64) -> bool
    ensures { result ≡ came_before moment reader.now }
{
    reader.since < moment
}

/// How many of the first reads came before a moment.
fn count_before(readers: &VecDeque<Reader>, moment: u64) -> usize
    ensures { result ≡ prefix_len (came_before moment) readers.now.items }
{
    let mut count = 0;
    'reads: while let Some(reader) = readers.get(count) {
        if !came_before(reader, moment) {
            break;
        }
        count += 1;
    }
    count
}

/// Answers so many of the first reads, or all of fewer.
fn answer_first(
    readers: &mut VecDeque<Reader>,
    count: usize,
    answer: Answer,
    replies: &mut Vec<Reply>,
) -> Result<(), AllocError>
    ensures left { OnOk result (readers.new.items ≡ drop count readers.old.items) }
    ensures replies { OnOk result (replies.new.items ≡ replies.old.items ++ told answer (take count readers.old.items)) }
{
    let mut left = count;
    'reads: while left > 0 {
        let Some(reader) = readers.pop_front() else {
            break;
        };
        left -= 1;
        replies.push(Reply {
            token: reader.token,
            answer,
        })?;
    }
    Ok(())
}

/// A read waits behind the others.
fn push_reader(readers: &mut VecDeque<Reader>, reader: Reader) -> Result<(), AllocError>
    ensures ok { OnOk result (readers.new.items ≡ readers.old.items ++ reader ∷ []) }
    ensures err { OnErr result (readers.new.items ≡ readers.old.items) }
{
    Ok(readers.push_back(reader)?)
}

impl Reads {
    /// No reads.
    pub fn new(alloc: Global) -> Self
        ensures { result ≡ no_reads }
    {
        Reads {
            alloc,
            rounds: Vec::new(alloc),
            readers: VecDeque::new(alloc),
        }
    }

    /// Takes a read: it waits for the next round.
    ///
    /// Refusals, which change nothing:
    /// - `Busy` if as many reads as the limit have no answer,
    /// - `OutOfMemory`.
    pub fn admit(&mut self, limit: usize, reader: Reader) -> Result<(), Refusal>
        ensures ok { OnOk result (self.new ≡ record self.old { readers = self.old.readers ++ reader ∷ [] }) }
        ensures err { OnErr result (self.new ≡ self.old) }
    {
        if self.readers.len() >= limit {
            return Err(Refusal::Busy);
        }
        Ok(push_reader(&mut self.readers, reader)?)
    }

    /// Whether a round may begin: the answer of each before it has left, a read waits for it, and fewer than 16 are under way.
    pub fn is_free(&self) -> bool
        ensures { result ≡ is_free self.now }
    {
        let asked = asked_for(&self.rounds);
        have_left(&self.rounds)
            && asked < self.readers.len()
            && (asked == 0 || self.rounds.len() < MOST_ROUNDS)
    }

    /// Whether there are no reads.
    pub fn is_empty(&self) -> bool {
        self.readers.is_empty()
    }

    /// The last round for which reads wait.
    fn last(&self) -> Option<&Round> {
        match self.rounds.last() {
            Some(round) if round.asked > 0 => Some(round),
            _ => None,
        }
    }

    /// The moment of the last round for which reads wait, in milliseconds.
    pub fn asked_at(&self) -> Option<u64> {
        Some(self.last()?.moment)
    }

    /// The leader id of the last round for which reads wait.
    pub fn under(&self) -> Option<LeaderId<u64>> {
        Some(self.last()?.answer.leader_id)
    }

    /// A step of this moment, in milliseconds, asked for all reads: a round begins.
    pub fn begin(&mut self, question: Question, moment: u64) -> Result<(), AllocError>
        ensures { OnOk result (self.new ≡ with_round question.answer moment question.groups self.old) }
    {
        let round = Round::new(self.alloc, question, moment, self.readers.len())?;
        if asked_for(&self.rounds) == 0 {
            self.rounds.clear();
        }
        Ok(self.rounds.push(round)?)
    }

    /// These answers of the node leave, if there are some: that of the last round is among them.
    pub fn note_left(&mut self, answers: &[NodeAnswer])
        ensures { self.new ≡ with_left answers.now self.old }
    {
        if !answers.is_empty() {
            leave_all(&mut self.rounds);
        }
    }

    /// A message was taken: its sender is heard by each round, if it replies to a request that was sent after the round's moment.
    pub fn hear(&mut self, message: &Message) -> Result<(), AllocError>
        ensures { OnOk result (self.new ≡ with_heard message.now self.old) }
    {
        hear_all(&mut self.rounds, message)
    }

    /// So many of the first reads get this answer, or all of fewer.
    fn answer_so_many(
        &mut self,
        count: usize,
        answer: Answer,
        replies: &mut Vec<Reply>,
    ) -> Result<(), AllocError>
        ensures left { OnOk result (self.new ≡ without_first count self.old) }
        ensures replies { OnOk result (replies.new.items ≡ replies.old.items ++ told answer (take count self.old.readers)) }
    {
        forget_all(&mut self.rounds, count);
        answer_first(&mut self.readers, count, answer, replies)
    }

    /// The reads of each round that is over are answered with `executed`: the index of the last entry that was handed out.
    pub fn answer(
        &mut self,
        executed: Option<u64>,
        replies: &mut Vec<Reply>,
    ) -> Result<(), AllocError>
        ensures left { OnOk result (self.new ≡ read_left executed self.old) }
        ensures replies { OnOk result (replies.new.items ≡ replies.old.items ++ read_replies executed self.old) }
    {
        let Some(index) = executed else {
            return Ok(());
        };
        let count = count_over(&self.rounds, index);
        end_over(&mut self.rounds, index);
        self.answer_so_many(count, Answer::Ok { index }, replies)
    }

    /// All reads get this answer.
    pub fn refuse(&mut self, answer: Answer, replies: &mut Vec<Reply>) -> Result<(), AllocError>
        ensures left { OnOk result (self.new ≡ without_first (length self.old.readers) self.old) }
        ensures replies { OnOk result (replies.new.items ≡ replies.old.items ++ told answer self.old.readers) }
    {
        let count = self.readers.len();
        self.answer_so_many(count, answer, replies)
    }

    /// The first of those that came before this moment, in milliseconds, have failed.
    pub fn expire(&mut self, upto: u64, replies: &mut Vec<Reply>) -> Result<(), AllocError>
        ensures left { OnOk result (self.new ≡ failed_left upto self.old) }
        ensures replies { OnOk result (replies.new.items ≡ replies.old.items ++ failed_replies upto self.old) }
    {
        let count = count_before(&self.readers, upto);
        self.answer_so_many(count, Answer::Failed, replies)
    }
}
