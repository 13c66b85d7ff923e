//! Whether what clients were told is true, as far as they can tell: by what they asked for, and what servers executed.

use crate::entries::Entries;
use raft_answers::{Answer, Operation, Reply, Token};
use raft_cluster::{Answered, Asked, Told, acknowledged};
use raft_node::record::Executed;
use raft_store::{Entry, Payload, Value};
use std::alloc::{AllocError, Global};
use std::collections::BTreeMap;
use std::fmt;

/// What is wrong in what clients were told, or nothing.
#[derive(Clone, Copy, PartialEq, Eq, Debug)]
pub enum Verdict {
    /// It is true.
    True,
    /// A write was acknowledged, and its server had executed no entry with its bytes at its index.
    Lost(Token),
    /// An answer to nobody, or a second answer to one.
    Unasked(Token),
    /// A write has failed, and an entry with its bytes was executed.
    Executed(Token),
    /// A read was answered at a lower index than a write that was acknowledged before it came.
    Missed(Token),
}

impl fmt::Display for Verdict {
    fn fmt<W: fmt::Write>(&self, f: &mut fmt::Formatter<W>) -> fmt::Result {
        match self {
            Verdict::True => f.write_str("agree"),
            Verdict::Lost(Token(token)) => write!(f, "lost: {token}"),
            Verdict::Unasked(Token(token)) => write!(f, "not asked for: {token}"),
            Verdict::Executed(Token(token)) => write!(f, "failed, and executed: {token}"),
            Verdict::Missed(Token(token)) => write!(f, "misses a write: {token}"),
        }
    }
}

/// What became of a request, by its token.
#[derive(Clone, Copy, Debug)]
struct Fate {
    /// Which of all requests it was.
    place: usize,
    /// Whether others had the same token: then nothing is known of whose an answer is.
    is_shared: bool,
    is_answered: bool,
}

/// Compares what clients were told with what they asked for, and with what was executed.
#[derive(Drop)]
struct Comparison<'a> {
    told: &'a Told<Entries>,
    fates: BTreeMap<u64, Fate>,
    /// Behind so many answers, the greatest index of a write that was acknowledged by then.
    reached: Vec<Option<u64>>,
}

/// Whether an entry has these bytes.
fn has_bytes(entry: &Entry, bytes: &[u8]) -> bool {
    match &entry.payload {
        Payload::Value(Value::Bytes(value)) => value.as_slice() == bytes,
        _ => false,
    }
}

/// What was asked for, by its token.
fn fates_of(alloc: Global, told: &Told<Entries>) -> Result<BTreeMap<u64, Fate>, AllocError> {
    let mut fates = BTreeMap::new(alloc);
    for (place, asked) in told.asked.iter().enumerate() {
        let Token(token) = asked.token;
        let is_shared = fates.contains_key(&token);
        fates.insert(
            token,
            Fate {
                place,
                is_shared,
                is_answered: false,
            },
        )?;
    }
    Ok(fates)
}

impl<'a> Comparison<'a> {
    fn new(alloc: Global, told: &'a Told<Entries>) -> Result<Self, AllocError> {
        Ok(Comparison {
            told,
            fates: fates_of(alloc, told)?,
            reached: Vec::new(alloc),
        })
    }

    /// The entry that its server executed last before an answer.
    fn executed(&self, answered: &Answered) -> Option<&'a Entry> {
        let before = self.told.executed.get(..answered.after)?;
        let executed = before.iter().rev().find(|one| one.node == answered.node)?;
        Some(&executed.entry)
    }

    /// Whether the entry that an answer acknowledges was executed by then, with the request's bytes.
    fn is_kept(&self, answered: &Answered, asked: &Asked, index: u64) -> bool {
        let Some(entry) = self.executed(answered) else {
            return false;
        };
        entry.log_id.index == index
            && match &asked.operation {
                Operation::Write(bytes) => has_bytes(entry, bytes.as_slice()),
                Operation::Read => true,
            }
    }

    /// Whether a read sees all writes that were acknowledged before it came.
    fn sees(&self, asked: &Asked, index: u64) -> bool {
        match asked.after.checked_sub(1) {
            Some(last) => match self.reached.get(last) {
                Some(reached) => *reached <= Some(index),
                None => true,
            },
            None => true,
        }
    }

    /// An acknowledgement is true.
    fn judge_ok(&self, answered: &Answered, asked: &Asked, index: u64) -> Verdict {
        if !self.is_kept(answered, asked, index) {
            return Verdict::Lost(asked.token);
        }
        if asked.operation == Operation::Read && !self.sees(asked, index) {
            return Verdict::Missed(asked.token);
        }
        Verdict::True
    }

    /// An answer is one of a request without one.
    fn take(&mut self, token: Token) -> Option<Fate> {
        let fate = self.fates.get_mut(&token.0)?;
        let before = *fate;
        fate.is_answered = true;
        if before.is_answered && !before.is_shared {
            return None;
        }
        Some(before)
    }

    /// The next answer.
    fn judge(&mut self, answered: &Answered) -> Result<Verdict, AllocError> {
        let Reply { token, answer } = answered.reply;
        let Some(fate) = self.take(token) else {
            return Ok(Verdict::Unasked(token));
        };
        let Some(asked) = self.told.asked.get(fate.place) else {
            return Ok(Verdict::Unasked(token));
        };
        let mut reached = match self.reached.last() {
            Some(reached) => *reached,
            None => None,
        };
        let mut verdict = Verdict::True;
        if let Some(index) = acknowledged(&answer) {
            if !fate.is_shared {
                verdict = self.judge_ok(answered, asked, index);
            }
            if asked.operation != Operation::Read {
                reached = reached.max(Some(index));
            }
        }
        self.reached.push(reached)?;
        Ok(verdict)
    }
}

/// Whether a request has failed: it is never to be executed.
fn has_failed(answer: &Answer) -> bool {
    match answer {
        Answer::Failed | Answer::NotLeader { .. } => true,
        _ => false,
    }
}

/// The bytes of writes that have failed, with their tokens.
fn failed_bytes<'a>(
    alloc: Global,
    told: &'a Told<Entries>,
    fates: &BTreeMap<u64, Fate>,
) -> Result<BTreeMap<&'a [u8], Token>, AllocError> {
    let mut failed = BTreeMap::new(alloc);
    for answered in &told.answered {
        if has_failed(&answered.reply.answer)
            && let Some(fate) = fates.get(&answered.reply.token.0)
            && let Some(asked) = told.asked.get(fate.place)
            && let Operation::Write(bytes) = &asked.operation
        {
            failed.insert(bytes.as_slice(), asked.token)?;
        }
    }
    for answered in &told.answered {
        if !has_failed(&answered.reply.answer)
            && let Some(fate) = fates.get(&answered.reply.token.0)
            && let Some(asked) = told.asked.get(fate.place)
            && let Operation::Write(bytes) = &asked.operation
        {
            failed.remove(bytes.as_slice());
        }
    }
    Ok(failed)
}

/// The token of a write that has failed, and was executed.
fn failed_in_vain(executed: &[Executed], failed: &BTreeMap<&[u8], Token>) -> Option<Token> {
    for one in executed {
        if let Payload::Value(Value::Bytes(bytes)) = &one.entry.payload
            && let Some(token) = failed.get(bytes.as_slice())
        {
            return Some(*token);
        }
    }
    None
}

/// What is wrong in what clients were told, or nothing.
pub fn verdict_of(alloc: Global, told: &Told<Entries>) -> Result<Verdict, AllocError> {
    let mut comparison = Comparison::new(alloc, told)?;
    for answered in &told.answered {
        let verdict = comparison.judge(answered)?;
        if verdict != Verdict::True {
            return Ok(verdict);
        }
    }
    let failed = failed_bytes(alloc, told, &comparison.fates)?;
    Ok(match failed_in_vain(&told.executed, &failed) {
        Some(token) => Verdict::Executed(token),
        None => Verdict::True,
    })
}
