//! Answers.

ghost use Rattle.std.specs.Prelude.{◌≡◌, ◌++◌, ◌∷◌, [], OnOk};
ghost use Rattle.raft_answers.specs.Answers.{answer_at};

use crate::request::{Proposal, Token};
use raft_state::LogId;
use std::alloc::AllocError;

/// The answer to a client's request.
#[derive(Clone, Copy, PartialEq, Eq, Debug)]
pub enum Answer {
    /// The entry at this index was executed: a write's own, or the one that a read waits for.
    Ok { index: u64 },
    /// It wasn't done, and never will be: it was not proposed, or another entry was executed at its index.
    Failed,
    /// It wasn't done: another server leads, or none is known to.
    NotLeader { leader: Option<u64> },
    /// It may be done, or not: the lead ended, or the answer took too long.
    Unknown,
}

/// An answer, with the token of its request.
#[derive(Clone, Copy, PartialEq, Eq, Debug)]
pub struct Reply {
    pub token: Token,
    pub answer: Answer,
}

/// The answer to a request that was proposed, once the entry with this id is executed, which stands at its index or above.
pub fn answer_at(id: &LogId<u64>, proposal: &Proposal) -> Answer
    ensures { result ≡ answer_at id.now proposal.now }
{
    if proposal.log_id == *id {
        Answer::Ok { index: id.index }
    } else if proposal.log_id.index == id.index {
        Answer::Failed
    } else {
        Answer::Unknown
    }
}

/// Pushes a reply.
pub(crate) fn push_reply(
    token: Token,
    answer: Answer,
    replies: &mut Vec<Reply>,
) -> Result<(), AllocError>
    ensures { OnOk result (replies.new.items ≡ replies.old.items ++ record { token = token; answer = answer } ∷ []) }
{
    Ok(replies.push(Reply { token, answer })?)
}
