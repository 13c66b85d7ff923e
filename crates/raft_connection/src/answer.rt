//! What comes of requests that were handed out.

ghost use Rattle.std.specs.Prelude.{◌≡◌, ◌++◌, IfOk, OnOk};
ghost use Rattle.std.specs.Fmt.{decimal};
ghost use Rattle.std.specs.List.{flat_map};
ghost use Rattle.raft_resp.specs.Replies.{reply_bytes};
ghost use Rattle.raft_connection.specs.Answers.{UnlessMemory, moved_text, error_bytes, array_bytes, replies_bytes, answer_bytes};

use crate::pending::{Replies, Waiting};
use itoa::Buffer;
use raft_machine::Reply;
use raft_resp::{Protocol, write_array, write_error, write_reply};
use raft_state::Items;
use std::alloc::{AllocError, AllocFailed, Global};
use thiserror::Error;

/// What comes of a request that was handed out.
#[derive(Debug, Drop)]
pub enum Answer {
    /// It was run, or read: what the state machine answers to each of its commands.
    Replies(Items<Reply>),

    /// Another server leads, and this one did nothing: `-MOVED SLOT HOST:PORT`, by which clients of Redis Cluster find it.
    Moved {
        /// The leader's host, or its address.
        host: Items<u8>,
        /// The leader's port for clients.
        port: u16,
    },

    /// No server is known to lead, and this one did nothing: `-CLUSTERDOWN`. Clients of Redis Cluster ask again a little later.
    NoLeader,

    /// Too much waits at this server, which did nothing: `-TRYAGAIN`. Clients of Redis Cluster ask again a little later.
    Busy,

    /// A later request of its session was run, so that this one isn't run any more: `-OUTDATED`.
    Outdated,

    /// Another request of its session, which was answered by another number of replies, had its number: it isn't run.
    Reused,

    /// The leader changed meanwhile: nobody knows yet whether it was, or will be, run. `-UNBLOCKED`, as Redis ends the calls
    /// that wait when its role changes. No client asks again by itself at this error, so nothing is run twice.
    Interrupted,
}

/// Why a connection doesn't take an answer.
#[derive(Clone, Copy, PartialEq, Eq, Debug, Error)]
pub enum AnswerError {
    #[error("out of memory")]
    OutOfMemory,

    /// No request of this number waits: it was answered, or never handed out.
    #[error("no request of this number waits")]
    NotWaiting,

    /// There are more replies than commands, or fewer.
    #[error("another number of replies than of commands")]
    WrongNumberOfReplies,
}

impl From<AllocError> for AnswerError {
    ghost use Rattle.raft_connection.specs.declared.answer.AnswerError.TheVariants.{OutOfMemory};

    ghost from_gives = { λ _ e. e ≡ OutOfMemory };

    fn from(_: AllocError) -> Self {
        AnswerError::OutOfMemory
    }
}

/// Adds a number.
fn push_decimal(text: &mut Vec<u8>, number: u16) -> Result<(), AllocError>
    ensures { OnOk result (text.new.items ≡ text.old.items ++ decimal number) }
{
    let mut buffer = Buffer::new();
    text.extend_from_slice(buffer.format(number).as_bytes())
}

/// What says that another server leads.
fn moved_text(alloc: Global, slot: u16, host: &[u8], port: u16) -> Result<Vec<u8>, AllocError>
    ensures { IfOk result (λ text. text.items ≡ moved_text slot host.now port) }
{
    let mut text = Vec::from_slice(alloc, b"MOVED ")?;
    push_decimal(&mut text, slot)?;
    text.extend_from_slice(b" ")?;
    text.extend_from_slice(host)?;
    text.extend_from_slice(b":")?;
    push_decimal(&mut text, port)?;
    Ok(text)
}

/// An error's bytes.
fn error_bytes(alloc: Global, text: &[u8]) -> Result<Items<u8>, AllocError>
    ensures { IfOk result (λ bytes. bytes ≡ error_bytes text.now) }
{
    let mut out = Vec::new(alloc);
    write_error(&mut out, text)?;
    Ok(Items::from_vec(out))
}

/// Each reply.
fn write_replies(out: &mut Vec<u8>, protocol: Protocol, replies: &[Reply]) -> Result<(), AllocError>
    ensures { OnOk result (out.new.items ≡ out.old.items ++ flat_map (reply_bytes protocol) replies.now) }
{
    for reply in replies {
        write_reply(out, protocol, reply)?;
    }
    Ok(())
}

/// An array of replies.
fn array_bytes(
    alloc: Global,
    protocol: Protocol,
    replies: &[Reply],
) -> Result<Items<u8>, AllocError>
    ensures { IfOk result (λ bytes. bytes ≡ array_bytes protocol replies.now) }
{
    let mut out = Vec::new(alloc);
    write_array(&mut out, replies.len())?;
    write_replies(&mut out, protocol, replies)?;
    Ok(Items::from_vec(out))
}

fn one_bytes(alloc: Global, protocol: Protocol, reply: &Reply) -> Result<Items<u8>, AllocError>
    ensures { IfOk result (λ bytes. bytes ≡ reply_bytes protocol reply.now) }
{
    let mut out = Vec::new(alloc);
    write_reply(&mut out, protocol, reply)?;
    Ok(Items::from_vec(out))
}

/// The replies' bytes, if there are as many as there must be.
fn replies_bytes(
    alloc: Global,
    waiting: Waiting,
    replies: &[Reply],
) -> Result<Items<u8>, AnswerError>
    ensures { UnlessMemory result (replies_bytes waiting.protocol waiting.replies replies.now) }
{
    match waiting.replies {
        Replies::One => match replies {
            [reply] => Ok(one_bytes(alloc, waiting.protocol, reply)?),
            _ => Err(AnswerError::WrongNumberOfReplies),
        },
        Replies::Array(len) => {
            if replies.len() == len {
                Ok(array_bytes(alloc, waiting.protocol, replies)?)
            } else {
                Err(AnswerError::WrongNumberOfReplies)
            }
        }
    }
}

/// An answer's bytes.
pub(crate) fn answer_bytes(
    alloc: Global,
    waiting: Waiting,
    answer: &Answer,
) -> Result<Items<u8>, AnswerError>
    ensures { UnlessMemory result (answer_bytes waiting answer.now) }
{
    match answer {
        Answer::Replies(replies) => replies_bytes(alloc, waiting, replies.as_slice()),
        Answer::Moved { host, port } => {
            let text = moved_text(alloc, waiting.slot, host.as_slice(), *port)?;
            Ok(error_bytes(alloc, &text)?)
        }
        Answer::NoLeader => Ok(error_bytes(alloc, b"CLUSTERDOWN The cluster is down")?),
        Answer::Busy => Ok(error_bytes(alloc, b"TRYAGAIN Too many requests wait")?),
        Answer::Outdated => Ok(error_bytes(
            alloc,
            b"OUTDATED A later request of this session was run",
        )?),
        Answer::Reused => Ok(error_bytes(
            alloc,
            b"ERR Another request of this session had this number",
        )?),
        Answer::Interrupted => Ok(error_bytes(
            alloc,
            b"UNBLOCKED force unblock from blocking operation, instance state changed (master -> replica?)",
        )?),
    }
}
