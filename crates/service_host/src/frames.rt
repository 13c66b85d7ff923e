//! Outputs as bytes.

ghost use Rattle.std.specs.Prelude.{◌≡◌, ◌++◌, OnOk};
ghost use Rattle.service_host.specs.Frames.{code_of, frame_of, framed, frames, head_of, next_frame};
ghost use Rattle.service_host.specs.declared.frames.OutputKind.TheVariants.{Append};

use raft_service::{Output, Role, Status};
use raft_state::{Items, LogId};
use std::alloc::{AllocError, Global};

/// What an output is.
#[derive(Clone, Copy, PartialEq, Eq, Debug)]
pub enum OutputKind {
    /// A frame for a peer, whose id is the number.
    Send,
    /// Bytes for the log's end, which then is at the number. Right behind them those for a new log, if one is on its way: `AppendNext`.
    Append,
    /// Bytes for a client, which is the number.
    ToClient,
    /// A client that is to be closed once all that is for it is sent.
    Close,
    /// How many of a client's bytes were taken.
    Taken,
    /// What the service tells of itself.
    Status,
    /// Why a call was refused: its code, and a text.
    Error,
    /// The service is open: how many bytes of the log are kept.
    Opened,
    /// A new log, for a file of its own: its bytes come in pieces (`LogPiece`), and end at the number.
    NewLog,
    /// More is left to be done while nothing else is.
    More,
    /// Bytes for the new log that is on its way, behind all of its pieces and those before.
    AppendNext,
    /// The new log takes the old one's place; it ends at the number.
    TakenOver,
    /// The next bytes of the new log, which begin there at the number.
    LogPiece,
}

impl OutputKind {
    /// The number of the kind, as callers get it.
    pub fn code(self) -> u32
        ensures { result ≡ code_of self }
    {
        match self {
            OutputKind::Send => 1,
            OutputKind::Append => 2,
            OutputKind::ToClient => 3,
            OutputKind::Close => 4,
            OutputKind::Taken => 5,
            OutputKind::Status => 6,
            OutputKind::Error => 7,
            OutputKind::Opened => 8,
            OutputKind::NewLog => 9,
            OutputKind::More => 10,
            OutputKind::AppendNext => 11,
            OutputKind::TakenOver => 12,
            OutputKind::LogPiece => 13,
        }
    }
}

/// Appends what stands before an output's body of so many bytes.
pub(crate) fn write_head(
    out: &mut Vec<u8>,
    kind: OutputKind,
    number: u64,
    count: u32,
) -> Result<(), AllocError>
    ensures { OnOk result (out.new.items ≡ out.old.items ++ head_of kind number count) }
{
    out.extend_from_slice(&kind.code().to_le_bytes())?;
    out.extend_from_slice(&count.to_le_bytes())?;
    out.extend_from_slice(&number.to_le_bytes())
}

/// Appends an output. One of 4 GiB or more counts as out of memory.
pub(crate) fn write_output(
    out: &mut Vec<u8>,
    kind: OutputKind,
    number: u64,
    body: &[u8],
) -> Result<(), AllocError>
    ensures { OnOk result (out.new.items ≡ out.old.items ++ framed kind number body.now) }
{
    let len = body.len();
    if len > 0xffff_ffff {
        return Err(AllocError);
    }
    write_head(out, kind, number, len as u32)?;
    out.extend_from_slice(body)?;
    Ok(())
}

/// Appends bytes for the end of a new log, if one is on its way.
fn write_next(out: &mut Vec<u8>, next: &Option<Items<u8>>) -> Result<(), AllocError>
    ensures { OnOk result (out.new.items ≡ out.old.items ++ next_frame next.now) }
{
    match next {
        Some(next) => write_output(out, OutputKind::AppendNext, 0, next.as_slice()),
        None => Ok(()),
    }
}

/// Appends bytes for the log's end, and behind them those for a new log.
fn write_append(
    out: &mut Vec<u8>,
    bytes: &Items<u8>,
    end: u64,
    next: &Option<Items<u8>>,
) -> Result<(), AllocError>
    ensures { OnOk result (out.new.items ≡ out.old.items ++ (framed Append end bytes.now ++ next_frame next.now)) }
{
    write_output(out, OutputKind::Append, end, bytes.as_slice())?;
    write_next(out, next)?;
    Ok(())
}

/// Appends what a service puts out.
fn write_one(out: &mut Vec<u8>, output: &Output) -> Result<(), AllocError>
    ensures { OnOk result (out.new.items ≡ out.old.items ++ frame_of output.now) }
{
    match output {
        Output::Send { to, bytes } => write_output(out, OutputKind::Send, *to, bytes.as_slice()),
        Output::Append { bytes, end, next } => write_append(out, bytes, *end, next),
        Output::ToClient { client, bytes } => {
            write_output(out, OutputKind::ToClient, *client, bytes.as_slice())
        }
        Output::Close { client } => write_output(out, OutputKind::Close, *client, &[]),
    }
}

/// Appends all that a service puts out.
pub(crate) fn write_all(out: &mut Vec<u8>, outputs: &[Output]) -> Result<(), AllocError>
    ensures { OnOk result (out.new.items ≡ out.old.items ++ frames outputs.now) }
{
    for output in outputs {
        write_one(out, output)?;
    }
    Ok(())
}

fn push_number(body: &mut Vec<u8>, number: u64) -> Result<(), AllocError> {
    body.extend_from_slice(&number.to_le_bytes())
}

/// 0, or 1 and the number.
fn push_optional(body: &mut Vec<u8>, number: Option<u64>) -> Result<(), AllocError> {
    match number {
        Some(number) => {
            push_number(body, 1)?;
            push_number(body, number)
        }
        None => {
            push_number(body, 0)?;
            push_number(body, 0)
        }
    }
}

fn push_numbers(body: &mut Vec<u8>, numbers: &[u64]) -> Result<(), AllocError> {
    push_number(body, numbers.len() as u64)?;
    for number in numbers {
        push_number(body, *number)?;
    }
    Ok(())
}

fn code_of(role: Role) -> u64 {
    match role {
        Role::Learner => 0,
        Role::Follower => 1,
        Role::Leader => 3,
    }
}

/// The leader and the term of the last entry that was executed, then three indexes: of the log's last entry, which is not told; of
/// the last that is known to be committed, which is the same; and its own.
fn push_led(body: &mut Vec<u8>, applied: &Option<LogId<u64>>) -> Result<(), AllocError> {
    match applied {
        Some(id) => {
            push_optional(body, Some(id.leader_id.node_id))?;
            push_number(body, id.leader_id.term)?;
            push_optional(body, None)?;
            push_optional(body, Some(id.index))?;
            push_optional(body, Some(id.index))
        }
        None => {
            push_optional(body, None)?;
            push_number(body, 0)?;
            push_optional(body, None)?;
            push_optional(body, None)?;
            push_optional(body, None)
        }
    }
}

/// Appends what a service tells of itself: id, role, what the last entry tells, voters, learners, clients, requests. Of what may not
/// be there a number tells whether it is.
pub(crate) fn write_status(
    alloc: Global,
    out: &mut Vec<u8>,
    status: &Status,
) -> Result<(), AllocError> {
    let mut body = Vec::new(alloc);
    push_number(&mut body, status.id)?;
    push_number(&mut body, code_of(status.role))?;
    push_led(&mut body, &status.applied)?;
    push_numbers(&mut body, &status.voters)?;
    push_numbers(&mut body, &status.learners)?;
    push_number(&mut body, status.clients as u64)?;
    push_number(&mut body, status.requests as u64)?;
    write_output(out, OutputKind::Status, 0, &body)
}
