//! Frames between servers: packets; and beside them the messages by which a server asks whether it would be elected, and those that say
//! where the parts of a snapshot are to go on.

ghost use Rattle.std.specs.Prelude.{◌≡◌, ◌++◌, ◌∷◌, [], IfOk, OnOk, map};
ghost use Rattle.std.specs.Option.{option_map, option_to_list};
ghost use Rattle.raft_packed_server.specs.raft_packed_wire.Messages.{packed_packet};
ghost use Rattle.raft_packed_server.specs.raft_packed_wire.Values.{kept};
ghost use Rattle.raft_peers.specs.Frames.{IsFrame, answered, ask_bytes, asked, grant_bytes, granted, part_reply_bytes};

use crate::output::{Output, push};
use raft_calls::message::{Body, Origin};
use raft_chunks::Cursor;
use raft_codec::write_raw;
use raft_command::AppendEntriesResponse;
use raft_packed_server::raft_packed::{Machine, Packed};
use raft_packed_server::raft_packed_wire::PackedPacket;
use raft_state::{Items, LogId};
use raft_wire::{DecodeError, Fault, Reader, Wire};
use std::alloc::{AllocError, Global};

/// A server asks whether it would be elected in a term. It changes nothing at whom it asks (Raft dissertation, section 9.6).
#[derive(Clone, Copy)]
pub struct PreVote {
    pub from: u64,
    pub to: u64,
    pub term: u64,
    /// The last log id of who asks.
    pub last_log_id: Option<LogId<u64>>,
}

/// The answer, with the term that was asked for.
#[derive(Clone, Copy)]
pub struct PreVoteReply {
    pub from: u64,
    pub to: u64,
    pub term: u64,
    pub granted: bool,
}

/// The answer to a part of a snapshot: where it goes on.
#[derive(Clone, Copy)]
pub struct PartReply {
    pub from: u64,
    pub to: u64,
    pub cursor: Cursor,
}

/// What one server sends another.
#[derive(Drop)]
pub enum Frame<M: Machine> {
    Packet(PackedPacket<Packed<M>>),
    PreVote(PreVote),
    PreVoteReply(PreVoteReply),
    PartReply(PartReply),
}

fn read_pre_vote(reader: &mut Reader<'_>) -> Result<PreVote, DecodeError> {
    let from = reader.number()?;
    let to = reader.number()?;
    let term = reader.number()?;
    let last_log_id = Option::read(reader)?;
    reader.end()?;
    Ok(PreVote {
        from,
        to,
        term,
        last_log_id,
    })
}

fn read_pre_vote_reply(reader: &mut Reader<'_>) -> Result<PreVoteReply, DecodeError> {
    let from = reader.number()?;
    let to = reader.number()?;
    let term = reader.number()?;
    let granted = bool::read(reader)?;
    reader.end()?;
    Ok(PreVoteReply {
        from,
        to,
        term,
        granted,
    })
}

fn read_part_reply(alloc: Global, bytes: &[u8]) -> Result<PartReply, DecodeError> {
    let mut reader = Reader::new(alloc, bytes);
    let from = reader.number()?;
    let to = reader.number()?;
    let cursor = Cursor::decode(alloc, reader.raw()?)?;
    reader.end()?;
    Ok(PartReply { from, to, cursor })
}

/// The frame that these bytes are.
pub fn read_frame<M: Machine>(alloc: Global, bytes: &[u8]) -> Result<Frame<M>, DecodeError>
    ensures { IfOk result (λ frame. IsFrame M.codec bytes.now frame) }
{
    match bytes {
        [0, rest @ ..] => Ok(Frame::Packet(PackedPacket::decode(alloc, rest)?)),
        [1, rest @ ..] => Ok(Frame::PreVote(read_pre_vote(&mut Reader::new(alloc, rest))?)),
        [2, rest @ ..] => Ok(Frame::PreVoteReply(read_pre_vote_reply(&mut Reader::new(
            alloc, rest,
        ))?)),
        [3, rest @ ..] => Ok(Frame::PartReply(read_part_reply(alloc, rest)?)),
        _ => Err(DecodeError::Malformed {
            fault: Fault::UnknownTag,
            left: bytes.len(),
        }),
    }
}

/// The bytes of a packet.
pub fn packet_bytes<M: Machine>(
    alloc: Global,
    packet: &PackedPacket<Packed<M>>,
) -> Result<Items<u8>, AllocError>
    ensures bytes { IfOk result (λ bytes. bytes ≡ 0 ∷ (packed_packet (kept M.codec)).bytes packet.now) }
    ensures fits { OnOk result ((packed_packet (kept M.codec)).fits packet.now) }
{
    let mut bytes = Vec::new(alloc);
    bytes.push(0)?;
    packet.write(&mut bytes)?;
    Ok(Items::from_vec(bytes))
}

/// The bytes of a question.
fn pre_vote_bytes(alloc: Global, ask: &PreVote) -> Result<Items<u8>, AllocError>
    ensures { IfOk result (λ bytes. bytes ≡ ask_bytes ask.now) }
{
    let mut bytes = Vec::new(alloc);
    bytes.push(1)?;
    ask.from.write(&mut bytes)?;
    ask.to.write(&mut bytes)?;
    ask.term.write(&mut bytes)?;
    ask.last_log_id.write(&mut bytes)?;
    Ok(Items::from_vec(bytes))
}

/// The bytes of an answer.
fn pre_vote_reply_bytes(alloc: Global, reply: &PreVoteReply) -> Result<Items<u8>, AllocError>
    ensures { IfOk result (λ bytes. bytes ≡ grant_bytes reply.now) }
{
    let mut bytes = Vec::new(alloc);
    bytes.push(2)?;
    reply.from.write(&mut bytes)?;
    reply.to.write(&mut bytes)?;
    reply.term.write(&mut bytes)?;
    reply.granted.write(&mut bytes)?;
    Ok(Items::from_vec(bytes))
}

/// A question leaves.
fn ask<M: Machine>(
    alloc: Global,
    one: &PreVote,
    outputs: &mut Vec<Output<M>>,
) -> Result<(), AllocError>
    ensures { OnOk result (outputs.new.items ≡ outputs.old.items ++ asked one.now ∷ []) }
{
    let bytes = pre_vote_bytes(alloc, one)?;
    push(Output::Send { to: one.to, bytes }, outputs)
}

/// Questions leave.
pub fn ask_all<M: Machine>(
    alloc: Global,
    asks: Vec<PreVote>,
    outputs: &mut Vec<Output<M>>,
) -> Result<(), AllocError>
    ensures { OnOk result (outputs.new.items ≡ outputs.old.items ++ map asked asks.items) }
{
    for one in asks {
        ask(alloc, &one, outputs)?;
    }
    Ok(())
}

/// An answer leaves.
fn grant<M: Machine>(
    alloc: Global,
    reply: &PreVoteReply,
    outputs: &mut Vec<Output<M>>,
) -> Result<(), AllocError>
    ensures { OnOk result (outputs.new.items ≡ outputs.old.items ++ granted reply.now ∷ []) }
{
    let bytes = pre_vote_reply_bytes(alloc, reply)?;
    push(
        Output::Send {
            to: reply.to,
            bytes,
        },
        outputs,
    )
}

/// An answer leaves, if there is one.
pub fn grant_all<M: Machine>(
    alloc: Global,
    reply: Option<PreVoteReply>,
    outputs: &mut Vec<Output<M>>,
) -> Result<(), AllocError>
    ensures { OnOk result (outputs.new.items ≡ outputs.old.items ++ option_to_list (option_map granted reply)) }
{
    match reply {
        Some(reply) => grant(alloc, &reply, outputs),
        None => Ok(()),
    }
}

/// The bytes of an answer to a part.
fn part_reply_bytes(alloc: Global, reply: &PartReply) -> Result<Items<u8>, AllocError>
    ensures { IfOk result (λ bytes. bytes ≡ part_reply_bytes reply.now) }
{
    let mut cursor = Vec::new(alloc);
    reply.cursor.encode(&mut cursor)?;
    let mut bytes = Vec::new(alloc);
    bytes.push(3)?;
    reply.from.write(&mut bytes)?;
    reply.to.write(&mut bytes)?;
    write_raw(&mut bytes, &cursor)?;
    Ok(Items::from_vec(bytes))
}

/// An answer to a part leaves.
pub fn answer_part<M: Machine>(
    alloc: Global,
    reply: &PartReply,
    outputs: &mut Vec<Output<M>>,
) -> Result<(), AllocError>
    ensures { OnOk result (outputs.new.items ≡ outputs.old.items ++ answered reply.now ∷ []) }
{
    let to = reply.to;
    let bytes = part_reply_bytes(alloc, reply)?;
    push(Output::Send { to, bytes }, outputs)
}

/// The term of a request's leader.
fn term_of_origin(origin: &Origin) -> u64 {
    origin.session_id.vote.leader_id.term
}

/// The greatest term of a message's votes.
pub fn term_of(body: &Body) -> u64 {
    match body {
        Body::VoteRequest(request) => request.vote.leader_id.term,
        Body::VoteReply(reply) => reply.vote.leader_id.term,
        Body::AppendRequest { origin, .. } | Body::SnapshotRequest { origin, .. } => {
            term_of_origin(origin)
        }
        Body::AppendReply { origin, reply, .. } => match reply {
            AppendEntriesResponse::HigherVote(vote) => {
                vote.leader_id.term.max(term_of_origin(origin))
            }
            _ => term_of_origin(origin),
        },
        Body::SnapshotReply { origin, reply, .. } => {
            reply.vote.leader_id.term.max(term_of_origin(origin))
        }
    }
}
