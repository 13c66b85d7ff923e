//! What servers send one another.

use crate::wire::Wire;
use raft_calls::message::{Body, Message, Origin};
use raft_codec::{DecodeError, Fault, Reader, write_raw};
use raft_command::{
    AppendEntriesResponse, ReplicationSessionId, RequestId, Snapshot, SnapshotResponse,
    VoteRequest, VoteResponse,
};
use raft_state::{Items, SnapshotMeta};
use std::alloc::AllocError;

/// The version of the format.
pub const VERSION: u8 = 1;

/// The version of the format, at the head of each connection and each file.
#[derive(Clone, Copy, PartialEq, Eq, Debug)]
pub struct Version {}

/// A chunk of a snapshot, whose message is too large for one frame.
#[derive(Debug, Drop)]
pub struct Chunk {
    /// Who sends it, and to whom.
    pub from: u64,
    pub to: u64,
    /// The request that it is a part of.
    pub origin: Origin,
    pub meta: SnapshotMeta<u64, ()>,
    /// Where the bytes stand in the whole snapshot, in bytes.
    pub place: u64,
    /// The size of the whole, in bytes.
    pub total: u64,
    pub bytes: Items<u8>,
}

/// What a packet carries.
#[derive(Debug, Drop)]
pub enum Content {
    Message(Message),
    Chunk(Chunk),
}

/// What one server sends another.
#[derive(Debug, Drop)]
pub struct Packet {
    /// The number of the sender's start.
    pub start: u64,
    pub content: Content,
}

#[tactic(auto, unfolding(crate::specs::Messages::origin))]
impl Wire for Origin {
    ghost use Rattle.raft_wire.specs.Messages.{origin};
    ghost use Rattle.raft_wire.specs.MessageLaws.{origin_is};

    ghost codec = { origin };

    ghost is_codec = { origin_is };

    fn write(&self, out: &mut Vec<u8>) -> Result<(), AllocError> {
        self.session_id.write(out)?;
        self.request_id.write(out)?;
        self.sent_at.write(out)
    }

    fn read(reader: &mut Reader<'_>) -> Result<Origin, DecodeError> {
        let session_id = ReplicationSessionId::<u64>::read(reader)?;
        let request_id = RequestId::read(reader)?;
        let sent_at = reader.number()?;
        Ok(Origin {
            session_id,
            request_id,
            sent_at,
        })
    }
}

#[tactic(auto, unfolding(crate::specs::Messages::body))]
impl Wire for Body {
    ghost use Rattle.raft_wire.specs.Messages.{body};
    ghost use Rattle.raft_wire.specs.MessageLaws.{body_is};

    ghost codec = { body };

    ghost is_codec = { body_is };

    fn write(&self, out: &mut Vec<u8>) -> Result<(), AllocError> {
        match self {
            Body::VoteRequest(request) => {
                out.push(0)?;
                request.write(out)
            }
            Body::VoteReply(reply) => {
                out.push(1)?;
                reply.write(out)
            }
            Body::AppendRequest {
                origin,
                prev_log_id,
                entries,
                leader_commit,
            } => {
                out.push(2)?;
                origin.write(out)?;
                prev_log_id.write(out)?;
                entries.write(out)?;
                leader_commit.write(out)
            }
            Body::AppendReply {
                origin,
                reply,
                prev_log_id,
                upto,
            } => {
                out.push(3)?;
                origin.write(out)?;
                reply.write(out)?;
                prev_log_id.write(out)?;
                upto.write(out)
            }
            Body::SnapshotRequest { origin, snapshot } => {
                out.push(4)?;
                origin.write(out)?;
                snapshot.write(out)
            }
            Body::SnapshotReply {
                origin,
                reply,
                upto,
            } => {
                out.push(5)?;
                origin.write(out)?;
                reply.write(out)?;
                upto.write(out)
            }
        }
    }

    fn read(reader: &mut Reader<'_>) -> Result<Body, DecodeError> {
        match reader.tag()? {
            0 => Ok(Body::VoteRequest(VoteRequest::read(reader)?)),
            1 => Ok(Body::VoteReply(VoteResponse::read(reader)?)),
            2 => Ok(Body::AppendRequest {
                origin: Origin::read(reader)?,
                prev_log_id: Option::read(reader)?,
                entries: Items::read(reader)?,
                leader_commit: Option::read(reader)?,
            }),
            3 => Ok(Body::AppendReply {
                origin: Origin::read(reader)?,
                reply: AppendEntriesResponse::read(reader)?,
                prev_log_id: Option::read(reader)?,
                upto: Option::read(reader)?,
            }),
            4 => Ok(Body::SnapshotRequest {
                origin: Origin::read(reader)?,
                snapshot: Snapshot::read(reader)?,
            }),
            5 => Ok(Body::SnapshotReply {
                origin: Origin::read(reader)?,
                reply: SnapshotResponse::read(reader)?,
                upto: Option::read(reader)?,
            }),
            _ => Err(reader.unknown_tag()),
        }
    }
}

#[tactic(auto, unfolding(crate::specs::Messages::message))]
impl Wire for Message {
    ghost use Rattle.raft_wire.specs.Messages.{message};
    ghost use Rattle.raft_wire.specs.MessageLaws.{message_is};

    ghost codec = { message };

    ghost is_codec = { message_is };

    fn write(&self, out: &mut Vec<u8>) -> Result<(), AllocError> {
        self.from.write(out)?;
        self.to.write(out)?;
        self.body.write(out)
    }

    fn read(reader: &mut Reader<'_>) -> Result<Message, DecodeError> {
        let from = reader.number()?;
        let to = reader.number()?;
        let body = Body::read(reader)?;
        Ok(Message { from, to, body })
    }
}

#[tactic(auto, unfolding(crate::specs::Messages::chunk))]
impl Wire for Chunk {
    ghost use Rattle.raft_wire.specs.Messages.{chunk};
    ghost use Rattle.raft_wire.specs.MessageLaws.{chunk_is};

    ghost codec = { chunk };

    ghost is_codec = { chunk_is };

    fn write(&self, out: &mut Vec<u8>) -> Result<(), AllocError> {
        self.from.write(out)?;
        self.to.write(out)?;
        self.origin.write(out)?;
        self.meta.write(out)?;
        self.place.write(out)?;
        self.total.write(out)?;
        write_raw(out, self.bytes.as_slice())
    }

    fn read(reader: &mut Reader<'_>) -> Result<Chunk, DecodeError> {
        let from = reader.number()?;
        let to = reader.number()?;
        let origin = Origin::read(reader)?;
        let meta = SnapshotMeta::<u64, ()>::read(reader)?;
        let place = reader.number()?;
        let total = reader.number()?;
        let bytes = Items::from_vec(reader.bytes()?);
        Ok(Chunk {
            from,
            to,
            origin,
            meta,
            place,
            total,
            bytes,
        })
    }
}

#[tactic(auto, unfolding(crate::specs::Messages::content))]
impl Wire for Content {
    ghost use Rattle.raft_wire.specs.Messages.{content};
    ghost use Rattle.raft_wire.specs.MessageLaws.{content_is};

    ghost codec = { content };

    ghost is_codec = { content_is };

    fn write(&self, out: &mut Vec<u8>) -> Result<(), AllocError> {
        match self {
            Content::Message(message) => {
                out.push(0)?;
                message.write(out)
            }
            Content::Chunk(chunk) => {
                out.push(1)?;
                chunk.write(out)
            }
        }
    }

    fn read(reader: &mut Reader<'_>) -> Result<Content, DecodeError> {
        match reader.tag()? {
            0 => Ok(Content::Message(Message::read(reader)?)),
            1 => Ok(Content::Chunk(Chunk::read(reader)?)),
            _ => Err(reader.unknown_tag()),
        }
    }
}

#[tactic(auto, unfolding(crate::specs::Messages::packet))]
impl Wire for Packet {
    ghost use Rattle.raft_wire.specs.Messages.{packet};
    ghost use Rattle.raft_wire.specs.MessageLaws.{packet_is};

    ghost codec = { packet };

    ghost is_codec = { packet_is };

    fn write(&self, out: &mut Vec<u8>) -> Result<(), AllocError> {
        self.start.write(out)?;
        self.content.write(out)
    }

    fn read(reader: &mut Reader<'_>) -> Result<Packet, DecodeError> {
        let start = reader.number()?;
        let content = Content::read(reader)?;
        Ok(Packet { start, content })
    }
}

#[tactic(auto, unfolding(crate::specs::Messages::version))]
impl Wire for Version {
    ghost use Rattle.raft_wire.specs.Messages.{version};
    ghost use Rattle.raft_wire.specs.MessageLaws.{version_is};

    ghost codec = { version };

    ghost is_codec = { version_is };

    fn write(&self, out: &mut Vec<u8>) -> Result<(), AllocError> {
        Ok(out.push(VERSION)?)
    }

    fn read(reader: &mut Reader<'_>) -> Result<Version, DecodeError> {
        let left = reader.left();
        if reader.tag()? == VERSION {
            Ok(Version {})
        } else {
            Err(DecodeError::Malformed {
                fault: Fault::UnknownVersion,
                left,
            })
        }
    }
}
