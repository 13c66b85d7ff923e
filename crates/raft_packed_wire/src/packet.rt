//! What servers whose snapshots are states send one another.

ghost use Rattle.std.specs.Prelude.{◌≡◌, IfOk};
ghost use Rattle.raft_codec.specs.Codec.{IsFound, Reads, Writes, optional};
ghost use Rattle.raft_packed_wire.specs.Messages.{packed_content, packed_packet, received, sent_message, sent_part};
ghost use Rattle.raft_packed_wire.specs.Values.{kept};

use crate::packed::{read_packed, write_packed};
use raft_codec::{DecodeError, Reader, write_raw};
use raft_packed_node::PackedMessage;
use raft_packed_node::raft_packed::{Machine, Packed};
use raft_state::Items;
use raft_wire::Wire;
use raft_wire::raft_calls::message::Message;
use std::alloc::{AllocError, Global};

/// A message, and the snapshot that it brings, if it does: the message itself has none of a snapshot's data.
#[derive(Drop)]
pub struct SentMessage<P> {
    pub message: Message,
    pub snapshot: Option<P>,
}

/// A message without the snapshot that it brings, and the bytes of a chunk of that one's.
#[derive(Drop)]
pub struct SentPart {
    pub message: Message,
    pub chunk: Items<u8>,
}

/// What a packet carries.
#[derive(Drop)]
pub enum PackedContent<P> {
    Message(SentMessage<P>),
    Part(SentPart),
}

/// What one server sends another. `P` is what a snapshot is.
#[derive(Drop)]
pub struct PackedPacket<P> {
    /// The number of the sender's start.
    pub start: u64,
    pub content: PackedContent<P>,
}

/// Appends 0, or 1 and the snapshot.
#[tactic(auto, unfolding(raft_codec::specs::Codec::optional))]
fn write_brought<M: Machine>(
    out: &mut Vec<u8>,
    snapshot: &Option<Packed<M>>,
) -> Result<(), AllocError>
    ensures { Writes (optional (kept M.codec)) snapshot.now result out.old.items out.new.items }
{
    match snapshot {
        None => Ok(out.push(0)?),
        Some(snapshot) => {
            out.push(1)?;
            write_packed(out, snapshot)
        }
    }
}

/// A snapshot behind 1, or 0.
#[tactic(auto, unfolding(raft_codec::specs::Codec::optional))]
fn read_brought<M: Machine>(reader: &mut Reader<'_>) -> Result<Option<Packed<M>>, DecodeError>
    ensures { Reads (optional (kept M.codec)) result reader.old reader.new }
{
    match reader.tag()? {
        0 => Ok(None),
        1 => Ok(Some(read_packed(reader)?)),
        _ => Err(reader.unknown_tag()),
    }
}

impl<M: Machine> SentMessage<Packed<M>> {
    /// A node's message, as it is sent.
    pub fn new(message: PackedMessage<M>) -> Self
        ensures { received M.application result ≡ message }
    {
        let PackedMessage { message, snapshot } = message;
        SentMessage { message, snapshot }
    }

    /// The message, as a node takes it.
    pub fn into_message(self) -> PackedMessage<M>
        ensures { result ≡ received M.application self }
    {
        let SentMessage { message, snapshot } = self;
        PackedMessage { message, snapshot }
    }

    /// Appends it.
    #[tactic(auto, unfolding(crate::specs::Messages::sent_message))]
    pub fn write(&self, out: &mut Vec<u8>) -> Result<(), AllocError>
        ensures { Writes (sent_message (kept M.codec)) self.now result out.old.items out.new.items }
    {
        self.message.write(out)?;
        write_brought(out, &self.snapshot)
    }

    /// That at the front of bytes.
    #[tactic(auto, unfolding(crate::specs::Messages::sent_message))]
    pub fn read(reader: &mut Reader<'_>) -> Result<Self, DecodeError>
        ensures { Reads (sent_message (kept M.codec)) result reader.old reader.new }
    {
        let message = Message::read(reader)?;
        let snapshot = read_brought(reader)?;
        Ok(SentMessage { message, snapshot })
    }
}

impl SentPart {
    /// Appends it.
    #[tactic(auto, unfolding(crate::specs::Messages::sent_part))]
    pub fn write(&self, out: &mut Vec<u8>) -> Result<(), AllocError>
        ensures { Writes sent_part self.now result out.old.items out.new.items }
    {
        self.message.write(out)?;
        write_raw(out, self.chunk.as_slice())
    }

    /// That at the front of bytes.
    #[tactic(auto, unfolding(crate::specs::Messages::sent_part))]
    pub fn read(reader: &mut Reader<'_>) -> Result<Self, DecodeError>
        ensures { Reads sent_part result reader.old reader.new }
    {
        let message = Message::read(reader)?;
        let chunk = Items::from_vec(reader.bytes()?);
        Ok(SentPart { message, chunk })
    }
}

impl<M: Machine> PackedContent<Packed<M>> {
    /// Appends it.
    #[tactic(auto, unfolding(crate::specs::Messages::packed_content))]
    pub fn write(&self, out: &mut Vec<u8>) -> Result<(), AllocError>
        ensures { Writes (packed_content (kept M.codec)) self.now result out.old.items out.new.items }
    {
        match self {
            PackedContent::Message(message) => {
                out.push(0)?;
                message.write(out)
            }
            PackedContent::Part(part) => {
                out.push(1)?;
                part.write(out)
            }
        }
    }

    /// That at the front of bytes.
    #[tactic(auto, unfolding(crate::specs::Messages::packed_content))]
    pub fn read(reader: &mut Reader<'_>) -> Result<Self, DecodeError>
        ensures { Reads (packed_content (kept M.codec)) result reader.old reader.new }
    {
        match reader.tag()? {
            0 => Ok(PackedContent::Message(SentMessage::read(reader)?)),
            1 => Ok(PackedContent::Part(SentPart::read(reader)?)),
            _ => Err(reader.unknown_tag()),
        }
    }
}

impl<M: Machine> PackedPacket<Packed<M>> {
    /// Appends it.
    #[tactic(auto, unfolding(crate::specs::Messages::packed_packet))]
    pub fn write(&self, out: &mut Vec<u8>) -> Result<(), AllocError>
        ensures { Writes (packed_packet (kept M.codec)) self.now result out.old.items out.new.items }
    {
        self.start.write(out)?;
        self.content.write(out)
    }

    /// That at the front of bytes.
    #[tactic(auto, unfolding(crate::specs::Messages::packed_packet))]
    pub fn read(reader: &mut Reader<'_>) -> Result<Self, DecodeError>
        ensures { Reads (packed_packet (kept M.codec)) result reader.old reader.new }
    {
        let start = reader.number()?;
        let content = PackedContent::read(reader)?;
        Ok(PackedPacket { start, content })
    }

    /// The packet whose bytes these are: all of them.
    ///
    /// Refuses bytes that are no packet's, or more than one packet's, by the fault and how many bytes are left from where it begins.
    pub fn decode(alloc: Global, bytes: &[u8]) -> Result<Self, DecodeError>
        ensures written { IfOk result (λ packet. (packed_packet (kept M.codec)).fits packet
            × (bytes.now ≡ (packed_packet (kept M.codec)).bytes packet)) }
        ensures read_back { (packet : PackedPacket (Packed M)) → (packed_packet (kept M.codec)).fits packet
            → bytes.now ≡ (packed_packet (kept M.codec)).bytes packet → IsFound result packet }
    {
        let mut reader = Reader::new(alloc, bytes);
        let packet = PackedPacket::<Packed<M>>::read(&mut reader)?;
        reader.end()?;
        Ok(packet)
    }
}
