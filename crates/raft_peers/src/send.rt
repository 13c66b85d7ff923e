//! What leaves for other servers: messages in packets, or once their snapshots are encoded.

ghost use Rattle.std.specs.Prelude.{◌≡◌, ◌⊎◌, ◌++◌, ◌∷◌, [], Contains, IfOk, IsTrue, List, OnOk};
ghost use Rattle.raft_packed_server.specs.proof_packed.Nodes.{PackedMessage as Prepared};
ghost use Rattle.raft_packed_server.specs.raft_packed_wire.Messages.{packed_packet};
ghost use Rattle.raft_packed_server.specs.raft_packed_wire.Values.{kept};
ghost use Rattle.raft_peers.specs.Leaving.{IsLeaving};
ghost use Rattle.raft_peers.specs.Sends.{BringsSnapshot, IsPreparing, LeavesWhole, SendsAll, packet_of, sent};
ghost use Rattle.raft_peers.specs.declared.output.Output.{Output};

use crate::frame::packet_bytes;
use crate::output::{Output, push};
use crate::prepare::{Preparing, prepare};
use raft_packed_server::raft_packed::{Machine, Packed};
use raft_packed_server::raft_packed_node::PackedMessage;
use raft_packed_server::raft_packed_wire::{PackedContent, PackedPacket, SentMessage};
use raft_wire::raft_calls::message::Body;
use std::alloc::{AllocError, Global};

/// A message leaves as a frame.
fn send<M: Machine>(
    alloc: Global,
    start: u64,
    message: SentMessage<Packed<M>>,
    outputs: &mut Vec<Output<M>>,
) -> Result<(), AllocError>
    ensures sent { OnOk result (outputs.new.items ≡ outputs.old.items ++ sent M.codec start message ∷ []) }
    ensures fits { OnOk result ((packed_packet (kept M.codec)).fits (packet_of start message)) }
{
    let to = message.message.to;
    let packet = PackedPacket {
        start,
        content: PackedContent::Message(message),
    };
    let bytes = packet_bytes(alloc, &packet)?;
    push(Output::Send { to, bytes }, outputs)
}

/// From where a server sends, how much at a time, and for how much there is room.
#[derive(Clone, Copy)]
pub struct Sender {
    /// The moment of its start.
    pub start: u64,
    /// The most bytes of a snapshot that leave in a frame.
    pub most: usize,
    /// About how many of them are encoded at once.
    pub each: usize,
    /// For how many bytes of a snapshot there is room from the start.
    pub room: usize,
}

/// A message that leaves at once, or once its snapshot is encoded.
#[derive(Drop)]
enum Leaving<M: Machine> {
    Whole(PackedMessage<M>),
    InParts(Preparing<M>),
}

/// Whether it is a request to install a snapshot.
fn brings_snapshot(body: &Body) -> bool
    ensures { IsTrue result → BringsSnapshot body.now }
{
    matches!(body, Body::SnapshotRequest { .. })
}

/// How a message leaves: at once, unless it brings a snapshot of more than so many bytes. Of that no more than about as many are encoded yet.
fn begin_leaving<M: Machine>(
    alloc: Global,
    sender: Sender,
    message: PackedMessage<M>,
) -> Result<Leaving<M>, AllocError>
    ensures { IfOk result (λ leaving. IsLeaving message leaving) }
{
    if !brings_snapshot(&message.message.body) {
        return Ok(Leaving::Whole(message));
    }
    let PackedMessage { message, snapshot } = message;
    let Some(snapshot) = snapshot else {
        return Ok(Leaving::Whole(PackedMessage {
            message,
            snapshot: None,
        }));
    };
    let begun = Preparing::new(alloc, sender.room, message, snapshot)?;
    let one = begun.encode_front(alloc, sender.most)?;
    if one.is_small(sender.most) {
        Ok(Leaving::Whole(one.into_message()))
    } else {
        Ok(Leaving::InParts(one))
    }
}

/// A message leaves in a packet; or its snapshot is to be encoded first.
fn send_one<M: Machine>(
    alloc: Global,
    sender: Sender,
    message: PackedMessage<M>,
    preparing: &mut Vec<Preparing<M>>,
    outputs: &mut Vec<Output<M>>,
) -> Result<(), AllocError>
    ensures leaves { OnOk result ((out : List (Output M)) × (outputs.new.items ≡ outputs.old.items ++ out)
        × (LeavesWhole M.application M.codec sender.start message out ⊎ IsPreparing M.application M.codec sender.start message out)) }
    ensures preparing { OnOk result ((m : Prepared M) → Contains preparing.new.items m
        → Contains preparing.old.items m ⊎ Contains (message ∷ []) m) }
{
    let leaving = begin_leaving(alloc, sender, message)?;
    match leaving {
        Leaving::Whole(message) => send(alloc, sender.start, SentMessage::new(message), outputs),
        Leaving::InParts(one) => prepare(one, preparing),
    }
}

/// Messages leave in packets, or their snapshots are to be encoded first.
pub fn send_all<M: Machine>(
    alloc: Global,
    sender: Sender,
    messages: Vec<PackedMessage<M>>,
    preparing: &mut Vec<Preparing<M>>,
    outputs: &mut Vec<Output<M>>,
) -> Result<(), AllocError>
    ensures { OnOk result ((frames : List (Output M))
        × SendsAll M.application M.codec sender.start messages.items preparing.old.items frames preparing.new.items
        × (outputs.new.items ≡ outputs.old.items ++ frames)) }
{
    for message in messages {
        send_one(alloc, sender, message, preparing, outputs)?;
    }
    Ok(())
}
