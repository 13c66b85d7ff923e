//! What has left servers for others.

ghost use Rattle.std.specs.Prelude.{◌≡◌, ◌++◌, ◌∷◌, [], OnOk};
ghost use Rattle.std.specs.Option.{option_copied};
ghost use Rattle.raft_cluster.specs.Clusters.{frames_of, sent_at};

use raft_calls::message::Body;
use raft_command::RequestId;
use raft_packed::{Machine as StateMachine, Packed};
use raft_packed_wire::{PackedContent, PackedPacket};
use raft_state::Items;
use std::alloc::{AllocError, Global};

/// A frame that has left a server.
#[derive(Debug, Drop)]
pub struct Sent {
    pub from: u64,
    pub to: u64,
    pub bytes: Items<u8>,
}

/// All frames that ever left a server, in their order: the first is number 1. Each may be delivered again, late, or never.
#[derive(Debug, Drop)]
pub struct Network {
    sent: Vec<Sent>,
    /// The numbers of those that wait to be delivered.
    waiting: Vec<u64>,
    /// The servers that the network doesn't reach.
    cut: Vec<u64>,
}

/// The kind of a message, as schedules have it.
fn kind_of(body: &Body) -> &'static str {
    match body {
        Body::VoteRequest(_) => "vote-request",
        Body::VoteReply(_) => "vote-reply",
        Body::AppendRequest { origin, .. } => match origin.request_id {
            RequestId::HeartBeat => "heartbeat",
            _ => "append",
        },
        Body::AppendReply { .. } => "append-reply",
        Body::SnapshotRequest { .. } => "snapshot",
        Body::SnapshotReply { .. } => "snapshot-reply",
    }
}

/// The kind of what a packet has.
fn kind_of_content<M: StateMachine>(content: &PackedContent<Packed<M>>) -> &'static str {
    match content {
        PackedContent::Message(sent) => kind_of(&sent.message.body),
        PackedContent::Part(_) => "part",
    }
}

/// The kind of a packet.
fn kind_of_packet<M: StateMachine>(alloc: Global, bytes: &[u8]) -> &'static str {
    match PackedPacket::<Packed<M>>::decode(alloc, bytes) {
        Ok(packet) => {
            let kind = kind_of_content(&packet.content);
            drop(packet);
            kind
        }
        Err(_) => "unknown",
    }
}

/// What left as the frame with a number: they are counted from 1, in the order of leaving.
fn sent_at(sent: &[Sent], number: u64) -> Option<&Sent>
    ensures { option_copied result ≡ sent_at sent.now number }
{
    if number == 0 {
        return None;
    }
    sent.get((number - 1) as usize)
}

impl Sent {
    /// The kind of the frame: that of its message, as schedules have it; a part of a snapshot, or the answer to it; or a question or an answer
    /// of a pre-vote. `M` is the servers' state machine.
    pub fn kind<M: StateMachine>(&self, alloc: Global) -> &'static str {
        match self.bytes.as_slice() {
            [0, rest @ ..] => kind_of_packet::<M>(alloc, rest),
            [1, ..] => "pre-vote",
            [2, ..] => "pre-vote-reply",
            [3, ..] => "part-reply",
            _ => "unknown",
        }
    }
}

impl Network {
    /// No frames.
    pub fn new(alloc: Global) -> Self
        ensures { result.sent.items ≡ [] }
    {
        Network {
            sent: Vec::new(alloc),
            waiting: Vec::new(alloc),
            cut: Vec::new(alloc),
        }
    }

    /// All frames so far.
    pub fn sent(&self) -> &[Sent]
        ensures { result.now ≡ self.now.sent.items }
    {
        &self.sent
    }

    /// The frame with this number; none if no such frame has left.
    pub fn frame(&self, number: u64) -> Option<&Sent>
        ensures { option_copied result ≡ sent_at self.now.sent.items number }
    {
        sent_at(&self.sent, number)
    }

    /// A frame leaves. It waits to be delivered, unless the network doesn't reach one of both.
    pub fn send(&mut self, from: u64, to: u64, bytes: Items<u8>) -> Result<(), AllocError>
        ensures { OnOk result (self.new.sent.items ≡ self.old.sent.items ++ record { from = from; to = to; bytes = bytes } ∷ []) }
    {
        self.sent.push(Sent { from, to, bytes })?;
        let number = self.sent.len() as u64;
        if !self.cut.contains(&from) && !self.cut.contains(&to) {
            self.waiting.push(number)?;
        }
        Ok(())
    }

    /// The numbers of the frames that wait, which don't wait any more.
    pub fn take_waiting(&mut self, alloc: Global) -> Vec<u64>
        ensures { self.new.sent ≡ self.old.sent }
    {
        std::mem::replace(&mut self.waiting, Vec::new(alloc))
    }

    /// A frame doesn't wait any more.
    pub fn pass(&mut self, number: u64)
        ensures { self.new.sent ≡ self.old.sent }
    {
        self.waiting.retain(|waiting| *waiting != number);
    }

    /// The network doesn't reach a server any more.
    pub fn cut(&mut self, id: u64) -> Result<(), AllocError>
        ensures { self.new.sent ≡ self.old.sent }
    {
        if !self.cut.contains(&id) {
            self.cut.push(id)?;
        }
        Ok(())
    }

    /// The network reaches a server again.
    pub fn heal(&mut self, id: u64)
        ensures { self.new.sent ≡ self.old.sent }
    {
        self.cut.retain(|cut| *cut != id);
    }
}
