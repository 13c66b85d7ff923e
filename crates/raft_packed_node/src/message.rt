//! Messages and acts, with the snapshots that they bring.

ghost use Rattle.std.specs.Prelude.{◌≡◌, IfOk};
ghost use Rattle.raft_node.specs.Events.{requested};
ghost use Rattle.raft_node.specs.declared.act.Act.TheVariants.{Take};
ghost use Rattle.proof_packed.specs.Nodes.{of_no_entries, plain_message};
ghost use Rattle.raft_packed_node.specs.Effects.{brought_by};

use raft_calls::message::Message;
use raft_node::act::Act;
use raft_node::node::Turn;
use raft_packed::{Machine, Packed};
use std::alloc::{AllocError, Global};
use std::marker::Model;

/// A message, and the snapshot that it brings, if it does: the message itself has none of a snapshot's data.
#[derive(Drop)]
pub struct PackedMessage<M: Machine> {
    pub message: Message,
    pub snapshot: Option<Packed<M>>,
}

impl<M: Machine> Model for PackedMessage<M> {
    ghost use Rattle.proof_packed.specs.Nodes.{PackedMessage};
    ghost use Rattle.raft_packed_node.specs.Effects.{brought_by};

    ghost Value = { PackedMessage M };

    ghost view = { λ m. record { message = m.message; brought = brought_by M.application m.snapshot } };
}

impl<M: Machine> PackedMessage<M> {
    /// A message that brings no snapshot.
    pub(crate) fn plain(message: Message) -> Self
        ensures { result ≡ plain_message M.application message }
    {
        PackedMessage {
            message,
            snapshot: None,
        }
    }

    /// A copy.
    pub fn copy(&self, alloc: Global) -> Result<Self, AllocError>
        ensures { IfOk result (λ copied. copied ≡ self.now) }
    {
        let message = self.message.copy(alloc)?;
        let snapshot = match &self.snapshot {
            Some(snapshot) => Some(snapshot.copy()?),
            None => None,
        };
        Ok(PackedMessage { message, snapshot })
    }
}

/// What an event does at its node, and the snapshot that its message brings, if it does: the message itself has none of its data.
#[derive(Drop)]
pub struct PackedAct<M: Machine> {
    pub act: Act,
    pub snapshot: Option<Packed<M>>,
}

impl<M: Machine> PackedAct<M> {
    /// An act that brings no snapshot.
    pub fn plain(act: Act) -> Self
        ensures act { result.act ≡ act }
        ensures brought { brought_by M.application result.snapshot ≡ of_no_entries M.application }
    {
        PackedAct {
            act,
            snapshot: None,
        }
    }

    /// The node is given a message, with the snapshot that it brings.
    pub fn take(message: PackedMessage<M>) -> Self
        ensures act { result.act ≡ Take message.message }
        ensures brought { brought_by M.application result.snapshot ≡ message.brought }
    {
        let PackedMessage { message, snapshot } = message;
        PackedAct {
            act: Act::Take(message),
            snapshot,
        }
    }
}

/// The circumstances of an event, and the snapshot that its message brought: that of no entries, if it brought none.
#[derive(Drop)]
pub(crate) struct PackedTurn<M: Machine> {
    pub(crate) turn: Turn,
    pub(crate) brought: Packed<M>,
}

impl<M: Machine> PackedTurn<M> {
    /// The circumstances of an act at a node, at this moment in milliseconds.
    pub(crate) fn new(alloc: Global, id: u64, moment: u64, act: PackedAct<M>) -> Self
        ensures turn { result.turn ≡ record { id = id; moment = moment; request = requested act.act } }
        ensures brought { result.brought ≡ brought_by M.application act.snapshot }
    {
        let PackedAct { act, snapshot } = act;
        let request = act.requested();
        PackedTurn {
            turn: Turn {
                id,
                moment,
                request,
            },
            brought: match snapshot {
                Some(snapshot) => snapshot,
                None => Packed::new(alloc),
            },
        }
    }
}
