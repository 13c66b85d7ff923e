//! What a server has to say after a step.

ghost use Rattle.std.specs.Prelude.{◌≡◌, ◌++◌, ◌∷◌, [], OnOk, map};
ghost use Rattle.raft_packed_node.specs.Effects.{nothing_recorded};

use crate::message::PackedMessage;
use raft_calls::lead::Answer;
use raft_node::record::{Decided, Established, Executed};
use raft_packed::{Machine, Packed};
use raft_state::{LeaderId, LogId};
use raft_store::Entry;
use std::alloc::{AllocError, Global};
use std::marker::Model;
use std::mem;

/// A node has installed a snapshot.
#[derive(Drop)]
pub struct PackedInstalled<M: Machine> {
    pub node: u64,
    pub snapshot: Packed<M>,
}

impl<M: Machine> Model for PackedInstalled<M> {
    ghost use Rattle.proof_packed.specs.Nodes.{PackedInstalled};

    ghost Value = { PackedInstalled M };

    ghost view = { λ s. record { node = s.node; snapshot = s.snapshot } };
}

/// What a node has sent, executed, installed, decided, established and answered since this was last emptied, each in order.
#[derive(Drop)]
pub struct Outbox<M: Machine> {
    pub messages: Vec<PackedMessage<M>>,
    pub executed: Vec<Executed>,
    pub installed: Vec<PackedInstalled<M>>,
    pub decided: Vec<Decided<()>>,
    pub established: Vec<Established<()>>,
    pub answers: Vec<Answer>,
}

impl<M: Machine> Model for Outbox<M> {
    ghost use Rattle.proof_packed.specs.Nodes.{PackedRecords};

    ghost Value = { PackedRecords M };

    ghost view = { λ s. record {
      bag = s.messages.items;
      executed = s.executed.items;
      installed = s.installed.items;
      decided = s.decided.items;
      established = s.established.items;
      answers = s.answers.items;
    } };
}

/// Records that a node has executed entries.
fn push_executed(
    node: u64,
    entries: Vec<Entry>,
    executed: &mut Vec<Executed>,
) -> Result<(), AllocError>
    ensures { OnOk result (executed.new.items ≡ executed.old.items ++ map (λ e. record { node = node; entry = e }) entries.items) }
{
    for entry in entries {
        executed.push(Executed { node, entry })?;
    }
    Ok(())
}

impl<M: Machine> Outbox<M> {
    /// An outbox with nothing in it.
    pub fn new(alloc: Global) -> Self
        ensures { result ≡ nothing_recorded }
    {
        Outbox {
            messages: Vec::new(alloc),
            executed: Vec::new(alloc),
            installed: Vec::new(alloc),
            decided: Vec::new(alloc),
            established: Vec::new(alloc),
            answers: Vec::new(alloc),
        }
    }

    /// Empties it, and hands out what was in it.
    pub fn take(&mut self, alloc: Global) -> Self
        ensures all { result ≡ self.old }
        ensures empty { self.new ≡ nothing_recorded }
    {
        mem::replace(self, Outbox::new(alloc))
    }
}

// What a node says, in the order in which it says it. Out of memory, nothing is promised of what was there.
impl<M: Machine> Outbox<M> {
    /// A message is sent.
    pub(crate) fn send(&mut self, message: PackedMessage<M>) -> Result<(), AllocError>
        ensures { OnOk result (self.new ≡ record self.old { bag = self.old.bag ++ message ∷ [] }) }
    {
        Ok(self.messages.push(message)?)
    }

    /// A node's state machine has applied entries.
    pub(crate) fn execute(&mut self, node: u64, entries: Vec<Entry>) -> Result<(), AllocError>
        ensures { OnOk result (self.new ≡ record self.old {
          executed = self.old.executed ++ map (λ e. record { node = node; entry = e }) entries.items;
        }) }
    {
        push_executed(node, entries, &mut self.executed)
    }

    /// A node has installed a snapshot.
    pub(crate) fn install(&mut self, node: u64, snapshot: &Packed<M>) -> Result<(), AllocError>
        ensures { OnOk result (self.new ≡ record self.old {
          installed = self.old.installed ++ record { node = node; snapshot = snapshot.now } ∷ [];
        }) }
    {
        let snapshot = snapshot.copy()?;
        Ok(self.installed.push(PackedInstalled { node, snapshot })?)
    }

    /// A leader has decided a commit up to an id.
    pub(crate) fn decide(
        &mut self,
        leader_id: LeaderId<u64>,
        log_id: LogId<u64>,
    ) -> Result<(), AllocError>
        ensures { OnOk result (self.new ≡ record self.old {
          decided = self.old.decided ++ record { leader_id = leader_id; log_id = log_id; log = tt } ∷ [];
        }) }
    {
        let one = Decided {
            leader_id,
            log_id,
            log: (),
        };
        Ok(self.decided.push(one)?)
    }

    /// A leader is established.
    pub(crate) fn establish(&mut self, leader_id: LeaderId<u64>) -> Result<(), AllocError>
        ensures { OnOk result (self.new ≡ record self.old {
          established = self.old.established ++ record { leader_id = leader_id; log = tt } ∷ [];
        }) }
    {
        Ok(self.established.push(Established { leader_id, log: () })?)
    }

    /// A leader has answered a read.
    pub(crate) fn answer(&mut self, answer: Answer) -> Result<(), AllocError>
        ensures { OnOk result (self.new ≡ record self.old { answers = self.old.answers ++ answer ∷ [] }) }
    {
        Ok(self.answers.push(answer)?)
    }
}
