//! What clients asked for, and what they were told.

ghost use Rattle.std.specs.Prelude.{◌≡◌, ◌++◌, ◌∷◌, [], OnOk, length, true};
ghost use Rattle.raft_cluster.specs.Clients.{answers_told};
ghost use Rattle.raft_cluster.specs.Clusters.{Notes, acknowledged_at};

use raft_answers::{Answer, Operation, Reply, Token};
use raft_node::record::Executed;
use raft_packed::{Machine as StateMachine, Packed};
use std::alloc::{AllocError, Global};

/// A client's request that a server took.
#[derive(Debug, Drop)]
pub struct Asked {
    pub node: u64,
    pub token: Token,
    pub operation: Operation,
    /// How many answers clients were told before.
    pub after: usize,
}

/// An answer, by a server.
#[derive(Clone, Copy, Debug)]
pub struct Answered {
    pub node: u64,
    pub reply: Reply,
    /// How many entries clients were told of before, as executed by some server.
    pub after: usize,
}

/// A snapshot that a server put in its state's place.
#[derive(Drop)]
pub struct Installed<M: StateMachine> {
    pub node: u64,
    pub snapshot: Packed<M>,
    /// How many entries clients were told of before, as executed by some server, and how many answers.
    pub executed: usize,
    pub answered: usize,
}

/// What clients asked for, and what they were told, each in the order of the run.
#[derive(Drop)]
pub struct Told<M: StateMachine> {
    /// The entries that servers executed at their state machines.
    pub executed: Vec<Executed>,
    /// The snapshots that they put in their place.
    pub installed: Vec<Installed<M>>,
    pub asked: Vec<Asked>,
    pub answered: Vec<Answered>,
}

/// The index that an answer acknowledges.
pub fn acknowledged(answer: &Answer) -> Option<u64>
    ensures { result ≡ acknowledged_at answer.now }
{
    match answer {
        Answer::Ok { index } => Some(*index),
        _ => None,
    }
}

impl<M: StateMachine> Told<M> {
    /// Nothing.
    pub fn new(alloc: Global) -> Self
        ensures executed { result.executed.items ≡ [] }
        ensures installed { result.installed.items ≡ [] }
        ensures asked { result.asked.items ≡ [] }
        ensures answered { result.answered.items ≡ [] }
    {
        Told {
            executed: Vec::new(alloc),
            installed: Vec::new(alloc),
            asked: Vec::new(alloc),
            answered: Vec::new(alloc),
        }
    }

    /// A server has put a snapshot in its state's place.
    pub fn install(&mut self, node: u64, snapshot: Packed<M>) -> Result<(), AllocError>
        ensures rest { OnOk result (self.new ≡ record self.old { installed = self.new.installed }) }
        ensures installed { OnOk result (self.new.installed.items
            ≡ self.old.installed.items ++ record {
              node = node;
              snapshot = snapshot;
              executed = length self.old.executed.items;
              answered = length self.old.answered.items;
            } ∷ []) }
    {
        let executed = self.executed.len();
        let answered = self.answered.len();
        Ok(
            self.installed.push(Installed {
                node,
                snapshot,
                executed,
                answered,
            })?,
        )
    }

    /// A server took a request.
    pub fn ask(&mut self, node: u64, token: Token, operation: Operation) -> Result<(), AllocError>
        ensures { OnOk result (Notes true node token operation self.old self.new) }
    {
        let after = self.answered.len();
        Ok(
            self.asked.push(Asked {
                node,
                token,
                operation,
                after,
            })?,
        )
    }

    /// A server has answered.
    pub fn answer(&mut self, node: u64, reply: Reply) -> Result<(), AllocError>
        ensures rest { OnOk result (self.new ≡ record self.old { answered = self.new.answered }) }
        ensures answers { OnOk result (answers_told self.new ≡ answers_told self.old ++ (node, reply) ∷ []) }
    {
        let after = self.executed.len();
        Ok(self.answered.push(Answered { node, reply, after })?)
    }
}
