//! The queue of commands.

ghost use Rattle.std.specs.Prelude.{◌≡◌, ◌<◌, ◌+◌, ◌^◌, ℕ, [], ◌∷◌, ◌++◌, OnOk, OnErr, IfOk, IsErr, true, false};
ghost use Rattle.std.specs.Iterator.{YieldsFirstRef, item_count};
ghost use Rattle.std.specs.VecDeque.Iter.{deque_iter_rest};
ghost use Rattle.raft_command.specs.Queue.{popped, postponed, emptied};
ghost use Rattle.raft_command.specs.Iter.{commands_left};
ghost use Rattle.raft_command.specs.Push.{pushed, with_command, HasNumber};
ghost use Rattle.raft_command.specs.Ends.{Ends, Settles, refusals_of_spent};

use crate::command::Command;
use raft_progress_entry::raft_error::EngineError;
use raft_progress_entry::raft_state::RaftTypeConfig;
use std::alloc::{AllocError, Global};
use std::collections::VecDeque;
use std::collections::vec_deque::Iter;
use std::marker::Model;

/// The commands of an engine, in the order in which the runtime executes them (openraft's `EngineOutput`).
///
/// A contract sees the list of commands, the last sequence number, and whether the queue is spent: running out of
/// memory empties the queue and spends it, and from then on `push_command` and `postpone_command` are refused.
#[derive(Drop)]
#[derive_where(Debug; C::Entry, C::SnapshotData)]
pub struct EngineOutput<C: RaftTypeConfig> {
    commands: VecDeque<Command<C>>,
    seq: u64,
    spent: bool,
}

impl<C: RaftTypeConfig> Model for EngineOutput<C> {
    ghost use Rattle.raft_command.specs.declared.command.Command.{Command};
    ghost use Rattle.raft_command.specs.Queue.{Queue};

    ghost Value = { Queue (Command C C.NodeId C.Node C.Entry C.D C.R C.SnapshotData) };

    ghost view = { λ s. record { items = s.commands.items; seq = s.seq; spent = s.spent } };
}

/// The commands of a queue, first to last.
#[derive(Drop)]
pub struct CommandIter<'a, C: RaftTypeConfig> {
    inner: Iter<'a, Command<C>>,
}

impl<'a, C: RaftTypeConfig> Iterator for CommandIter<'a, C> {
    type Item = &'a Command<C>;

    ghost next_gives = { YieldsFirstRef (λ walk. deque_iter_rest walk.inner) };

    ghost remaining = { item_count (λ walk. deque_iter_rest walk.inner) };

    fn next(&mut self) -> Option<&'a Command<C>> {
        self.inner.next()
    }
}

impl<C: RaftTypeConfig> EngineOutput<C> {
    /// An empty queue with room for this many commands.
    pub fn new(alloc: Global, capacity: usize) -> Result<Self, AllocError>
        ensures { IfOk result (λ q. q ≡ record { items = []; seq = 0; spent = false }) }
    {
        Ok(EngineOutput {
            commands: VecDeque::with_capacity(alloc, capacity)?,
            seq: 0,
            spent: false,
        })
    }

    /// The allocator of the queue.
    pub fn allocator(&self) -> Global {
        *self.commands.allocator()
    }

    /// Whether the queue ran out of memory.
    pub fn is_spent(&self) -> bool
        ensures { result ≡ self.now.spent }
    {
        self.spent
    }

    /// The last sequence number.
    pub fn last_sm_seq(&self) -> u64
        ensures { result ≡ self.now.seq }
    {
        self.seq
    }

    /// Draws the next sequence number.
    pub fn next_sm_seq(&mut self) -> u64
        requires { self.old.seq + 1 < 2 ^ 64 }
        ensures value { result ≡ self.old.seq + 1 }
        ensures after { self.new ≡ record self.old { seq = self.old.seq + 1 } }
    {
        self.seq += 1;
        self.seq
    }

    /// All commands, first to last.
    pub fn iter_commands(&self) -> CommandIter<'_, C>
        ensures { commands_left result ≡ self.now.items }
    {
        CommandIter {
            inner: self.commands.iter(),
        }
    }

    /// Removes and returns the first command. Allocates nothing.
    pub fn pop_command(&mut self) -> Option<Command<C>>
        ensures first { result ≡ (popped self.old).0 }
        ensures rest { self.new ≡ (popped self.old).1 }
    {
        self.commands.pop_front()
    }

    /// Appends a command; one to the state machine gets the next sequence number.
    ///
    /// Refusals: `Spent` after `OutOfMemory`; `OutOfMemory`, which empties the queue and leaves it spent.
    pub fn push_command(
        &mut self,
        command: Command<C>,
    ) -> Result<(), EngineError<C::NodeId, C::Node>>
        requires { HasNumber self.old command }
        ensures { Ends (refusals_of_spent self.old) result self.new (λ _. self.new ≡ pushed self.old command) self.old self.new }
    {
        if self.spent {
            drop(command);
            return Err(EngineError::Spent);
        }
        let done = self.try_push(command);
        self.settle(done)
    }

    /// Puts a command back in front.
    ///
    /// Refusals: `Spent` after `OutOfMemory`; `OutOfMemory`, which empties the queue and leaves it spent.
    pub fn postpone_command(
        &mut self,
        command: Command<C>,
    ) -> Result<(), EngineError<C::NodeId, C::Node>>
        ensures { Ends (refusals_of_spent self.old) result self.new (λ _. self.new ≡ postponed self.old command) self.old self.new }
    {
        if self.spent {
            drop(command);
            return Err(EngineError::Spent);
        }
        let done = self.try_postpone(command);
        self.settle(done)
    }

    /// Appends a command like `push_command`, within a step that settles out of memory at its end. A spent queue stays
    /// as it is, and the answer is out of memory.
    pub fn try_push(&mut self, command: Command<C>) -> Result<(), AllocError>
        requires { HasNumber self.old command }
        ensures ok { OnOk result (self.new ≡ pushed self.old command) }
        ensures spent { self.old.spent ≡ true → IsErr result × (self.new ≡ self.old) }
    {
        if self.spent {
            drop(command);
            return Err(AllocError);
        }
        let numbered = self.numbered(command);
        self.commands.push_back(numbered)?;
        Ok(())
    }

    /// The command as it is to be appended: one to the state machine draws the next sequence number.
    fn numbered(&mut self, command: Command<C>) -> Command<C>
        requires { HasNumber self.old command }
        ensures { with_command self.new result ≡ pushed self.old command }
    {
        match command {
            Command::StateMachine { command } => {
                let seq = self.next_sm_seq();
                Command::StateMachine {
                    command: command.with_seq(seq),
                }
            }
            other => other,
        }
    }

    fn try_postpone(&mut self, command: Command<C>) -> Result<(), AllocError>
        ensures ok { OnOk result (self.new ≡ postponed self.old command) }
    {
        self.commands.push_front(command)?;
        Ok(())
    }

    /// The end of a step: its answer, or, out of memory, `OutOfMemory` with an empty and spent queue.
    pub fn settle<T>(
        &mut self,
        done: Result<T, AllocError>,
    ) -> Result<T, EngineError<C::NodeId, C::Node>>
        ensures { Settles done self.old result self.new }
    {
        match done {
            Ok(answer) => Ok(answer),
            Err(_) => {
                self.spend();
                Err(EngineError::OutOfMemory)
            }
        }
    }

    fn spend(&mut self)
        ensures { self.new ≡ emptied self.old }
    {
        self.commands.clear();
        self.spent = true;
    }
}
