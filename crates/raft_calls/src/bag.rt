//! All messages ever sent.

ghost use Rattle.std.specs.Prelude.{◌≡◌, ◌++◌, ◌∷◌, [], IfOk, OnErr, OnOk, length};
ghost use Rattle.raft_calls.specs.Inboxes.{numbers_left, numbers_to};

use crate::inboxes::{Inboxes, MessageNumbers};
use crate::message::Message;
use std::alloc::{AllocError, Global};
use std::marker::Model;

/// All messages ever sent, in the order of sending, and for each node the numbers of the messages to it.
#[derive(Debug, Drop)]
pub struct Bag {
    messages: Vec<Message>,
    inboxes: Inboxes,
}

impl Model for Bag {
    ghost use Rattle.std.specs.Prelude.{List};
    ghost use Rattle.raft_calls.specs.declared.message.Message.{Message};
    ghost use Rattle.raft_calls.specs.Inboxes.{IsIndexed};

    ghost Value = { List Message };

    ghost view = { λ s. s.messages.items };

    ghost invariant = { λ s. IsIndexed s.messages.items s.inboxes };
}

/// A bag of copies of these messages.
fn copy_messages(alloc: Global, from: &[Message]) -> Result<Bag, AllocError>
    ensures { IfOk result (λ copied. copied ≡ from.now) }
{
    let mut copied = Bag::new(alloc);
    for one in from {
        copied.push(one.copy(alloc)?)?;
    }
    Ok(copied)
}

impl Bag {
    /// No message.
    pub fn new(alloc: Global) -> Self
        ensures { result ≡ [] }
    {
        Bag {
            messages: Vec::new(alloc),
            inboxes: Inboxes::new(alloc),
        }
    }

    /// How many messages were ever sent.
    pub fn len(&self) -> usize
        ensures { result ≡ length self.now }
    {
        self.messages.len()
    }

    /// The messages in the order of sending: the first is number 1.
    pub fn messages(&self) -> &[Message]
        ensures { result.now ≡ self.now }
    {
        &self.messages
    }

    /// The numbers of the messages to a node, ascending.
    pub fn numbers_to(&self, id: u64) -> MessageNumbers<'_>
        ensures { numbers_left result ≡ numbers_to id self.now }
    {
        self.inboxes.of(id)
    }

    /// Puts in a message, once there is room for it and for its number: out of memory, all stay as they were.
    pub fn push(&mut self, message: Message) -> Result<(), AllocError>
        ensures ok { OnOk result (self.new ≡ self.old ++ message ∷ []) }
        ensures err { OnErr result (self.new ≡ self.old) }
    {
        self.messages.reserve(1)?;
        let number = self.messages.len() as u64 + 1;
        self.inboxes
            .add(*self.messages.allocator(), message.to, number)?;
        Ok(self.messages.push(message)?)
    }

    /// A copy of all messages.
    pub fn copy(&self, alloc: Global) -> Result<Bag, AllocError>
        ensures { IfOk result (λ copied. copied ≡ self.now) }
    {
        copy_messages(alloc, &self.messages)
    }
}
