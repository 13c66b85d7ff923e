//! The numbers of the messages to each node.

ghost use Rattle.std.specs.Prelude.{◌≡◌, ◌∷◌, [], IfOk, OnOk, OnErr};
ghost use Rattle.std.specs.Iterator.{YieldsFirst, item_count};
ghost use Rattle.raft_calls.specs.Inboxes.{AddsNumbers, inbox_of, numbers_left};

use std::alloc::{AllocError, Global};
use std::collections::BTreeMap;
use std::marker::Model;
use std::slice;

/// The numbers of the messages to one node.
#[derive(Debug, Drop)]
struct Inbox {
    numbers: Vec<u64>,
}

impl Model for Inbox {
    ghost use Rattle.std.specs.Prelude.{List, ℕ};

    ghost Value = { List ℕ };

    ghost view = { λ s. s.numbers.items };
}

/// For each node the numbers of the messages to it, in the order in which they were added.
#[derive(Debug, Drop)]
pub struct Inboxes {
    map: BTreeMap<u64, Inbox>,
}

impl Model for Inboxes {
    ghost use Rattle.std.specs.Prelude.{List, ℕ};

    ghost Value = { List (ℕ × List ℕ) };

    ghost view = { λ s. s.map.entries };
}

/// Numbers of messages, ascending.
#[derive(Drop)]
pub struct MessageNumbers<'a> {
    inner: slice::Iter<'a, u64>,
}

impl Iterator for MessageNumbers<'_> {
    type Item = u64;

    ghost next_gives = { YieldsFirst numbers_left };

    ghost remaining = { item_count numbers_left };

    fn next(&mut self) -> Option<u64> {
        self.inner.next().copied()
    }
}

/// An inbox with one number.
fn inbox_with(alloc: Global, number: u64) -> Result<Inbox, AllocError>
    ensures { IfOk result (λ inbox. inbox ≡ number ∷ []) }
{
    let mut numbers = Vec::with_capacity(alloc, 1)?;
    numbers.push(number)?;
    Ok(Inbox { numbers })
}

impl Inboxes {
    /// No number.
    pub fn new(alloc: Global) -> Self
        ensures { result ≡ [] }
    {
        Inboxes {
            map: BTreeMap::new(alloc),
        }
    }

    /// The numbers of a node; where none was added, there are none.
    pub fn of(&self, id: u64) -> MessageNumbers<'_>
        ensures { numbers_left result ≡ inbox_of self.now id }
    {
        match self.map.get(&id) {
            Some(inbox) => MessageNumbers {
                inner: inbox.numbers.iter(),
            },
            None => MessageNumbers { inner: [].iter() },
        }
    }

    /// Adds a number at a node. Out of memory, all stay as they were.
    pub fn add(&mut self, alloc: Global, id: u64, number: u64) -> Result<(), AllocError>
        ensures ok { OnOk result (AddsNumbers id (number ∷ []) self.old self.new) }
        ensures err { OnErr result (AddsNumbers id [] self.old self.new) }
    {
        match self.map.get_mut(&id) {
            Some(inbox) => Ok(inbox.numbers.push(number)?),
            None => {
                self.map.insert(id, inbox_with(alloc, number)?)?;
                Ok(())
            }
        }
    }
}
