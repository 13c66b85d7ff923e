//! A queue that contracts see as the list of its items.

ghost use Rattle.std.specs.Prelude.{◌≡◌, ◌<◌, [], ◌++◌, ◌∷◌, length, slice_set, option_map, OnOk, MatchOption};
ghost use Rattle.std.specs.List.{slice_get};

use std::alloc::{AllocError, Global};
use std::collections::VecDeque;
use std::marker::Model;

/// A queue.
#[derive(Debug, Drop)]
pub(crate) struct Queue<T> {
    items: VecDeque<T>,
}

impl<T> Model for Queue<T> {
    ghost use Rattle.std.specs.Prelude.{List};

    ghost Value = { List T };

    ghost view = { λ q. q.items.items };
}

impl<T: Drop> Queue<T> {
    /// An empty queue. Allocates nothing.
    pub(crate) fn new(alloc: Global) -> Self
        ensures { result ≡ [] }
    {
        Queue {
            items: VecDeque::new(alloc),
        }
    }

    pub(crate) fn len(&self) -> usize
        ensures { result ≡ length self.now }
    {
        self.items.len()
    }

    /// Appends an item. Out of memory, the item is dropped.
    pub(crate) fn push(&mut self, item: T) -> Result<(), AllocError>
        ensures { OnOk result (self.new ≡ self.old ++ item ∷ []) }
    {
        Ok(self.items.push_back(item)?)
    }

    /// Takes the first item.
    pub(crate) fn pop(&mut self) -> Option<T>
        ensures { MatchOption result ((self.old ≡ []) × (self.new ≡ [])) (λ item. self.old ≡ item ∷ self.new) }
    {
        self.items.pop_front()
    }

    /// Puts an item in the place of another.
    pub(crate) fn set(&mut self, place: usize, item: T)
        requires { place < length self.old }
        ensures { self.new ≡ slice_set self.old place item }
    {
        self.items[place] = item;
    }

    pub(crate) fn get(&self, place: usize) -> Option<&T>
        ensures { option_map (λ item. item.now) result ≡ slice_get self.now place }
    {
        self.items.get(place)
    }
}
