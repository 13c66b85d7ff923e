//! The requests that wait for an answer, or whose answers wait for those before them.

ghost use Rattle.std.specs.Prelude.{◌≡◌, ◌<◌, [], length, nat_le, Some, None, OnOk, MatchOption};
ghost use Rattle.std.specs.List.{slice_get};
ghost use Rattle.raft_connection.specs.Pending.{number_of, place_of, waiting_at, is_first_ready, ready_len, ready_total, with_slot};
ghost use Rattle.raft_connection.specs.Pending.{filled, first_ready};

use crate::queue::Queue;
use raft_resp::Protocol;
use raft_state::Items;
use std::alloc::{AllocError, Global};

/// How many replies the state machine gives.
#[derive(Clone, Copy, Debug, PartialEq, Eq)]
pub(crate) enum Replies {
    One,
    /// As many as a transaction has commands, as one array.
    Array(usize),
}

/// What is known of a request that waits for its answer.
#[derive(Clone, Copy, Debug, PartialEq, Eq)]
pub(crate) struct Waiting {
    /// The version that its answer is written in.
    pub(crate) protocol: Protocol,
    pub(crate) replies: Replies,
    /// The slot of its first key.
    pub(crate) slot: u16,
}

/// A request's place in the queue.
#[derive(Debug, Drop)]
pub(crate) enum Slot {
    /// It waits for its answer.
    Waits(Waiting),
    /// Its answer's bytes.
    Ready(Items<u8>),
}

/// Requests, in their order. Their numbers follow one another, and go round at 2^64.
#[derive(Debug, Drop)]
pub(crate) struct Pending {
    /// The number of the first one.
    pub(crate) first: u64,
    pub(crate) slots: Queue<Slot>,
}

impl Pending {
    pub(crate) fn new(alloc: Global) -> Self
        ensures { result ≡ record { first = 0; slots = [] } }
    {
        Pending {
            first: 0,
            slots: Queue::new(alloc),
        }
    }

    pub(crate) fn len(&self) -> usize
        ensures { result ≡ length self.now.slots }
    {
        self.slots.len()
    }

    /// The number of the next request.
    pub(crate) fn next_number(&self) -> u64
        ensures { result ≡ number_of self.now (length self.now.slots) }
    {
        self.first.wrapping_add(self.slots.len() as u64)
    }

    /// One more request.
    pub(crate) fn push(&mut self, slot: Slot) -> Result<(), AllocError>
        ensures { OnOk result (self.new ≡ with_slot self.old slot) }
    {
        self.slots.push(slot)
    }

    /// The place of a number.
    fn place_of(&self, number: u64) -> usize
        ensures { result ≡ place_of self.now number }
    {
        number.wrapping_sub(self.first) as usize
    }

    /// What is known of the request of a number, if it waits.
    pub(crate) fn waiting(&self, number: u64) -> Option<Waiting>
        ensures { result ≡ waiting_at self.now number }
    {
        match self.slots.get(self.place_of(number)) {
            Some(Slot::Waits(waiting)) => Some(*waiting),
            _ => None,
        }
    }

    /// Answers the request of a number.
    pub(crate) fn fill(&mut self, number: u64, bytes: Items<u8>)
        requires { place_of self.old number < length self.old.slots }
        ensures { self.new ≡ filled self.old number bytes }
    {
        let place = self.place_of(number);
        self.slots.set(place, Slot::Ready(bytes));
    }

    /// How many bytes the answer at a place has, if it is there.
    fn ready_len(&self, place: usize) -> usize
        ensures { result ≡ ready_len (slice_get self.now.slots place) }
    {
        match self.slots.get(place) {
            Some(Slot::Ready(bytes)) => bytes.as_slice().len(),
            _ => 0,
        }
    }

    /// Whether the answers that are there have so many bytes or more.
    #[tactic(auto, using(crate::proofs::Waiting::total_from, std::proofs::lemmas::List::drop_all))]
    pub(crate) fn holds(&self, count: usize) -> bool
        ensures { result ≡ nat_le count (ready_total self.now.slots) }
    {
        let mut left = count;
        for place in 0..self.slots.len() {
            let len = self.ready_len(place);
            if len >= left {
                return true;
            }
            left -= len;
        }
        left == 0
    }

    fn is_first_ready(&self) -> bool
        ensures { result ≡ is_first_ready self.now.slots }
    {
        match self.slots.get(0) {
            Some(Slot::Ready(_)) => true,
            _ => false,
        }
    }

    /// Takes the first request's answer, if it is there.
    pub(crate) fn pop_ready(&mut self) -> Option<Items<u8>>
        ensures { MatchOption result ((first_ready self.old ≡ None) × (self.new ≡ self.old)) (λ bytes. first_ready self.old ≡ Some (bytes, self.new)) }
    {
        if !self.is_first_ready() {
            return None;
        }
        match self.slots.pop() {
            Some(Slot::Ready(bytes)) => {
                self.first = self.first.wrapping_add(1);
                Some(bytes)
            }
            _ => None,
        }
    }
}
