//! The ids of a log.

ghost use Rattle.std.specs.Prelude.{◌≡◌, ◌==◌, ◌∷◌, ◌++◌, ◌≤◌, [], true, length, slice_get, take, drop, IsTrue, OnOk, OnErr};
ghost use Rattle.std.specs.VecDeque.Iter.{deque_iter_rest, deque_iter_steps};
ghost use Rattle.std.specs.Iterator.Runs.{YieldsRefsInOrder};
ghost use Rattle.raft_state.specs.declared.ids.LogId.{LogId};
ghost use Rattle.raft_state.specs.Consecutive.{follows, follow_on};
ghost use Rattle.raft_state.specs.Log.{last, at, below, from};
ghost use Rattle.raft_state.specs.State.{first_of};

use crate::ids::{LeaderId, LogId};
use crate::node::NodeId;
use std::alloc::{AllocError, Global};
use std::collections::VecDeque;
use std::collections::vec_deque::Iter;
use std::marker::Model;

/// The log ids that a node keeps, oldest first: contracts see the list of them.
///
/// With consecutive indexes, as in every node's log, an id is found in constant time, and a truncation or a purge costs
/// what it removes. Without, each of them goes through the list.
#[derive(Debug, Drop)]
pub struct LogIds<NID> {
    ids: VecDeque<LogId<NID>>,
    // whether the indexes are known to be consecutive
    consecutive: bool,
}

impl<NID> Model for LogIds<NID> {
    ghost use Rattle.std.specs.Prelude.{List, None, true, ◌≡◌};
    ghost use Rattle.raft_state.specs.declared.ids.LogId.{LogId};
    ghost use Rattle.raft_state.specs.Consecutive.{follow_on};

    ghost Value = { List (LogId NID) };

    ghost view = { λ s. s.ids.items };

    ghost invariant = { λ s. s.consecutive ≡ true → follow_on None s.ids.items ≡ true };
}

impl<NID: PartialEq> PartialEq for LogIds<NID> {
    ghost use Rattle.std.specs.Cmp.Lexicographic.{pointwise, lists_per};
    ghost use Rattle.raft_state.specs.IdEquality.{log_id_eq, log_id_per};

    ghost eq = { pointwise (log_id_eq NID.eq) };

    ghost laws = { lists_per (log_id_per NID.eq NID.PartialEq.laws) };

    fn eq(&self, other: &LogIds<NID>) -> bool {
        self.ids == other.ids
    }
}

impl<NID: Eq> Eq for LogIds<NID> {
    ghost use Rattle.std.specs.Cmp.Lexicographic.{lists_equiv};
    ghost use Rattle.raft_state.specs.IdEquality.{log_id_equiv};

    ghost laws = { lists_equiv (log_id_equiv NID.eq NID.Eq.laws) };
}

impl<NID: NodeId> LogIds<NID> {
    /// The ids of an empty log. Allocates nothing.
    pub fn new(alloc: Global) -> Self
        ensures { result ≡ [] }
    {
        LogIds {
            ids: VecDeque::new(alloc),
            consecutive: true,
        }
    }

    /// Log ids from these, oldest first. Allocates nothing.
    pub fn from_vec(ids: Vec<LogId<NID>>) -> Self
        ensures { result ≡ ids.items }
    {
        let consecutive = is_consecutive(None, &ids);
        LogIds {
            ids: VecDeque::from_vec(ids),
            consecutive,
        }
    }

    pub(crate) fn allocator(&self) -> Global {
        *self.ids.allocator()
    }

    /// Whether there are no ids.
    pub fn is_empty(&self) -> bool
        ensures { result ≡ (length self.now == 0) }
    {
        self.ids.is_empty()
    }

    /// The number of ids.
    pub fn len(&self) -> usize
        ensures { result ≡ length self.now }
    {
        self.ids.len()
    }

    /// The ids, oldest first.
    pub fn iter(&self) -> Iter<'_, LogId<NID>>
        ensures rest { deque_iter_rest result ≡ self.now }
        ensures runs { YieldsRefsInOrder (deque_iter_steps {X = LogId NID}) deque_iter_rest }
    {
        self.ids.iter()
    }

    /// The last id.
    pub fn last(&self) -> Option<LogId<NID>>
        ensures { result ≡ last self.now }
    {
        self.ids.back().copied()
    }

    /// The id at an index.
    pub fn at(&self, index: u64) -> Option<LogId<NID>>
        ensures { result ≡ at self.now index }
    {
        if self.consecutive {
            id_by_place(&self.ids, index)
        } else {
            self.ids.iter().copied().find(|id| id.index == index)
        }
    }

    /// The first id of a leader.
    pub fn first_of(&self, leader: &LeaderId<NID>) -> Option<LogId<NID>>
        ensures { result ≡ first_of NID.cmp leader.now self.now }
    {
        self.ids.iter().copied().find(|id| id.leader_id == *leader)
    }

    /// Appends an id. Out of memory, nothing changes.
    pub fn push(&mut self, id: LogId<NID>) -> Result<(), AllocError>
        ensures ok { OnOk result (self.new ≡ self.old ++ id ∷ []) }
        ensures err { OnErr result (self.new ≡ self.old) }
    {
        let follows = is_next(&self.last(), id.index);
        self.ids.push_back(id)?;
        if !follows {
            self.consecutive = false;
        }
        Ok(())
    }

    /// Appends ids. Out of memory, nothing changes.
    pub fn extend(&mut self, ids: &[LogId<NID>]) -> Result<(), AllocError>
        ensures ok { OnOk result (self.new ≡ self.old ++ ids.now) }
        ensures err { OnErr result (self.new ≡ self.old) }
    {
        let follow = is_consecutive(self.last(), ids);
        push_all(&mut self.ids, ids)?;
        if !follow {
            self.consecutive = false;
        }
        Ok(())
    }

    /// Drops the ids at and above an index.
    pub fn truncate(&mut self, index: u64)
        ensures { self.new ≡ below index self.old }
    {
        if self.consecutive {
            let kept = count_below(&self.ids, index);
            self.ids.truncate(kept);
        } else {
            self.ids.retain(|id| id.index < index);
        }
    }

    /// Drops the ids below an index.
    pub fn drop_below(&mut self, index: u64)
        ensures { self.new ≡ from index self.old }
    {
        if self.consecutive {
            let dropped = count_below(&self.ids, index);
            drop_front(&mut self.ids, dropped);
        } else {
            self.ids.retain(|id| id.index >= index);
        }
    }
}

/// Whether an index is the one after an id's. Any index may be the first.
fn is_next<NID: NodeId>(previous: &Option<LogId<NID>>, index: u64) -> bool
    ensures { result ≡ follows previous.now index }
{
    match previous {
        Some(id) => id.index < index && index - id.index == 1,
        None => true,
    }
}

/// Whether the indexes of ids, and of the id before them, are consecutive.
fn is_consecutive<NID: NodeId>(before: Option<LogId<NID>>, ids: &[LogId<NID>]) -> bool
    ensures { result ≡ follow_on before ids.now }
{
    let mut previous = before;
    for id in ids {
        if !is_next(&previous, id.index) {
            return false;
        }
        previous = Some(*id);
    }
    true
}

/// The id at a place, counted from the first one.
fn id_at<NID: NodeId>(ids: &VecDeque<LogId<NID>>, place: usize) -> Option<LogId<NID>>
    ensures { result ≡ slice_get ids.now.items place }
{
    ids.get(place).copied()
}

/// The id at an index, by its place after the first one.
fn id_by_place<NID: NodeId>(ids: &VecDeque<LogId<NID>>, index: u64) -> Option<LogId<NID>>
    requires { follow_on None ids.now.items ≡ true }
    ensures { result ≡ at ids.now.items index }
{
    match id_at(ids, 0) {
        Some(first) => {
            if first.index <= index {
                id_at(ids, (index - first.index) as usize)
            } else {
                None
            }
        }
        None => None,
    }
}

/// The number of ids below an index.
fn count_below<NID: NodeId>(ids: &VecDeque<LogId<NID>>, index: u64) -> usize
    requires { follow_on None ids.now.items ≡ true }
    ensures below { take result ids.now.items ≡ below index ids.now.items }
    ensures from { drop result ids.now.items ≡ from index ids.now.items }
    ensures bound { result ≤ length ids.now.items }
{
    match id_at(ids, 0) {
        Some(first) => {
            if first.index < index {
                ids.len().min((index - first.index) as usize)
            } else {
                0
            }
        }
        None => 0,
    }
}

/// Appends items.
fn push_all<T: Copy>(items: &mut VecDeque<T>, more: &[T]) -> Result<(), AllocError>
    ensures ok { OnOk result (items.new.items ≡ items.old.items ++ more.now) }
    ensures err { OnErr result (items.new.items ≡ items.old.items) }
{
    items.reserve(more.len())?;
    for item in more {
        items.push_back_reserved(*item);
    }
    Ok(())
}

/// Drops the first items.
fn drop_front<T: Copy>(items: &mut VecDeque<T>, count: usize)
    ensures { items.new.items ≡ drop count items.old.items }
{
    for _ in 0..count {
        items.pop_front();
    }
}
