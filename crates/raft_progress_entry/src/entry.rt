//! What a leader knows of a target's log, and what is in flight to it.

ghost use Rattle.std.specs.Prelude.{◌≡◌, ◌+◌, ◌<◌, ◌^◌, is_none, OnOk, IfErr};
ghost use Rattle.raft_error.specs.raft_state.Order.{next};
ghost use Rattle.raft_error.specs.raft_state.Fits.{is_within};
ghost use Rattle.raft_error.specs.raft_state.Log.{last};
ghost use Rattle.raft_progress_entry.specs.Entry.{logs, with_id, inflight_id, is_my_id, empty, begins_at, acknowledges, remaining};
ghost use Rattle.raft_progress_entry.specs.Entry.{matched, conflicted, refusals_of_matched, refusals_of_conflicted};
ghost use Rattle.raft_progress_entry.specs.Entry.{is_log_range_inflight, search_start, before, next_send, sent};

use raft_error::EngineError;
use raft_error::raft_state::{DisplayOption, LogId, Node, NodeId, RaftState, next_index, reaches};
use std::fmt;

/// The log ids above `prev`, up to and with `last`: `(prev, last]`, as openraft's `LogIdRange`.
#[derive(Clone, Copy, PartialEq, Eq, Debug)]
pub struct LogIdRange<NID> {
    /// The id before the first one of the range; None if the range begins at index 0.
    pub prev: Option<LogId<NID>>,
    /// The last id of the range.
    pub last: Option<LogId<NID>>,
}

impl<NID: NodeId> LogIdRange<NID> {
    /// The range `(prev, last]`.
    pub fn new(prev: Option<LogId<NID>>, last: Option<LogId<NID>>) -> Self
        ensures { result ≡ record { prev = prev; last = last } }
    {
        LogIdRange { prev, last }
    }
}

impl<NID: NodeId> fmt::Display for LogIdRange<NID> {
    ghost use Rattle.raft_progress_entry.specs.Texts.{range_text};

    ghost output = { range_text NID.output };

    fn fmt<W: fmt::Write>(&self, f: &mut fmt::Formatter<W>) -> fmt::Result {
        let prev = DisplayOption(self.prev);
        let last = DisplayOption(self.last);
        write!(f, "({prev}, {last}]")
    }
}

/// What is in flight to a target, under a number of its own: openraft's `Inflight`.
#[derive(Clone, Copy, PartialEq, Eq, Debug)]
pub enum Inflight<NID> {
    /// Nothing.
    None,
    /// The entries of a range of log ids.
    Logs {
        id: u64,
        log_id_range: LogIdRange<NID>,
    },
    /// A snapshot, with the last log id that it includes.
    Snapshot {
        id: u64,
        last_log_id: Option<LogId<NID>>,
    },
}

impl<NID: NodeId> Inflight<NID> {
    /// The entries of `(prev, last]` under the number 0; nothing if `prev` isn't below `last`.
    pub fn logs(prev: Option<LogId<NID>>, last: Option<LogId<NID>>) -> Self
        ensures { result ≡ logs NID.cmp prev last }
    {
        if prev < last {
            Inflight::Logs {
                id: 0,
                log_id_range: LogIdRange::new(prev, last),
            }
        } else {
            Inflight::None
        }
    }

    /// A snapshot that ends with this id, under the number 0.
    pub fn snapshot(last_log_id: Option<LogId<NID>>) -> Self
        ensures { result ≡ Inflight.Snapshot 0 last_log_id }
    {
        Inflight::Snapshot { id: 0, last_log_id }
    }

    /// The same with another number; nothing stays nothing.
    pub fn with_id(self, id: u64) -> Self
        ensures { result ≡ with_id self id }
    {
        match self {
            Inflight::None => Inflight::None,
            Inflight::Logs { log_id_range, .. } => Inflight::Logs { id, log_id_range },
            Inflight::Snapshot { last_log_id, .. } => Inflight::Snapshot { id, last_log_id },
        }
    }

    /// Its number, if something is in flight.
    pub fn get_id(&self) -> Option<u64>
        ensures { result ≡ inflight_id self.now }
    {
        match self {
            Inflight::None => None,
            Inflight::Logs { id, .. } => Some(*id),
            Inflight::Snapshot { id, .. } => Some(*id),
        }
    }

    /// Whether something is in flight under this number.
    pub fn is_my_id(&self, id: u64) -> bool
        ensures { result ≡ is_my_id self.now id }
    {
        self.get_id() == Some(id)
    }

    /// Whether nothing is in flight.
    pub fn is_none(&self) -> bool
        ensures { result ≡ is_none (inflight_id self.now) }
    {
        self.get_id().is_none()
    }

    /// Whether the target may acknowledge an id: one of the range, its beginning included, or the snapshot's last.
    fn acknowledges(&self, id: &Option<LogId<NID>>) -> bool
        ensures { result ≡ acknowledges NID.cmp self.now id.now }
    {
        match self {
            Inflight::None => false,
            Inflight::Logs { log_id_range, .. } => {
                id.is_some()
                    && is_within(&log_id_range.prev, id)
                    && is_within(id, &log_id_range.last)
            }
            Inflight::Snapshot { last_log_id, .. } => id == last_log_id,
        }
    }

    /// Whether a range is in flight that begins after the id at this index.
    fn begins_at(&self, index: u64) -> bool
        ensures { result ≡ begins_at self.now index }
    {
        match self {
            Inflight::Logs { log_id_range, .. } => match log_id_range.prev {
                Some(prev) => prev.index == index,
                None => false,
            },
            _ => false,
        }
    }

    /// What is still in flight after the target has acknowledged an id.
    fn remaining(&self, id: &Option<LogId<NID>>) -> Self
        ensures { result ≡ remaining NID.cmp self.now id.now }
    {
        match self {
            Inflight::Logs {
                id: number,
                log_id_range,
            } if id != &log_id_range.last => Inflight::Logs {
                id: *number,
                log_id_range: LogIdRange::new(*id, log_id_range.last),
            },
            _ => Inflight::None,
        }
    }
}

/// Whether `a` is at or below `b`, by id and by index.
fn is_within<NID: NodeId>(a: &Option<LogId<NID>>, b: &Option<LogId<NID>>) -> bool
    ensures { result ≡ is_within NID.cmp a.now b.now }
{
    let index = match a {
        Some(id) => reaches(b, id.index),
        None => true,
    };
    a <= b && index
}

/// What a leader knows of a target's log, and what is in flight to it: openraft's `ProgressEntry` (Raft paper, section
/// 5.3: `nextIndex` and `matchIndex`).
#[derive(Clone, Copy, PartialEq, Eq, Debug)]
pub struct ProgressEntry<NID> {
    /// The last id up to which the target's log is known to match.
    pub matching: Option<LogId<NID>>,
    /// One above the greatest index at which the target's log may still match.
    pub searching_end: u64,
    /// What is in flight to the target.
    pub inflight: Inflight<NID>,
    /// The last number under which something was sent; 0 at first.
    pub last_inflight_id: u64,
}

impl<NID: NodeId> ProgressEntry<NID> {
    /// The entry of a target of which nothing is known, to be searched below an index.
    pub fn empty(end: u64) -> Self
        ensures { result ≡ empty end }
    {
        ProgressEntry {
            matching: None,
            searching_end: end,
            inflight: Inflight::None,
            last_inflight_id: 0,
        }
    }

    /// Whether an id is in the range in flight.
    pub fn is_log_range_inflight(&self, upto: &Option<LogId<NID>>) -> bool
        ensures { result ≡ is_log_range_inflight NID.cmp self.now upto.now }
    {
        match &self.inflight {
            Inflight::Logs { log_id_range, .. } => {
                log_id_range.prev < *upto && *upto <= log_id_range.last
            }
            _ => false,
        }
    }

    /// Handles the acknowledgement of the request with a number: the target's log matches up to this id.
    ///
    /// Refusals, with nothing changed, in this order:
    /// - `ForeignInflight` if the number isn't that of the request in flight,
    /// - `OutsideInflight` if the id is outside of what is in flight.
    pub fn update_matching<N: Node>(
        &mut self,
        request_id: u64,
        matching: Option<LogId<NID>>,
    ) -> Result<(), EngineError<NID, N>>
        requires { next matching < 2 ^ 64 }
        ensures done { OnOk result ((refusals_of_matched {N = N} NID.cmp self.old request_id matching ≡ None)
            × (self.new ≡ matched NID.cmp self.old matching)) }
        ensures refused { IfErr result (λ e. (refusals_of_matched NID.cmp self.old request_id matching ≡ Some e)
            × (self.new ≡ self.old)) }
    {
        if !self.inflight.is_my_id(request_id) {
            return Err(EngineError::ForeignInflight);
        }
        if !self.inflight.acknowledges(&matching) {
            return Err(EngineError::OutsideInflight);
        }
        self.inflight = self.inflight.remaining(&matching);
        self.searching_end = self.searching_end.max(next_index(&matching));
        self.matching = matching;
        Ok(())
    }

    /// Handles a conflict: the target doesn't hold the id at this index. With a number it answers the request with that
    /// number, which then is no longer in flight.
    ///
    /// Refusals, with nothing changed, in this order:
    /// - `ForeignInflight` if the number isn't that of the request in flight,
    /// - `OutsideInflight` if the index isn't that of the id before the range in flight, or, without a number, isn't
    ///   below the end of the search,
    /// - `LogReverted` if the target has acknowledged an id at or above it.
    pub fn update_conflicting<N: Node>(
        &mut self,
        request_id: Option<u64>,
        conflict: u64,
    ) -> Result<(), EngineError<NID, N>>
        ensures done { OnOk result ((refusals_of_conflicted {N = N} self.old request_id conflict ≡ None)
            × (self.new ≡ conflicted self.old request_id conflict)) }
        ensures refused { IfErr result (λ e. (refusals_of_conflicted self.old request_id conflict ≡ Some e)
            × (self.new ≡ self.old)) }
    {
        if let Some(id) = request_id
            && !self.inflight.is_my_id(id)
        {
            return Err(EngineError::ForeignInflight);
        }
        let is_inside = match request_id {
            Some(_) => self.inflight.begins_at(conflict),
            None => conflict < self.searching_end,
        };
        if !is_inside {
            return Err(EngineError::OutsideInflight);
        }
        if reaches(&self.matching, conflict) {
            return Err(EngineError::LogReverted);
        }
        if request_id.is_some() {
            self.inflight = Inflight::None;
        }
        self.searching_end = self.searching_end.min(conflict);
        Ok(())
    }

    /// Chooses what the target is sent next, of at most `max_entries` entries, and records it as in flight.
    ///
    /// `Ok`: it is sent under the next number; the snapshot, if the target may need ids that are to be purged, else a
    /// range of entries from where the search goes on. `Err`: nothing is sent, as this is still in flight, or, with
    /// `Inflight::None`, as the target has all entries.
    pub fn next_send<N: Node>(
        &mut self,
        state: &RaftState<NID, N>,
        max_entries: u64,
    ) -> Result<Inflight<NID>, Inflight<NID>>
        requires number { self.old.last_inflight_id + 1 < 2 ^ 64 }
        requires matching { next self.old.matching < 2 ^ 64 }
        requires last { next (last state.now.ids) < 2 ^ 64 }
        ensures answer { result ≡ next_send state.now max_entries self.old }
        ensures entry { self.new ≡ sent self.old (next_send state.now max_entries self.old) }
    {
        let next = self.choose(state, max_entries)?;
        self.inflight = next;
        self.last_inflight_id += 1;
        Ok(next)
    }

    /// What is sent next.
    fn choose<N: Node>(
        &self,
        state: &RaftState<NID, N>,
        max_entries: u64,
    ) -> Result<Inflight<NID>, Inflight<NID>>
        requires number { self.now.last_inflight_id + 1 < 2 ^ 64 }
        requires matching { next self.now.matching < 2 ^ 64 }
        requires last { next (last state.now.ids) < 2 ^ 64 }
        ensures { result ≡ next_send state.now max_entries self.now }
    {
        if !self.inflight.is_none() {
            return Err(self.inflight);
        }
        let id = self.last_inflight_id + 1;
        if reaches(&state.purge_to, self.searching_end) {
            return Ok(Inflight::Snapshot {
                id,
                last_log_id: state.snap.last_log_id,
            });
        }
        let start = self.search_start().max(next_index(&state.purge_to));
        let end = start
            .saturating_add(max_entries)
            .min(next_index(&state.last_log_id()));
        if start == end {
            return Err(Inflight::None);
        }
        Ok(Inflight::Logs {
            id,
            log_id_range: LogIdRange::new(id_before(state, start), id_before(state, end)),
        })
    }

    /// The index at which the search for the last matching id goes on: halfway, in steps of eight.
    fn search_start(&self) -> u64
        requires { next self.now.matching < 2 ^ 64 }
        ensures { result ≡ search_start self.now }
    {
        let matching_end = next_index(&self.matching);
        let distance = self.searching_end.saturating_sub(matching_end);
        matching_end + distance / 16 * 8
    }
}

/// The id before an index.
fn id_before<NID: NodeId, N: Node>(state: &RaftState<NID, N>, index: u64) -> Option<LogId<NID>>
    ensures { result ≡ before state.now.ids index }
{
    if index == 0 {
        None
    } else {
        state.get_log_id(index - 1)
    }
}
