//! A new log's bytes, which are put out in pieces: those of a large one at once would keep a caller from all else.

ghost use Rattle.std.specs.Prelude.{◌≡◌, ◌++◌, [], OnOk, drop, length, min, take};
ghost use Rattle.service_host.specs.Frames.{piece_of};
ghost use Rattle.service_host.specs.Pieces.{all_of, behind_piece, none_left};

use crate::frames::{OutputKind, write_head};
use raft_service::raft_packed_server::NewLog;
use std::alloc::{AllocError, Global};
use std::marker::Model;
use std::mem;

/// The most bytes of a piece: it is copied in less than a millisecond.
pub(crate) const MOST: usize = 1 << 18;

/// How many bytes are freed at a time: those of a gigabyte at once would take a fifth of a second.
const FREED: usize = 1 << 22;

/// What is left of some bytes.
#[derive(Drop)]
struct Part {
    bytes: Vec<u8>,
    /// How many of them were put out.
    at: usize,
}

impl Model for Part {
    ghost use Rattle.std.specs.Prelude.{ℕ, List, drop};

    ghost Value = { List ℕ };

    ghost view = { λ p. drop p.at p.bytes.items };
}

impl Part {
    /// None.
    fn none(alloc: Global) -> Self
        ensures { result ≡ [] }
    {
        Part::of(Vec::new(alloc))
    }

    /// All of these.
    fn of(bytes: Vec<u8>) -> Self
        ensures { result ≡ bytes.items }
    {
        Part { bytes, at: 0 }
    }

    /// How many are left.
    fn left(&self) -> usize
        ensures { result ≡ length self.now }
    {
        self.bytes.len().saturating_sub(self.at)
    }

    /// Appends the next ones, so many at most. An `Err` changes nothing here.
    fn put(&mut self, most: usize, out: &mut Vec<u8>) -> Result<(), AllocError>
        ensures out { OnOk result (out.new.items ≡ out.old.items ++ take most self.old) }
        ensures left { OnOk result (self.new ≡ drop most self.old) }
    {
        let count = most.min(self.left());
        if count == 0 {
            return Ok(());
        }
        let end = self.at + count;
        out.extend_from_slice(&self.bytes[self.at..end])?;
        self.at = end;
        Ok(())
    }

    /// None is left: the memory of all is the caller's.
    fn spend(&mut self) -> Vec<u8>
        ensures { self.new ≡ [] }
    {
        let none = Vec::new(*self.bytes.allocator());
        self.at = 0;
        mem::replace(&mut self.bytes, none)
    }
}

/// What is left of a new log's bytes, and where it begins in the log.
#[derive(Drop)]
pub(crate) struct Pieces {
    front: Part,
    snapshot: Part,
    rest: Part,
    at: u64,
    /// Bytes that were put out, or that nobody wants: their memory is freed little by little.
    spent: Vec<u8>,
}

impl Model for Pieces {
    ghost use Rattle.std.specs.Prelude.{◌++◌};
    ghost use Rattle.service_host.specs.Pieces.{Left};

    ghost Value = { Left };

    ghost view = { λ p. record { at = p.at; bytes = p.front ++ (p.snapshot ++ p.rest) } };
}

impl Pieces {
    /// None.
    pub(crate) fn none(alloc: Global) -> Self
        ensures { result ≡ none_left }
    {
        Pieces {
            front: Part::none(alloc),
            snapshot: Part::none(alloc),
            rest: Part::none(alloc),
            at: 0,
            spent: Vec::new(alloc),
        }
    }

    /// All of a new log's bytes, and none of the one before.
    pub(crate) fn begin(&mut self, log: NewLog)
        ensures { self.new ≡ all_of log }
    {
        let NewLog {
            front,
            snapshot,
            rest,
            ..
        } = log;
        self.spend();
        self.front = Part::of(front);
        self.snapshot = Part::of(snapshot);
        self.rest = Part::of(rest);
    }

    /// None any more.
    pub(crate) fn spend(&mut self)
        ensures { self.new ≡ none_left }
    {
        let spent = self.snapshot.spend();
        if self.spent.len() < spent.len() {
            self.spent = spent;
        }
        self.front.spend();
        self.rest.spend();
        self.at = 0;
    }

    /// Frees a little of what isn't needed any more.
    pub(crate) fn free_some(&mut self)
        ensures { self.new ≡ self.old }
    {
        if !self.spent.is_empty() {
            self.spent.truncate(self.spent.len().saturating_sub(FREED));
            self.spent.shrink_to_fit();
        }
    }

    /// Appends the next piece, if one is left. After an `Err` what is left isn't known.
    pub(crate) fn put(&mut self, out: &mut Vec<u8>) -> Result<(), AllocError>
        ensures out { OnOk result (out.new.items ≡ out.old.items ++ piece_of self.old.at (take MOST self.old.bytes)) }
        ensures left { OnOk result (self.new ≡ behind_piece self.old) }
    {
        let most_of_snapshot = MOST - self.front.left().min(MOST);
        let most_of_rest = most_of_snapshot - self.snapshot.left().min(most_of_snapshot);
        let count = MOST - (most_of_rest - self.rest.left().min(most_of_rest));
        if count == 0 {
            return Ok(());
        }
        let end = self.at.checked_add(count as u64).ok_or(AllocError)?;
        write_head(out, OutputKind::LogPiece, self.at, count as u32)?;
        self.front.put(MOST, out)?;
        self.snapshot.put(most_of_snapshot, out)?;
        self.rest.put(most_of_rest, out)?;
        self.at = end;
        Ok(())
    }
}
