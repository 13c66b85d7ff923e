//! A snapshot's state as the end of a frame's payload, encoded and summed in steps: a large one at once would keep a server from all else for
//! seconds.

ghost use Rattle.std.specs.Prelude.{ℕ, ◌≡◌, ◌++◌, ◌≤◌, IfErr, IfOk, IfSome, IsTrue, List, OnOk, length, take};
ghost use Rattle.raft_frames.specs.Crc.{crc32c};
ghost use Rattle.raft_frames.specs.Format.{sum_of};
ghost use Rattle.raft_packed.specs.Encodings.{IsBegun, IsFinished, IsOf, IsReached};
ghost use Rattle.raft_packed.specs.Kept.{summary_of, with_late, with_state};

use crate::machine::Machine;
use crate::packed::Packed;
use crate::place::Place;
use crate::summary::Summary;
use raft_frames::{MAX_FRAME, crc32c_append, front_sum};
use raft_store::Entry;
use std::alloc::{AllocError, Global};
use std::collections::VecDeque;
use std::marker::Model;
use std::num::NonZeroUsize;

/// The bytes of a front and, behind it, of a snapshot's state: a frame's payload, with the frame's sum.
#[derive(Debug, Drop)]
pub struct Encoded {
    pub bytes: Vec<u8>,
    pub sum: u32,
}

/// How much is done.
#[derive(Drop)]
enum Progress {
    /// The state's bytes up to a place.
    Encoded(Place),

    /// All of them; and this is the frame's sum, taken on through so many of the payload's bytes.
    Summed { sum: u32, len: usize },
}

/// The bytes of a front and, behind it, of a state up to a place: the payload of a frame behind one with the sum `before`.
struct Encoding {
    before: u32,
    front: Vec<u8>,
    bytes: Vec<u8>,
    progress: Progress,
}

// Written out, so that it is proved once: a derived one is laid out wherever one may be dropped.
impl Drop for Encoding {
    fn drop(self) {
        let Encoding {
            before: _,
            front: _,
            bytes: _,
            progress: _,
        } = self;
    }
}

/// A place is reached: at the end the sum begins, unless the payload is too long for a frame.
fn reached(before: u32, bytes: &[u8], at: Place) -> Progress
    ensures { IsReached before bytes.now at result }
{
    match at {
        Place::End if bytes.len() <= MAX_FRAME => Progress::Summed {
            sum: front_sum(before, bytes.len() as u32),
            len: 0,
        },
        at => Progress::Encoded(at),
    }
}

/// Takes a sum on, from behind so many bytes, through some `most` more: the sum, and how many bytes it is behind then.
fn sum_some(sum: u32, len: usize, bytes: &[u8], most: NonZeroUsize) -> (u32, usize)
    requires { len ≤ length bytes.now }
    ensures within { result.1 ≤ length bytes.now }
    ensures sum { (front : List ℕ) → sum ≡ crc32c (front ++ take len bytes.now)
        → result.0 ≡ crc32c (front ++ take result.1 bytes.now) }
{
    let end = len.saturating_add(most.get()).min(bytes.len());
    (crc32c_append(sum, &bytes[len..end]), end)
}

impl Encoding {
    /// Of nothing but the front; there is room for so many bytes.
    fn new(alloc: Global, before: u32, front: &[u8], room: usize) -> Result<Self, AllocError>
        ensures { IfOk result (λ made. IsBegun before front.now made) }
    {
        let mut bytes = Vec::with_capacity(alloc, room)?;
        bytes.extend_from_slice(front)?;
        let mut kept = Vec::new(alloc);
        kept.extend_from_slice(front)?;
        Ok(Encoding {
            before,
            front: kept,
            bytes,
            progress: Progress::Encoded(Place::Front),
        })
    }

    /// Whether it is of this front, in a frame behind one with this sum.
    fn is_of(&self, before: u32, front: &[u8]) -> bool
        ensures { IsTrue result → (self.now.before ≡ before) × (self.now.front.items ≡ front.now) }
    {
        self.before == before && *self.front == *front
    }

    /// Whether more is to be done. Nothing is, if it is too long for a frame.
    fn is_more(&self) -> bool {
        match &self.progress {
            Progress::Encoded(_) => self.bytes.len() <= MAX_FRAME,
            Progress::Summed { len, .. } => *len < self.bytes.len(),
        }
    }

    /// Encodes or sums some `most` bytes more.
    fn go_on<M: Machine>(self, state: &M, most: NonZeroUsize) -> Result<Self, AllocError>
        requires { IsOf M.codec M.left M.fits_left state.now self }
        ensures { IfOk result (λ next. IsOf M.codec M.left M.fits_left state.now next) }
    {
        if !self.is_more() {
            return Ok(self);
        }
        let Encoding {
            before,
            front,
            mut bytes,
            progress,
        } = self;
        let progress = match progress {
            Progress::Encoded(at) => {
                let next = state.encode_some(at, most, &mut bytes)?;
                reached(before, &bytes, next)
            }
            Progress::Summed { sum, len } => {
                let (sum, len) = sum_some(sum, len, &bytes, most);
                Progress::Summed { sum, len }
            }
        };
        Ok(Encoding {
            before,
            front,
            bytes,
            progress,
        })
    }

    /// The bytes with their frame's sum, if they are all encoded and summed, behind this front and in a frame behind one with this sum.
    fn finish(self, before: u32, front: &[u8]) -> Result<Encoded, Self>
        ensures ok { IfOk result (λ e. IsFinished before front.now self e) }
        ensures err { IfErr result (λ same. same ≡ self) }
    {
        if !self.is_of(before, front) {
            return Err(self);
        }
        let Encoding {
            before,
            front,
            bytes,
            progress,
        } = self;
        match progress {
            Progress::Summed { sum, len } if len >= bytes.len() => Ok(Encoded { bytes, sum }),
            progress => Err(Encoding {
                before,
                front,
                bytes,
                progress,
            }),
        }
    }
}

/// A snapshot, and what of its state is encoded: nothing, once that has changed.
pub(crate) struct Encodable<M: Machine> {
    snapshot: Packed<M>,
    encoding: Option<Encoding>,
}

// Written out, so that it is proved once: a derived one is laid out wherever one may be dropped.
impl<M: Machine> Drop for Encodable<M> {
    fn drop(self) {
        let Encodable {
            snapshot: _,
            encoding: _,
        } = self;
    }
}

impl<M: Machine> Model for Encodable<M> {
    ghost use Rattle.proof_packed_stores.specs.Stores.{Packed};

    ghost Value = { Packed M };

    ghost use Rattle.raft_packed.specs.Encodings.{IsOfSome};

    ghost view = { λ s. s.snapshot };

    ghost invariant = { λ s. IsOfSome M.codec M.left M.fits_left s.snapshot.state s.encoding };
}

impl<M: Machine> Encodable<M> {
    /// Nothing of the snapshot's state is encoded.
    pub(crate) fn new(snapshot: Packed<M>) -> Self
        ensures { result ≡ snapshot }
    {
        Encodable {
            snapshot,
            encoding: None,
        }
    }

    /// What is kept of the snapshot, but its state.
    pub(crate) fn summary(&self) -> &Summary
        ensures { result.now ≡ summary_of self.now }
    {
        self.snapshot.summary()
    }

    /// How many entries the snapshot has: the index of the next one.
    pub(crate) fn end(&self) -> u64
        ensures { result ≡ self.now.end }
    {
        self.snapshot.end()
    }

    /// The snapshot's state.
    pub(crate) fn state(&self) -> &M
        ensures { result.now ≡ self.now.state }
    {
        self.snapshot.state()
    }

    /// The snapshot's state alone.
    pub(crate) fn into_state(self) -> M
        ensures { result ≡ self.state }
    {
        let Encodable {
            snapshot,
            encoding: _,
        } = self;
        snapshot.into_state()
    }

    /// Takes what is kept of other entries, but keeps its state.
    pub(crate) fn take_summary(&mut self, summary: Summary)
        ensures { self.new ≡ with_state summary self.old.state }
    {
        self.snapshot.take_summary(summary);
    }

    /// Applies an entry to its state alone.
    pub(crate) fn apply(&mut self, entry: &Entry) -> Result<(), AllocError>
        ensures { OnOk result (self.new ≡ record self.old { state = M.application.apply self.old.state entry.now }) }
    {
        self.encoding = None;
        self.snapshot.apply(entry)
    }

    /// Applies entries to its state alone.
    pub(crate) fn apply_all(&mut self, entries: &VecDeque<Entry>) -> Result<(), AllocError>
        ensures { OnOk result (self.new ≡ with_late M.application self.old entries.now.items) }
    {
        if !entries.is_empty() {
            self.encoding = None;
            self.snapshot.apply_all(entries)?;
        }
        Ok(())
    }

    /// Encodes or sums some `most` bytes more, behind this front in a frame behind one with this sum: anew, if it was another front or sum.
    /// Answers whether more is left to be done. Out of memory, what was encoded is dropped.
    pub(crate) fn encode_some(
        &mut self,
        alloc: Global,
        before: u32,
        front: &[u8],
        room: usize,
        most: NonZeroUsize,
    ) -> Result<bool, AllocError>
        ensures { self.new ≡ self.old }
    {
        let begun = match self.encoding.take() {
            Some(begun) if begun.is_of(before, front) => begun,
            _ => Encoding::new(alloc, before, front, room)?,
        };
        let next = begun.go_on(self.snapshot.state(), most)?;
        let is_more = next.is_more();
        self.encoding = Some(next);
        Ok(is_more)
    }

    /// What is encoded behind this front, in a frame behind one with this sum, if all of it is, and summed: it is given away.
    pub(crate) fn take_encoded(&mut self, before: u32, front: &[u8]) -> Option<Encoded>
        ensures bytes { IfSome result (λ e. e.bytes.items ≡ front.now ++ M.codec.bytes self.old.state) }
        ensures fits { IfSome result (λ e. M.codec.fits self.old.state) }
        ensures sum { IfSome result (λ e. e.sum ≡ sum_of before e.bytes.items) }
        ensures same { self.new ≡ self.old }
    {
        match self.encoding.take()?.finish(before, front) {
            Ok(encoded) => Some(encoded),
            Err(same) => {
                self.encoding = Some(same);
                None
            }
        }
    }
}
