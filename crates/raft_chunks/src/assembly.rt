//! What a receiver has of a snapshot.

ghost use Rattle.std.specs.Prelude.{◌≡◌, [], IfOk, IfSome, Some, OnOk, OnErr};
ghost use Rattle.raft_chunks.specs.Assembly.{cursor_of, finished, joined, refusal_of, taken, wanted, Takes, Finishes};
ghost use Rattle.raft_chunks.specs.Chunks.{piece_of};

use crate::cursor::{Chunk, Cursor, Title};
use crate::error::{Refusal, TakeError};
use raft_frames::crc32c;
use std::alloc::{AllocError, Global};
use std::marker::Model;

/// For how many bytes there is room at first, at most: a title may claim more than there are.
const MOST_ROOM: u64 = 1 << 32;

/// A snapshot as far as its chunks came: contracts see `Assembled` of specs/Assembly.antt.
#[derive(Debug, Drop)]
pub struct Assembly {
    held: u64,
    title: Title,
    bytes: Vec<u8>,
}

impl Model for Assembly {
    ghost use Rattle.raft_chunks.specs.Assembled.{Assembled};

    ghost Value = { Assembled };

    ghost view = { λ a. record { held = a.held; title = a.title; bytes = a.bytes.items } };
}

/// Room for a snapshot's bytes, if memory has it: so none of them is moved as they come.
fn room_for(alloc: Global, title: &Title) -> Vec<u8>
    ensures { result.items ≡ [] }
{
    match Vec::with_capacity(alloc, title.len.min(MOST_ROOM) as usize) {
        Ok(bytes) => bytes,
        Err(_) => Vec::new(alloc),
    }
}

impl Assembly {
    ghost use Rattle.raft_chunks.specs.Assembly.{nothing};

    /// Nothing yet, at a node that has the snapshot of `held` entries.
    pub fn new(alloc: Global, held: u64) -> Assembly
        ensures { result ≡ nothing held }
    {
        Assembly {
            held,
            title: Title {
                number: 0,
                len: 0,
                sum: 0,
            },
            bytes: Vec::new(alloc),
        }
    }

    /// How many of a snapshot's bytes are there: all of them if one of as many entries was handed out.
    fn wanted(&self, title: &Title) -> u64
        ensures { result ≡ wanted self.now title.now }
    {
        if title.number <= self.held {
            title.len
        } else if self.title.is_same(title) {
            self.bytes.len() as u64
        } else {
            0
        }
    }

    /// Where a sender of this snapshot goes on: the answer to each chunk of it.
    pub fn cursor(&self, title: Title) -> Cursor
        ensures { result ≡ cursor_of self.now title }
    {
        Cursor {
            title,
            offset: self.wanted(&title),
        }
    }

    /// Why a chunk doesn't fit.
    fn refusal(&self, chunk: &Chunk<'_>) -> Option<Refusal>
        ensures { result ≡ refusal_of self.now (piece_of chunk.now) }
    {
        let title = &chunk.at.title;
        if title.number <= self.held {
            return Some(Refusal::Held);
        }
        let offset = chunk.at.offset;
        if offset != self.wanted(title) {
            return Some(Refusal::Misplaced);
        }
        if title.len < offset || title.len - offset < chunk.bytes.len() as u64 {
            return Some(Refusal::TooLong);
        }
        None
    }

    /// Appends a chunk to those of the same snapshot, or begins another one with it. An `Err` changes nothing.
    fn join(&mut self, chunk: &Chunk<'_>) -> Result<(), AllocError>
        ensures ok { OnOk result (self.new ≡ joined self.old (piece_of chunk.now)) }
        ensures err { OnErr result (self.new ≡ self.old) }
    {
        if self.title.is_same(&chunk.at.title) {
            return self.bytes.extend_from_slice(chunk.bytes);
        }
        let mut bytes = room_for(*self.bytes.allocator(), &chunk.at.title);
        bytes.extend_from_slice(chunk.bytes)?;
        self.title = chunk.at.title;
        self.bytes = bytes;
        Ok(())
    }

    /// The snapshot's bytes, if all are there.
    fn finish(&mut self) -> Result<Option<Vec<u8>>, Refusal>
        ensures { Finishes result (finished self.old) self.new }
    {
        if (self.bytes.len() as u64) < self.title.len {
            return Ok(None);
        }
        let alloc = *self.bytes.allocator();
        let bytes = std::mem::replace(&mut self.bytes, Vec::new(alloc));
        if crc32c(&bytes) != self.title.sum {
            return Err(Refusal::Damaged);
        }
        self.held = self.title.number;
        Ok(Some(bytes))
    }

    /// Takes a chunk, and hands out the snapshot's bytes with its last one. An `Err` changes nothing, but for the last:
    ///
    /// - [`Refusal::Held`]: a snapshot of as many entries or more is there.
    /// - [`Refusal::Misplaced`]: the chunk doesn't begin where those before it end; that of another snapshot at byte 0.
    /// - [`Refusal::TooLong`]: it goes past the snapshot's end.
    /// - [`TakeError::OutOfMemory`].
    /// - [`Refusal::Damaged`]: it was the last one, and the bytes don't have the title's sum. They are let go.
    pub fn take(&mut self, chunk: &Chunk<'_>) -> Result<Option<Vec<u8>>, TakeError>
        ensures { Takes result (taken self.old (piece_of chunk.now)) self.old self.new }
    {
        if let Some(refusal) = self.refusal(chunk) {
            return Err(TakeError::Refused(refusal));
        }
        self.join(chunk)?;
        Ok(self.finish()?)
    }
}
