//! Snapshots' titles, places in their bytes, and what a sender sends.

ghost use Rattle.std.specs.Prelude.{ℕ, ◌≡◌, ◌<◌, ◌^◌, ◌++◌, List, length};
ghost use Rattle.raft_chunks.specs.Chunks.{chunk_at, followed, is_at_end, piece_of, same_title, start_of, title_of};

use raft_frames::{crc32c, crc32c_append};

/// What tells one snapshot from another.
#[derive(Clone, Copy, PartialEq, Eq, Debug)]
pub struct Title {
    /// How many entries the snapshot stands for, from index 0 on. Each node has that of none.
    pub number: u64,
    /// How many bytes it has.
    pub len: u64,
    /// The CRC-32C of its bytes.
    pub sum: u32,
}

impl Title {
    /// The title of a snapshot of so many entries, with these bytes.
    pub fn of(number: u64, bytes: &[u8]) -> Title
        ensures { result ≡ title_of number bytes.now }
    {
        Title {
            number,
            len: bytes.len() as u64,
            sum: crc32c(bytes),
        }
    }

    /// The title of a snapshot of which this is the front's, and `bytes` are the rest. It sums these alone.
    pub fn append(&self, bytes: &[u8]) -> Title
        ensures { (number : ℕ) → (front : List ℕ) → self.now ≡ title_of number front → length (front ++ bytes.now) < 2 ^ 64
            → result ≡ title_of number (front ++ bytes.now) }
    {
        Title {
            number: self.number,
            len: self.len.saturating_add(bytes.len() as u64),
            sum: crc32c_append(self.sum, bytes),
        }
    }

    /// Whether the two name the same snapshot.
    pub(crate) fn is_same(&self, other: &Title) -> bool
        ensures { result ≡ same_title self.now other.now }
    {
        self.number == other.number && self.len == other.len && self.sum == other.sum
    }
}

/// A place in a snapshot's bytes: where a receiver is, and where its sender goes on.
#[derive(Clone, Copy, PartialEq, Eq, Debug)]
pub struct Cursor {
    pub title: Title,
    /// How many of the snapshot's bytes stand in front of it.
    pub offset: u64,
}

/// A part of a snapshot's bytes.
#[derive(Clone, Copy, Debug)]
pub struct Chunk<'a> {
    /// Where it begins.
    pub at: Cursor,
    pub bytes: &'a [u8],
}

impl Cursor {
    /// In front of a snapshot's first byte.
    pub fn start(title: Title) -> Cursor
        ensures { result ≡ start_of title }
    {
        Cursor { title, offset: 0 }
    }

    /// Goes on from where the receiver is, if its answer is of the same snapshot.
    pub fn follow(&mut self, answer: &Cursor)
        ensures { self.new ≡ followed self.old answer.now }
    {
        if self.title.is_same(&answer.title) {
            self.offset = answer.offset;
        }
    }

    /// Whether all of the snapshot's bytes stand in front of it: the receiver has the snapshot.
    pub fn is_at_end(&self) -> bool
        ensures { result ≡ is_at_end self.now }
    {
        self.title.len <= self.offset
    }

    /// The chunk that begins here: at most so many of the bytes, which are the snapshot's.
    pub fn chunk<'a>(&self, bytes: &'a [u8], most: usize) -> Chunk<'a>
        ensures { piece_of result ≡ chunk_at self.now bytes.now most }
    {
        let rest = &bytes[bytes.len().min(self.offset as usize)..];
        Chunk {
            at: *self,
            bytes: &rest[..rest.len().min(most)],
        }
    }
}
