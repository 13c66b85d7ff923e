//! Large values in chunks, as a snapshot travels (Raft paper, section 7, figure 13): bytes in, bytes out, and no raft types.
//!
//! # The transfer
//!
//! - A [`Title`] tells one snapshot from another: its number, its length, and the sum of its bytes (CRC-32C).
//! - A [`Cursor`] is a place in a snapshot's bytes. A sender has one for each receiver, and sends the [`Chunk`] at it, again and
//!   again until an answer moves it on.
//! - A receiver has an [`Assembly`]. It takes a chunk if it begins where the ones before it end, and hands out the snapshot's bytes
//!   once all are there and have the title's length and sum. Its answer to each chunk, taken or refused, is the cursor from which
//!   the sender goes on.
//!
//! So a chunk may be lost, late, repeated or out of place, and either side may be away for long: a transfer goes on from where it was.
//! After a start a receiver has nothing, and its first answer leads the sender back to byte 0. It has one snapshot at a time: the first
//! chunk of another one replaces what was there of the one before.
//!
//! # The bytes
//!
//! Numbers are LEB128, in their shortest form.
//!
//! | Of a cursor | Of a chunk |
//! |--|--|
//! | the title's number, length and sum | the same |
//! | the offset | the same |
//! | | the number of its bytes, and these |
//! | 4 bytes: the CRC-32C of all in front, the lowest byte first | the same |
#![tactic(auto)]

mod assembly;
mod cursor;
mod error;
mod form;
mod laws;

pub use assembly::Assembly;
pub use cursor::{Chunk, Cursor, Title};
pub use error::{Refusal, TakeError};
pub use laws::{chunks_read_back, snapshots_arrive, snapshots_assemble};
