//! Reads that need no entry in the log: who waits, and the rounds by which they are answered.
#![tactic(auto)]

mod reads;

pub use reads::{Question, Reader, Reads, Round};
