//! Requests of clients without an answer, and their answers: what a server that replicates a log owes its clients.
//!
//! A write is answered once the entry that was proposed for it, or another at its index, is executed. A read is answered
//! once whatever was executed before it was proposed is executed here: it waits for the entry of a write that is proposed
//! before it in the same batch, or for one of its own, a marker without bytes (Raft dissertation, section 6.4: reads go
//! through the log). Each request that is taken has one answer, in the order in which they came.
#![tactic(auto)]

mod answer;
mod batch;
mod laws;
mod limits;
mod request;
mod requests;

pub use answer::{Answer, Reply, answer_at};
pub use batch::{Batch, Place};
pub use laws::{answers_are_true, each_request_is_answered_once};
pub use limits::{Limits, Refusal};
pub use request::{Operation, Proposal, Request, Token};
pub use requests::{Requests, fail};
