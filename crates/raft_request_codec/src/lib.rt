//! Requests for the state machine as bytes: what an entry of the log holds.
//!
//! A request has one form, and nothing else is read: a version, then its fields in their order. Numbers are in LEB128, bytes stand
//! behind their number, and a variant behind its tag.
#![tactic(auto)]

mod commands;
mod form;
mod laws;
mod options;
mod queries;
mod requests;

pub use laws::requests_are_read_back;
pub use requests::{decode_request, encode_request};
