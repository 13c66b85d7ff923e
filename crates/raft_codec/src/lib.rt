//! Numbers and bytes as bytes: what a message, a record and a snapshot are made of.
#![tactic(auto)]

mod error;
mod reader;
mod writing;

pub use error::{DecodeError, Fault};
pub use reader::Reader;
pub use writing::{write_number, write_raw};
