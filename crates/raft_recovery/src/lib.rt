//! A way on: events after which nodes of a world have executed a new value, or what they lack.
#![tactic(auto)]

mod error;
mod judge;
pub mod laws;
mod messages;
mod plan;
mod premises;
mod recovery;
mod scratch;
mod search;
mod simulation;
mod starting;
mod words;

pub use error::{Failure, RecoveryError};
pub use recovery::{Recovery, recover};
pub use simulation::{simulate_recovery, simulate_recovery_into};
pub use words::simulate_words;
