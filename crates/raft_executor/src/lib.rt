//! Executes the entries of a log: the state machine behind it is what executing them, from the first on, makes of an empty one.
//!
//! [`KeyValue`] is its state, of which a server's snapshots are made; an [`Executor`] keeps one, and tells what each request came to.
#![tactic(auto)]

mod executor;
mod key_value;
mod laws;

pub use executor::Executor;
pub use key_value::{KeyValue, SESSIONS};
pub use laws::{executing_goes_on, snapshots_are_what_was_executed};
