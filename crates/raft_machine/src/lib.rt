//! The state machine of a replicated key-value service: a map of byte strings, with expiry and with client sessions, that any
//! client of Redis can speak to. It reads and writes nothing: bytes go in, and bytes come out.
#![tactic(auto)]

mod command;
mod cursors;
mod deadlines;
mod form;
mod forms;
mod key;
mod keyspace;
mod laws;
mod machine;
pub mod numbers;
mod place;
mod queries;
mod replies;
mod scans;
mod sessions;
mod stored;
mod table;
mod updates;

pub use command::{
    Command, Condition, ExpireCondition, Expiry, Failure, Page, Query, Reply, ScanOptions,
    SetOptions, SetReply,
};
pub use key::Key;
pub use keyspace::Keyspace;
pub use laws::{
    other_keys_stay, reads_see_what_is_set, repeats_change_nothing, scans_answer_each_key_once,
    scans_miss_no_key, states_are_read_back,
};
pub use machine::{Answered, Machine, Outcome, Request, Session};
pub use place::Place;
pub use raft_codec::{DecodeError, Fault};
pub use raft_state::Items;
pub use stored::Stored;
