//! The slot of what a request asks: that of its first key.

ghost use Rattle.std.specs.Prelude.{◌≡◌};
ghost use Rattle.raft_connection.specs.Keys.{first_slot, first_pair_slot, query_slot, command_slot, work_slot};

use crate::hash_slots::hash_slot;
use crate::session::Work;
use raft_machine::{Command, Query};
use raft_state::Items;

/// The slot of the first of keys; 0 if there is none.
fn first_slot(keys: &[Items<u8>]) -> u16
    ensures { result ≡ first_slot keys.now }
{
    match keys.split_first() {
        Some((key, _)) => hash_slot(key.as_slice()),
        None => 0,
    }
}

/// The slot of the first of keys with values; 0 if there is none.
fn first_pair_slot(pairs: &[(Items<u8>, Items<u8>)]) -> u16
    ensures { result ≡ first_pair_slot pairs.now }
{
    match pairs.split_first() {
        Some((pair, _)) => hash_slot(pair.0.as_slice()),
        None => 0,
    }
}

/// The slot of a query's first key; 0 if it has none.
fn query_slot(query: &Query) -> u16
    ensures { result ≡ query_slot query.now }
{
    match query {
        Query::Get(key)
        | Query::Length(key)
        | Query::Remaining(key)
        | Query::RemainingSeconds(key)
        | Query::Deadline(key)
        | Query::DeadlineSeconds(key) => hash_slot(key.as_slice()),
        Query::GetMany(keys) | Query::Exists(keys) => first_slot(keys.as_slice()),
        Query::Size | Query::Scan(_) => 0,
    }
}

/// The slot of a command's first key; 0 if it has none.
fn command_slot(command: &Command) -> u16
    ensures { result ≡ command_slot command.now }
{
    match command {
        Command::Read(query) => query_slot(query),
        Command::Set { key, .. }
        | Command::CompareAndSet { key, .. }
        | Command::Append(key, _)
        | Command::Increment(key, _)
        | Command::Take(key)
        | Command::Expire { key, .. }
        | Command::Persist(key) => hash_slot(key.as_slice()),
        Command::SetMany(pairs) => first_pair_slot(pairs.as_slice()),
        Command::Delete(keys) => first_slot(keys.as_slice()),
    }
}

/// The slot of the first key that is asked for; 0 if there is none.
pub(crate) fn work_slot(work: &Work) -> u16
    ensures { result ≡ work_slot work.now }
{
    match work {
        Work::Query(query) => query_slot(query),
        Work::Command(_, command) => command_slot(command),
        Work::Transaction(_, commands) => match commands.as_slice().split_first() {
            Some((command, _)) => command_slot(command),
            None => 0,
        },
    }
}
