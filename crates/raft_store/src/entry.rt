//! The entries of the world's logs.

ghost use Rattle.std.specs.Prelude.{◌≡◌, ◌++◌, IfOk, OnOk, nat_eq};
ghost use Rattle.std.specs.Cmp.Lexicographic.{pointwise};
ghost use Rattle.raft_store.specs.Entries.{same_members, same_value, same_payload, same_entry};

use raft_state::{Items, LogId, Membership, RaftEntry};
use std::alloc::{AllocError, Global};

/// What a client proposes: a number, as schedules have it, or bytes, which mean something to a state machine alone.
#[derive(PartialEq, Eq, Debug, Drop)]
pub enum Value {
    Number(u64),
    Bytes(Items<u8>),
}

/// The payload of an entry: none, a value, or a membership.
#[derive(PartialEq, Eq, Debug, Drop)]
pub enum Payload {
    Blank,
    Value(Value),
    Membership(Membership<u64, ()>),
}

/// An entry of a log: its id and its payload.
#[derive(PartialEq, Eq, Debug, Drop)]
pub struct Entry {
    pub log_id: LogId<u64>,
    pub payload: Payload,
}

fn is_same_membership(one: &Membership<u64, ()>, other: &Membership<u64, ()>) -> bool
    ensures { result ≡ same_members one.now other.now }
{
    one == other
}

/// Whether the two are the same bytes.
fn is_same_bytes(one: &Items<u8>, other: &Items<u8>) -> bool
    ensures { result ≡ pointwise nat_eq one.now other.now }
{
    one == other
}

impl Value {
    /// Whether the two are the same value.
    fn is_same(&self, other: &Value) -> bool
        ensures { result ≡ same_value self.now other.now }
    {
        match (self, other) {
            (Value::Number(one), Value::Number(other)) => one == other,
            (Value::Bytes(one), Value::Bytes(other)) => is_same_bytes(one, other),
            _ => false,
        }
    }

    /// A copy of the value.
    pub fn copy(&self) -> Result<Value, AllocError>
        ensures { IfOk result (λ copied. copied ≡ self.now) }
    {
        match self {
            Value::Number(number) => Ok(Value::Number(*number)),
            Value::Bytes(bytes) => Ok(Value::Bytes(bytes.copy()?)),
        }
    }
}

impl Payload {
    fn is_same(&self, other: &Payload) -> bool
        ensures { result ≡ same_payload self.now other.now }
    {
        match (self, other) {
            (Payload::Blank, Payload::Blank) => true,
            (Payload::Value(one), Payload::Value(other)) => one.is_same(other),
            (Payload::Membership(one), Payload::Membership(other)) => {
                is_same_membership(one, other)
            }
            _ => false,
        }
    }

    fn copy(&self) -> Result<Payload, AllocError>
        ensures { IfOk result (λ copied. copied ≡ self.now) }
    {
        match self {
            Payload::Blank => Ok(Payload::Blank),
            Payload::Value(value) => Ok(Payload::Value(value.copy()?)),
            Payload::Membership(membership) => Ok(Payload::Membership(membership.copy()?)),
        }
    }
}

impl Entry {
    /// A copy of the entry.
    pub fn copy(&self, alloc: Global) -> Result<Entry, AllocError>
        ensures { IfOk result (λ copied. copied ≡ self.now) }
    {
        Ok(Entry {
            log_id: self.log_id,
            payload: self.payload.copy()?,
        })
    }

    /// Whether the two are the same entry.
    pub fn is_same(&self, other: &Entry) -> bool
        ensures { result ≡ same_entry self.now other.now }
    {
        self.log_id == other.log_id && self.payload.is_same(&other.payload)
    }
}

impl RaftEntry<u64, ()> for Entry {
    ghost use Rattle.std.specs.Prelude.{refl};
    ghost use Rattle.raft_store.specs.Entries.{members_of};
    ghost use Rattle.raft_store.specs.declared.entry.Payload.TheVariants.{Blank};

    ghost id_of = { λ e. e.log_id };

    ghost membership_of = { λ e. members_of e.payload };

    ghost blank = { λ id. record { log_id = id; payload = Blank } };

    ghost with_id = { λ e id. record e { log_id = id } };

    ghost blank_has = { λ id. (refl, refl) };

    ghost with_id_has = { λ e id. (refl, refl) };

    fn new_blank(log_id: LogId<u64>) -> Self
        ensures { result ≡ record { log_id = log_id; payload = Blank } }
    {
        Entry {
            log_id,
            payload: Payload::Blank,
        }
    }

    fn get_log_id(&self) -> &LogId<u64> {
        &self.log_id
    }

    fn set_log_id(&mut self, id: &LogId<u64>) {
        self.log_id = *id;
    }

    fn get_membership(&self) -> Option<&Membership<u64, ()>> {
        match &self.payload {
            Payload::Membership(membership) => Some(membership),
            _ => None,
        }
    }
}

/// Appends copies of entries.
pub fn push_copies(
    alloc: Global,
    from: &[Entry],
    entries: &mut Vec<Entry>,
) -> Result<(), AllocError>
    ensures { OnOk result (entries.new.items ≡ entries.old.items ++ from.now) }
{
    for entry in from {
        entries.push(entry.copy(alloc)?)?;
    }
    Ok(())
}

/// Copies of entries.
pub fn copy_entries(alloc: Global, from: &[Entry]) -> Result<Vec<Entry>, AllocError>
    ensures { IfOk result (λ copied. copied.items ≡ from.now) }
{
    let mut entries = Vec::with_capacity(alloc, from.len())?;
    push_copies(alloc, from, &mut entries)?;
    Ok(entries)
}
