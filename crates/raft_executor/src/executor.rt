//! The state machine, which executes the entries of the log.

ghost use Rattle.std.specs.Prelude.{◌≡◌, IfOk, OnOk};
ghost use Rattle.std.specs.Option.{option_copied};
ghost use Rattle.raft_machine.specs.Commands.{answer};
ghost use Rattle.raft_store.specs.Entries.{members_of};
ghost use Rattle.raft_executor.specs.Executor.{begun, executed, executed_of, held, installed, latest, without_outcome};

use crate::key_value::KeyValue;
use raft_machine::{Outcome, Query, Reply};
use raft_packed::{Machine, Packed};
use raft_state::{LogId, Membership, StoredMembership};
use raft_store::{Entry, Payload};
use std::alloc::{AllocError, Global};

/// The state machine, and what the request of the last entry came to, until that is taken.
#[derive(Drop)]
pub struct Executor {
    machine: KeyValue,
    outcome: Option<Outcome>,
    /// The id of the last entry.
    applied: Option<LogId<u64>>,
    /// The members of the last entry that has some.
    members: Option<Membership<u64, ()>>,
}

/// Notes the members of a payload, if it has some.
fn note_members(
    payload: &Payload,
    members: &mut Option<Membership<u64, ()>>,
) -> Result<(), AllocError>
    ensures { OnOk result (members.new ≡ latest (members_of payload.now) members.old) }
{
    if let Payload::Membership(membership) = payload {
        *members = Some(membership.copy()?);
    }
    Ok(())
}

/// The members, unless no entry had some.
fn members_held(stored: StoredMembership<u64, ()>) -> Option<Membership<u64, ()>>
    ensures { result ≡ held stored }
{
    match stored.log_id {
        Some(_) => Some(stored.membership),
        None => None,
    }
}

impl Executor {
    /// A machine that has executed nothing.
    pub fn new(alloc: Global) -> Self
        ensures { executed_of result ≡ begun }
    {
        Executor {
            machine: KeyValue::new(alloc),
            outcome: None,
            applied: None,
            members: None,
        }
    }

    /// The id of the last entry that was executed.
    pub fn applied(&self) -> Option<LogId<u64>>
        ensures { result ≡ (executed_of self.now).applied }
    {
        self.applied
    }

    /// The members of the last entry that was executed and has some.
    pub fn members(&self) -> Option<&Membership<u64, ()>>
        ensures { option_copied result ≡ (executed_of self.now).members }
    {
        self.members.as_ref()
    }

    /// Executes an entry. Out of memory, the machine is spent.
    pub fn execute(&mut self, entry: &Entry) -> Result<(), AllocError>
        ensures { OnOk result (executed_of self.new ≡ executed (executed_of self.old) entry.now) }
    {
        self.outcome = self.machine.execute(&entry.payload)?;
        note_members(&entry.payload, &mut self.members)?;
        self.applied = Some(entry.log_id);
        Ok(())
    }

    /// Puts the state of a snapshot in place: that of its entries, whatever was executed before.
    pub fn install(&mut self, snapshot: Packed<KeyValue>)
        ensures { executed_of self.new ≡ installed snapshot }
    {
        let (last_id, members, state) = snapshot.into_parts();
        self.machine = state.into_owned();
        self.outcome = None;
        self.applied = last_id;
        self.members = members_held(members);
    }

    /// What the request of the last entry came to, once. Nothing if the entry held none.
    pub fn take_outcome(&mut self) -> Option<Outcome>
        ensures taken { result ≡ (executed_of self.old).outcome }
        ensures left { executed_of self.new ≡ without_outcome (executed_of self.old) }
    {
        self.outcome.take()
    }

    /// The machine's moment, in milliseconds since the Unix epoch: it never goes back.
    pub fn moment(&self) -> u64
        ensures { result ≡ (executed_of self.now).state.space.moment }
    {
        self.machine.moment()
    }

    /// What a query answers now.
    pub fn query(&self, query: &Query) -> Result<Reply, AllocError>
        ensures { IfOk result (λ reply. reply ≡ answer (executed_of self.now).state.space query.now) }
    {
        self.machine.query(query)
    }
}
