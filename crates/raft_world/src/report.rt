//! The outcome of a world's events.

ghost use Rattle.std.specs.Prelude.{◌≡◌, IfOk, length, slice_get};
ghost use Rattle.std.specs.Option.{option_map};
ghost use Rattle.raft_node.specs.Kept.{decided_by_leader, established_by_leader};
ghost use Rattle.raft_node.specs.Safety.{entries_of};
ghost use Rattle.raft_world.specs.Agreed.{Checks};
ghost use Rattle.raft_world.specs.Reported.{Reported, Table};

use crate::agreement::{Agreement, check_table};
use raft_calls::lead::Answer;
use raft_calls::message::Message;
use raft_node::record::{Decided, Established, Executed, Installed, Records};
use raft_schedule::event::AppliedEvent;
use raft_store::{Entry, push_copies};
use std::alloc::{AllocError, Global};
use std::marker::Model;

/// The outcome of a world's events: the outcome of each, the messages and the records, in the order of the run. It holds
/// copies, so the world may go on.
#[derive(Debug, Drop)]
pub struct Report {
    pub(crate) alloc: Global,
    past: Vec<AppliedEvent>,
    records: Records,
    /// The entries of the executed commits and of the installed snapshots, by index.
    table: Vec<Entry>,
}

impl Model for Report {
    ghost use Rattle.raft_world.specs.Reported.{Reported, Table};

    ghost Value = { Reported };

    ghost view = { λ s. record {
      past = s.past.items;
      executed = s.records.executed;
      installed = s.records.installed;
      decided = s.records.decided;
      established = s.records.established;
      answers = s.records.answers;
      messages = s.records.bag;
    } };

    ghost invariant = { λ s. Table s.records.executed s.records.installed s.table.items };
}

/// The entries of executed commits and of installed snapshots.
fn all_entries(
    alloc: Global,
    executed: &[Executed],
    installed: &[Installed],
) -> Result<Vec<Entry>, AllocError>
    ensures { IfOk result (λ entries. entries.items ≡ entries_of executed.now installed.now) }
{
    let mut entries = Vec::new(alloc);
    for one in executed {
        entries.push(one.entry.copy(alloc)?)?;
    }
    for one in installed {
        push_copies(alloc, one.entries.as_slice(), &mut entries)?;
    }
    Ok(entries)
}

/// The same, by index.
pub(crate) fn make_table(
    alloc: Global,
    executed: &[Executed],
    installed: &[Installed],
) -> Result<Vec<Entry>, AllocError>
    ensures { IfOk result (λ table. Table executed.now installed.now table.items) }
{
    let mut table = all_entries(alloc, executed, installed)?;
    table.sort_by_key(|entry| entry.log_id.index)?;
    Ok(table)
}

impl Report {
    /// A report with these outcomes and records.
    pub(crate) fn new(
        alloc: Global,
        past: Vec<AppliedEvent>,
        records: Records,
    ) -> Result<Self, AllocError>
        ensures { IfOk result (λ report. report ≡ record {
          past = past.items;
          executed = records.executed;
          installed = records.installed;
          decided = records.decided;
          established = records.established;
          answers = records.answers;
          messages = records.bag;
        }) }
    {
        let table = make_table(alloc, &records.executed, &records.installed)?;
        Ok(Report {
            alloc,
            past,
            records,
            table,
        })
    }

    /// The events with their outcomes, in order.
    pub fn past(&self) -> &[AppliedEvent]
        ensures { result.now ≡ self.now.past }
    {
        &self.past
    }

    /// The executed commits, in the order of the run.
    pub fn executed(&self) -> &[Executed]
        ensures { result.now ≡ self.now.executed }
    {
        &self.records.executed
    }

    /// The installed snapshots, in the order of the run.
    pub fn installed(&self) -> &[Installed]
        ensures { result.now ≡ self.now.installed }
    {
        &self.records.installed
    }

    /// The number of decided commits.
    pub fn decided_len(&self) -> usize
        ensures { result ≡ length self.now.decided }
    {
        self.records.decided_len()
    }

    /// A decided commit, by its place in the order of the run, with its leader's whole log up to it. It takes no memory.
    pub fn decided(&self, place: usize) -> Option<Decided<&[Entry]>>
        ensures { option_map (decided_by_leader (λ d log. log.now)) result ≡ slice_get self.now.decided place }
    {
        self.records.decided(place)
    }

    /// The number of established leaders.
    pub fn established_len(&self) -> usize
        ensures { result ≡ length self.now.established }
    {
        self.records.established_len()
    }

    /// An established leader, by its place in the order of the run, with its whole log then. It takes no memory.
    pub fn established(&self, place: usize) -> Option<Established<&[Entry]>>
        ensures { option_map (established_by_leader (λ d log. log.now)) result ≡ slice_get self.now.established place }
    {
        self.records.established(place)
    }

    /// The answers to reads, in the order of the run.
    pub fn answers(&self) -> &[Answer]
        ensures { result.now ≡ self.now.answers }
    {
        &self.records.answers
    }

    /// All messages ever sent, in the order of sending: the first is number 1.
    pub fn messages(&self) -> &[Message]
        ensures { result.now ≡ self.now.messages }
    {
        self.records.messages()
    }

    /// Whether no two entries that nodes executed or installed differ at one index, or else the least index at which
    /// two do.
    pub(crate) fn agreement(&self) -> Agreement
        ensures { Checks (entries_of self.now.executed self.now.installed) result }
    {
        check_table(&self.records.executed, &self.records.installed, &self.table)
    }
}
