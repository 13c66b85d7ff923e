//! Whether the nodes' state machines agree.

ghost use Rattle.std.specs.Prelude.{◌≡◌, IfOk};
ghost use Rattle.raft_node.specs.Safety.{entries_of};
ghost use Rattle.raft_world.specs.Agreed.{Checks, clash};
ghost use Rattle.raft_world.specs.Clashes.{FirstClash};
ghost use Rattle.raft_world.specs.Reported.{Table};

use crate::report::{Report, make_table};
use raft_node::record::{Executed, Installed};
use raft_store::Entry;
use std::alloc::{AllocError, Global};

/// Whether no two entries that nodes executed or installed differ at one index; else the least index at which two do.
#[derive(Clone, Copy, PartialEq, Eq, Debug)]
pub enum Agreement {
    Agree,
    Differ(u64),
}

fn is_clash(one: &Entry, other: &Entry) -> bool
    ensures { result ≡ clash one.now other.now }
{
    one.log_id.index == other.log_id.index && !one.is_same(other)
}

/// The place of the first of two neighbours with the same index that differ.
fn first_clash(table: &[Entry]) -> Option<usize>
    ensures { FirstClash table.now result }
{
    for i in 1..table.len() {
        if is_clash(&table[i - 1], &table[i]) {
            return Some(i - 1);
        }
    }
    None
}

/// Checks the entries of both records, sorted by index.
pub(crate) fn check_table(
    executed: &[Executed],
    installed: &[Installed],
    table: &[Entry],
) -> Agreement
    requires { Table executed.now installed.now table.now }
    ensures { Checks (entries_of executed.now installed.now) result }
{
    match first_clash(table) {
        None => Agreement::Agree,
        Some(i) => Agreement::Differ(table[i].log_id.index),
    }
}

/// Whether no two of these entries differ at one index; else the least index at which two do.
pub fn check_entries(
    alloc: Global,
    executed: &[Executed],
    installed: &[Installed],
) -> Result<Agreement, AllocError>
    ensures { IfOk result (λ agreement. Checks (entries_of executed.now installed.now) agreement) }
{
    let table = make_table(alloc, executed, installed)?;
    Ok(check_table(executed, installed, &table))
}

/// Whether no two entries that nodes executed or installed differ at one index (state machine safety, Raft paper,
/// section 5); else the least index at which two do. Allocates nothing.
pub fn check_agreement(report: &Report) -> Agreement
    ensures { Checks (entries_of report.now.executed report.now.installed) result }
{
    report.agreement()
}
