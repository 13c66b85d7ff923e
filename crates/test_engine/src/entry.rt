//! Lines `entry ..`, of the progress of one target, and of the leader's log that it is sent.
//!
//! - `ids ID..`: the log has these ids, too; `target ID`: of purges; `snapshot ID`: the last id of the snapshot
//! - `empty END`: nothing is known of the target, and the search ends there
//! - `sent MATCHING END NUMBER PREV LAST`: with logs in flight under a number; `quiet MATCHING END NUMBER`: with nothing
//!   in flight after a request of a number
//! - `next COUNT`: what it is sent next of the log, at most so many entries at once
//! - `matched NUMBER ID`: it has the log up to an id; `conflict NUMBER|None INDEX`: its log differs at an index
//! - `show`; `logs PREV LAST NUMBER`: in flight under a number, and whether it is that of number 0

use crate::show::{Answer, tell};
use crate::texts::{write_inflight, write_target};
use crate::words::{is_below_end, log_id, log_ids, optional_id};
use raft_progress_entry::{Inflight, LogIdRange, ProgressEntry};
use raft_state::RaftState;
use std::alloc::Global;
use test_cases::Sheet;

/// A leader's state, and the progress of one target.
#[derive(Drop)]
pub struct Target {
    state: RaftState<u64, u64>,
    entry: ProgressEntry<u64>,
}

impl Target {
    /// A new node's state, and a target of which nothing is known.
    pub fn new(alloc: Global) -> Self {
        Target {
            state: RaftState::empty(alloc),
            entry: ProgressEntry::empty(0),
        }
    }
}

fn quiet(sheet: &mut Sheet<'_>) -> ProgressEntry<u64> {
    ProgressEntry {
        matching: optional_id(sheet),
        searching_end: sheet.number(),
        inflight: Inflight::None,
        last_inflight_id: sheet.number(),
    }
}

/// Logs in flight under the number of the last request.
fn sent(sheet: &mut Sheet<'_>) -> ProgressEntry<u64> {
    let entry = quiet(sheet);
    ProgressEntry {
        inflight: Inflight::Logs {
            id: entry.last_inflight_id,
            log_id_range: LogIdRange::new(optional_id(sheet), optional_id(sheet)),
        },
        ..entry
    }
}

fn show_inflight(word: &str, inflight: &Inflight<u64>, sheet: &mut Sheet<'_>) {
    sheet.put(format_args!("{word} "));
    write_inflight(inflight, sheet);
    sheet.put_line("");
}

/// What the target is sent next, or what is still in flight to it.
fn next_send(entry: &mut ProgressEntry<u64>, state: &RaftState<u64, u64>, sheet: &mut Sheet<'_>) {
    let count = sheet.number();
    if entry.last_inflight_id == u64::MAX
        || !is_below_end(entry.matching)
        || !is_below_end(state.last_log_id())
    {
        return sheet.fail("there is no further number or index");
    }
    match entry.next_send(state, count) {
        Ok(sent) => show_inflight("sends", &sent, sheet),
        Err(left) => show_inflight("still", &left, sheet),
    }
}

fn matched(entry: &mut ProgressEntry<u64>, sheet: &mut Sheet<'_>) {
    let request = sheet.number();
    let id = Some(log_id(sheet));
    if !is_below_end(id) {
        return sheet.fail("there is no index after the greatest one");
    }
    let answer: Answer = entry.update_matching(request, id);
    tell(answer, sheet);
}

fn optional_number(sheet: &mut Sheet<'_>) -> Option<u64> {
    match sheet.word() {
        "None" => None,
        word => Some(sheet.number_of(word)),
    }
}

fn conflict(entry: &mut ProgressEntry<u64>, sheet: &mut Sheet<'_>) {
    let request = optional_number(sheet);
    let answer: Answer = entry.update_conflicting(request, sheet.number());
    tell(answer, sheet);
}

fn show_target(entry: &ProgressEntry<u64>, sheet: &mut Sheet<'_>) {
    sheet.put("target");
    write_target(2, entry, sheet);
    sheet.put_line("");
}

fn logs(sheet: &mut Sheet<'_>) {
    let logs = Inflight::logs(optional_id(sheet), optional_id(sheet));
    let first = logs.is_my_id(0);
    let sent = logs.with_id(sheet.number());
    write_inflight(&sent, sheet);
    let held = sent.get_id();
    sheet.put_line(format_args!(", number {held:?}, first {first}"));
}

fn extend(state: &mut RaftState<u64, u64>, sheet: &mut Sheet<'_>) {
    let ids = log_ids(sheet);
    sheet.check(state.ids.extend(&ids));
}

/// A line that sets a part of the log, or asks.
fn log_line(target: &mut Target, name: &str, sheet: &mut Sheet<'_>) {
    match name {
        "ids" => extend(&mut target.state, sheet),
        "target" => target.state.purge_to = Some(log_id(sheet)),
        "snapshot" => target.state.snap.last_log_id = Some(log_id(sheet)),
        "logs" => logs(sheet),
        "show" => show_target(&target.entry, sheet),
        _ => sheet.fail("no such line"),
    }
}

/// A line of these.
pub fn entry_line(target: &mut Target, sheet: &mut Sheet<'_>) {
    match sheet.word() {
        "empty" => target.entry = ProgressEntry::empty(sheet.number()),
        "sent" => target.entry = sent(sheet),
        "quiet" => target.entry = quiet(sheet),
        "next" => next_send(&mut target.entry, &target.state, sheet),
        "matched" => matched(&mut target.entry, sheet),
        "conflict" => conflict(&mut target.entry, sheet),
        name => log_line(target, name, sheet),
    }
}
