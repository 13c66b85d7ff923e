//! Commands as text, and what they hold.

use crate::types::{Item, Payload, Small};
use raft_command::sm::{self, CommandPayload};
use raft_command::{Command, Condition, Respond};
use raft_progress_entry::{Inflight, ProgressEntry};
use raft_state::{DisplayOption, Membership, SnapshotMeta, Vote};
use test_cases::Sheet;

/// Writes a command, without a line feed.
pub fn write_command(command: &Command<Small>, sheet: &mut Sheet<'_>) {
    match command {
        Command::BecomeLeader => sheet.put("become leader"),
        Command::QuitLeader => sheet.put("quit leader"),
        Command::AppendInputEntries { vote, entries } => {
            write_append(vote, entries.as_slice(), sheet)
        }
        Command::SaveVote { vote } => sheet.put(format_args!("save vote {vote}")),
        Command::SendVote { vote_req } => sheet.put(format_args!("request vote {vote_req}")),
        Command::PurgeLog { upto } => sheet.put(format_args!("purge up to {upto}")),
        Command::DeleteConflictLog { since } => sheet.put(format_args!("delete from {since}")),
        Command::StateMachine { command } => write_numbered(command, sheet),
        Command::Respond { when, resp } => write_reply(when, resp, sheet),
        _ => write_replication(command, sheet),
    }
}

fn write_append(vote: &Vote<u64>, entries: &[Item], sheet: &mut Sheet<'_>) {
    sheet.put(format_args!("append {vote}:"));
    write_entries(entries, sheet)
}

/// Writes a command that replicates or commits.
fn write_replication(command: &Command<Small>, sheet: &mut Sheet<'_>) {
    match command {
        Command::ReplicateCommitted { committed } => {
            let committed = DisplayOption(*committed);
            sheet.put(format_args!("replicate committed {committed}"))
        }
        Command::Commit {
            seq,
            already_committed,
            upto,
        } => {
            let already = DisplayOption(*already_committed);
            sheet.put(format_args!("commit {seq}: ({already}, {upto}]"))
        }
        Command::Replicate { target, req } => {
            sheet.put(format_args!("replicate to {target}: "));
            write_inflight(req, sheet)
        }
        Command::RebuildReplicationStreams { targets } => write_targets(targets.as_slice(), sheet),
        _ => {}
    }
}

/// Writes what is in flight.
pub fn write_inflight(inflight: &Inflight<u64>, sheet: &mut Sheet<'_>) {
    match inflight {
        Inflight::None => sheet.put("nothing"),
        Inflight::Logs { id, log_id_range } => {
            sheet.put(format_args!("logs {id} {log_id_range}"))
        }
        Inflight::Snapshot { id, last_log_id } => {
            let last = DisplayOption(*last_log_id);
            sheet.put(format_args!("snapshot {id} up to {last}"))
        }
    }
}

fn write_targets(targets: &[(u64, ProgressEntry<u64>)], sheet: &mut Sheet<'_>) {
    sheet.put("open streams:");
    for target in targets {
        write_target(target.0, &target.1, sheet);
    }
}

/// Writes a target: its id, what it matches, what is in flight to it, the last number and the end of the search.
pub fn write_target(id: u64, entry: &ProgressEntry<u64>, sheet: &mut Sheet<'_>) {
    let matching = DisplayOption(entry.matching);
    sheet.put(format_args!(" {id} (matching {matching}, in flight "));
    write_inflight(&entry.inflight, sheet);
    let number = entry.last_inflight_id;
    let end = entry.searching_end;
    sheet.put(format_args!(", last number {number}, search below {end})"));
}

/// Writes entries, each after a space.
pub fn write_entries(entries: &[Item], sheet: &mut Sheet<'_>) {
    for entry in entries {
        write_entry(entry, sheet);
    }
}

fn write_entry(entry: &Item, sheet: &mut Sheet<'_>) {
    let id = entry.log_id;
    sheet.put(format_args!(" {id} "));
    match &entry.payload {
        Payload::Blank => sheet.put("no-op"),
        Payload::Value(value) => sheet.put(format_args!("value {value}")),
        Payload::Membership(membership) => {
            sheet.put("members ");
            write_membership(membership, sheet)
        }
    }
}

/// Writes ids of nodes, with commas between them.
pub fn write_ids(ids: &[u64], sheet: &mut Sheet<'_>) {
    let mut gap = "";
    for id in ids {
        sheet.put(format_args!("{gap}{id}"));
        gap = ",";
    }
}

/// Writes groups of voters, with `/` between them.
fn write_groups(membership: &Membership<u64, u64>, sheet: &mut Sheet<'_>) {
    let mut gap = "";
    for group in membership.groups() {
        sheet.put(gap);
        write_ids(group.as_slice(), sheet);
        gap = "/";
    }
}

/// Writes learners after a `+`, where there are any.
fn write_learners(learners: &[u64], sheet: &mut Sheet<'_>) {
    if learners.is_empty() {
        return;
    }
    sheet.put("+");
    write_ids(learners, sheet)
}

/// Writes a membership as lines name one.
pub fn write_membership(membership: &Membership<u64, u64>, sheet: &mut Sheet<'_>) {
    write_groups(membership, sheet);
    match membership.learner_ids() {
        Ok(learners) => write_learners(&learners, sheet),
        Err(_) => sheet.fail("out of memory"),
    }
}

/// Writes a command to the state machine, with its number.
fn write_numbered(command: &sm::Command<Small>, sheet: &mut Sheet<'_>) {
    let seq = command.seq;
    sheet.put(format_args!("state machine {seq}: "));
    write_payload(&command.payload, sheet)
}

fn write_payload(payload: &CommandPayload<Small>, sheet: &mut Sheet<'_>) {
    match payload {
        CommandPayload::BuildSnapshot => sheet.put("build snapshot"),
        CommandPayload::GetSnapshot { tx } => sheet.put(format_args!("get snapshot, {tx:?}")),
        CommandPayload::BeginReceivingSnapshot { tx } => {
            sheet.put(format_args!("begin receiving snapshot, {tx:?}"))
        }
        CommandPayload::InstallFullSnapshot { snapshot } => write_install(&snapshot.meta, sheet),
        CommandPayload::Apply { entries } => {
            sheet.put("apply");
            write_entries(entries.as_slice(), sheet)
        }
    }
}

fn write_install(meta: &SnapshotMeta<u64, u64>, sheet: &mut Sheet<'_>) {
    sheet.put(format_args!("install {meta} "));
    write_membership(&meta.last_membership.membership, sheet)
}

/// Writes a reply, and what it waits for.
fn write_reply(when: &Option<Condition<u64>>, resp: &Respond<Small>, sheet: &mut Sheet<'_>) {
    sheet.put(format_args!("reply {resp:?}"));
    if let Some(condition) = when {
        sheet.put(format_args!(" after {condition:?}"));
    }
}
