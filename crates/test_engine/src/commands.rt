//! Lines `command ..`, of commands.
//!
//! - `equal A B`, `equal A B SEQ`: whether two commands to the state machine are equal, of which the second has a sequence
//!   number, else 0; one is written `get:TOKEN`, `receive:TOKEN`, `build`, `apply:ENTRY`, `apply-nothing` or
//!   `install:CONTENT`
//! - `kinds ID`: what kind a new leader's command is, one that replicates, a purge up to an id, and one to the state
//!   machine, and what it waits for
//! - `number SEQ`: the sequence number of a new command, and once it has got one

use crate::messages::meta;
use crate::show::show_flag;
use crate::types::{Small, id};
use crate::words::{entry_of, log_id};
use raft_command::{Command, Snapshot, Token, sm};
use test_cases::Sheet;

/// The command to install a snapshot with this content.
fn install(snapshot: u64, sheet: &mut Sheet<'_>) -> sm::Command<Small> {
    let meta = meta(Some(id(1, 2, 3)), "s-1", sheet);
    sm::Command::install_full_snapshot(Snapshot { meta, snapshot })
}

/// The command to apply an entry.
fn apply(word: &str, sheet: &mut Sheet<'_>) -> sm::Command<Small> {
    let mut entries = Vec::new(sheet.alloc());
    let entry = entry_of(word, sheet);
    sheet.check(entries.push(entry));
    sm::Command::apply(entries)
}

/// A command to the state machine.
fn machine(sheet: &mut Sheet<'_>) -> sm::Command<Small> {
    let word = sheet.word();
    let (name, held) = word.split_once(':').unwrap_or((word, "0"));
    match name {
        "get" => sm::Command::get_snapshot(Token(sheet.number_of(held))),
        "receive" => sm::Command::begin_receiving_snapshot(Token(sheet.number_of(held))),
        "apply" => apply(held, sheet),
        "apply-nothing" => sm::Command::apply(Vec::new(sheet.alloc())),
        "install" => install(sheet.number_of(held), sheet),
        "build" => sm::Command::build_snapshot(),
        _ => {
            sheet.fail("no such command");
            sm::Command::build_snapshot()
        }
    }
}

fn tell_equal(sheet: &mut Sheet<'_>) {
    let one = machine(sheet);
    let other = machine(sheet);
    let seq = if sheet.has_more() { sheet.number() } else { 0 };
    show_flag("equal", one == other.with_seq(seq), sheet);
}

fn show_kind(command: &Command<Small>, sheet: &mut Sheet<'_>) {
    let kind = command.kind();
    let condition = command.condition();
    sheet.put_line(format_args!("{kind:?} {condition:?}"))
}

fn tell_kinds(sheet: &mut Sheet<'_>) {
    let upto = log_id(sheet);
    show_kind(&Command::BecomeLeader, sheet);
    show_kind(&Command::ReplicateCommitted { committed: None }, sheet);
    show_kind(&Command::PurgeLog { upto }, sheet);
    show_kind(&Command::from(sm::Command::build_snapshot()), sheet);
}

fn tell_number(sheet: &mut Sheet<'_>) {
    let mut command: sm::Command<Small> = sm::Command::new(sm::CommandPayload::BuildSnapshot);
    let before = command.seq();
    command.set_seq(sheet.number());
    let after = command.seq();
    sheet.put_line(format_args!("{before} {after}"));
}

/// A line of these.
pub fn command_line(sheet: &mut Sheet<'_>) {
    match sheet.word() {
        "equal" => tell_equal(sheet),
        "kinds" => tell_kinds(sheet),
        "number" => tell_number(sheet),
        _ => sheet.fail("no such line"),
    }
}
