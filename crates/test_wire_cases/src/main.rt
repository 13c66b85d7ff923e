//! Reads the values whose bytes stand in `data/`, and compares what each case shows with what it expects.
//!
//! A case's text has a line for each value: its type, and its bytes as hexadecimal digits.
//!
//! - `number`, `lists` (of numbers), `text`, `members`, `packet`, `record`, `version`: the value, printed, and whether it is
//!   written by the same bytes; or why the bytes are no value
//! - `replay`: what a new store is after a record
//! - `step`: the record of a step that adopts a vote, appends a no-op entry, and commits it, without bytes
#![tactic(auto)]

mod replays;
mod showing;

use anyhow::{Context, Result, bail};
use raft_state::{Items, Membership, Text};
use raft_wire::{Packet, Record, Version};
use replays::{replay_line, step_line};
use showing::show;
use std::alloc::Global;
use test_cases::{Player, run};

/// A value of this kind that is read from bytes.
fn show_kind(alloc: Global, kind: &str, bytes: &[u8], given: &mut Vec<u8>) -> Result<()> {
    match kind {
        "number" => show::<u64>(alloc, bytes, given),
        "lists" => show::<Items<Items<u64>>>(alloc, bytes, given),
        "text" => show::<Text>(alloc, bytes, given),
        "members" => show::<Membership<u64, ()>>(alloc, bytes, given),
        "packet" => show::<Packet>(alloc, bytes, given),
        "record" => show::<Record>(alloc, bytes, given),
        "version" => show::<Version>(alloc, bytes, given),
        "replay" => replay_line(alloc, bytes, given),
        "step" => step_line(alloc, given),
        _ => bail!("no such line"),
    }
}

/// One line, by its first word.
fn step(alloc: Global, line: &str, given: &mut Vec<u8>) -> Result<()> {
    let (kind, digits) = line.split_once(' ').unwrap_or((line, ""));
    show_kind(alloc, kind, &hex::decode(alloc, digits)?, given)
}

/// Each line in turn.
fn play(alloc: Global, text: &str, given: &mut Vec<u8>) -> Result<()> {
    for line in text.lines() {
        step(alloc, line, given).context(format_args!("line {line:?}"))?;
    }
    Ok(())
}

/// Reads the values of a text's lines, in turn.
struct Values;

impl Player for Values {
    fn play(&self, alloc: Global, _kind: &str, text: &[u8], given: &mut Vec<u8>) -> Result<()> {
        play(alloc, str::from_utf8(text)?, given)
    }
}

fn main(rt: HostRuntime) -> Result<()> {
    run(&rt, &Values)
}
