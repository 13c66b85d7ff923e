//! Questions to an engine: `show` and one of these words, or several but `command` and `sent`.
//!
//! - what `show` has of a state: `vote`, `last`, `committed`, `members`, ..
//! - `plays`: the role that vote and membership give
//! - `leads`, `asks`: whether there is a leader, a candidate; `candidate`: its text
//! - `greater`: whether a log greater than its own was seen
//! - `ids`: how many ids its log has
//! - `count`: of the commands; `command PLACE`: the command at a place, counted from 0
//! - `sent TARGET`: what is in flight to a node

use crate::show::{show_flag, show_state};
use crate::texts::{write_command, write_inflight};
use crate::types::Small;
use anyhow::Result;
use raft_engine::{Candidate, Engine};
use raft_progress::Joint;
use std::io::Write;
use test_cases::Sheet;

/// The candidate.
fn show_candidate(engine: &Engine<Small>, sheet: &mut Sheet<'_>) {
    match engine.candidate_ref() {
        Some(candidate) => sheet.put_line(format_args!("candidate {candidate}")),
        None => sheet.put_line("candidate None"),
    }
}

/// Who has granted a candidate.
pub fn show_granters(asking: &Candidate<Small, Joint<u64>>, sheet: &mut Sheet<'_>) {
    sheet.put("granted by");
    for id in asking.granters() {
        sheet.put(format_args!(" {id}"));
    }
    sheet.put_line("");
}

/// A part of the engine.
fn show(engine: &Engine<Small>, word: &str, sheet: &mut Sheet<'_>) {
    match word {
        "plays" => {
            let role = engine.calc_server_state();
            sheet.put_line(format_args!("plays {role:?}"))
        }
        "leads" => show_flag(word, engine.leader.is_some(), sheet),
        "asks" => show_flag(word, engine.candidate_ref().is_some(), sheet),
        "candidate" => show_candidate(engine, sheet),
        "greater" => show_flag(word, engine.is_there_greater_log(), sheet),
        "count" => {
            let count = engine.output.iter_commands().count();
            sheet.put_line(format_args!("count {count}"))
        }
        "ids" => {
            let count = engine.state.ids.len();
            sheet.put_line(format_args!("ids {count}"))
        }
        _ => show_state(&engine.state, word, sheet),
    }
}

/// The command at a place of the queue, counted from 0.
fn show_command(engine: &Engine<Small>, place: u64, sheet: &mut Sheet<'_>) {
    sheet.put(format_args!("{place}: "));
    match engine.output.iter_commands().nth(place as usize) {
        Some(command) => write_command(command, sheet),
        None => sheet.put("None"),
    }
    sheet.put_line("");
}

/// What is in flight to a node.
fn show_sent(engine: &Engine<Small>, target: u64, sheet: &mut Sheet<'_>) {
    let Some(leader) = engine.leader.as_deref() else {
        return sheet.fail("there is no leader");
    };
    let Some(entry) = leader.progress.get(&target) else {
        return sheet.fail("the node is not in the table");
    };
    sheet.put(format_args!("sent {target}: "));
    write_inflight(&entry.inflight, sheet);
    sheet.put_line("");
}

fn show_commands(engine: &Engine<Small>, sheet: &mut Sheet<'_>) {
    for place in &sheet.words() {
        let place = sheet.number_of(place);
        show_command(engine, place, sheet);
    }
}

fn show_each(engine: &Engine<Small>, sheet: &mut Sheet<'_>) {
    for word in &sheet.words() {
        show(engine, word, sheet);
    }
}

/// Answers a question.
pub fn question(engine: &Engine<Small>, sheet: &mut Sheet<'_>) {
    match sheet.word() {
        "command" => show_commands(engine, sheet),
        "sent" => show_sent(engine, sheet.number(), sheet),
        word => {
            show(engine, word, sheet);
            show_each(engine, sheet);
        }
    }
}

/// Writes all that an engine holds.
fn write_engine(engine: &Engine<Small>, text: &mut Vec<u8>) -> Result<()> {
    writeln!(text, "{:?} {:?}", engine.config, engine.state)?;
    writeln!(text, "{:?} {:?}", engine.leader, engine.candidate)?;
    let greater = engine.is_there_greater_log();
    writeln!(text, "{greater} {:?}", engine.output)?;
    Ok(())
}

/// All that an engine holds, as text.
pub fn dump(engine: &Engine<Small>, sheet: &mut Sheet<'_>) -> Vec<u8> {
    let mut text = Vec::new(sheet.alloc());
    sheet.check(write_engine(engine, &mut text));
    text
}
