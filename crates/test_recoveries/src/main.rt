//! Has nodes go on after the schedules of `data/`, and plays what was found with what each case expects of the nodes then.
#![tactic(auto)]

use anyhow::{Context, Result};
use raft_recovery::simulate_words;
use raft_world::simulate;
use std::alloc::Global;
use std::io::Write;
use test_cases::{Player, run};

/// What a text asks for: behind the schedule a line `recover V N ..`, with the ids of the nodes or with none for all of them,
/// and behind that line what is expected then.
#[derive(Drop)]
struct Task<'a> {
    schedule: &'a str,
    words: Vec<String>,
    expected: &'a str,
}

fn parse_task(alloc: Global, text: &str) -> Result<Task<'_>> {
    let (schedule, rest) = text.split_once("recover ").context("no line recover")?;
    let (line, expected) = rest.split_once("\n").context("no line's end")?;
    let mut words = Vec::new(alloc);
    for word in line.split(" ") {
        words.push(String::from_str(alloc, word)?)?;
    }
    Ok(Task {
        schedule,
        words,
        expected,
    })
}

/// The number of the event that a line of a report is of.
fn number_of(line: &str) -> Option<u64> {
    line.split(" ").next()?.parse::<u64>().ok()
}

/// How many events a report has.
fn count_events(report: &str) -> u64 {
    let mut count = 0u64;
    for line in report.lines() {
        if let Some(number) = number_of(line) {
            count = number;
        }
    }
    count
}

/// Writes those lines of a report that are skipped events, and not of the report before.
fn tell_skipped(before: &str, after: &str, given: &mut Vec<u8>) -> Result<()> {
    let count = count_events(before);
    for line in after.lines() {
        if number_of(line) > Some(count) && line.contains(" skipped ") {
            writeln!(given, "{line}")?;
        }
    }
    Ok(())
}

/// Recovers as `raftrecover` does.
struct Recovering;

impl Player for Recovering {
    /// Writes the exit status and what is told: of the search, or if there is a way on, of the schedule, the way on and the
    /// expectations; and then the events of the way on that were skipped.
    fn play(&self, alloc: Global, _kind: &str, text: &[u8], given: &mut Vec<u8>) -> Result<()> {
        let task = parse_task(alloc, str::from_utf8(text)?)?;
        let (schedule, mut found, mut told) = (task.schedule, Vec::new(alloc), Vec::new(alloc));
        let mut status = simulate_words(
            alloc,
            &task.words,
            schedule.as_bytes(),
            &mut found,
            &mut told,
        );
        let (mut before, mut after) = (Vec::new(alloc), Vec::new(alloc));
        if status == 0 {
            simulate(alloc, schedule.as_bytes(), &mut before, &mut told);
            let mut whole = Vec::from_slice(alloc, schedule.as_bytes())?;
            whole.extend_from_slice(&found)?;
            whole.extend_from_slice(task.expected.as_bytes())?;
            status = simulate(alloc, whole.as_slice(), &mut after, &mut told);
        }
        writeln!(given, "status {status}")?;
        given.extend_from_slice(&told)?;
        tell_skipped(str::from_utf8(&before)?, str::from_utf8(&after)?, given)
    }
}

fn main(rt: HostRuntime) -> Result<()> {
    run(&rt, &Recovering)
}
