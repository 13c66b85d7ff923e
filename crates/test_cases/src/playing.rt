//! A run over files of cases.

use crate::reading::{Case, Draft};
use anyhow::{Context, Result, bail, ensure};
use std::alloc::Global;
use std::rt::{Env, Files};
use std::{env, fs};

/// What plays the texts of cases.
pub trait Player {
    /// Plays a text of a kind, which is empty if its file names none, and writes what comes of it. An `Err` is a text
    /// that can't be played.
    fn play(&self, alloc: Global, kind: &str, text: &[u8], given: &mut Vec<u8>) -> Result<()>;
}

/// How many cases were met, and how many were not.
#[derive(Clone, Copy, Default, Debug)]
struct Tally {
    met: u64,
    unmet: u64,
}

/// Prints a text after a title.
fn show(rt: &impl Print, title: &str, text: &[u8]) -> Result<()> {
    println!(rt; "{title}:")?;
    match str::from_utf8(text) {
        Ok(text) => print!(rt; "{text}")?,
        Err(_) => println!(rt; "{text:?}")?,
    }
    Ok(())
}

/// Prints whether a case is met, and else what it expects and what was given.
fn tell(rt: &impl Print, case: &Case, given: &[u8], tally: &mut Tally) -> Result<()> {
    let name = &case.name;
    if case.is_met(given) {
        tally.met = tally.met.saturating_add(1);
        println!(rt; "{name}: ok")?;
        return Ok(());
    }
    tally.unmet = tally.unmet.saturating_add(1);
    println!(rt; "{name}: FAILED")?;
    show(rt, "expected", &case.expected)?;
    show(rt, "given", given)
}

/// Plays a case, and prints whether it is met.
fn judge(
    rt: &impl Print,
    alloc: Global,
    player: &impl Player,
    case: &Case,
    tally: &mut Tally,
) -> Result<()> {
    let mut given = Vec::new(alloc);
    let name = case.name.as_str();
    player
        .play(alloc, &case.kind, &case.text, &mut given)
        .context(format_args!("case {name}"))?;
    tell(rt, case, &given, tally)
}

/// Takes a line of a file, and judges the case that it completes, if it does.
fn take_line(
    rt: &impl Print,
    alloc: Global,
    player: &impl Player,
    draft: &mut Draft,
    line: &str,
    tally: &mut Tally,
) -> Result<()> {
    draft.take_line(line)?;
    match draft.complete() {
        Some(case) => judge(rt, alloc, player, case, tally),
        None => Ok(()),
    }
}

/// Judges each case of a file's text, of which the end counts as an empty line.
fn take_all(
    rt: &impl Print,
    alloc: Global,
    player: &impl Player,
    draft: &mut Draft,
    text: &str,
    tally: &mut Tally,
) -> Result<()> {
    for line in text.lines() {
        take_line(rt, alloc, player, draft, line, tally)?;
    }
    take_line(rt, alloc, player, draft, "", tally)
}

/// Judges each case of a file's text, which has only whole cases.
fn judge_all(
    rt: &impl Print,
    alloc: Global,
    player: &impl Player,
    text: &str,
    tally: &mut Tally,
) -> Result<()> {
    let mut draft = Draft::new(alloc);
    take_all(rt, alloc, player, &mut draft, text, tally)?;
    if !draft.may_end() {
        bail!("the file ends within a case");
    }
    Ok(())
}

/// Judges each case of a file.
fn judge_file<R: Files + AllocGlobal + Print>(
    rt: &R,
    player: &impl Player,
    name: &str,
    tally: &mut Tally,
) -> Result<()> {
    let text = fs::read_to_string(rt, name).context(format_args!("reading {name}"))?;
    judge_all(rt, rt.alloc(), player, text.as_str(), tally).context(format_args!("in {name}"))
}

/// The files that the arguments name.
fn named_files<R: Env + AllocGlobal>(rt: &R) -> Result<Vec<String>> {
    let mut names = Vec::new(rt.alloc());
    for name in env::args(rt)?.skip(1) {
        names.push(name)?;
    }
    Ok(names)
}

/// The files `*.txt` of the current folder, by name.
fn listed_files<R: Files + AllocGlobal + Clone + Drop>(rt: &R) -> Result<Vec<String>> {
    let mut names = Vec::new(rt.alloc());
    for entry in fs::read_dir(rt, ".")? {
        let entry = entry?;
        if entry.file_name().ends_with(".txt") {
            names.push(String::from_str(rt.alloc(), entry.file_name())?)?;
        }
    }
    names.sort_unstable();
    Ok(names)
}

/// Plays each case of the files that the arguments name, or else of the files `*.txt` of the current folder, and prints
/// whether it gave what it must. The answer is an `Err` unless each did, and there was one.
pub fn run<R: Files + Env + AllocGlobal + Print + Clone + Drop>(
    rt: &R,
    player: &impl Player,
) -> Result<()> {
    let mut names = named_files(rt)?;
    if names.is_empty() {
        names = listed_files(rt)?;
    }
    let mut tally = Tally::default();
    for name in &names {
        judge_file(rt, player, name.as_str(), &mut tally)?;
    }
    let Tally { met, unmet } = tally;
    println!(rt; "{met} cases are met")?;
    ensure!(unmet == 0, "{unmet} cases are not met");
    ensure!(met != 0, "there are no cases");
    Ok(())
}
