//! The lines of a text, each of which is made to one store. An id is TERM-NODE-INDEX.
//!
//! - `vote TERM NODE`, `append ID blank`, `append ID number VALUE`, `append ID members VOTER..`: commands
//! - `delete ID`, `purge ID`, `commit ID`: commands
//! - `note`: notes what is applied, as for a build or to be sent; `keep`: keeps it as a snapshot; `install`: installs it
//! - `mark`: the store itself notes what it has applied; `keep mark`: it keeps that as a snapshot; `drop mark`: it forgets it
//! - `fold NUMBER`: applies so many late entries to the snapshot's state, and prints whether more are left
//! - `share`: prints the snapshot, as one that is sent
//! - `encode SUM FRONT COUNT`: encodes or sums some bytes more of the snapshot's state behind a front (a word), for a frame behind one with that
//!   sum, and prints whether more is left to be done; `take SUM FRONT`: prints of what is encoded and summed how many bytes they are, the last,
//!   and the sum, both as hexadecimal numbers
//! - `other`: another, new store, from which what is noted may be installed
//! - `log`, `snapshot`, `applied`, `marked`: print what is kept
//! - `range ID ID`: prints how many entries stand above an id up to another; `none` is no id
//! - `start plain`, `start saved`, `start bare`: starts a node on the store, and prints what it has then; a new store is next

use crate::digest::Digest;
use crate::{nodes, show};
use anyhow::{Context, Result, bail};
use raft_command::sm::{self, CommandPayload};
use raft_command::{Command, Snapshot};
use raft_packed::{Encoded, Packed, PackedStore};
use raft_schedule::event::Start;
use raft_state::{Items, LogId, Membership, Vote};
use raft_store::{Entry, Payload, Value, WorldConfig};
use std::alloc::Global;
use std::mem;
use std::num::NonZeroUsize;
use test_words::text::put_line;
use test_words::words::{log_id, number};

/// A store, and what was noted of what it has applied.
#[derive(Drop)]
struct Desk {
    store: PackedStore<Digest>,
    noted: Packed<Digest>,
}

fn optional_id(word: &str) -> Result<Option<LogId<u64>>> {
    match word {
        "none" => Ok(None),
        _ => Ok(Some(log_id(word)?)),
    }
}

fn save_vote(term: &str, node: &str) -> Result<Command<WorldConfig>> {
    let vote = Vote::new(number(term)?, number(node)?);
    Ok(Command::SaveVote { vote })
}

fn voters(alloc: Global, words: &[&str]) -> Result<Vec<u64>> {
    let mut voters = Vec::new(alloc);
    for word in words {
        voters.push(number(word)?)?;
    }
    Ok(voters)
}

fn members(alloc: Global, words: &[&str]) -> Result<Payload> {
    let groups = vec![in alloc; voters(alloc, words)?]?;
    Ok(Payload::Membership(Membership::new(alloc, groups, Vec::new(alloc))?))
}

fn value(word: &str) -> Result<Payload> {
    Ok(Payload::Value(Value::Number(number(word)?)))
}

fn payload(alloc: Global, words: &[&str]) -> Result<Payload> {
    match words {
        ["blank"] => Ok(Payload::Blank),
        ["number", word] => value(word),
        ["members", voters @ ..] => members(alloc, voters),
        _ => bail!("no payload"),
    }
}

/// The command that appends an entry.
fn append_one(alloc: Global, entry: Entry) -> Result<Command<WorldConfig>> {
    let entries = vec![in alloc; entry]?;
    Ok(Command::AppendInputEntries {
        vote: Vote::default(),
        entries: Items::from_vec(entries),
    })
}

fn append(alloc: Global, id: &str, words: &[&str]) -> Result<Command<WorldConfig>> {
    let log_id = log_id(id)?;
    let payload = payload(alloc, words)?;
    append_one(alloc, Entry { log_id, payload })
}

fn delete(id: &str) -> Result<Command<WorldConfig>> {
    let since = log_id(id)?;
    Ok(Command::DeleteConflictLog { since })
}

fn purge(id: &str) -> Result<Command<WorldConfig>> {
    let upto = log_id(id)?;
    Ok(Command::PurgeLog { upto })
}

fn commit(id: &str) -> Result<Command<WorldConfig>> {
    let upto = log_id(id)?;
    Ok(Command::Commit {
        seq: 0,
        already_committed: None,
        upto,
    })
}

/// The command that installs what was noted. It has no data.
fn install(alloc: Global, noted: &Packed<Digest>) -> Result<Command<WorldConfig>> {
    let meta = noted.meta(alloc)?;
    let snapshot = Snapshot {
        meta,
        snapshot: Items::new(alloc),
    };
    let payload = CommandPayload::InstallFullSnapshot { snapshot };
    Ok(Command::StateMachine {
        command: sm::Command { seq: 0, payload },
    })
}

fn command(alloc: Global, noted: &Packed<Digest>, words: &[&str]) -> Result<Command<WorldConfig>> {
    match words {
        ["vote", term, node] => save_vote(term, node),
        ["append", id, payload @ ..] => append(alloc, id, payload),
        ["delete", id] => delete(id),
        ["purge", id] => purge(id),
        ["commit", id] => commit(id),
        ["install"] => install(alloc, noted),
        _ => bail!("no such line"),
    }
}

fn execute(alloc: Global, desk: &mut Desk, words: &[&str]) -> Result<()> {
    let command = command(alloc, &desk.noted, words)?;
    desk.store.execute(command, &desk.noted)?;
    Ok(())
}

fn note(desk: &mut Desk) -> Result<()> {
    desk.noted = desk.store.copy_applied()?;
    Ok(())
}

fn keep(desk: &mut Desk) -> Result<()> {
    desk.store.keep_snapshot(desk.noted.copy()?)?;
    Ok(())
}

/// What the store itself has noted.
fn mark(store: &mut PackedStore<Digest>, words: &[&str]) -> Result<()> {
    match words {
        ["mark"] => Ok(store.note()?),
        ["keep", "mark"] => Ok(store.keep_noted()?),
        ["drop", "mark"] => {
            store.forget_note();
            Ok(())
        }
        _ => bail!("no such line"),
    }
}

fn put_left(is_more: bool, given: &mut Vec<u8>) -> Result<()> {
    let left = if is_more {
        "more are left"
    } else {
        "none is left"
    };
    put_line(format_args!("{left}"), given)
}

/// Applies so many late entries to the snapshot's state.
fn fold(store: &mut PackedStore<Digest>, word: &str, given: &mut Vec<u8>) -> Result<()> {
    let is_more = store.fold_some(number(word)? as usize)?;
    put_left(is_more, given)
}

/// Encodes or sums some bytes more of the snapshot's state.
fn encode(
    store: &mut PackedStore<Digest>,
    before: &str,
    front: &str,
    count: &str,
    given: &mut Vec<u8>,
) -> Result<()> {
    let most = NonZeroUsize::new(number(count)? as usize).context("no bytes")?;
    let is_more = store.encode_some(before.parse()?, front.as_bytes(), 0, most)?;
    put_left(is_more, given)
}

/// Takes what is encoded and summed of the snapshot's state.
fn take_encoded(
    store: &mut PackedStore<Digest>,
    before: &str,
    front: &str,
    given: &mut Vec<u8>,
) -> Result<()> {
    let Some(Encoded { bytes, sum }) = store.take_encoded(before.parse()?, front.as_bytes()) else {
        return put_line("nothing", given);
    };
    let len = bytes.len();
    let last = bytes.last().copied().unwrap_or(0);
    put_line(
        format_args!("{len} bytes, last {last:02x}, sum {sum:08x}"),
        given,
    )
}

/// How many entries a range has.
fn count(store: &PackedStore<Digest>, prev: &str, last: &str) -> Result<usize> {
    let prev = optional_id(prev)?;
    let last = optional_id(last)?;
    Ok(store.copy_range(&prev, &last)?.len())
}

fn range(store: &PackedStore<Digest>, prev: &str, last: &str, given: &mut Vec<u8>) -> Result<()> {
    let count = count(store, prev, last)?;
    let stored = store.log_len();
    put_line(format_args!("{count} of {stored}"), given)
}

/// A line that prints what is kept.
fn question(store: &PackedStore<Digest>, word: &str, given: &mut Vec<u8>) -> Result<()> {
    match word {
        "log" => show::put_log(store, given),
        "snapshot" => show::put_snapshot(store, given),
        "applied" => show::put_packed("applied", &store.copy_applied()?, given),
        "marked" => show::put_noted(store.copy_noted()?, given),
        _ => bail!("no such line"),
    }
}

fn start_of(word: &str) -> Result<Start> {
    match word {
        "plain" => Ok(Start::Plain),
        "saved" => Ok(Start::Saved),
        "bare" => Ok(Start::Bare),
        _ => bail!("no such start"),
    }
}

/// Starts a node on the store.
fn start(alloc: Global, desk: &mut Desk, word: &str, given: &mut Vec<u8>) -> Result<()> {
    let how = start_of(word)?;
    let store = mem::replace(&mut desk.store, PackedStore::new(alloc));
    nodes::start(alloc, store, how, given)
}

fn step(alloc: Global, desk: &mut Desk, words: &[&str], given: &mut Vec<u8>) -> Result<()> {
    match words {
        ["note"] => note(desk),
        ["keep"] => keep(desk),
        ["mark"] | ["keep" | "drop", "mark"] => mark(&mut desk.store, words),
        ["other"] => {
            desk.store = PackedStore::new(alloc);
            Ok(())
        }
        [word @ ("log" | "snapshot" | "applied" | "marked")] => question(&desk.store, word, given),
        ["fold", word] => fold(&mut desk.store, word, given),
        ["share"] => show::put_packed("snapshot", &desk.store.share_snapshot()?, given),
        ["encode", before, front, count] => { encode(&mut desk.store, before, front, count, given) }
        ["take", before, front] => take_encoded(&mut desk.store, before, front, given),
        ["start", word] => start(alloc, desk, word, given),
        ["range", prev, last] => range(&desk.store, prev, last, given),
        _ => execute(alloc, desk, words),
    }
}

/// Takes a line; one that begins with `#` is a comment.
fn take(alloc: Global, desk: &mut Desk, line: &str, given: &mut Vec<u8>) -> Result<()> {
    if line.starts_with('#') {
        return Ok(());
    }
    let words: Vec<&str> = line.split(' ').collect(alloc)?;
    step(alloc, desk, &words, given).context(format_args!("line {line:?}"))
}

/// Each line in turn.
fn take_all(alloc: Global, desk: &mut Desk, text: &str, given: &mut Vec<u8>) -> Result<()> {
    for line in text.lines() {
        take(alloc, desk, line, given)?;
    }
    Ok(())
}

/// Each line in turn, made to a new store.
pub fn play(alloc: Global, text: &str, given: &mut Vec<u8>) -> Result<()> {
    let mut desk = Desk {
        store: PackedStore::new(alloc),
        noted: Packed::new(alloc),
    };
    take_all(alloc, &mut desk, text, given)
}
