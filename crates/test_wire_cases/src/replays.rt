//! Records of steps, and stores from records.

use anyhow::Result;
use raft_command::Command;
use raft_state::{Items, LeaderId, LogId, Vote};
use raft_store::{Entry, Payload, Store, WorldConfig};
use raft_wire::{Began, Record, decode, write_step};
use std::alloc::Global;
use test_words::text::put_line;

fn tell_snapshot(store: &Store, given: &mut Vec<u8>) -> Result<()> {
    let last = store.snapshot_last();
    let saved = store.saved();
    put_line(format_args!("snapshot {last:?}, saved {saved:?}"), given)
}

fn tell_log(store: &Store, given: &mut Vec<u8>) -> Result<()> {
    let vote = store.vote();
    let len = store.map_len();
    let front = store.front();
    put_line(
        format_args!("vote {vote}, {len} entries\npurged {front:?}"),
        given,
    )
}

fn tell_store(store: &Store, given: &mut Vec<u8>) -> Result<()> {
    tell_log(store, given)?;
    tell_snapshot(store, given)
}

/// What a store is after a record.
fn replay(record: Record, store: &mut Store, given: &mut Vec<u8>) -> Result<()> {
    match record.replay(store) {
        Ok(()) => tell_store(store, given),
        Err(error) => put_line(error, given),
    }
}

/// What a new store is after a record.
pub fn replay_line(alloc: Global, bytes: &[u8], given: &mut Vec<u8>) -> Result<()> {
    let record: Record = decode(alloc, bytes)?;
    replay(record, &mut Store::new(alloc), given)
}

/// A no-op entry with this id, for which node 2 has a vote in term 1.
fn append(alloc: Global, log_id: LogId<u64>) -> Result<Command<WorldConfig>> {
    let payload = Payload::Blank;
    let entries = vec![in alloc; Entry { log_id, payload }]?;
    Ok(Command::AppendInputEntries {
        vote: Vote::new_committed(1, 2),
        entries: Items::from_vec(entries),
    })
}

/// The commands of a step: a vote for node 2 in term 1 is saved, a no-op entry is appended, and it is committed.
fn commands(alloc: Global) -> Result<Vec<Command<WorldConfig>>> {
    let upto = LogId::new(LeaderId::new(1, 2), 0);
    let vote = Vote::new_committed(1, 2);
    let commit = Command::Commit {
        seq: 1,
        already_committed: None,
        upto,
    };
    Ok(vec![in alloc; Command::SaveVote { vote }, append(alloc, upto)?, commit]?)
}

/// The bytes of a record of commands.
fn record_of(alloc: Global, commands: &[Command<WorldConfig>]) -> Result<Vec<u8>> {
    let mut out = Vec::new(alloc);
    write_step(&mut out, 300, &Began::Settled, commands)?;
    Ok(out)
}

/// The bytes of a step's record.
pub fn step_line(alloc: Global, given: &mut Vec<u8>) -> Result<()> {
    let record = record_of(alloc, &commands(alloc)?)?;
    put_line(hex::encode(alloc, record)?, given)
}
