//! Files that are made and damaged at random. Of each it is tested that reading ends, that what is read is spelled so in
//! the file's front, that the list of payloads is no longer than the file allows, and that a frame that is appended
//! behind the end is read behind the others; of a changed byte in front of the last frame also that it is told.

use crate::frames::{Desk, flip};
use anyhow::{Result, bail, ensure};
use raft_frames::{Fault, Log, LogId, ReadError, Tail};
use rand_core::{Rng, SeedableRng};
use rand_xoshiro::SplitMix64;
use std::alloc::Global;

const ID: LogId = LogId {
    cluster: 7,
    node: 3,
};

/// A number below a bound, which is not 0.
fn below(rng: &mut SplitMix64, bound: u64) -> usize {
    rng.next_u64().checked_rem(bound).unwrap_or(0) as usize
}

/// Appends a frame.
fn push(desk: &mut Desk, payload: &[u8]) -> Result<()> {
    ensure!(
        desk.tail.push(payload, &mut desk.file).is_ok(),
        "a payload that can't be pushed"
    );
    Ok(())
}

/// A payload of 1 to 24 bytes: at random, zeros, or what ends the file.
fn payload(alloc: Global, rng: &mut SplitMix64, desk: &Desk) -> Result<Vec<u8>> {
    let len = below(rng, 24).saturating_add(1);
    let kind = below(rng, 4);
    if kind == 1 {
        let from = desk.file.len().saturating_sub(len);
        return Ok(Vec::from_slice(alloc, desk.file.get(from..).unwrap_or_default())?);
    }
    let mut payload = vec![in alloc; 0; len]?;
    if kind > 1 {
        rng.fill_bytes(&mut payload);
    }
    Ok(payload)
}

/// Appends a frame with any payload.
fn push_any(alloc: Global, rng: &mut SplitMix64, desk: &mut Desk) -> Result<()> {
    let payload = payload(alloc, rng, desk)?;
    push(desk, &payload)
}

/// So many zeros.
fn zero(alloc: Global, desk: &mut Desk, at: usize, count: usize) -> Result<()> {
    desk.overwrite(at, &vec![in alloc; 0; count]?);
    Ok(())
}

/// Changes the file in one way or another.
fn damage(alloc: Global, rng: &mut SplitMix64, desk: &mut Desk) -> Result<()> {
    let len = (desk.file.len() as u64).max(1);
    let at = below(rng, len);
    match below(rng, 5) {
        0 => desk.file.truncate(at),
        1 => zero(alloc, desk, at, below(rng, 40))?,
        2 => desk.append_zeros(below(rng, 40))?,
        3 => desk.overwrite(at, &rng.next_u64().to_le_bytes()),
        _ => desk.overwrite(at, &[rng.next_u64().to_le_bytes()[0]]),
    }
    Ok(())
}

/// The file's front with a header and these payloads, as `push` spells them.
fn spell(alloc: Global, payloads: &[&[u8]]) -> Result<Desk> {
    let mut desk = Desk::new(alloc);
    desk.begin(&ID)?;
    for payload in payloads {
        push(&mut desk, *payload)?;
    }
    Ok(desk)
}

/// What is read is spelled so in the file's front, and no longer than the file allows.
fn is_spelled(desk: &Desk, log: &Log, again: &Desk) -> bool {
    let fits = log.payloads.len() <= desk.file.len() / 13 && again.tail == log.tail;
    if log.end == 0 {
        return fits && log.payloads.is_empty();
    }
    fits && again.file.len() == log.end && desk.file.starts_with(&again.file)
}

/// Whether a file has so many frames.
fn has_frames(alloc: Global, desk: &Desk, count: usize) -> bool {
    match desk.read(alloc, &ID) {
        Ok(log) => log.payloads.len() == count,
        Err(_) => false,
    }
}

/// Tests what is read of a file, with the same payloads spelled again.
fn judge_log(alloc: Global, desk: &Desk, log: &Log, again: &mut Desk) -> Result<()> {
    ensure!(is_spelled(desk, log, again), "spelled otherwise");
    push(again, b"more")?;
    let count = log.payloads.len().saturating_add(1);
    ensure!(has_frames(alloc, again, count), "not gone on with");
    Ok(())
}

/// Tests what is read of a file.
fn judge(alloc: Global, desk: &Desk) -> Result<()> {
    match desk.read(alloc, &ID) {
        Ok(log) => judge_log(alloc, desk, &log, &mut spell(alloc, &log.payloads)?),
        Err(ReadError::Fault(_)) => Ok(()),
        Err(ReadError::OutOfMemory) => bail!("out of memory"),
    }
}

/// Whether damage of the frame at a position is told.
fn is_told(alloc: Global, desk: &Desk, position: u64) -> bool {
    match desk.read(alloc, &ID) {
        Err(ReadError::Fault(Fault::Damaged(at))) => at == position,
        _ => false,
    }
}

/// Tests that a byte which is changed in a frame in front of the last one is told with the frame's place.
fn judge_change(
    alloc: Global,
    rng: &mut SplitMix64,
    desk: &mut Desk,
    frame: &Tail,
    behind: &Tail,
) -> Result<()> {
    let len = behind.position.saturating_sub(frame.position).max(1);
    let at = (frame.position as usize).saturating_add(below(rng, len));
    ensure!(flip(&mut desk.file, at), "no byte {at}");
    ensure!(is_told(alloc, desk, frame.position), "byte {at} isn't told");
    flip(&mut desk.file, at);
    Ok(())
}

/// One file: some frames, a changed byte in front of the last one, and then damage of any kind.
fn round(alloc: Global, rng: &mut SplitMix64) -> Result<()> {
    let mut desk = Desk::new(alloc);
    desk.begin(&ID)?;
    for _ in 0..below(rng, 5) {
        let frame = desk.tail;
        push_any(alloc, rng, &mut desk)?;
        let behind = desk.tail;
        push_any(alloc, rng, &mut desk)?;
        judge_change(alloc, rng, &mut desk, &frame, &behind)?;
    }
    judge(alloc, &desk)?;
    for _ in 0..4 {
        damage(alloc, rng, &mut desk)?;
        judge(alloc, &desk)?;
    }
    Ok(())
}

/// So many files, from a seed.
pub fn rounds(alloc: Global, seed: u64, count: u64) -> Result<()> {
    let mut rng = SplitMix64::seed_from_u64(seed);
    for _ in 0..count {
        round(alloc, &mut rng)?;
    }
    Ok(())
}
