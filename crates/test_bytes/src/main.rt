//! Plays the cases of `data/`, of bytes on disks and between servers: of the kind `frames`, what is read of logs' files,
//! whole and damaged (the head of [`frames`] lists the lines of their texts); of the kind `chunks`, snapshots that are
//! sent in chunks ([`chunks`]).
#![tactic(auto)]

mod chunks;
mod frames;
mod random;

use anyhow::{Result, bail};
use chunks::Transfer;
use frames::Desk;
use std::alloc::Global;
use test_cases::{Player, play_lines, run};

/// Plays the texts of each kind.
struct Bytes;

impl Player for Bytes {
    fn play(&self, alloc: Global, kind: &str, text: &[u8], given: &mut Vec<u8>) -> Result<()> {
        match kind {
            "frames" => play_lines(alloc, &mut Desk::new(alloc), text, given),
            "chunks" => play_lines(alloc, &mut Transfer::new(alloc), text, given),
            _ => bail!("no such kind: {kind}"),
        }
    }
}

fn main(rt: HostRuntime) -> Result<()> {
    run(&rt, &Bytes)
}
