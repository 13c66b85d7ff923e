//! Plays the cases of `data/`: what commands leave of a store whose snapshot is a state, and what a schedule makes of nodes over such stores.
//! [`lines`] and [`nodes`] list the lines of their texts; one of nodes begins with `nodes`.
#![tactic(auto)]

mod digest;
mod lines;
mod nodes;
mod show;

use anyhow::Result;
use std::alloc::Global;
use test_cases::{Player, run};

/// Plays a text's lines at stores, or at nodes.
struct Packs;

fn play(alloc: Global, text: &str, given: &mut Vec<u8>) -> Result<()> {
    if text.starts_with("nodes ") {
        return nodes::play(alloc, text, given);
    }
    lines::play(alloc, text, given)
}

impl Player for Packs {
    fn play(&self, alloc: Global, _kind: &str, text: &[u8], given: &mut Vec<u8>) -> Result<()> {
        play(alloc, str::from_utf8(text)?, given)
    }
}

fn main(rt: HostRuntime) -> Result<()> {
    run(&rt, &Packs)
}
