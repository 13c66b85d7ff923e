//! Plays the cases of `data/`: of the kind `values`, values that are made and called ([`values`] names the modules that
//! have the lines of their texts, in whose heads they are listed); of the kind `engine`, calls on engines, and questions
//! to them ([`engines`] names theirs). [`words`] says how values are written. What a schedule or an engine's case calls
//! isn't called of values again.
#![tactic(auto)]

mod calls;
mod commands;
mod engines;
mod entry;
mod follower;
mod ids;
mod leader;
mod lent;
mod made;
mod members;
mod messages;
mod purges;
mod questions;
mod queue;
mod replication;
mod replies;
mod show;
mod table;
mod texts;
mod types;
mod values;
mod words;

use anyhow::{Result, bail};
use engines::Node;
use entry::Target;
use std::alloc::Global;
use test_cases::{Player, play_lines, run};

/// Plays the texts of each kind.
struct Kinds;

impl Player for Kinds {
    fn play(&self, alloc: Global, kind: &str, text: &[u8], given: &mut Vec<u8>) -> Result<()> {
        match kind {
            "engine" => play_lines(alloc, &mut Node::new(alloc)?, text, given),
            "values" => play_lines(alloc, &mut Target::new(alloc), text, given),
            _ => bail!("no such kind: {kind}"),
        }
    }
}

fn main(rt: HostRuntime) -> Result<()> {
    run(&rt, &Kinds)
}
