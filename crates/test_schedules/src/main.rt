//! Runs the schedules of `data/`, and compares the report or the refusal of each with what its case expects.
#![tactic(auto)]

use anyhow::Result;
use raft_world::simulate;
use std::alloc::Global;
use std::io::Write;
use test_cases::{Player, run};

/// Runs a text as `raftsim` does.
struct Simulation;

impl Player for Simulation {
    /// Writes the report of a schedule, and after it the exit status and what is told, unless it is a report alone.
    fn play(&self, alloc: Global, _kind: &str, text: &[u8], given: &mut Vec<u8>) -> Result<()> {
        let mut told = Vec::new(alloc);
        let status = simulate(alloc, text, &mut *given, &mut told);
        if status != 0 || !told.is_empty() {
            writeln!(given, "status {status}")?;
            given.extend_from_slice(&told)?;
        }
        Ok(())
    }
}

fn main(rt: HostRuntime) -> Result<()> {
    run(&rt, &Simulation)
}
