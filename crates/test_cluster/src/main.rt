//! Plays the clusters' texts of `data/`, and compares what comes of each, or its refusal, with what its case expects.
#![tactic(auto)]

use anyhow::Result;
use raft_cluster_text::simulate;
use std::alloc::Global;
use std::io::Write;
use test_cases::{Player, run};

/// Plays a text as `clustersim` does.
struct Clusters;

impl Player for Clusters {
    /// Writes what comes of a text, and after it the exit status and what is told, unless it ended well.
    fn play(&self, alloc: Global, _kind: &str, text: &[u8], given: &mut Vec<u8>) -> Result<()> {
        let mut told = Vec::new(alloc);
        let status = simulate(alloc, text, &mut *given, &mut told);
        if status != 0 || !told.is_empty() {
            writeln!(given, "status {status}")?;
            given.extend_from_slice(&told)?;
        }
        Ok(())
    }
}

fn main(rt: HostRuntime) -> Result<()> {
    run(&rt, &Clusters)
}
