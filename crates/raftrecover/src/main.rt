//! `raftrecover V N ..`: reads a schedule from standard input, runs it, and writes a way on after it, by which these nodes execute the
//! number V, or all nodes if none is named.
#![tactic(auto)]

use anyhow::Result;
use std::env;
use std::process::ExitCode;

fn main(rt: HostRuntime) -> Result<ExitCode> {
    let words: Vec<String> = env::args(&rt)?.skip(1).collect(rt.alloc())?;
    let status = raft_recovery::simulate_words(
        rt.alloc(),
        &words,
        rt.stdin(),
        rt.stdout(),
        rt.stderr(),
    );
    Ok(ExitCode::from(status))
}
