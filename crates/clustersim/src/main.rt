//! Plays a cluster's text, from standard input; or `--random SEED STEPS`, `--random SEED STEPS SEEDS` or `--count SEED STEPS
//! SEEDS`, the text of that line. Writes what comes of it.
#![tactic(auto)]

use anyhow::Result;
use std::alloc::AllocGlobal;
use std::env;
use std::process::ExitCode;
use std::rt::Env;

/// The line of the arguments: without the dashes, and empty if there are none.
fn line_of<R: Env + AllocGlobal>(rt: &R) -> Result<String> {
    let mut line = String::new(rt.alloc());
    for word in env::args(rt)?.skip(1) {
        if !line.is_empty() {
            line.push(' ')?;
        }
        line.push_str(word.strip_prefix("--").unwrap_or(&word))?;
    }
    Ok(line)
}

fn main(rt: HostRuntime) -> Result<ExitCode> {
    let line = line_of(&rt)?;
    let status = if line.is_empty() {
        raft_cluster_text::simulate(rt.alloc(), rt.stdin(), rt.stdout(), rt.stderr())
    } else {
        raft_cluster_text::simulate(rt.alloc(), line.as_bytes(), rt.stdout(), rt.stderr())
    };
    Ok(ExitCode::from(status))
}
