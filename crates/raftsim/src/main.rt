//! Reads a schedule from standard input, runs it, and writes the report.
#![tactic(auto)]

use std::process::ExitCode;

fn main(rt: HostRuntime) -> ExitCode {
    ExitCode::from(raft_world::simulate(rt.alloc(), rt.stdin(), rt.stdout(), rt.stderr()))
}
