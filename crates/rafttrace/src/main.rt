//! Reads a schedule from standard input, runs it, and prints what happened: after each event the commands that its node
//! executed, the messages that it sent, and its changes of role.
#![tactic(auto)]

mod commands;
mod events;
mod messages;
mod nodes;
mod trace;
mod tracer;

use raft_world::Tracked;
use std::process::ExitCode;

fn main(rt: HostRuntime) -> ExitCode {
    let mut input = Tracked::new(rt.stdin());
    let mut output = Tracked::new(rt.stdout());
    match trace::trace(rt.alloc(), &mut input, &mut output) {
        Ok(()) => ExitCode::from(0),
        Err(failure) => {
            let _told = failure.print(&mut rt.stderr());
            ExitCode::from(failure.status())
        }
    }
}
