//! Lines `queue ..`, of a queue of commands that is empty at first.
//!
//! - `put-back TOKEN OTHER`: a reply is put in front of another command and taken again, and whether it equals one for
//!   another caller; then what is still queued
//! - `refuse`: memory is refused within a step, after a command was pushed; what each call answers then

use crate::show::{show_flag, tell, tell_refusal};
use crate::texts::write_command;
use crate::types::Small;
use crate::words::kept;
use raft_command::laws::take_postponed;
use raft_command::{Command, Condition, EngineOutput, Respond, Token};
use std::alloc::AllocError;
use test_cases::Sheet;

fn tell_command(command: &Command<Small>, sheet: &mut Sheet<'_>) {
    write_command(command, sheet);
    sheet.put_line("");
}

/// Takes the first command.
pub fn pop(queue: &mut EngineOutput<Small>, sheet: &mut Sheet<'_>) {
    match queue.pop_command() {
        Some(command) => tell_command(&command, sheet),
        None => sheet.put_line("None"),
    }
}

/// The reply to a first entry, once the first command to the state machine is done.
fn initialized(token: u64) -> Command<Small> {
    Command::Respond {
        when: Some(Condition::StateMachineCommand { command_seq: 1 }),
        resp: Respond::new_initialize(Ok(()), Token(token)),
    }
}

/// Whether what was taken is the reply to a first entry for the caller of a token.
fn is_initialized(taken: &Option<Command<Small>>, token: u64) -> bool {
    *taken == Some(initialized(token))
}

fn put_back(queue: &mut EngineOutput<Small>, sheet: &mut Sheet<'_>) {
    let token = sheet.number();
    let other = sheet.number();
    tell(queue.push_command(Command::QuitLeader), sheet);
    match take_postponed(queue, initialized(token)) {
        Ok(taken) => show_flag("same", is_initialized(&taken, other), sheet),
        Err(refusal) => tell_refusal(&refusal, sheet),
    }
    pop(queue, sheet)
}

/// Memory is refused within a step.
fn refuse(queue: &mut EngineOutput<Small>, sheet: &mut Sheet<'_>) {
    tell(queue.push_command(Command::BecomeLeader), sheet);
    tell(queue.settle(Err::<(), AllocError>(AllocError)), sheet);
    show_flag("spent", queue.is_spent(), sheet);
    pop(queue, sheet);
    tell(queue.push_command(Command::BecomeLeader), sheet);
    tell(queue.postpone_command(Command::BecomeLeader), sheet)
}

/// A line of these, on a queue.
fn queue_call(name: &str, queue: &mut EngineOutput<Small>, sheet: &mut Sheet<'_>) {
    match name {
        "put-back" => put_back(queue, sheet),
        "refuse" => refuse(queue, sheet),
        _ => sheet.fail("no such line"),
    }
}

/// A line of these.
pub fn queue_line(sheet: &mut Sheet<'_>) {
    if let Some(mut queue) = kept(EngineOutput::new(sheet.alloc(), 4), sheet) {
        queue_call(sheet.word(), &mut queue, sheet);
    }
}
