//! Commands and entries as text.

use raft_command::Command;
use raft_command::sm::CommandPayload;
use raft_progress_entry::ProgressEntry;
use raft_state::{DisplayOption, Membership};
use raft_world::{Entry, Hex, Payload, Value, WorldConfig};
use std::io::{self, Write};

/// A line for a command, one for each entry of an append; a command that sends has none, since its messages are shown.
pub fn print_command<W: Write>(command: &Command<WorldConfig>, output: &mut W) -> io::Result<()> {
    match command {
        Command::SendVote { .. } | Command::Replicate { .. } | Command::Respond { .. } => Ok(()),
        Command::BecomeLeader => writeln!(output, "    become leader"),
        Command::QuitLeader => writeln!(output, "    quit leader"),
        Command::AppendInputEntries { entries, .. } => {
            print_entries("append", entries.as_slice(), output)
        }
        Command::SaveVote { vote } => writeln!(output, "    save vote {vote}"),
        Command::Commit { upto, .. } => writeln!(output, "    commit up to {upto}"),
        Command::ReplicateCommitted { committed } => {
            let committed = DisplayOption(*committed);
            writeln!(output, "    replicate committed {committed}")
        }
        Command::RebuildReplicationStreams { targets } => print_targets(targets.as_slice(), output),
        Command::PurgeLog { upto } => writeln!(output, "    purge up to {upto}"),
        Command::DeleteConflictLog { since } => writeln!(output, "    delete from {since}"),
        Command::StateMachine { command } => print_payload_command(&command.payload, output),
    }
}

/// A line for each of these entries, after this word.
pub fn print_entries<W: Write>(word: &str, entries: &[Entry], output: &mut W) -> io::Result<()> {
    for entry in entries {
        print_entry(word, entry, output)?;
    }
    Ok(())
}

/// A line for this entry, after this word.
pub fn print_entry<W: Write>(word: &str, entry: &Entry, output: &mut W) -> io::Result<()> {
    let log_id = entry.log_id;
    write!(output, "    {word} {log_id} ")?;
    print_payload(&entry.payload, output)?;
    writeln!(output, "")
}

fn print_payload<W: Write>(payload: &Payload, output: &mut W) -> io::Result<()> {
    match payload {
        Payload::Blank => write!(output, "no-op"),
        Payload::Value(Value::Number(value)) => write!(output, "value {value}"),
        Payload::Value(Value::Bytes(bytes)) => {
            let hex = Hex(bytes.as_slice());
            write!(output, "bytes {hex}")
        }
        Payload::Membership(membership) => print_membership(membership, output),
    }
}

fn print_membership<W: Write>(membership: &Membership<u64, ()>, output: &mut W) -> io::Result<()> {
    write!(output, "membership")?;
    print_members(membership, output)
}

/// The groups of voters, and the learners if there are any, each behind a space.
pub fn print_members<W: Write>(membership: &Membership<u64, ()>, output: &mut W) -> io::Result<()> {
    for group in membership.groups() {
        write!(output, " ")?;
        print_ids(group.as_slice(), output)?;
    }
    let learners = membership.learner_ids()?;
    if !learners.is_empty() {
        write!(output, " learners ")?;
        print_ids(&learners, output)?;
    }
    Ok(())
}

fn print_ids<W: Write>(ids: &[u64], output: &mut W) -> io::Result<()> {
    let mut gap = "";
    write!(output, "{{")?;
    for id in ids {
        write!(output, "{gap}{id}")?;
        gap = " ";
    }
    write!(output, "}}")
}

fn print_targets<W: Write>(
    targets: &[(u64, ProgressEntry<u64>)],
    output: &mut W,
) -> io::Result<()> {
    if targets.is_empty() {
        return writeln!(output, "    open no streams");
    }
    write!(output, "    open streams to")?;
    for target in targets {
        let id = target.0;
        write!(output, " {id}")?;
    }
    writeln!(output, "")
}

fn print_payload_command<W: Write>(
    payload: &CommandPayload<WorldConfig>,
    output: &mut W,
) -> io::Result<()> {
    match payload {
        CommandPayload::BuildSnapshot => writeln!(output, "    build snapshot"),
        CommandPayload::GetSnapshot { .. } => writeln!(output, "    get snapshot"),
        CommandPayload::BeginReceivingSnapshot { .. } => {
            writeln!(output, "    begin receiving snapshot")
        }
        CommandPayload::InstallFullSnapshot { snapshot } => {
            let last = DisplayOption(snapshot.meta.last_log_id);
            writeln!(output, "    install snapshot up to {last}")
        }
        CommandPayload::Apply { entries } => print_entries("apply", entries.as_slice(), output),
    }
}
