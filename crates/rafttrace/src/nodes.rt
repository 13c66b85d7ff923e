//! What nodes are and have, as text.

use crate::commands::print_members;
use crate::tracer::role_text;
use raft_engine::Engine;
use raft_progress_entry::{Inflight, ProgressEntry};
use raft_state::DisplayOption;
use raft_world::{Store, World, WorldConfig};
use std::io::{self, Write};

/// A line for each of these nodes, and lines below it.
pub fn print_nodes<W: Write>(nodes: &[u64], world: &World, output: &mut W) -> io::Result<()> {
    for id in nodes {
        match world.engine(*id) {
            Some(engine) => print_engine(engine, output)?,
            None => writeln!(output, "node {id}: stopped")?,
        }
        if let Some(store) = world.store(*id) {
            print_store(store, output)?;
        }
        if let Some(engine) = world.engine(*id) {
            print_progress(engine, output)?;
        }
    }
    Ok(())
}

/// A running node, and its effective membership.
fn print_engine<W: Write>(engine: &Engine<WorldConfig>, output: &mut W) -> io::Result<()> {
    let id = engine.config.id;
    let role = role_text(engine.state.role);
    let vote = engine.state.vote;
    let last = DisplayOption(engine.state.last_log_id());
    let committed = DisplayOption(engine.state.committed());
    writeln!(
        output,
        "node {id}: {role}, vote {vote}, last {last}, committed {committed}"
    )?;
    let from = DisplayOption(engine.state.em.log_id);
    write!(output, "    membership {from}")?;
    print_members(&engine.state.em.membership, output)?;
    writeln!(output, "")
}

/// Up to where a node has applied the log, stored it in a snapshot, and purged it.
fn print_store<W: Write>(store: &Store, output: &mut W) -> io::Result<()> {
    let entries = store.copy_applied()?;
    let applied = DisplayOption(entries.last().map(|entry| entry.log_id));
    let snapshot = DisplayOption(store.snapshot_last());
    let purged = DisplayOption(store.front());
    writeln!(
        output,
        "    applied {applied}, snapshot {snapshot}, purged {purged}"
    )
}

/// A line for each node to which a leader sends its log.
fn print_progress<W: Write>(engine: &Engine<WorldConfig>, output: &mut W) -> io::Result<()> {
    let Some(leader) = &engine.leader else {
        return Ok(());
    };
    for row in leader.progress.iter() {
        let (id, entry) = *row;
        if id != engine.config.id {
            print_target(id, &entry, output)?;
        }
    }
    Ok(())
}

/// Up to where a target's log is known to match, and what is in flight to it.
fn print_target<W: Write>(id: u64, entry: &ProgressEntry<u64>, output: &mut W) -> io::Result<()> {
    let matching = DisplayOption(entry.matching);
    write!(output, "    node {id} has {matching}, in flight: ")?;
    match entry.inflight {
        Inflight::None => writeln!(output, "nothing"),
        Inflight::Logs { log_id_range, .. } => writeln!(output, "entries {log_id_range}"),
        Inflight::Snapshot { last_log_id, .. } => {
            let last = DisplayOption(last_log_id);
            writeln!(output, "snapshot up to {last}")
        }
    }
}
