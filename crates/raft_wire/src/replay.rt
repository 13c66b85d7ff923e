//! Records from a step's commands, and stores from records.

ghost use Rattle.std.specs.Prelude.{◌≡◌, OnOk, count_by, fold, is_some};
ghost use Rattle.std.specs.Option.{option_to_list};
ghost use Rattle.raft_store.specs.Ring.{CanStore};
ghost use Rattle.raft_codec.specs.Codec.{Writes};
ghost use Rattle.raft_wire.specs.Records.{logged, payload_change, change_of, changes_of, record_of, WritesChanges};
ghost use Rattle.raft_wire.specs.Records.{command_of, changed, begun, on_disk, Replays};

use crate::record::{
    Began, Change, Record, write_append, write_delete, write_install, write_purge, write_vote,
};
use crate::wire::Wire;
use raft_command::Command;
use raft_command::sm::{self, CommandPayload};
use raft_state::Vote;
use raft_store::{Store, WorldConfig};
use std::alloc::AllocError;
use thiserror::Error;

/// Why a record was not replayed.
#[derive(Clone, Copy, PartialEq, Eq, Debug, Error)]
pub enum ReplayError {
    #[error("out of memory")]
    OutOfMemory,
    /// Appended entries don't continue the stored ones.
    #[error("appended entries do not continue the stored ones")]
    Gap,
}

impl From<AllocError> for ReplayError {
    ghost use Rattle.std.specs.Prelude.{◌≡◌};
    ghost use Rattle.raft_wire.specs.declared.replay.ReplayError.TheVariants.{OutOfMemory};

    ghost from_gives = { λ _ e. e ≡ OutOfMemory };

    fn from(_: AllocError) -> Self {
        ReplayError::OutOfMemory
    }
}

fn changes_by_payload(payload: &CommandPayload<WorldConfig>) -> bool
    ensures { result ≡ is_some (payload_change payload.now) }
{
    matches!(payload, CommandPayload::InstallFullSnapshot { .. })
}

/// Whether a command changes anything on disk.
pub fn is_change(command: &Command<WorldConfig>) -> bool
    ensures { result ≡ is_some (change_of command.now) }
{
    match command {
        Command::SaveVote { .. }
        | Command::AppendInputEntries { .. }
        | Command::DeleteConflictLog { .. }
        | Command::PurgeLog { .. } => true,
        Command::StateMachine { command } => changes_by_payload(&command.payload),
        _ => false,
    }
}

/// How many of the commands change anything on disk.
fn count_changes(commands: &[Command<WorldConfig>]) -> usize
    ensures { result ≡ count_by (λ c. is_some (change_of c)) commands.now }
{
    let mut count = 0;
    for command in commands {
        if is_change(command) {
            count += 1;
        }
    }
    count
}

fn write_payload_change(
    out: &mut Vec<u8>,
    payload: &CommandPayload<WorldConfig>,
) -> Result<(), AllocError>
    ensures { WritesChanges (option_to_list (payload_change payload.now)) result out.old.items out.new.items }
{
    match payload {
        CommandPayload::InstallFullSnapshot { snapshot } => write_install(out, snapshot),
        _ => Ok(()),
    }
}

/// Appends what a command changes on disk, if anything. It copies no entries.
pub fn write_change(out: &mut Vec<u8>, command: &Command<WorldConfig>) -> Result<(), AllocError>
    ensures { WritesChanges (option_to_list (change_of command.now)) result out.old.items out.new.items }
{
    match command {
        Command::SaveVote { vote } => write_vote(out, vote),
        Command::AppendInputEntries { entries, .. } => write_append(out, entries),
        Command::DeleteConflictLog { since } => write_delete(out, since),
        Command::PurgeLog { upto } => write_purge(out, upto),
        Command::StateMachine { command } => write_payload_change(out, &command.payload),
        _ => Ok(()),
    }
}

fn write_changes(out: &mut Vec<u8>, commands: &[Command<WorldConfig>]) -> Result<(), AllocError>
    ensures { WritesChanges (changes_of commands.now) result out.old.items out.new.items }
{
    for command in commands {
        write_change(out, command)?;
    }
    Ok(())
}

/// Appends the record of a step: up to which moment moments are reserved, in milliseconds, what the step's calls made of
/// the store, and what its commands change on disk. It copies no entries.
#[tactic(auto, unfolding(crate::specs::Records::logged, raft_codec::specs::Codec::list))]
pub fn write_step(
    out: &mut Vec<u8>,
    moment: u64,
    began: &Began,
    commands: &[Command<WorldConfig>],
) -> Result<(), AllocError>
    ensures { Writes logged (record_of moment began.now commands.now) result out.old.items out.new.items }
{
    moment.write(out)?;
    began.write(out)?;
    (count_changes(commands) as u64).write(out)?;
    write_changes(out, commands)
}

impl Change {
    /// The command that makes the change.
    fn into_command(self) -> Command<WorldConfig>
        ensures { result ≡ command_of self }
    {
        match self {
            Change::Vote(vote) => Command::SaveVote { vote },
            Change::Append(entries) => Command::AppendInputEntries {
                vote: Vote::new(0, 0),
                entries,
            },
            Change::Delete(since) => Command::DeleteConflictLog { since },
            Change::Purge(upto) => Command::PurgeLog { upto },
            Change::Install(snapshot) => Command::StateMachine {
                command: sm::Command::install_full_snapshot(snapshot),
            },
        }
    }
}

/// Makes a change to a store.
fn apply(store: &mut Store, change: Change) -> Result<(), ReplayError>
    ensures { OnOk result (store.new ≡ changed store.old change) }
{
    let command = change.into_command();
    if !store.can_store(&command) {
        return Err(ReplayError::Gap);
    }
    Ok(store.execute(command)?)
}

/// Makes changes to a store, in their order.
fn apply_all(store: &mut Store, changes: Vec<Change>) -> Result<(), ReplayError>
    ensures { OnOk result (store.new ≡ fold changed store.old changes.items) }
{
    for change in changes {
        apply(store, change)?;
    }
    Ok(())
}

/// Makes of a store what a step's calls made of it.
fn begin(store: &mut Store, began: Began) -> Result<(), AllocError>
    ensures { OnOk result (on_disk store.new ≡ on_disk (begun began store.old)) }
{
    match began {
        Began::Unchanged => Ok(()),
        Began::Settled => {
            store.restart(false)?;
            Ok(())
        }
        Began::Built(entries) => store.keep_snapshot(entries),
    }
}

impl Record {
    /// Makes of a store what the record's step made of it, but for the saved committed id and the entries that the state
    /// machine has applied.
    ///
    /// After a refusal nothing is promised of the store: entries that don't continue those that the store has, or out of
    /// memory.
    pub fn replay(self, store: &mut Store) -> Result<(), ReplayError>
        ensures { OnOk result (Replays self store.old store.new) }
    {
        let Record { began, changes, .. } = self;
        begin(store, began)?;
        apply_all(store, changes.into_vec())
    }
}
