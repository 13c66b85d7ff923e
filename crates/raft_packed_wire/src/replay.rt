//! Stores from records.

ghost use Rattle.std.specs.Prelude.{◌≡◌, OnOk, fold, unwrap_or};
ghost use Rattle.raft_packed_node.specs.proof_packed.Nodes.{of_no_entries};
ghost use Rattle.raft_packed_wire.specs.Named.{whole_began, whole_record};
ghost use Rattle.raft_packed_wire.specs.Records.{bare_install, installed_by, packed_begun, packed_changed, packed_command_of};
ghost use Rattle.raft_packed_wire.specs.Records.{packed_on_disk, packed_replayed};

use crate::named::Named;
use crate::record::{NamedRecord, PackedBegan, PackedChange};
use raft_command::{Command, Snapshot, sm};
use raft_packed_node::raft_packed::{Machine, Packed, PackedError, PackedStore};
use raft_state::{Items, SnapshotMeta, Vote};
use raft_store::WorldConfig;
use std::alloc::Global;

/// The command that installs a snapshot with this meta, without its data.
fn install(alloc: Global, meta: SnapshotMeta<u64, ()>) -> Command<WorldConfig>
    ensures { result ≡ bare_install meta }
{
    Command::StateMachine {
        command: sm::Command::install_full_snapshot(Snapshot {
            meta,
            snapshot: Items::new(alloc),
        }),
    }
}

impl<P: Drop> PackedChange<P> {
    /// The command that makes the change, and the snapshot that it installs.
    fn into_command(self, alloc: Global) -> (Command<WorldConfig>, Option<P>)
        ensures command { result.0 ≡ packed_command_of self }
        ensures installed { result.1 ≡ installed_by self }
    {
        match self {
            PackedChange::Vote(vote) => (Command::SaveVote { vote }, None),
            PackedChange::Append(entries) => {
                let vote = Vote::new(0, 0);
                (Command::AppendInputEntries { vote, entries }, None)
            }
            PackedChange::Delete(since) => (Command::DeleteConflictLog { since }, None),
            PackedChange::Purge(upto) => (Command::PurgeLog { upto }, None),
            PackedChange::Install { meta, snapshot } => (install(alloc, meta), Some(snapshot)),
        }
    }
}

/// The snapshot, or that of no entries.
fn or_of_no_entries<M: Machine>(alloc: Global, snapshot: Option<Packed<M>>) -> Packed<M>
    ensures { result ≡ unwrap_or snapshot (of_no_entries M.application) }
{
    match snapshot {
        Some(snapshot) => snapshot,
        None => Packed::new(alloc),
    }
}

/// Makes a change to a store.
fn apply<M: Machine>(
    store: &mut PackedStore<M>,
    change: PackedChange<Packed<M>>,
) -> Result<(), PackedError>
    ensures { OnOk result (store.new ≡ record store.old { store = packed_changed M.application store.old.store change }) }
{
    let alloc = store.allocator();
    let (command, snapshot) = change.into_command(alloc);
    store.execute(command, &or_of_no_entries(alloc, snapshot))
}

/// Makes changes to a store, in their order.
fn apply_all<M: Machine>(
    store: &mut PackedStore<M>,
    changes: Vec<PackedChange<Packed<M>>>,
) -> Result<(), PackedError>
    ensures { OnOk result (store.new ≡ record store.old { store = fold (packed_changed M.application) store.old.store changes.items }) }
{
    for change in changes {
        apply(store, change)?;
    }
    Ok(())
}

/// Makes of a store what a step's calls made of it: an end that names a snapshot has the log's entries up to it folded into the stored one, in
/// place.
fn begin<M: Machine>(
    store: &mut PackedStore<M>,
    began: PackedBegan<Named<M>>,
) -> Result<(), PackedError>
    ensures { OnOk result (packed_on_disk M.application store.new.store
        ≡ packed_on_disk M.application (packed_begun M.application (whole_began M.application store.old.store began) store.old.store)) }
{
    match began {
        PackedBegan::Unchanged => Ok(()),
        PackedBegan::Settled => {
            store.settle();
            Ok(())
        }
        PackedBegan::Built(Named::Whole(snapshot)) => Ok(store.keep_snapshot(snapshot)?),
        PackedBegan::Built(Named::Folded(end)) => store.fold_log(end),
    }
}

impl<M: Machine> NamedRecord<M> {
    /// Makes of a store, on disk, what the record's step made of it: what it has beside that, the saved committed id and what the state machine has
    /// applied, may be other ([`packs_replays`](crate::packs_replays)). For a store whose node doesn't run.
    ///
    /// After an `Err` nothing is promised of the store.
    pub fn replay(self, store: &mut PackedStore<M>) -> Result<(), PackedError>
        ensures { OnOk result (packed_on_disk M.application store.new.store
            ≡ packed_on_disk M.application (packed_replayed M.application (whole_record M.application store.old.store self) store.old.store)) }
    {
        let NamedRecord { began, changes, .. } = self;
        begin(store, began)?;
        apply_all(store, changes.into_vec())
    }
}
