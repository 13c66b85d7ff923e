//! A checkpoint of a store, as bytes.

ghost use Rattle.std.specs.Prelude.{◌≡◌, OnOk, is_some, if◌then◌else◌};
ghost use Rattle.std.specs.Map.{values_of};
ghost use Rattle.raft_store.specs.Starting.{entries_of};
ghost use Rattle.raft_codec.specs.Codec.{Writes, list};
ghost use Rattle.raft_wire.specs.Entries.{entry};
ghost use Rattle.raft_packed_wire.specs.Checkpoints.{named_rest, named_snapshot, purge_of, rest_changes};
ghost use Rattle.raft_packed_wire.specs.Pieces.{WritesInstallFront, WritesSnapshotFront};
ghost use Rattle.raft_packed_wire.specs.Records.{WritesPackedChanges, named_logged, packed_change};
ghost use Rattle.raft_packed_wire.specs.Values.{kept};
ghost use Rattle.raft_packed_wire.specs.declared.record.PackedChange.TheVariants as made;

use crate::named::Named;
use crate::packed::write_summary;
use crate::record::{PackedBegan, PackedChange};
use raft_packed_node::raft_packed::{Machine, Packed, PackedStore};
use raft_store::Entry;
use raft_wire::Wire;
use std::alloc::AllocError;

/// Appends how many entries there are, and each.
#[tactic(auto, unfolding(raft_codec::specs::Codec::list))]
fn write_entries(out: &mut Vec<u8>, entries: &[&Entry]) -> Result<(), AllocError>
    ensures { Writes (list entry) (entries_of entries.now) result out.old.items out.new.items }
{
    (entries.len() as u64).write(out)?;
    for entry in entries {
        entry.write(out)?;
    }
    Ok(())
}

/// Appends that the vote is saved.
fn write_vote<M: Machine>(out: &mut Vec<u8>, store: &PackedStore<M>) -> Result<(), AllocError>
    ensures { Writes (packed_change (kept M.codec)) (made.Vote store.now.store.vote) result out.old.items out.new.items }
{
    PackedChange::<Packed<M>>::Vote(store.vote()).write(out)
}

/// Appends that the log is purged, if it is.
fn write_purge<M: Machine>(out: &mut Vec<u8>, store: &PackedStore<M>) -> Result<(), AllocError>
    ensures { WritesPackedChanges (kept M.codec) (purge_of store.now.store) result out.old.items out.new.items }
{
    match store.front() {
        Some(upto) => PackedChange::<Packed<M>>::Purge(upto).write(out),
        None => Ok(()),
    }
}

/// Appends that the stored entries are appended.
#[tactic(auto, unfolding(crate::specs::Records::packed_change))]
fn write_append<M: Machine>(out: &mut Vec<u8>, store: &PackedStore<M>) -> Result<(), AllocError>
    ensures { Writes (packed_change (kept M.codec)) (made.Append (values_of store.now.store.log)) result out.old.items out.new.items }
{
    let entries = store.entries()?;
    out.push(1)?;
    write_entries(out, &entries)
}

/// How many changes make, beside its snapshot, a new store this one.
fn count_changes<M: Machine>(store: &PackedStore<M>) -> u64
    ensures { result ≡ (if is_some store.now.store.front then 3 else 2) }
{
    if store.front().is_some() { 3 } else { 2 }
}

/// Appends how many changes make, beside its snapshot, a new store this one, and each.
fn write_changes<M: Machine>(out: &mut Vec<u8>, store: &PackedStore<M>) -> Result<(), AllocError>
    ensures { Writes (list (packed_change (kept M.codec))) (rest_changes store.now.store) result out.old.items out.new.items }
{
    let count = count_changes(store);
    count.write(out)?;
    write_vote(out, store)?;
    write_purge(out, store)?;
    write_append(out, store)
}

/// Appends what stands before the state in that the snapshot is installed.
#[tactic(auto, unfolding(crate::specs::Records::packed_change))]
fn write_install_front<M: Machine>(
    out: &mut Vec<u8>,
    store: &PackedStore<M>,
) -> Result<(), AllocError>
    ensures { OnOk result (WritesInstallFront M.codec store.now.store out.old.items out.new.items) }
{
    out.push(4)?;
    store.meta().write(out)?;
    write_summary::<M>(out, store.snapshot())
}

/// Appends what stands before the state in the record of a store's snapshot, [`write_snapshot`]. It makes no state.
#[tactic(auto, unfolding(crate::specs::Records::named_logged))]
pub fn write_snapshot_front<M: Machine>(
    out: &mut Vec<u8>,
    store: &PackedStore<M>,
) -> Result<(), AllocError>
    ensures { OnOk result (WritesSnapshotFront M.codec store.now.store out.old.items out.new.items) }
{
    0.write(out)?;
    PackedBegan::<Named<M>>::Unchanged.write(out)?;
    1.write(out)?;
    write_install_front(out, store)
}

/// Appends the record of a store's snapshot: the first record of a checkpoint, which makes of a new store, with that of
/// [`write_rest`] behind it, one that is the same on disk, [`checkpoints_restore`](crate::checkpoints_restore).
pub fn write_snapshot<M: Machine>(
    out: &mut Vec<u8>,
    store: &PackedStore<M>,
) -> Result<(), AllocError>
    ensures { Writes (named_logged (kept M.codec)) (named_snapshot store.now.store) result out.old.items out.new.items }
{
    write_snapshot_front(out, store)?;
    store.copy_snapshot()?.state().encode(out)
}

/// Appends the record of all that a store has beside its snapshot, while moments are reserved up to this one, in milliseconds: the second
/// record of a checkpoint.
#[tactic(auto, unfolding(crate::specs::Records::named_logged))]
pub fn write_rest<M: Machine>(
    out: &mut Vec<u8>,
    moment: u64,
    store: &PackedStore<M>,
) -> Result<(), AllocError>
    ensures { Writes (named_logged (kept M.codec)) (named_rest moment store.now.store) result out.old.items out.new.items }
{
    moment.write(out)?;
    PackedBegan::<Named<M>>::Unchanged.write(out)?;
    write_changes(out, store)
}
