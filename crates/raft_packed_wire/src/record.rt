//! What one step of a server whose snapshots are states leaves on its disk.

ghost use Rattle.raft_codec.specs.Codec.{Reads, Writes, list};
ghost use Rattle.raft_packed_wire.specs.Records.{named_began, named_logged, packed_change};
ghost use Rattle.raft_packed_wire.specs.Values.{kept};
ghost use Rattle.raft_packed_wire.specs.declared.named.Named.TheVariants as names;
ghost use Rattle.raft_packed_wire.specs.declared.record.PackedBegan.TheVariants as begun;
ghost use Rattle.raft_packed_wire.specs.declared.record.PackedChange.TheVariants as made;

use crate::named::Named;
use crate::packed::{read_packed, write_packed};
use raft_codec::{DecodeError, Reader};
use raft_packed_node::raft_packed::{Machine, Packed};
use raft_state::{Items, LogId, SnapshotMeta, Vote};
use raft_store::Entry;
use raft_wire::Wire;
use std::alloc::AllocError;

/// What a step's calls made of the store, before its commands.
#[derive(Drop)]
pub enum PackedBegan<P> {
    /// Nothing.
    Unchanged,
    /// A start dropped entries that the snapshot had outrun, if any.
    Settled,
    /// This snapshot was built, and is kept if it is longer than the stored one.
    Built(P),
}

/// What a command changes on a server's disk.
#[derive(Drop)]
pub enum PackedChange<P> {
    /// The vote is saved.
    Vote(Vote<u64>),
    /// The entries are appended.
    Append(Items<Entry>),
    /// The entries from this one on are deleted.
    Delete(LogId<u64>),
    /// The entries up to this one are purged.
    Purge(LogId<u64>),
    /// The snapshot replaces the stored one.
    Install {
        meta: SnapshotMeta<u64, ()>,
        snapshot: P,
    },
}

/// What one step of a server leaves on its disk: all of it, or nothing. `P` is what a snapshot is.
///
/// A commit leaves nothing, since servers start without the saved committed id.
#[derive(Drop)]
pub struct PackedRecord<P> {
    /// Up to which moment moments are reserved: a start goes on from there.
    pub moment: u64,
    /// What the step's calls made of the store.
    pub began: PackedBegan<P>,
    /// What its commands changed then, in their order.
    pub changes: Items<PackedChange<P>>,
}

/// A [`PackedRecord`] as it stands in a server's log: it names a snapshot that was built.
#[derive(Drop)]
pub struct NamedRecord<M: Machine> {
    /// Up to which moment moments are reserved.
    pub moment: u64,
    /// What the step's calls made of the store.
    pub began: PackedBegan<Named<M>>,
    /// What its commands changed then, in their order.
    pub changes: Items<PackedChange<Packed<M>>>,
}

impl<M: Machine> PackedBegan<Named<M>> {
    /// Appends it.
    #[tactic(auto, unfolding(crate::specs::Records::named_began))]
    pub fn write(&self, out: &mut Vec<u8>) -> Result<(), AllocError>
        ensures { Writes (named_began (kept M.codec)) self.now result out.old.items out.new.items }
    {
        match self {
            PackedBegan::Unchanged => Ok(out.push(0)?),
            PackedBegan::Settled => Ok(out.push(1)?),
            PackedBegan::Built(Named::Whole(snapshot)) => write_built(out, snapshot),
            PackedBegan::Built(Named::Folded(end)) => {
                out.push(3)?;
                end.write(out)
            }
        }
    }

    /// That at the front of bytes.
    #[tactic(auto, unfolding(crate::specs::Records::named_began))]
    pub fn read(reader: &mut Reader<'_>) -> Result<Self, DecodeError>
        ensures { Reads (named_began (kept M.codec)) result reader.old reader.new }
    {
        match reader.tag()? {
            0 => Ok(PackedBegan::Unchanged),
            1 => Ok(PackedBegan::Settled),
            2 => Ok(PackedBegan::Built(Named::Whole(read_packed(reader)?))),
            3 => Ok(PackedBegan::Built(Named::Folded(reader.number()?))),
            _ => Err(reader.unknown_tag()),
        }
    }
}

impl<M: Machine> PackedChange<Packed<M>> {
    /// Appends it.
    #[tactic(auto, unfolding(crate::specs::Records::packed_change))]
    pub fn write(&self, out: &mut Vec<u8>) -> Result<(), AllocError>
        ensures { Writes (packed_change (kept M.codec)) self.now result out.old.items out.new.items }
    {
        match self {
            PackedChange::Vote(vote) => {
                out.push(0)?;
                vote.write(out)
            }
            PackedChange::Append(entries) => {
                out.push(1)?;
                entries.write(out)
            }
            PackedChange::Delete(since) => {
                out.push(2)?;
                since.write(out)
            }
            PackedChange::Purge(upto) => {
                out.push(3)?;
                upto.write(out)
            }
            PackedChange::Install { meta, snapshot } => write_install(out, meta, snapshot),
        }
    }

    /// That at the front of bytes.
    #[tactic(auto, unfolding(crate::specs::Records::packed_change))]
    pub fn read(reader: &mut Reader<'_>) -> Result<Self, DecodeError>
        ensures { Reads (packed_change (kept M.codec)) result reader.old reader.new }
    {
        match reader.tag()? {
            0 => Ok(PackedChange::Vote(Vote::read(reader)?)),
            1 => Ok(PackedChange::Append(Items::read(reader)?)),
            2 => Ok(PackedChange::Delete(LogId::read(reader)?)),
            3 => Ok(PackedChange::Purge(LogId::read(reader)?)),
            4 => Ok(PackedChange::Install {
                meta: SnapshotMeta::read(reader)?,
                snapshot: read_packed(reader)?,
            }),
            _ => Err(reader.unknown_tag()),
        }
    }
}

/// Appends that this snapshot was built, whole.
#[tactic(auto, unfolding(crate::specs::Records::named_began))]
pub fn write_built<M: Machine>(out: &mut Vec<u8>, snapshot: &Packed<M>) -> Result<(), AllocError>
    ensures { Writes (named_began (kept M.codec)) (begun.Built (names.Whole snapshot.now)) result out.old.items out.new.items }
{
    out.push(2)?;
    write_packed(out, snapshot)
}

/// Appends that a snapshot with this meta is installed.
#[tactic(auto, unfolding(crate::specs::Records::packed_change))]
pub(crate) fn write_install<M: Machine>(
    out: &mut Vec<u8>,
    meta: &SnapshotMeta<u64, ()>,
    snapshot: &Packed<M>,
) -> Result<(), AllocError>
    ensures { Writes (packed_change (kept M.codec)) (made.Install meta.now snapshot.now) result out.old.items out.new.items }
{
    out.push(4)?;
    meta.write(out)?;
    write_packed(out, snapshot)
}

/// Appends how many changes there are, and each.
#[tactic(auto, unfolding(raft_codec::specs::Codec::list))]
fn write_changes<M: Machine>(
    out: &mut Vec<u8>,
    changes: &[PackedChange<Packed<M>>],
) -> Result<(), AllocError>
    ensures { Writes (list (packed_change (kept M.codec))) changes.now result out.old.items out.new.items }
{
    (changes.len() as u64).write(out)?;
    for change in changes {
        change.write(out)?;
    }
    Ok(())
}

/// The changes at the front of bytes, behind their number.
#[tactic(auto, unfolding(raft_codec::specs::Codec::list))]
fn read_changes<M: Machine>(
    reader: &mut Reader<'_>,
) -> Result<Items<PackedChange<Packed<M>>>, DecodeError>
    ensures { Reads (list (packed_change (kept M.codec))) result reader.old reader.new }
{
    let count = reader.length()?;
    let mut changes = Vec::with_capacity(reader.allocator(), reader.room(count))?;
    for _ in 0..count {
        changes.push(PackedChange::read(reader)?)?;
    }
    Ok(Items::from_vec(changes))
}

impl<M: Machine> NamedRecord<M> {
    /// Appends it.
    #[tactic(auto, unfolding(crate::specs::Records::named_logged))]
    pub fn write(&self, out: &mut Vec<u8>) -> Result<(), AllocError>
        ensures { Writes (named_logged (kept M.codec)) self.now result out.old.items out.new.items }
    {
        self.moment.write(out)?;
        self.began.write(out)?;
        write_changes(out, self.changes.as_slice())
    }

    /// That at the front of bytes.
    #[tactic(auto, unfolding(crate::specs::Records::named_logged))]
    pub fn read(reader: &mut Reader<'_>) -> Result<Self, DecodeError>
        ensures { Reads (named_logged (kept M.codec)) result reader.old reader.new }
    {
        let moment = reader.number()?;
        let began = PackedBegan::read(reader)?;
        let changes = read_changes(reader)?;
        Ok(NamedRecord {
            moment,
            began,
            changes,
        })
    }
}
