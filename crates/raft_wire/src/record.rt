//! What one step of a server leaves on its disk.

ghost use Rattle.raft_codec.specs.Codec.{Writes};
ghost use Rattle.raft_wire.specs.Records.{change};
ghost use Rattle.raft_wire.specs.declared.record.Change.TheVariants as made;

use crate::wire::Wire;
use raft_codec::{DecodeError, Reader};
use raft_command::Snapshot;
use raft_state::{Items, LogId, Vote};
use raft_store::{Entry, WorldConfig};
use std::alloc::AllocError;

/// How far ahead of its node's moment a server reserves moments. So a step at a moment that is reserved needs no record for
/// it. A moment is a millisecond or less: who runs servers chooses.
pub const RESERVED_AHEAD: u64 = 10_000;

/// What a step's calls made of the store, before its commands.
#[derive(Debug, Drop)]
pub enum Began {
    /// Nothing.
    Unchanged,
    /// A start dropped entries that the snapshot had outrun, if any.
    Settled,
    /// A snapshot of these entries was built, and is kept if it is longer than the stored one.
    Built(Items<Entry>),
}

/// What a command changes on a server's disk.
#[derive(Debug, Drop)]
pub enum Change {
    /// The vote is saved.
    Vote(Vote<u64>),
    /// The entries are appended.
    Append(Items<Entry>),
    /// The entries from this one on are deleted.
    Delete(LogId<u64>),
    /// The entries up to this one are purged.
    Purge(LogId<u64>),
    /// The snapshot replaces the stored one.
    Install(Snapshot<WorldConfig>),
}

/// What one step of a server leaves on its disk: all of it, or nothing.
///
/// A commit leaves nothing, since servers start without the saved committed id.
#[derive(Debug, Drop)]
pub struct Record {
    /// Up to which moment moments are reserved, in milliseconds: a start goes on from there.
    pub moment: u64,
    /// What the step's calls made of the store.
    pub began: Began,
    /// What its commands changed then, in their order.
    pub changes: Items<Change>,
}

#[tactic(auto, unfolding(crate::specs::Records::began))]
impl Wire for Began {
    ghost use Rattle.raft_wire.specs.Records.{began};
    ghost use Rattle.raft_wire.specs.RecordLaws.{began_is};

    ghost codec = { began };

    ghost is_codec = { began_is };

    fn write(&self, out: &mut Vec<u8>) -> Result<(), AllocError> {
        match self {
            Began::Unchanged => Ok(out.push(0)?),
            Began::Settled => Ok(out.push(1)?),
            Began::Built(entries) => {
                out.push(2)?;
                entries.write(out)
            }
        }
    }

    fn read(reader: &mut Reader<'_>) -> Result<Began, DecodeError> {
        match reader.tag()? {
            0 => Ok(Began::Unchanged),
            1 => Ok(Began::Settled),
            2 => Ok(Began::Built(Items::read(reader)?)),
            _ => Err(reader.unknown_tag()),
        }
    }
}

#[tactic(auto, unfolding(crate::specs::Records::change))]
pub fn write_vote(out: &mut Vec<u8>, vote: &Vote<u64>) -> Result<(), AllocError>
    ensures { Writes change (made.Vote vote.now) result out.old.items out.new.items }
{
    out.push(0)?;
    vote.write(out)
}

#[tactic(auto, unfolding(crate::specs::Records::change))]
pub fn write_append(out: &mut Vec<u8>, entries: &Items<Entry>) -> Result<(), AllocError>
    ensures { Writes change (made.Append entries.now) result out.old.items out.new.items }
{
    out.push(1)?;
    entries.write(out)
}

#[tactic(auto, unfolding(crate::specs::Records::change))]
pub fn write_delete(out: &mut Vec<u8>, since: &LogId<u64>) -> Result<(), AllocError>
    ensures { Writes change (made.Delete since.now) result out.old.items out.new.items }
{
    out.push(2)?;
    since.write(out)
}

#[tactic(auto, unfolding(crate::specs::Records::change))]
pub fn write_purge(out: &mut Vec<u8>, upto: &LogId<u64>) -> Result<(), AllocError>
    ensures { Writes change (made.Purge upto.now) result out.old.items out.new.items }
{
    out.push(3)?;
    upto.write(out)
}

#[tactic(auto, unfolding(crate::specs::Records::change))]
pub fn write_install(out: &mut Vec<u8>, snapshot: &Snapshot<WorldConfig>) -> Result<(), AllocError>
    ensures { Writes change (made.Install snapshot.now) result out.old.items out.new.items }
{
    out.push(4)?;
    snapshot.write(out)
}

#[tactic(auto, unfolding(crate::specs::Records::change))]
impl Wire for Change {
    ghost use Rattle.raft_wire.specs.Records.{change};
    ghost use Rattle.raft_wire.specs.RecordLaws.{change_is};

    ghost codec = { change };

    ghost is_codec = { change_is };

    fn write(&self, out: &mut Vec<u8>) -> Result<(), AllocError> {
        match self {
            Change::Vote(vote) => write_vote(out, vote),
            Change::Append(entries) => write_append(out, entries),
            Change::Delete(since) => write_delete(out, since),
            Change::Purge(upto) => write_purge(out, upto),
            Change::Install(snapshot) => write_install(out, snapshot),
        }
    }

    fn read(reader: &mut Reader<'_>) -> Result<Change, DecodeError> {
        match reader.tag()? {
            0 => Ok(Change::Vote(Vote::read(reader)?)),
            1 => Ok(Change::Append(Items::read(reader)?)),
            2 => Ok(Change::Delete(LogId::read(reader)?)),
            3 => Ok(Change::Purge(LogId::read(reader)?)),
            4 => Ok(Change::Install(Snapshot::read(reader)?)),
            _ => Err(reader.unknown_tag()),
        }
    }
}

#[tactic(auto, unfolding(crate::specs::Records::logged))]
impl Wire for Record {
    ghost use Rattle.raft_wire.specs.Records.{logged};
    ghost use Rattle.raft_wire.specs.RecordLaws.{logged_is};

    ghost codec = { logged };

    ghost is_codec = { logged_is };

    fn write(&self, out: &mut Vec<u8>) -> Result<(), AllocError> {
        self.moment.write(out)?;
        self.began.write(out)?;
        self.changes.write(out)
    }

    fn read(reader: &mut Reader<'_>) -> Result<Record, DecodeError> {
        let moment = reader.number()?;
        let began = Began::read(reader)?;
        let changes = Items::<Change>::read(reader)?;
        Ok(Record {
            moment,
            began,
            changes,
        })
    }
}
