//! Entries and snapshots.

use crate::wire::Wire;
use raft_codec::{DecodeError, Reader, write_raw};
use raft_command::Snapshot;
use raft_state::{Items, LogId, Membership, SnapshotMeta};
use raft_store::{Entry, Payload, Value, WorldConfig};
use std::alloc::AllocError;

/// 0 for a no-op, 1 and a number, 2 and a membership, or 3 and bytes behind their number.
#[tactic(auto, unfolding(crate::specs::Entries::payload))]
impl Wire for Payload {
    ghost use Rattle.raft_wire.specs.Entries.{payload};
    ghost use Rattle.raft_wire.specs.EntryLaws.{payload_is};

    ghost codec = { payload };

    ghost is_codec = { payload_is };

    fn write(&self, out: &mut Vec<u8>) -> Result<(), AllocError> {
        match self {
            Payload::Blank => Ok(out.push(0)?),
            Payload::Value(Value::Number(number)) => {
                out.push(1)?;
                number.write(out)
            }
            Payload::Membership(membership) => {
                out.push(2)?;
                membership.write(out)
            }
            Payload::Value(Value::Bytes(bytes)) => {
                out.push(3)?;
                write_raw(out, bytes.as_slice())
            }
        }
    }

    fn read(reader: &mut Reader<'_>) -> Result<Payload, DecodeError> {
        match reader.tag()? {
            0 => Ok(Payload::Blank),
            1 => Ok(Payload::Value(Value::Number(reader.number()?))),
            2 => Ok(Payload::Membership(Membership::read(reader)?)),
            3 => Ok(Payload::Value(Value::Bytes(Items::from_vec(reader.bytes()?)))),
            _ => Err(reader.unknown_tag()),
        }
    }
}

/// The entry's log id, and its payload.
#[tactic(auto, unfolding(crate::specs::Entries::entry))]
impl Wire for Entry {
    ghost use Rattle.raft_wire.specs.Entries.{entry};
    ghost use Rattle.raft_wire.specs.EntryLaws.{entry_is};

    ghost codec = { entry };

    ghost is_codec = { entry_is };

    fn write(&self, out: &mut Vec<u8>) -> Result<(), AllocError> {
        self.log_id.write(out)?;
        self.payload.write(out)
    }

    fn read(reader: &mut Reader<'_>) -> Result<Entry, DecodeError> {
        let log_id = LogId::<u64>::read(reader)?;
        let payload = Payload::read(reader)?;
        Ok(Entry { log_id, payload })
    }
}

/// The snapshot's meta, and its entries.
#[tactic(auto, unfolding(crate::specs::Entries::snapshot))]
impl Wire for Snapshot<WorldConfig> {
    ghost use Rattle.raft_wire.specs.Entries.{snapshot};
    ghost use Rattle.raft_wire.specs.EntryLaws.{snapshot_is};

    ghost codec = { snapshot };

    ghost is_codec = { snapshot_is };

    fn write(&self, out: &mut Vec<u8>) -> Result<(), AllocError> {
        self.meta.write(out)?;
        self.snapshot.write(out)
    }

    fn read(reader: &mut Reader<'_>) -> Result<Snapshot<WorldConfig>, DecodeError> {
        let meta = SnapshotMeta::<u64, ()>::read(reader)?;
        let snapshot = Items::<Entry>::read(reader)?;
        Ok(Snapshot { meta, snapshot })
    }
}
