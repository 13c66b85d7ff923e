//! What a server's log gives back.

ghost use Rattle.std.specs.Prelude.{◌≡◌, OnOk, length, map};
ghost use Rattle.proof_logs.specs.Batches.{read_at, read_in};
ghost use Rattle.proof_packed_servers.specs.Servers.{packed_new_disk};
ghost use Rattle.raft_packed_server.specs.Logs.{kept_on_disk, logged_by, with_named};
ghost use Rattle.raft_packed_server.specs.Recovery.{Recovers, RecoversLog};

use crate::error::OpenError;
use raft_codec::Reader;
use raft_frames::{LogId, Tail, read};
use raft_packed_wire::NamedRecord;
use raft_packed_wire::raft_packed::{Machine, PackedError, PackedStore};
use std::alloc::Global;
use std::marker::Model;

/// What the records on disk make.
#[derive(Drop)]
pub struct Recovered<M: Machine> {
    pub store: PackedStore<M>,
    /// Up to which moment moments are reserved, in milliseconds.
    pub moment: u64,
}

impl<M: Machine> Model for Recovered<M> {
    ghost use Rattle.proof_packed_servers.specs.Servers.{PackedDisk};

    ghost Value = { PackedDisk M };

    ghost view = { λ s. record { store = s.store.store; moment = s.moment } };
}

/// What a log gives back: what its records make, and where it goes on.
#[derive(Drop)]
pub struct Recovery<M: Machine> {
    pub disk: Recovered<M>,
    /// How many bytes of the log are kept.
    pub end: usize,
    /// Where the next frame goes.
    pub tail: Tail,
}

/// Takes the next record.
fn replay<M: Machine>(next: NamedRecord<M>, disk: &mut Recovered<M>) -> Result<(), PackedError>
    ensures { OnOk result (kept_on_disk M.application disk.new ≡ with_named M.application next (kept_on_disk M.application disk.old)) }
{
    disk.moment = next.moment;
    next.replay(&mut disk.store)
}

/// Takes the records of a frame, which are all that it holds.
fn replay_frame<M: Machine>(
    alloc: Global,
    payload: &[u8],
    disk: &mut Recovered<M>,
) -> Result<(), OpenError>
    ensures { Recovers M.application (read_at (logged_by M.codec) (length payload.now) payload.now) disk.old result disk.new }
{
    let mut reader = Reader::new(alloc, payload);
    'records: while reader.left() > 0 {
        let next = NamedRecord::read(&mut reader).map_err(OpenError::Record)?;
        replay(next, disk).map_err(OpenError::Replay)?;
    }
    Ok(())
}

/// Takes the records of a log's frames.
fn replay_frames<M: Machine>(
    alloc: Global,
    payloads: &[&[u8]],
    disk: &mut Recovered<M>,
) -> Result<(), OpenError>
    ensures { Recovers M.application (read_in (logged_by M.codec) (map (λ payload. payload.now) payloads.now)) disk.old result disk.new }
{
    'frames: for payload in payloads {
        replay_frame(alloc, payload, disk)?;
    }
    Ok(())
}

/// Reads a log, which may be empty, and takes its records.
pub fn recover<M: Machine>(alloc: Global, id: &LogId, log: &[u8]) -> Result<Recovery<M>, OpenError>
    ensures { RecoversLog M.application M.codec id.now log.now result }
{
    let found = read(alloc, id, log).map_err(OpenError::Log)?;
    let mut disk = Recovered::new(alloc);
    replay_frames(alloc, &found.payloads, &mut disk)?;
    Ok(Recovery {
        disk,
        end: found.end,
        tail: found.tail,
    })
}

impl<M: Machine> Recovered<M> {
    /// What a new disk makes.
    fn new(alloc: Global) -> Self
        ensures { result ≡ packed_new_disk M.application }
    {
        Recovered {
            store: PackedStore::new(alloc),
            moment: 0,
        }
    }
}
