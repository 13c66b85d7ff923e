//! The records of steps, as bytes.

ghost use Rattle.std.specs.Prelude.{◌≡◌, ◌≢◌, ◌≤◌, ◌++◌, ◌∷◌, ◌↔◌, [], IfErr, IsTrue, OnOk, length};
ghost use Rattle.raft_codec.specs.Codec.{Writes};
ghost use Rattle.raft_frames.specs.declared.error.PushError.TheVariants.{OutOfMemory};
ghost use Rattle.raft_frames.specs.Format.{after, frame, sum_of};
ghost use Rattle.raft_frames.specs.Laws.{IsPayload};
ghost use Rattle.proof_logs.specs.Batches.{IsBatchOf, bytes_of};
ghost use Rattle.raft_packed_server.specs.Fits.{FitsAt};
ghost use Rattle.raft_packed_server.specs.Logs.{logged_by};

use crate::began::Began;
use crate::changes::Changes;
use raft_frames::{PushError, Tail};
use raft_packed_wire::raft_packed::Machine;
use raft_wire::Wire;
use std::alloc::{AllocError, Global};
use std::marker::{Model, PhantomData};

/// Records of steps, as their bytes one behind the other: a contract sees the list of them.
#[derive(Drop)]
pub struct Records<M: Machine> {
    count: u64,
    bytes: Vec<u8>,
    machine: PhantomData<M>,
}

impl<M: Machine> Model for Records<M> {
    ghost use Rattle.std.specs.Prelude.{List};
    ghost use Rattle.raft_packed_wire.specs.declared.record.NamedRecord.{NamedRecord};
    ghost use Rattle.raft_packed_server.specs.Encoded.{AreBytesOf, values_in};
    ghost use Rattle.raft_packed_server.specs.Logs.{logged_by};

    ghost Value = { List (NamedRecord M) };

    ghost view = { λ s. values_in (logged_by M.codec) s.count s.bytes.items };

    ghost invariant = { λ s. AreBytesOf (logged_by M.codec) (values_in (logged_by M.codec) s.count s.bytes.items) s.count s.bytes.items };
}

impl<M: Machine> Records<M> {
    /// No records.
    pub fn new(alloc: Global) -> Self
        ensures { result ≡ [] }
    {
        Records {
            count: 0,
            bytes: Vec::new(alloc),
            machine: PhantomData,
        }
    }

    /// Whether there are none.
    pub fn is_empty(&self) -> bool
        ensures { IsTrue result ↔ (self.now ≡ []) }
    {
        self.count == 0
    }

    /// How many they are.
    pub fn len(&self) -> u64
        ensures { result ≡ length self.now }
    {
        self.count
    }

    /// Writes them as one frame behind `out`, from which they can be read back, and goes on to the place behind it.
    ///
    /// Refused as [`Tail::push`] refuses their bytes.
    pub fn write_frame(&self, tail: &mut Tail, out: &mut Vec<u8>) -> Result<(), PushError>
        ensures batch { OnOk result (IsBatchOf (logged_by M.codec) self.now) }
        ensures frame { OnOk result (out.new.items ≡ out.old.items ++ frame tail.old (bytes_of (logged_by M.codec) self.now)) }
        ensures tail { OnOk result (tail.new ≡ after tail.old (bytes_of (logged_by M.codec) self.now)) }
        ensures fits { self.now ≢ [] → FitsAt tail.old (bytes_of (logged_by M.codec) self.now) → IfErr result (λ e. e ≡ OutOfMemory) }
    {
        push_payload(tail, self.bytes.as_slice(), out)
    }

    /// Adds the record of a step: up to which moment moments are reserved, in milliseconds, what the step's calls made of
    /// the store, and what its commands changed. Out of memory, nothing is kept.
    pub fn push(
        &mut self,
        moment: u64,
        began: &Began<M>,
        changes: &Changes<M>,
    ) -> Result<(), AllocError>
        ensures { OnOk result (self.new ≡ self.old ++ record { moment = moment; began = began.now; changes = changes.now.changes } ∷ []) }
    {
        if let Err(error) = write_record(&mut self.bytes, moment, began, changes) {
            self.count = 0;
            self.bytes.clear();
            return Err(error);
        }
        self.count += 1;
        Ok(())
    }

    /// Drops all.
    pub fn clear(&mut self)
        ensures { self.new ≡ [] }
    {
        self.count = 0;
        self.bytes.clear();
    }
}

/// Writes a frame with this payload behind `out`, and goes on to the place behind it.
pub fn push_payload(tail: &mut Tail, payload: &[u8], out: &mut Vec<u8>) -> Result<(), PushError>
    ensures payload { OnOk result (IsPayload payload.now) }
    ensures frame { OnOk result (out.new.items ≡ out.old.items ++ frame tail.old payload.now) }
    ensures tail { OnOk result (tail.new ≡ after tail.old payload.now) }
    ensures fits { 1 ≤ length payload.now → FitsAt tail.old payload.now → IfErr result (λ e. e ≡ OutOfMemory) }
{
    tail.push(payload, out)
}

/// Writes what stands before this payload in a frame behind `out`, and goes on to the place behind the frame, whose sum is known.
pub fn push_head(
    tail: &mut Tail,
    payload: &[u8],
    sum: u32,
    out: &mut Vec<u8>,
) -> Result<(), PushError>
    requires { sum ≡ sum_of tail.old.sum payload.now }
    ensures payload { OnOk result (IsPayload payload.now) }
    ensures frame { OnOk result (out.new.items ++ payload.now ≡ out.old.items ++ frame tail.old payload.now) }
    ensures tail { OnOk result (tail.new ≡ after tail.old payload.now) }
    ensures fits { 1 ≤ length payload.now → FitsAt tail.old payload.now → IfErr result (λ e. e ≡ OutOfMemory) }
{
    tail.push_head(payload, sum, out)
}

/// Appends the record of a step.
#[tactic(auto, unfolding(raft_packed_wire::specs::Records::named_logged))]
fn write_record<M: Machine>(
    out: &mut Vec<u8>,
    moment: u64,
    began: &Began<M>,
    changes: &Changes<M>,
) -> Result<(), AllocError>
    ensures { Writes (logged_by M.codec) (record { moment = moment; began = began.now; changes = changes.now.changes }) result
        out.old.items out.new.items }
{
    moment.write(out)?;
    began.write(out)?;
    changes.write(out)
}
