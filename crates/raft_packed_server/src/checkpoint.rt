//! How a server begins a new log, which takes the old one's place.

ghost use Rattle.std.specs.Prelude.{◌≡◌, ◌≤◌, ◌↔◌, ◌++◌, ◌∷◌, [], IfErr, IfOk, IsTrue, OnErr, Some, length, map};
ghost use Rattle.raft_frames.specs.declared.error.PushError.TheVariants as push;
ghost use Rattle.raft_frames.specs.Format.{start, sum_of};
ghost use Rattle.proof_logs.specs.Batches.{bytes_of};
ghost use Rattle.raft_packed_wire.specs.Checkpoints.{named_rest, named_snapshot};
ghost use Rattle.raft_packed_server.specs.Fits.{FitFrom, FitsAt};
ghost use Rattle.raft_packed_server.specs.Checkpoints.{BeginsLog, IsClear, IsFirstFrame, TakesOver, first_batches, without_next_log};
ghost use Rattle.raft_packed_server.specs.Logs.{logged_by};

use crate::batch::NewLog;
use crate::records::{push_head, push_payload};
use crate::serving::Serving;
use raft_frames::{LogId, MAX_FRAME, PushError, Tail};
use raft_packed_wire::raft_packed::{Encoded, Machine};
use raft_packed_wire::{write_rest, write_snapshot, write_snapshot_front};
use std::alloc::{AllocError, Global};
use std::num::NonZeroUsize;

/// The first frame of a new log, behind its header: what stands before the payload, or all of it; and what of the payload is left.
#[derive(Drop)]
struct FirstFrame {
    front: Vec<u8>,
    snapshot: Vec<u8>,
    /// Where the next frame goes.
    tail: Tail,
}

/// For how many bytes of a snapshot there is room from the start: for as many as the old log has, but not for all of a long one, since a server may
/// have less memory than that.
fn room_of<M: Machine>(serving: &Serving<M>) -> usize {
    serving.tail.position.min((MAX_FRAME / 4) as u64) as usize
}

/// What stands before the state in the snapshot's record.
fn front_of<M: Machine>(alloc: Global, serving: &Serving<M>) -> Result<Vec<u8>, AllocError>
    ensures fits { IfOk result (λ front. M.codec.fits serving.now.node.store.snap.state
        → (logged_by M.codec).fits (named_snapshot serving.now.node.store)) }
    ensures bytes { IfOk result (λ front. front.items ++ M.codec.bytes serving.now.node.store.snap.state
        ≡ bytes_of (logged_by M.codec) (named_snapshot serving.now.node.store ∷ [])) }
{
    let mut front = Vec::new(alloc);
    write_snapshot_front(&mut front, serving.node.store())?;
    Ok(front)
}

/// The snapshot's record, encoded at once.
fn snapshot_bytes<M: Machine>(alloc: Global, serving: &Serving<M>) -> Result<Vec<u8>, AllocError>
    ensures fits { IfOk result (λ bytes. (logged_by M.codec).fits (named_snapshot serving.now.node.store)) }
    ensures bytes { IfOk result (λ bytes. bytes.items ≡ bytes_of (logged_by M.codec) (named_snapshot serving.now.node.store ∷ [])) }
{
    let mut bytes = Vec::with_capacity(alloc, room_of(serving))?;
    write_snapshot(&mut bytes, serving.node.store())?;
    Ok(bytes)
}

/// The record of all else.
fn rest_bytes<M: Machine>(alloc: Global, serving: &Serving<M>) -> Result<Vec<u8>, AllocError>
    ensures fits { IfOk result (λ bytes. (logged_by M.codec).fits (named_rest serving.now.reserved serving.now.node.store)) }
    ensures bytes { IfOk result (λ bytes. bytes.items
        ≡ bytes_of (logged_by M.codec) (named_rest serving.now.reserved serving.now.node.store ∷ [])) }
{
    let mut bytes = Vec::new(alloc);
    write_rest(&mut bytes, serving.reserved, serving.node.store())?;
    Ok(bytes)
}

/// The first frame of a new log, of a payload whose sum is known.
fn frame_summed(alloc: Global, id: &LogId, payload: Encoded) -> Result<FirstFrame, PushError>
    requires { payload.sum ≡ sum_of (start id.now).sum payload.bytes.items }
    ensures first { IfOk result (λ first. IsFirstFrame id.now payload.bytes.items first.front.items first.snapshot.items first.tail) }
    ensures fits { 1 ≤ length payload.bytes.items → FitsAt (start id.now) payload.bytes.items → IfErr result (λ e. e ≡ push.OutOfMemory) }
{
    let mut front = Vec::from_slice(alloc, &id.header())?;
    let mut tail = Tail::start(id);
    push_head(&mut tail, &payload.bytes, payload.sum, &mut front)?;
    Ok(FirstFrame {
        front,
        snapshot: payload.bytes,
        tail,
    })
}

/// The first frame of a new log, of any payload.
fn frame_at_once(alloc: Global, id: &LogId, payload: &[u8]) -> Result<FirstFrame, PushError>
    ensures first { IfOk result (λ first. IsFirstFrame id.now payload.now first.front.items first.snapshot.items first.tail) }
    ensures fits { 1 ≤ length payload.now → FitsAt (start id.now) payload.now → IfErr result (λ e. e ≡ push.OutOfMemory) }
{
    let mut front = Vec::from_slice(alloc, &id.header())?;
    let mut tail = Tail::start(id);
    push_payload(&mut tail, payload, &mut front)?;
    Ok(FirstFrame {
        front,
        snapshot: Vec::new(alloc),
        tail,
    })
}

/// Prepares the first frame of a new log: encodes some `most` bytes more of the snapshot, or sums them. Answers whether more is left to be done.
pub fn prepare_log<M: Machine>(
    alloc: Global,
    id: &LogId,
    most: NonZeroUsize,
    serving: &mut Serving<M>,
) -> Result<bool, AllocError>
    ensures { serving.new ≡ serving.old }
{
    let front = front_of(alloc, serving)?;
    let room = room_of(serving);
    serving
        .node
        .encode_some(Tail::start(id).sum, &front, room, most)
}

/// The first frame of a new log, which has the snapshot: as it was prepared, or made at once.
fn first_frame<M: Machine>(
    alloc: Global,
    id: &LogId,
    serving: &mut Serving<M>,
) -> Result<FirstFrame, PushError>
    ensures first { IfOk result (λ first. IsFirstFrame id.now
        (bytes_of (logged_by M.codec) (named_snapshot serving.old.node.store ∷ [])) first.front.items first.snapshot.items first.tail) }
    ensures fits { IfOk result (λ first. (logged_by M.codec).fits (named_snapshot serving.old.node.store)) }
    ensures room { FitsAt (start id.now) (bytes_of (logged_by M.codec) (named_snapshot serving.old.node.store ∷ []))
        → IfErr result (λ e. e ≡ push.OutOfMemory) }
    ensures same { serving.new ≡ serving.old }
{
    let front = front_of(alloc, serving)?;
    match serving.node.take_encoded(Tail::start(id).sum, &front) {
        Some(payload) => frame_summed(alloc, id, payload),
        None => frame_at_once(alloc, id, &snapshot_bytes(alloc, serving)?),
    }
}

/// Whether no frame is on its way, and no record waits.
fn is_clear<M: Machine>(serving: &Serving<M>) -> bool
    ensures { IsTrue result ↔ IsClear serving.now }
{
    serving.written.is_none() && serving.records.is_empty()
}

/// Begins a new log, unless a frame is on its way or records wait. The old one goes on, and one that was on its way is given up.
pub fn begin_log<M: Machine>(
    alloc: Global,
    id: &LogId,
    serving: &mut Serving<M>,
) -> Result<Option<NewLog>, PushError>
    ensures begins { IfOk result (λ log. BeginsLog M.codec id.now (Some serving.old) log (Some serving.new)) }
    ensures fits { FitFrom (start id.now) (map (bytes_of (logged_by M.codec)) (first_batches serving.old))
        → IfErr result (λ e. e ≡ push.OutOfMemory) }
    ensures err { OnErr result (serving.new ≡ serving.old) }
    ensures node { serving.new.node ≡ serving.old.node }
{
    if !is_clear(serving) {
        return Ok(None);
    }
    let first = first_frame(alloc, id, serving)?;
    let payload = rest_bytes(alloc, serving)?;
    let mut tail = first.tail;
    let mut rest = Vec::new(alloc);
    push_payload(&mut tail, &payload, &mut rest)?;
    serving.next = Some(tail);
    Ok(Some(NewLog {
        front: first.front,
        snapshot: first.snapshot,
        rest,
        end: tail.position,
    }))
}

/// The log that is on its way takes the old one's place, if one is and no frame is on its way: gives its end.
pub fn take_over<M: Machine>(serving: &mut Serving<M>) -> Option<u64>
    ensures takes_over { TakesOver (Some serving.old) result (Some serving.new) }
    ensures node { serving.new.node ≡ serving.old.node }
{
    // (what is on its way waits for a position of the old log)
    if serving.written.is_some() {
        return None;
    }
    let place = serving.next?;
    serving.header = None;
    serving.tail = place;
    serving.next = None;
    Some(place.position)
}

/// No log is on its way any more.
pub fn give_up_log<M: Machine>(serving: &mut Serving<M>)
    ensures { serving.new ≡ without_next_log serving.old }
{
    serving.next = None;
}
