//! What a server does while it serves.

ghost use Rattle.std.specs.Prelude.{◌≡◌, ◌≢◌, ◌+◌, ◌++◌, [], IfErr, IfOk, IfSome, None, OnOk, Some, nat_le};
ghost use Rattle.std.specs.Option.{option_map};
ghost use Rattle.raft_frames.specs.Format.{after, frame};
ghost use Rattle.raft_node.specs.declared.act.Act.TheVariants.{FinishSnapshot};
ghost use Rattle.raft_calls.specs.Held.{IsRestingWhereRunning};
ghost use Rattle.raft_packed_wire.specs.raft_packed_node.Effects.{brought_by};
ghost use Rattle.raft_packed_wire.specs.raft_packed_node.Held.{IsPackedAtRest, RunsOut};
ghost use Rattle.proof_logs.specs.proof_servers.Servers.{reserved_for};
ghost use Rattle.proof_packed_servers.specs.Servers.{packed_call_effect};
ghost use Rattle.proof_logs.specs.Batches.{bytes_of};
ghost use Rattle.raft_packed_wire.specs.Named.{IsBeganBy};
ghost use Rattle.raft_packed_wire.specs.declared.named.Named.TheVariants as names;
ghost use Rattle.raft_packed_wire.specs.declared.record.PackedBegan.TheVariants as made;
ghost use Rattle.raft_packed_server.specs.Began.{built_end, named_left_of, named_no_changes, prepared_for};
ghost use Rattle.raft_packed_server.specs.Fits.{FitsAt, FitsBoth};
ghost use Rattle.raft_packed_server.specs.Logs.{logged_by};
ghost use Rattle.raft_packed_server.specs.Views.{IsTaken, batch_released, header_of, released, rest_released, step_of};
ghost use Rattle.raft_packed_server.specs.Represents.{HandsOut};

use crate::batch::{Batch, Said, Written};
use crate::began::Began;
use crate::changes::Changes;
use crate::records::Records;
use raft_frames::{LogId, PushError, Tail};
use raft_node::act::Act;
use raft_node::given::Given;
use raft_packed_wire::raft_packed::{Machine, Packed};
use raft_packed_wire::raft_packed_node::{Node, Outbox, PackedAct, StepError};
use raft_packed_wire::{Named, PackedBegan};
use raft_schedule::event::{Event, EventKind, Outcome};
use raft_wire::RESERVED_AHEAD;
use std::alloc::{AllocError, Global};

/// A node, and the steps whose records are not known to be on disk. One frame at a time is on its way there: of two
/// that aren't synced yet, a crash may leave the second without the first.
#[derive(Drop)]
pub struct Serving<M: Machine> {
    pub node: Node<M>,
    /// Up to which moment its records reserve moments, in milliseconds.
    pub reserved: u64,
    /// The steps whose records are on their way to the disk.
    pub written: Option<Batch<M>>,
    /// How many steps there were since then, their records, and what they say.
    pub steps: u64,
    pub records: Records<M>,
    pub outputs: Outbox<M>,
    /// The header, if the log has none yet.
    pub header: Option<LogId>,
    /// Where the next frame goes.
    pub tail: Tail,
    /// Where it goes in the log that is to take this one's place, if one is on its way.
    pub next: Option<Tail>,
}

/// What the act's calls are about to make of the node's store, for which the node is prepared.
fn began_of<M: Machine>(
    alloc: Global,
    act: &Act,
    node: &mut Node<M>,
) -> Result<Began<M>, AllocError>
    ensures began { IfOk result (λ began. IsBeganBy M.application node.old.store began (packed_call_effect act.now node.old)) }
    ensures node { OnOk result (node.new ≡ prepared_for act.now node.old) }
{
    match act {
        Act::Restart(_) => Began::new(alloc, &PackedBegan::Settled),
        Act::FinishSnapshot => build_of(alloc, node),
        _ => Began::new(alloc, &PackedBegan::Unchanged),
    }
}

/// The snapshot was built: the log has all of it.
fn whole_of<M: Machine>(alloc: Global, node: &Node<M>) -> Result<Began<M>, AllocError>
    ensures { IfOk result (λ began. began ≡ made.Built (names.Whole node.now.store.snap)) }
{
    let snapshot = node.store().copy_snapshot()?;
    Began::built(alloc, &snapshot)
}

/// The end of a build keeps what is noted, unless nothing is or the engine is spent. It is kept at once, so no state is copied. The log names it by
/// its end, if that names it.
fn build_of<M: Machine>(alloc: Global, node: &mut Node<M>) -> Result<Began<M>, AllocError>
    ensures began { IfOk result (λ began. IsBeganBy M.application node.old.store began (packed_call_effect FinishSnapshot node.old)) }
    ensures node { OnOk result (node.new ≡ prepared_for FinishSnapshot node.old) }
{
    let Some(end) = built_end(node) else {
        return Began::new(alloc, &PackedBegan::Unchanged);
    };
    let is_named = node.is_named_by_end();
    node.keep_noted()?;
    if is_named {
        Began::new(alloc, &PackedBegan::Built(Named::Folded(end)))
    } else {
        whole_of(alloc, node)
    }
}

/// The end of what the end of a build would keep: something is noted, and the engine isn't spent.
fn built_end<M: Machine>(node: &Node<M>) -> Option<u64>
    ensures { result ≡ built_end node.now }
{
    match (node.engine(), node.noted()) {
        (Some(engine), Some(noted)) if !engine.output.is_spent() => Some(noted.end()),
        _ => None,
    }
}

/// The snapshot that an act brings: that of no entries, if it brings none.
fn brought_of<M: Machine>(
    alloc: Global,
    snapshot: &Option<Packed<M>>,
) -> Result<Packed<M>, AllocError>
    ensures { IfOk result (λ brought. brought ≡ brought_by M.application snapshot.now) }
{
    match snapshot {
        Some(snapshot) => snapshot.copy(),
        None => Ok(Packed::new(alloc)),
    }
}

/// What a step has before its calls: what they are about to make of the store, its changes, which are none yet, and how many
/// steps there are with it.
#[derive(Drop)]
struct Prepared<M: Machine> {
    began: Began<M>,
    changes: Changes<M>,
    steps: u64,
}

/// Prepares a step: of the server it changes at most the node, for which the step's calls do the same.
fn prepare<M: Machine>(
    alloc: Global,
    act: &PackedAct<M>,
    serving: &mut Serving<M>,
) -> Result<Prepared<M>, AllocError>
    ensures began { IfOk result (λ p. IsBeganBy M.application serving.old.node.store p.began (packed_call_effect act.now.act serving.old.node)) }
    ensures changes { IfOk result (λ p. p.changes ≡ record { brought = brought_by M.application act.now.snapshot; changes = [] }) }
    ensures steps { IfOk result (λ p. p.steps ≡ serving.old.steps + 1) }
    ensures serving { OnOk result (serving.new ≡ record serving.old { node = prepared_for act.now.act serving.old.node }) }
{
    // (memory has run out long before so many steps)
    let Some(steps) = serving.steps.checked_add(1) else {
        return Err(AllocError);
    };
    let brought = brought_of(alloc, &act.snapshot)?;
    let changes = Changes::new(alloc, brought);
    let began = began_of(alloc, &act.act, &mut serving.node)?;
    Ok(Prepared {
        began,
        changes,
        steps,
    })
}

/// Up to which moment moments are reserved once this one is used, in milliseconds: a moment that isn't reserved yet
/// reserves those behind it too.
fn reserve(moment: u64, reserved: u64) -> u64
    ensures { result ≡ reserved_for moment reserved }
{
    if moment <= reserved {
        reserved
    } else {
        moment.saturating_add(RESERVED_AHEAD)
    }
}

/// Whether a step's record would change nothing of the store.
#[tactic(auto, using(crate::proofs::Seen::no_change_some, crate::proofs::Seen::no_change_none))]
fn changes_nothing<M: Machine>(began: &Began<M>, changes: &Changes<M>) -> bool
    ensures { result ≡ named_no_changes began.now changes.now.changes }
{
    began.is_unchanged() && changes.is_empty()
}

/// Adds the record of a step, unless its moment is reserved and it changes nothing.
fn push_record<M: Machine>(
    records: &mut Records<M>,
    reserved: &mut u64,
    moment: u64,
    step: &Prepared<M>,
) -> Result<(), AllocError>
    ensures reserved { reserved.new ≡ reserved_for moment reserved.old }
    ensures records { OnOk result (records.new ≡ records.old ++ named_left_of (nat_le moment reserved.old)
        (record { moment = reserved_for moment reserved.old; began = step.now.began; changes = step.now.changes.changes })) }
{
    let is_reserved = moment <= *reserved;
    *reserved = reserve(moment, *reserved);
    if is_reserved && changes_nothing(&step.began, &step.changes) {
        return Ok(());
    }
    records.push(*reserved, &step.began, &step.changes)
}

/// Takes a step: its record, if it leaves one, is added to the others, and what it says waits behind them.
pub fn take_step<M: Machine>(
    alloc: Global,
    given: &Given,
    serving: &mut Serving<M>,
    act: PackedAct<M>,
    at: u64,
) -> Result<Outcome, StepError>
    requires { IsRestingWhereRunning serving.old.node.engine }
    ensures takes { IfOk result (λ outcome. IsTaken M.application given.now (step_of M.application act at) serving.old outcome serving.new) }
    ensures fits { IsPackedAtRest M.application serving.old.node → IfErr result RunsOut }
    ensures rests { OnOk result (IsRestingWhereRunning serving.new.node.engine) }
{
    let mut prepared = prepare(alloc, &act, serving)?;
    let event = Event {
        kind: EventKind::Read(0),
        at: Some(at),
        stop: None,
    };
    let Serving {
        node,
        reserved,
        outputs,
        records,
        ..
    } = serving;
    let outcome = node.step(given, act, &event, outputs, &mut prepared.changes)?;
    push_record(records, reserved, node.moment(), &prepared)?;
    serving.steps = prepared.steps;
    Ok(outcome)
}

/// Makes a part of the snapshot's state, for which nothing waits: [`Node::fold_some`].
pub fn fold_some<M: Machine>(most: usize, serving: &mut Serving<M>) -> Result<bool, AllocError>
    ensures { OnOk result (serving.new ≡ serving.old) }
{
    serving.node.fold_some(most)
}

/// The header, if the log has none yet: it is written once.
fn take_header(alloc: Global, header: &mut Option<LogId>) -> Result<Vec<u8>, AllocError>
    ensures header { IfOk result (λ bytes. bytes.items ≡ header_of header.old) }
    ensures once { header.new ≡ None }
{
    match header.take() {
        Some(id) => Vec::from_slice(alloc, &id.header()),
        None => Ok(Vec::new(alloc)),
    }
}

/// Writes the records as one frame for the log that is on its way, if one is, and goes on to the place behind it.
fn write_beside<M: Machine>(
    alloc: Global,
    records: &Records<M>,
    next: &mut Option<Tail>,
) -> Result<Option<Vec<u8>>, PushError>
    ensures frame { IfOk result (λ written. option_map (λ b. b.items) written
        ≡ option_map (λ t. frame t (bytes_of (logged_by M.codec) records.now)) next.old) }
    ensures tail { OnOk result (next.new ≡ option_map (λ t. after t (bytes_of (logged_by M.codec) records.now)) next.old) }
    ensures fits { records.now ≢ [] → IfSome next.old (λ t. FitsAt t (bytes_of (logged_by M.codec) records.now))
        → IfErr result (λ e. e ≡ PushError.OutOfMemory) }
{
    let Some(tail) = next else {
        return Ok(None);
    };
    let mut bytes = Vec::new(alloc);
    records.write_frame(tail, &mut bytes)?;
    Ok(Some(bytes))
}

/// Hands out the records that wait as one frame for the log's end, and for that of a log on its way, unless there are none, or others are on
/// their way.
pub fn hand_out<M: Machine>(
    alloc: Global,
    serving: &mut Serving<M>,
) -> Result<Option<Written>, PushError>
    ensures hands_out { IfOk result (λ written. HandsOut M.codec (Some serving.old) written (Some serving.new)) }
    ensures fits { FitsBoth serving.old.tail serving.old.next (bytes_of (logged_by M.codec) serving.old.records)
        → IfErr result (λ e. e ≡ PushError.OutOfMemory) }
{
    if serving.written.is_some() || serving.records.is_empty() {
        return Ok(None);
    }
    let mut bytes = take_header(alloc, &mut serving.header)?;
    serving.records.write_frame(&mut serving.tail, &mut bytes)?;
    let next = write_beside(alloc, &serving.records, &mut serving.next)?;
    let end = serving.tail.position;
    serving.written = Some(Batch {
        end,
        steps: serving.steps,
        outputs: serving.outputs.take(alloc),
    });
    serving.steps = 0;
    serving.records.clear();
    Ok(Some(Written { bytes, end, next }))
}

/// Takes what the steps of the batch say, if the log is on disk up to this position and the batch is.
fn release_batch<M: Machine>(alloc: Global, serving: &mut Serving<M>, position: u64) -> Outbox<M>
    ensures { record { 0 = result; 1 = serving.new } ≡ batch_released position serving.old }
{
    match serving.written.take() {
        Some(batch) if batch.end <= position => batch.outputs,
        later => {
            serving.written = later;
            Outbox::new(alloc)
        }
    }
}

/// Takes what the steps say that are in no batch, if they wait for no record.
fn release_rest<M: Machine>(alloc: Global, serving: &mut Serving<M>) -> Outbox<M>
    ensures { record { 0 = result; 1 = serving.new } ≡ rest_released serving.old }
{
    if serving.written.is_none() && serving.records.is_empty() {
        serving.steps = 0;
        serving.outputs.take(alloc)
    } else {
        Outbox::new(alloc)
    }
}

/// Takes what the steps say that wait for no record, if the log is on disk up to this position.
pub fn release<M: Machine>(alloc: Global, serving: &mut Serving<M>, position: u64) -> Said<M>
    ensures { record { 0 = result; 1 = serving.new } ≡ released position serving.old }
{
    let batch = release_batch(alloc, serving, position);
    let rest = release_rest(alloc, serving);
    Said { batch, rest }
}
