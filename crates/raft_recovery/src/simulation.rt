//! A way on after a schedule, from a reader to two writers.

ghost use Rattle.std.specs.Prelude.{◌≡◌, ◌⊎◌, IfErr, IfOk, MatchResult, None, OnOk, map};
ghost use Rattle.std.specs.Io.KnownBytes.{Appends};
ghost use Rattle.raft_schedule.specs.Text.{plan};
ghost use Rattle.raft_node.specs.Net.{NodeView};
ghost use Rattle.raft_recovery.specs.Recoveries.{GoesOnBy, IsReason};
ghost use Rattle.raft_world.specs.declared.error.WorldError.TheVariants.{OutOfMemory};
ghost use Rattle.raft_world.specs.declared.streams.Failure.TheVariants as failure;
ghost use Rattle.raft_recovery.specs.Simulated.{GoesOnAfter, Leaves, Refuses, Runs, Simulates, StatusOf, Stops, Writes};
ghost use Rattle.raft_recovery.specs.Simulated.{lines_of, named, refusal_status, refusal_text};

use crate::error::{Failure as Failed, RecoveryError};
use crate::recovery::{Recovery, recover};
use raft_schedule::schedule::Schedule;
use raft_store::Value;
use raft_world::{
    Event, Failure, Node, Tracked, World, WorldError, read_bytes, read_schedule, run_steps,
    write_text,
};
use std::alloc::Global;
use std::io::{self, Read, Write};

/// Why no way on is printed.
#[derive(Drop)]
enum Refusal {
    /// The schedule isn't played to its end, or the way on can't be written.
    Run(Failure),
    /// Nothing was found after it.
    Recovery(RecoveryError),
}

impl Refusal {
    /// The exit status.
    fn status(&self) -> u8
        ensures { result ≡ refusal_status self.now }
    {
        match self {
            Refusal::Run(failure) => failure.status(),
            Refusal::Recovery(_) => 4,
        }
    }

    /// Writes why, as a line.
    fn print<E: Write>(&self, errors: &mut E) -> io::Result<()>
        ensures { OnOk result (Appends (E.contents errors.old) (E.contents errors.new) (refusal_text self.now)) }
    {
        match self {
            Refusal::Run(failure) => failure.print(errors),
            Refusal::Recovery(error) => writeln!(errors, "{error}"),
        }
    }
}

/// The world after a schedule.
fn run(alloc: Global, schedule: Schedule) -> Result<World, Failure>
    ensures { Runs (plan schedule) result }
{
    let Schedule {
        nodes,
        membership,
        settings,
        steps,
        ..
    } = schedule;
    let mut world = match World::new(alloc, &nodes, membership, settings) {
        Ok(world) => world,
        Err(error) => return Err(Failure::World(error)),
    };
    let unmet = match run_steps(&mut world, &steps) {
        Ok((_report, unmet)) => unmet,
        Err(error) => return Err(Failure::World(error)),
    };
    match unmet {
        None => Ok(world),
        Some(unmet) => Err(Failure::Unmet(unmet)),
    }
}

/// The world after the schedule that `input` holds.
fn run_input<R: Read>(alloc: Global, input: &mut Tracked<R>) -> Result<World, Failure>
    ensures { MatchResult result (λ world. Leaves (R.remaining input.old.inner) None world) (Stops (R.remaining input.old.inner)) }
{
    let bytes = match read_bytes(alloc, input) {
        Ok(bytes) => bytes,
        Err(failure) => return Err(failure),
    };
    let schedule = match read_schedule(alloc, &bytes) {
        Ok(schedule) => schedule,
        Err(error) => return Err(Failure::Schedule(error)),
    };
    match run(alloc, schedule) {
        Ok(world) => Ok(world),
        Err(failure) => Err(failure),
    }
}

/// The ids of nodes.
fn ids_of(alloc: Global, nodes: &[Node]) -> Result<Vec<u64>, Failed>
    ensures { IfOk result (λ ids. ids.items ≡ map (λ (N : NodeView). N.id) nodes.now) }
{
    let mut ids = Vec::new(alloc);
    for node in nodes {
        ids.push(node.id())?;
    }
    Ok(ids)
}

/// These nodes, or all if none is named.
fn named_ids(alloc: Global, world: &World, up: &[u64]) -> Result<Vec<u64>, Failed>
    ensures { IfOk result (λ ids. ids.items ≡ named world.now up.now) }
{
    match up {
        [] => ids_of(alloc, world.nodes()),
        _ => Ok(Vec::from_slice(alloc, up)?),
    }
}

/// A way on for these nodes of a world, or for all if none is named.
fn recover_named(
    alloc: Global,
    world: &mut World,
    up: &[u64],
    value: &Value,
) -> Result<Recovery, RecoveryError>
    ensures ok { IfOk result (λ recovery. GoesOnBy world.old (named world.old up.now) value.now recovery world.new) }
    ensures reason { IfErr result (λ error. IsReason world.old (named world.old up.now) error) }
{
    let ids = named_ids(alloc, world, up)?;
    recover(alloc, world, &ids, value)
}

/// A way on after the schedule that `input` holds.
fn recover_input<R: Read>(
    alloc: Global,
    up: &[u64],
    value: &Value,
    input: &mut Tracked<R>,
) -> Result<Recovery, Refusal>
    ensures ok { IfOk result (λ recovery. GoesOnAfter (R.remaining input.old.inner) up.now value.now recovery) }
    ensures refused { IfErr result (λ refusal. Refuses (R.remaining input.old.inner) up.now value.now refusal) }
{
    let mut world = match run_input(alloc, input) {
        Ok(world) => world,
        Err(failure) => return Err(Refusal::Run(failure)),
    };
    match recover_named(alloc, &mut world, up, value) {
        Ok(recovery) => Ok(recovery),
        Err(error) => Err(Refusal::Recovery(error)),
    }
}

/// Prints events as lines of a schedule.
fn print_events<W: Write>(events: &[Event], output: &mut W) -> io::Result<()>
    ensures { OnOk result (Appends (W.contents output.old) (W.contents output.new) (lines_of events.now)) }
{
    for event in events {
        writeln!(output, "{event}")?;
    }
    Ok(())
}

/// The lines of events; printing into memory fails only when out of memory.
fn text_of(alloc: Global, events: &[Event]) -> Result<Vec<u8>, Failure>
    ensures { MatchResult result (λ text. text.items ≡ lines_of events.now) (λ e. e ≡ failure.World OutOfMemory) }
{
    let mut text = Vec::new(alloc);
    match print_events(events, &mut text) {
        Ok(()) => Ok(text),
        Err(_) => Err(Failure::World(WorldError::OutOfMemory)),
    }
}

/// Writes events, whose lines are made before the first write.
fn write_events<W: Write>(
    alloc: Global,
    events: &[Event],
    output: &mut Tracked<W>,
) -> Result<(), Failure>
    ensures ok { OnOk result (Appends (W.contents output.old.inner) (W.contents output.new.inner) (lines_of events.now)) }
    ensures err { IfErr result (λ e. (e ≡ failure.Write) ⊎ (e ≡ failure.World OutOfMemory)) }
{
    let text = match text_of(alloc, events) {
        Ok(text) => text,
        Err(failure) => return Err(failure),
    };
    match write_text(output, &text) {
        Ok(()) => Ok(()),
        Err(failure) => Err(failure),
    }
}

fn try_simulate<R: Read, W: Write>(
    alloc: Global,
    up: &[u64],
    value: &Value,
    input: &mut Tracked<R>,
    output: &mut Tracked<W>,
) -> Result<(), Refusal>
    ensures ok { OnOk result (Writes (R.remaining input.old.inner) up.now value.now (W.contents output.old.inner) (W.contents output.new.inner)) }
    ensures refused { IfErr result (λ refusal. Refuses (R.remaining input.old.inner) up.now value.now refusal) }
{
    let recovery = recover_input(alloc, up, value, input)?;
    match write_events(alloc, recovery.events.as_slice(), output) {
        Ok(()) => Ok(()),
        Err(failure) => Err(Refusal::Run(failure)),
    }
}

/// Reads a schedule, runs it, and writes a way on for these of its nodes, or for all if none is named, as lines that can be
/// played after it (in language 2). Answers the exit status, and whether the text of a refusal was written.
///
/// The status is 0; or that of `simulate_into` where the schedule isn't played to its end, or a write failed; or 4 if no way
/// on was found, and then what lacks goes to `errors`.
pub fn simulate_recovery_into<R: Read, W: Write, E: Write>(
    alloc: Global,
    up: &[u64],
    value: &Value,
    input: &mut Tracked<R>,
    output: &mut Tracked<W>,
    errors: &mut E,
) -> (u8, io::Result<()>)
    ensures { Simulates (R.remaining input.old.inner) up.now value.now result.0 (W.contents output.old.inner) (W.contents output.new.inner)
        result.1 (E.contents errors.old) (E.contents errors.new) }
{
    match try_simulate(alloc, up, value, input, output) {
        Ok(()) => (0, Ok(())),
        Err(refusal) => {
            let told = refusal.print(errors);
            (refusal.status(), told)
        }
    }
}

/// Like `simulate_recovery_into`, with a reader and writers of its own; answers the exit status, whether or not its text could
/// be written.
pub fn simulate_recovery<R: Read + Drop, W: Write + Drop, E: Write + Drop>(
    alloc: Global,
    up: &[u64],
    value: &Value,
    input: R,
    output: W,
    mut errors: E,
) -> u8
    ensures { StatusOf (R.remaining input) up.now value.now result }
{
    let mut input = Tracked::new(input);
    let mut output = Tracked::new(output);
    let (status, _told) = simulate_recovery_into(
        alloc,
        up,
        value,
        &mut input,
        &mut output,
        &mut errors,
    );
    status
}
