//! A whole schedule.

use crate::nodes::print_nodes;
use crate::tracer::Tracer;
use raft_world::{
    Agreement, Failure, Numbered, Schedule, Tracked, Unmet, World, WorldError, check_agreement,
    read_bytes, read_schedule, run_schedule, write_text,
};
use std::alloc::Global;
use std::io::{self, Read, Write};

/// Reads a schedule, runs it, and writes the trace once it is complete: nothing if the schedule or its world is
/// refused. If an expectation isn't met the trace ends there.
pub fn trace<R: Read, W: Write>(
    alloc: Global,
    input: &mut Tracked<R>,
    output: &mut Tracked<W>,
) -> Result<(), Failure> {
    let bytes = read_bytes(alloc, input)?;
    let schedule = read_schedule(alloc, &bytes).map_err(Failure::Schedule)?;
    let (text, unmet) = run(alloc, schedule).map_err(Failure::World)?;
    write_text(output, &text)?;
    match unmet {
        None => Ok(()),
        Some(unmet) => Err(Failure::Unmet(unmet)),
    }
}

/// The text of a schedule's run in a new world, and the first expectation that isn't met.
fn run(alloc: Global, schedule: Schedule) -> Result<(Vec<u8>, Option<Unmet>), WorldError> {
    let Schedule {
        language: _,
        nodes,
        membership,
        settings,
        steps,
    } = schedule;
    let mut world = World::new(alloc, &nodes, membership, settings)?;
    let mut tracer = Tracer::new(alloc);
    let unmet = take_all(&steps, &mut tracer, &mut world)?;
    let agreement = agreement_of(&mut world)?;
    let mut text = tracer.into_text();
    match print_end(&nodes, &world, agreement, &mut text) {
        Ok(()) => Ok((text, unmet)),
        Err(_) => Err(WorldError::OutOfMemory),
    }
}

/// Takes these steps in a world, up to the first expectation that isn't met, which is answered.
fn take_all(
    steps: &[Numbered],
    tracer: &mut Tracer,
    world: &mut World,
) -> Result<Option<Unmet>, WorldError> {
    for numbered in steps {
        if let Some(unmet) = world.unmet(numbered)? {
            return Ok(Some(unmet));
        }
        tracer.take(&numbered.step, world)?;
    }
    Ok(None)
}

/// Whether a world's state machines agree.
fn agreement_of(world: &mut World) -> Result<Agreement, WorldError> {
    Ok(check_agreement(&run_schedule(world, &[])?))
}

/// The nodes at the end, and whether their state machines agree.
fn print_end<W: Write>(
    nodes: &[u64],
    world: &World,
    agreement: Agreement,
    output: &mut W,
) -> io::Result<()> {
    writeln!(output, "")?;
    print_nodes(nodes, world, output)?;
    match agreement {
        Agreement::Agree => writeln!(output, "agree"),
        Agreement::Differ(index) => writeln!(output, "differ {index}"),
    }
}
