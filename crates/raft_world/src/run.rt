//! Whole lists of events, and of steps.

ghost use Rattle.std.specs.Prelude.{◌≡◌, ℕ, IfOk, MatchResult, true, false};
ghost use Rattle.raft_world.specs.declared.error.WorldError.TheVariants.{OutOfMemory};
ghost use Rattle.raft_world.specs.Safe.{IsSafe};
ghost use Rattle.raft_world.specs.Steps.{RunsSteps, RunsTo, TakesSteps, UnmetIs, delivery, deliveries, events_of_step};
ghost use Rattle.raft_world.specs.Worlds.{Applies, IsMade, IsSpentOf, ReportAgrees, RunsAll, WorldView, events_in, reported, run_in};

use crate::error::WorldError;
use crate::expected::Unmet;
use crate::report::Report;
use crate::world::World;
use raft_node::watch::Unwatched;
use raft_schedule::event::{AppliedEvent, Event, EventKind, Outcome};
use raft_schedule::step::{Numbered, Step};
use std::alloc::{AllocError, Global};

fn copy_past(alloc: Global, from: &[AppliedEvent]) -> Result<Vec<AppliedEvent>, AllocError>
    ensures { IfOk result (λ copied. copied.items ≡ from.now) }
{
    let mut copied = Vec::with_capacity(alloc, from.len())?;
    for one in from {
        copied.push(one.copy(alloc)?)?;
    }
    Ok(copied)
}

impl World {
    /// Applies an event, of which the run keeps a copy.
    fn apply_copy(&mut self, event: &Event) -> Result<Outcome, WorldError>
        ensures { Applies self.old event.now result self.new }
    {
        if let Some(error) = self.refusals_of_apply() {
            return Err(error);
        }
        match event.copy(self.alloc) {
            Ok(copied) => self.apply_within_limits(copied, &mut Unwatched),
            Err(_) => {
                self.spent = true;
                Err(WorldError::OutOfMemory)
            }
        }
    }

    fn try_report(&self) -> Result<Report, AllocError>
        ensures report { IfOk result (λ report. report ≡ reported self.now.history) }
        ensures run { self.now.spent ≡ false → IfOk result (λ report. report ≡ reported (run_in self.now)) }
    {
        Report::new(
            self.alloc,
            copy_past(self.alloc, self.past.events())?,
            self.cluster.records.copy(self.alloc)?,
        )
    }

    /// What came of the events, moved into the report.
    fn into_report(self) -> Result<Report, WorldError>
        ensures { MatchResult result (λ report. report ≡ reported self.history) (λ error. error ≡ OutOfMemory) }
    {
        let World {
            alloc,
            cluster,
            past,
            ..
        } = self;
        match Report::new(alloc, past.into_events(), cluster.records) {
            Ok(report) => Ok(report),
            Err(_) => Err(WorldError::OutOfMemory),
        }
    }

    /// What came of the events so far. Out of memory, the world is spent.
    fn report(&mut self) -> Result<Report, WorldError>
        ensures told { MatchResult result
            (λ report. (report ≡ reported self.old.history) × (self.new ≡ self.old))
            (λ error. (error ≡ OutOfMemory) × IsSpentOf self.old self.new) }
        ensures run { self.old.spent ≡ false → IfOk result (λ report. report ≡ reported (run_in self.new)) }
    {
        match self.try_report() {
            Ok(report) => Ok(report),
            Err(_) => {
                self.spent = true;
                Err(WorldError::OutOfMemory)
            }
        }
    }
}

/// Applies these events, one after the other, and reports what came of all events of the world.
fn run_events(world: &mut World, events: &[Event]) -> Result<Report, WorldError>
    ensures runs { RunsAll world.old events.now result world.new }
    ensures made { IsMade world.new.given }
    ensures run { IfOk result (λ report. report ≡ reported (run_in world.new)) }
{
    if world.is_spent() {
        return Err(WorldError::OutOfMemory);
    }
    for event in events {
        if let Err(error) = world.apply_copy(event) {
            return Err(error);
        }
    }
    world.report()
}

/// Applies these events, one after the other, and reports what came of all events of the world: the run of the world. The
/// report's outcomes, messages and records are the run's (`run`), among them each decided commit with its leader's whole
/// log up to it, and each established leader with its whole log then. Its executed commits and installed snapshots agree,
/// so `check_agreement` answers `Agree` of it (`agree`).
///
/// Refused as `World::apply` is; the events before the refused one stand.
///
/// Whatever the voters, joint groups too, however they change, whatever messages come late, again or never, whenever nodes
/// build snapshots and purge their logs, wherever they stop between two commands, and whenever they start again on what
/// they have stored, the run is safe (`safe`; Raft paper, sections 5 to 8, figure 3): `IsSafe` lists what that is.
pub fn run_schedule(world: &mut World, events: &[Event]) -> Result<Report, WorldError>
    ensures runs { RunsAll world.old events.now result world.new }
    ensures run { IfOk result (λ report. report ≡ reported (run_in world.new)) }
    ensures agree { IfOk result ReportAgrees }
    ensures safe { IsSafe world.new.given (events_in world.new) }
{
    run_events(world, events)
}

impl World {
    /// What a step expects, if it isn't there, with what is. Out of memory, the world is spent.
    pub fn unmet(&mut self, numbered: &Numbered) -> Result<Option<Unmet>, WorldError>
        ensures { UnmetIs self.old numbered.now result self.new }
    {
        let Step::Expects(expectation) = &numbered.step else {
            return Ok(None);
        };
        match self.try_unmet(numbered.line, expectation) {
            Ok(unmet) => Ok(unmet),
            Err(_) => {
                self.spent = true;
                Err(WorldError::OutOfMemory)
            }
        }
    }
}

/// An event that delivers a message at its node's last moment.
fn delivery(number: u64) -> Event
    ensures { result ≡ delivery number }
{
    Event {
        kind: EventKind::Deliver(number),
        at: None,
        stop: None,
    }
}

/// Delivers the oldest undelivered message, until there is none, at most so many times.
fn deliver_all(world: &mut World, most: u64) -> Result<(), WorldError>
    requires { world.old.spent ≡ false }
    ensures { RunsTo world.old (deliveries world.old.given most world.old.history) result world.new }
{
    let mut left = most;
    'next: while left > 0 {
        let Some(number) = world.oldest_undelivered(None) else {
            return Ok(());
        };
        if let Err(error) = world.apply(delivery(number)) {
            return Err(error);
        }
        left -= 1;
    }
    Ok(())
}

/// Applies the event of a step, or its events.
fn take_step(world: &mut World, step: &Step) -> Result<(), WorldError>
    requires { world.old.spent ≡ false }
    ensures { RunsTo world.old (events_of_step world.old.given step.now world.old.history) result world.new }
{
    match step {
        Step::Happens(event) => match world.apply_copy(event) {
            Ok(_) => Ok(()),
            Err(error) => Err(error),
        },
        Step::Next { link, at, stop } => {
            let number = world.oldest_undelivered(Some(*link)).unwrap_or(0);
            let event = Event {
                kind: EventKind::Deliver(number),
                at: *at,
                stop: *stop,
            };
            match world.apply(event) {
                Ok(_) => Ok(()),
                Err(error) => Err(error),
            }
        }
        Step::All(most) => deliver_all(world, *most),
        Step::Expects(_) => Ok(()),
    }
}

/// Takes these steps, one after the other, up to the first expectation that isn't met, which is answered.
fn take_steps(world: &mut World, steps: &[Numbered]) -> Result<Option<Unmet>, WorldError>
    ensures takes { TakesSteps world.old steps.now result world.new }
    ensures made { IsMade world.new.given }
{
    if world.is_spent() {
        return Err(WorldError::OutOfMemory);
    }
    for numbered in steps {
        match world.unmet(numbered) {
            Ok(None) => {}
            Ok(Some(unmet)) => return Ok(Some(unmet)),
            Err(error) => return Err(error),
        }
        if let Err(error) = take_step(world, &numbered.step) {
            return Err(error);
        }
    }
    Ok(None)
}

/// Takes these steps, one after the other, up to the first expectation that isn't met, and reports what came of all events of
/// the world, with that expectation. Each step but an expectation is an event, or several, so the run is one of events, and
/// what `run_schedule` promises holds of it.
///
/// Refused as `World::apply` is; the events before the refused one stand.
pub fn run_steps(
    world: &mut World,
    steps: &[Numbered],
) -> Result<(Report, Option<Unmet>), WorldError>
    ensures runs { RunsSteps world.old steps.now result world.new }
    ensures run { IfOk result (λ r. r.0 ≡ reported (run_in world.new)) }
    ensures agree { IfOk result (λ r. ReportAgrees r.0) }
    ensures safe { IsSafe world.new.given (events_in world.new) }
{
    let unmet = match take_steps(world, steps) {
        Ok(unmet) => unmet,
        Err(error) => return Err(error),
    };
    match world.report() {
        Ok(report) => Ok((report, unmet)),
        Err(error) => Err(error),
    }
}

/// As `run_steps`, of a world that ends with it: what came of its events is moved into the report.
pub(crate) fn run_to_end(
    mut world: World,
    steps: &[Numbered],
) -> Result<(Report, Option<Unmet>), WorldError>
    ensures { (after : WorldView) × RunsSteps world steps.now result after }
{
    let unmet = match take_steps(&mut world, steps) {
        Ok(unmet) => unmet,
        Err(error) => return Err(error),
    };
    match world.into_report() {
        Ok(report) => Ok((report, unmet)),
        Err(error) => Err(error),
    }
}
