//! A whole simulation, from a reader to two writers.

ghost use Rattle.std.specs.Prelude.{◌≡◌, ◌<◌, ◌+◌, ◌^◌, ◌==◌, MatchResult, IfOk, IfErr, OnOk, Ok, is_err, false, length, count_by};
ghost use Rattle.std.specs.Io.{ReadsAtMost, WritesAtMost};
ghost use Rattle.std.specs.Io.KnownBytes.{Appends, IsAtEnd, ReadConsumes, WriteAppends};
ghost use Rattle.raft_world.specs.declared.error.WorldError.TheVariants.{OutOfMemory};
ghost use Rattle.raft_schedule.specs.Text.{plan};
ghost use Rattle.raft_world.specs.Printed.{IsText};
ghost use Rattle.raft_world.specs.Simulated.{IsInput, Takes, Reads, ComesOf, Runs, FailsBy, ReadsBy, Begins, Writes, Answers};
ghost use Rattle.raft_world.specs.Simulated.{failure_status, failure_text, StatusOf, Simulates, IsReadFailure};

use crate::error::WorldError;
use crate::expected::Unmet;
use crate::print::print_report;
use crate::report::Report;
use crate::run::run_to_end;
use crate::tracked::Tracked;
use crate::world::World;
use raft_schedule::schedule::{Language, Schedule, ScheduleError, parse_schedule};
use std::alloc::Global;
use std::io::{self, ErrorKind, Read, Write};

/// Why nothing is printed, or not all; or what isn't as a schedule expects it, after the whole report.
#[derive(Debug, Drop)]
pub enum Failure {
    Schedule(ScheduleError),
    World(WorldError),
    Read,
    Write,
    Unmet(Unmet),
}

impl Failure {
    /// The exit status.
    pub fn status(&self) -> u8
        ensures { result ≡ failure_status self.now }
    {
        match self {
            Failure::Schedule(_) | Failure::World(_) => 1,
            Failure::Read | Failure::Write => 2,
            Failure::Unmet(_) => 3,
        }
    }

    /// Writes the text of the refusal or the failure, as a line.
    pub fn print<E: Write>(&self, errors: &mut E) -> io::Result<()>
        ensures { OnOk result (Appends (E.contents errors.old) (E.contents errors.new) (failure_text self.now)) }
    {
        match self {
            Failure::Schedule(error) => writeln!(errors, "{error}"),
            Failure::World(error) => writeln!(errors, "{error}"),
            Failure::Read => writeln!(errors, "read failed"),
            Failure::Write => writeln!(errors, "write failed"),
            Failure::Unmet(unmet) => writeln!(errors, "{unmet}"),
        }
    }
}

/// How many bytes one read asks for.
const AT_ONCE: usize = 8192;

/// Whether a signal interrupted the call: it is then made again.
fn is_interrupted<T>(tried: &io::Result<T>) -> bool
    ensures { is_err tried.now ≡ false → result ≡ false }
{
    match tried {
        Ok(_) => false,
        Err(error) => error.kind() == ErrorKind::Interrupted,
    }
}

/// One read, made again while it is interrupted.
fn read_some<R: Read>(input: &mut Tracked<R>, chunk: &mut [u8]) -> io::Result<usize>
    ensures bound { ReadsAtMost result chunk.new }
    ensures bytes { ReadConsumes (R.remaining input.old.inner) (R.remaining input.new.inner) result chunk.new }
    ensures failed { input.new.failed ≡ is_err result }
{
    let mut tried = input.read(chunk);
    'again: for _ in 0..u64::MAX {
        if !is_interrupted(&tried) {
            break;
        }
        tried = input.read(chunk);
    }
    tried
}

/// Appends the bytes that one read more gives, and answers how many these are.
fn read_more<R: Read>(
    input: &mut Tracked<R>,
    chunk: &mut [u8],
    bytes: &mut Vec<u8>,
) -> Result<usize, Failure>
    requires { 0 < length chunk.old }
    ensures taken { OnOk result (Takes (R.remaining input.old.inner) (R.remaining input.new.inner) bytes.old.items bytes.new.items) }
    ensures count { IfOk result (λ n. length bytes.new.items ≡ length bytes.old.items + n) }
    ensures end { IfOk result (λ n. n ≡ 0 → IsAtEnd (R.remaining input.new.inner)) }
    ensures err { IfErr result IsReadFailure }
    ensures reads { ReadsBy input.old.failed input.new.failed result }
{
    let Ok(count) = read_some(input, chunk) else {
        return Err(Failure::Read);
    };
    let Ok(()) = bytes.extend_from_slice(&chunk[..count]) else {
        return Err(Failure::World(WorldError::OutOfMemory));
    };
    Ok(count)
}

/// Appends all bytes that a reader gives.
fn read_all<R: Read>(
    input: &mut Tracked<R>,
    chunk: &mut [u8],
    bytes: &mut Vec<u8>,
) -> Result<(), Failure>
    requires { 0 < length chunk.old }
    ensures taken { OnOk result (Takes (R.remaining input.old.inner) (R.remaining input.new.inner) bytes.old.items bytes.new.items) }
    ensures end { OnOk result (IsAtEnd (R.remaining input.new.inner)) }
    ensures err { IfErr result IsReadFailure }
    ensures reads { ReadsBy input.old.failed input.new.failed result }
{
    'more: loop {
        match read_more(input, chunk, bytes) {
            Ok(0) => return Ok(()),
            Ok(_) => {}
            Err(failure) => return Err(failure),
        }
    }
}

/// All bytes that a reader gives.
///
/// `Read` is answered where a read failed, whatever its error says; a read that a signal interrupts is made again.
pub fn read_bytes<R: Read>(alloc: Global, input: &mut Tracked<R>) -> Result<Vec<u8>, Failure>
    ensures bytes { MatchResult result (λ bytes. IsInput (R.remaining input.old.inner) bytes.items) IsReadFailure }
    ensures reads { ReadsBy input.old.failed input.new.failed result }
{
    let mut bytes = Vec::new(alloc);
    let Ok(mut chunk) = vec![in alloc; 0u8; AT_ONCE] else {
        return Err(Failure::World(WorldError::OutOfMemory));
    };
    match read_all(input, &mut chunk, &mut bytes) {
        Ok(()) => Ok(bytes),
        Err(failure) => Err(failure),
    }
}

/// One write, made again while it is interrupted.
fn write_some<W: Write>(output: &mut Tracked<W>, text: &[u8]) -> io::Result<usize>
    ensures bound { WritesAtMost result text.now }
    ensures bytes { WriteAppends (W.contents output.old.inner) (W.contents output.new.inner) result text.now }
    ensures failed { output.new.failed ≡ is_err result }
    ensures some { IfOk result (λ n. 0 < length text.now → 0 < n) }
{
    let mut tried = output.write(text);
    'again: for _ in 0..u64::MAX {
        if !is_interrupted(&tried) {
            break;
        }
        tried = output.write(text);
    }
    tried
}

/// Writes a text, in as many writes as it takes; `Write` is answered where a write failed.
pub fn write_text<W: Write>(output: &mut Tracked<W>, text: &[u8]) -> Result<(), Failure>
    ensures ok { OnOk result (Appends (W.contents output.old.inner) (W.contents output.new.inner) text.now) }
    ensures err { IfErr result (λ e. (e ≡ Failure.Write) × Begins output.new.failed (W.contents output.old.inner) (W.contents output.new.inner) text.now) }
{
    let mut at = 0;
    'on: while at < text.len() {
        let Ok(count) = write_some(output, &text[at..]) else {
            return Err(Failure::Write);
        };
        at += count;
    }
    Ok(())
}

/// The line of a text, counted from 1, that these bytes of it reach.
fn line_of(bytes: &[u8]) -> u64
    requires { length bytes.now + 1 < 2 ^ 64 }
    ensures { result ≡ 1 + count_by (λ b. b == 10) bytes.now }
{
    1 + bytes.iter().filter(|byte| **byte == b'\n').count() as u64
}

/// The schedule of a text; if it is not UTF-8, the line of its first wrong byte is bad.
pub fn read_schedule(alloc: Global, bytes: &[u8]) -> Result<Schedule, ScheduleError>
    ensures { Reads bytes.now result }
{
    match str::from_utf8(bytes) {
        Ok(text) => parse_schedule(alloc, text),
        Err(error) => Err(ScheduleError::BadLine(line_of(&bytes[..error.valid_up_to()]))),
    }
}

/// What came of a schedule in this language: its report, and the first expectation that wasn't met.
#[derive(Drop)]
struct Ran {
    language: Language,
    report: Report,
    unmet: Option<Unmet>,
}

/// Runs a schedule in a new world.
fn run(alloc: Global, schedule: Schedule) -> Result<Ran, WorldError>
    ensures { ComesOf (plan schedule) result }
{
    let Schedule {
        language,
        nodes,
        membership,
        settings,
        steps,
    } = schedule;
    let world = World::new(alloc, &nodes, membership, settings)?;
    let (report, unmet) = run_to_end(world, &steps)?;
    Ok(Ran {
        language,
        report,
        unmet,
    })
}

/// Runs the schedule that `input` holds.
fn run_input<R: Read>(alloc: Global, input: &mut Tracked<R>) -> Result<Ran, Failure>
    ensures runs { MatchResult result (λ ran. Runs (R.remaining input.old.inner) (Ok ran)) (FailsBy (R.remaining input.old.inner)) }
    ensures reads { ReadsBy input.old.failed input.new.failed result }
{
    let bytes = match read_bytes(alloc, input) {
        Ok(bytes) => bytes,
        Err(failure) => return Err(failure),
    };
    let schedule = match read_schedule(alloc, &bytes) {
        Ok(schedule) => schedule,
        Err(error) => return Err(Failure::Schedule(error)),
    };
    match run(alloc, schedule) {
        Ok(ran) => Ok(ran),
        Err(error) => Err(Failure::World(error)),
    }
}

/// The report as text; printing into memory fails only when out of memory.
fn report_text(alloc: Global, language: Language, report: &Report) -> Result<Vec<u8>, WorldError>
    ensures { MatchResult result (λ text. IsText language report.now text.items) (λ e. e ≡ OutOfMemory) }
{
    let mut text = Vec::new(alloc);
    match print_report(language, report, &mut text) {
        Ok(()) => Ok(text),
        Err(_) => Err(WorldError::OutOfMemory),
    }
}

/// Writes a report that is made whole before the first write: so out of memory writes nothing. Then it answers what wasn't
/// met, if anything.
fn write_report<W: Write>(alloc: Global, ran: Ran, output: &mut Tracked<W>) -> Result<(), Failure>
    ensures { Writes ran result (output.new ≡ output.old) output.new.failed (W.contents output.old.inner) (W.contents output.new.inner) }
{
    let Ran {
        language,
        report,
        unmet,
    } = ran;
    let text = match report_text(alloc, language, &report) {
        Ok(text) => text,
        Err(error) => return Err(Failure::World(error)),
    };
    write_text(output, &text)?;
    match unmet {
        None => Ok(()),
        Some(unmet) => Err(Failure::Unmet(unmet)),
    }
}

fn try_simulate<R: Read, W: Write>(
    alloc: Global,
    input: &mut Tracked<R>,
    output: &mut Tracked<W>,
) -> Result<(), Failure>
    ensures answers { Answers (R.remaining input.old.inner) result (output.new ≡ output.old) output.new.failed
        (W.contents output.old.inner) (W.contents output.new.inner) }
    ensures reads { ReadsBy input.old.failed input.new.failed result }
{
    match run_input(alloc, input) {
        Ok(ran) => write_report(alloc, ran, output),
        Err(failure) => Err(failure),
    }
}

/// Reads a schedule, runs it and writes the report; answers the exit status, and whether the text of a refusal was
/// written.
///
/// The status is 0; or 1 for a refused schedule (`line n: bad line`, `W1` to `W5`, and nothing on the output); or 2 for
/// a read that failed (`read failed`, and nothing on the output), or a write of the output (`write failed`, after a
/// beginning of the report); or 3 for an expectation that isn't met (`line n: expected .., found ..`, after the report of
/// what came before it). The text of a refusal or a failure goes to `errors`; the status is the same where that
/// can't be written.
pub fn simulate_into<R: Read, W: Write, E: Write>(
    alloc: Global,
    input: &mut Tracked<R>,
    output: &mut Tracked<W>,
    errors: &mut E,
) -> (u8, io::Result<()>)
    ensures { Simulates (R.remaining input.old.inner) input.old.failed input.new.failed result.0 (output.new ≡ output.old) output.new.failed
        (W.contents output.old.inner) (W.contents output.new.inner) result.1 (E.contents errors.old) (E.contents errors.new) }
{
    match try_simulate(alloc, input, output) {
        Ok(()) => (0, Ok(())),
        Err(failure) => {
            let told = failure.print(errors);
            (failure.status(), told)
        }
    }
}

/// Like `simulate_into`, with a reader and writers of its own; answers the exit status, whether or not its text could
/// be written.
pub fn simulate<R: Read + Drop, W: Write + Drop, E: Write + Drop>(
    alloc: Global,
    input: R,
    output: W,
    mut errors: E,
) -> u8
    ensures { StatusOf (R.remaining input) result }
{
    let mut input = Tracked::new(input);
    let mut output = Tracked::new(output);
    let (status, _told) = simulate_into(alloc, &mut input, &mut output, &mut errors);
    status
}
