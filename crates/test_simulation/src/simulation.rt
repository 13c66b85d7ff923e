//! What no text says of schedules: streams that fail, a text of a hundred thousand lines, and the parts by themselves.

ghost use Rattle.std.specs.Prelude.{◌≤◌, length};

use crate::streams::{CutReader, CutWriter};
use raft_state::{LeaderId, LogId};
use raft_world::{
    Entry, Event, EventKind, Executed, Language, Numbered, Report, Schedule, Step, Tracked, World,
    parse_schedule, print_report, run_steps, simulate, simulate_into,
};
use std::alloc::Global;
use std::io::ErrorKind;
use std::process::Abort;
use std::test::Fail;

/// The first run of one voter.
const FIRST: &str = "nodes 1\nvoters 1\ninit 1\n";

const PRINTED: &str =
    "1 done sent 0\nentry 0 0-0-0 membership nodes 1\nentry 1 1-1-1 blank nodes 1\nagree\n";

#[test]
fn more_events_than_the_limit_print_nothing(rt: HostRuntime) -> Result<(), Fail> {
    let mut text = String::from_str(rt.alloc(), "nodes 1\nvoters 1\n")?;
    for _ in 0..100_001 {
        text.push_str("init 1\n")?;
    }
    let mut output = Vec::new(rt.alloc());
    let mut errors = Vec::new(rt.alloc());
    assert_eq!(rt;
        simulate(rt.alloc(), text.as_bytes(), &mut output, &mut errors),
        1
    );
    assert_eq!(rt; output.len(), 0);
    assert_eq!(rt; errors.as_slice(), b"W4\n".as_slice());
    Ok(())
}

/// What a run ends with: its status, what it printed, and what it told of errors.
#[derive(Drop)]
struct End<'a> {
    status: u8,
    printed: &'a [u8],
    told: &'a str,
}

/// How a run ends that nothing disturbs.
fn undisturbed() -> End<'static> {
    End {
        status: 0,
        printed: PRINTED.as_bytes(),
        told: "",
    }
}

fn ends(rt: &impl Abort, end: End<'_>, status: u8, output: &[u8], errors: &[u8]) {
    assert_eq!(rt; status, end.status);
    assert_eq!(rt; output, end.printed);
    assert_eq!(rt; errors, end.told.as_bytes());
}

/// Runs the first schedule from a reader that fails once, where so many bytes are given.
fn reads(rt: &(impl Abort + AllocGlobal), cut: usize, kind: ErrorKind, end: End<'_>) {
    let reader = CutReader {
        text: FIRST.as_bytes(),
        at: 0,
        cut: Some(cut),
        kind,
    };
    let mut output = Vec::new(rt.alloc());
    let mut errors = Vec::new(rt.alloc());
    let status = simulate(rt.alloc(), reader, &mut output, &mut errors);
    ends(rt, end, status, &output, &errors);
}

/// Nothing is printed by a run whose reader fails.
fn reads_in_vain(rt: &(impl Abort + AllocGlobal), cut: usize, kind: ErrorKind) {
    let end = End {
        status: 2,
        printed: &[],
        told: "read failed\n",
    };
    reads(rt, cut, kind, end);
}

#[test]
fn each_read_that_fails_is_told(rt: HostRuntime) {
    for cut in 0..=FIRST.len() {
        reads_in_vain(&rt, cut, ErrorKind::BrokenPipe);
    }
    // a reader that runs out of memory is a failed read too
    reads_in_vain(&rt, 10, ErrorKind::OutOfMemory);
}

#[test]
fn a_read_that_is_interrupted_is_made_again(rt: HostRuntime) {
    for cut in 0..=FIRST.len() {
        reads(&rt, cut, ErrorKind::Interrupted, undisturbed());
    }
}

/// Runs the first schedule into a writer that fails once, where it has taken so many bytes.
fn writes(rt: &(impl Abort + AllocGlobal), cut: usize, kind: Option<ErrorKind>, end: End<'_>) {
    let mut output = Vec::new(rt.alloc());
    let mut errors = Vec::new(rt.alloc());
    let writer = CutWriter {
        taken: &mut output,
        cut: Some(cut),
        kind,
    };
    let status = simulate(rt.alloc(), FIRST.as_bytes(), writer, &mut errors);
    ends(rt, end, status, &output, &errors);
}

/// What a writer has taken before it fails stays.
fn writes_a_part(rt: &(impl Abort + AllocGlobal), cut: usize, kind: Option<ErrorKind>)
    requires { cut ≤ length PRINTED.now }
{
    let end = End {
        status: 2,
        printed: &PRINTED.as_bytes()[..cut],
        told: "write failed\n",
    };
    writes(rt, cut, kind, end);
}

#[test]
fn each_write_that_fails_is_told(rt: HostRuntime) {
    for cut in 0..PRINTED.len() {
        writes_a_part(&rt, cut, Some(ErrorKind::BrokenPipe));
    }
    // a writer that takes nothing
    writes_a_part(&rt, 0, None);
    writes_a_part(&rt, 20, None);
}

#[test]
fn a_write_that_is_interrupted_is_made_again(rt: HostRuntime) {
    for cut in 0..PRINTED.len() {
        writes(&rt, cut, Some(ErrorKind::Interrupted), undisturbed());
    }
}

/// What a schedule without voters is answered.
const REFUSED: &str = "W3\n";

/// Runs it with a writer of errors that fails once, where it has taken so many bytes: these stay, and so does the status.
fn refuses_in_part(rt: &(impl Abort + AllocGlobal), cut: usize)
    requires { cut ≤ length REFUSED.now }
{
    let mut output = Vec::new(rt.alloc());
    let mut errors = Vec::new(rt.alloc());
    let writer = CutWriter {
        taken: &mut errors,
        cut: Some(cut),
        kind: Some(ErrorKind::BrokenPipe),
    };
    let status = simulate(rt.alloc(), b"nodes 1\n".as_slice(), &mut output, writer);
    assert_eq!(rt; status, 1);
    assert_eq!(rt; output.len(), 0);
    assert_eq!(rt; errors.as_slice(), &REFUSED.as_bytes()[..cut]);
}

#[test]
fn errors_that_cannot_be_told_keep_their_status(rt: HostRuntime) {
    for cut in 0..REFUSED.len() {
        refuses_in_part(&rt, cut);
    }
}

#[test]
fn streams_know_whether_their_last_call_failed(rt: HostRuntime) {
    let mut input = Tracked::new(CutReader {
        text: FIRST.as_bytes(),
        at: 0,
        cut: Some(10),
        kind: ErrorKind::BrokenPipe,
    });
    let mut output = Tracked::new(Vec::new(rt.alloc()));
    let mut errors = Vec::new(rt.alloc());
    let (status, told) = simulate_into(rt.alloc(), &mut input, &mut output, &mut errors);
    assert!(rt; status == 2 && told.is_ok());
    assert!(rt; input.has_failed() && !output.has_failed());
    assert_eq!(rt; output.into_inner().len(), 0);
}

/// A schedule is that of the first run of one voter, at 30.
fn is_first(rt: &impl Abort, schedule: &Schedule) {
    assert_eq!(rt; schedule.nodes.as_slice(), [1].as_slice());
    assert!(rt; schedule.membership.is_voter(&1));
    let init = Event {
        kind: EventKind::Init(1),
        at: Some(30),
        stop: None,
    };
    let step = Numbered {
        line: 3,
        step: Step::Happens(init),
    };
    assert_eq!(rt; schedule.steps.as_slice(), [step].as_slice());
}

/// A report is printed as that of the first run.
fn prints_first(rt: &impl Abort, alloc: Global, report: &Report) -> Result<(), Fail> {
    let mut output = Vec::new(alloc);
    print_report(Language::First, report, &mut output)?;
    assert_eq!(rt; output.as_slice(), PRINTED.as_bytes());
    Ok(())
}

/// Nothing was sent, answered or installed.
fn is_alone(rt: &impl Abort, report: &Report) {
    assert!(rt; report.messages().is_empty());
    assert!(rt; report.answers().is_empty());
    assert!(rt; report.installed().is_empty());
}

/// Node 1 began to lead with the first entry of this log.
fn has_led(rt: &impl Abort, report: &Report, log: &[Entry]) -> Result<(), Fail> {
    assert_eq!(rt; report.established_len(), 1);
    let established = report.established(0).ok_or("no leader")?;
    assert_eq!(rt; established.leader_id, LeaderId::new(1, 1));
    assert!(rt; established.log == log.get(..1).ok_or("no log")?);
    Ok(())
}

/// Node 1 has executed this log.
fn has_executed(rt: &impl Abort, executed: &[Executed], log: &[Entry]) {
    assert_eq!(rt; executed.len(), log.len());
    for (one, entry) in executed.iter().zip(log) {
        assert!(rt; one.node == 1 && one.entry == *entry);
    }
}

/// Node 1 has led, decided two entries, and executed them.
fn has_decided(rt: &impl Abort, report: &Report) -> Result<(), Fail> {
    assert_eq!(rt; report.decided_len(), 1);
    let decided = report.decided(0).ok_or("no commit")?;
    assert_eq!(rt; decided.log_id, LogId::new(LeaderId::new(1, 1), 1));
    assert_eq!(rt; decided.log.len(), 2);
    has_led(rt, report, decided.log)?;
    has_executed(rt, report.executed(), decided.log);
    Ok(())
}

/// A report is that of the first run.
fn is_first_report(rt: &impl Abort, alloc: Global, report: &Report) -> Result<(), Fail> {
    is_alone(rt, report);
    has_decided(rt, report)?;
    prints_first(rt, alloc, report)
}

/// The messages to a node have these numbers.
fn numbers(rt: &impl Abort, world: &World, id: u64, wanted: &[u64]) {
    let mut numbers = world.messages_to(id);
    for number in wanted {
        assert_eq!(rt; numbers.next(), Some(*number), "{id}");
    }
    assert_eq!(rt; numbers.next(), None, "{id}");
}

/// The messages of an election among three.
fn numbers_messages(rt: &impl Abort, world: &World) {
    assert_eq!(rt; world.messages().len(), 9);
    numbers(rt, world, 1, &[3, 6, 9]);
    numbers(rt, world, 2, &[1, 4, 7]);
    numbers(rt, world, 3, &[2, 5, 8]);
    numbers(rt, world, 9, &[]);
}

/// The world of an election among three shows its settings, its nodes and its events.
fn shows_itself(rt: &impl Abort, world: &World) -> Result<(), Fail> {
    assert_eq!(rt; world.given().ids.as_slice(), [1, 2, 3].as_slice());
    assert_eq!(rt; world.nodes().len(), 3);
    assert_eq!(rt; world.events().len(), 6);
    let second = world.node(2).ok_or("no node 2")?;
    assert_eq!(rt; second.id(), 2);
    assert!(rt; world.node(9).is_none());
    Ok(())
}

/// What is asked of a world and its report.
#[derive(Clone, Copy)]
enum Asked {
    First,
    Numbers,
}

fn answers(
    rt: &impl Abort,
    alloc: Global,
    world: &World,
    report: &Report,
    asked: Asked,
) -> Result<(), Fail> {
    match asked {
        Asked::First => is_first_report(rt, alloc, report)?,
        Asked::Numbers => {
            numbers_messages(rt, world);
            shows_itself(rt, world)?;
        }
    }
    Ok(())
}

/// Runs a schedule: the owner of its world.
fn runs(rt: &impl Abort, alloc: Global, schedule: Schedule, asked: Asked) -> Result<(), Fail> {
    let Schedule {
        language: _,
        nodes,
        membership,
        settings,
        steps,
    } = schedule;
    let mut world = World::new(alloc, &nodes, membership, settings)?;
    let (report, unmet) = run_steps(&mut world, &steps)?;
    assert!(rt; unmet.is_none());
    answers(rt, alloc, &world, &report, asked)
}

#[test]
fn the_parts_of_a_simulation_fit_together(rt: HostRuntime) -> Result<(), Fail> {
    let schedule = parse_schedule(rt.alloc(), "nodes 1\nvoters 1\ninit 1 at 30")?;
    is_first(&rt, &schedule);
    runs(&rt, rt.alloc(), schedule, Asked::First)
}

/// Node 1 of three is elected and answered by both.
const ELECTION: &str =
    "nodes 1 2 3\nvoters 1 2 3\ninit 1\ndeliver 1\ndeliver 3\ndeliver 4\ndeliver 6\ndeliver 7";

#[test]
fn a_world_numbers_the_messages_to_each_node(rt: HostRuntime) -> Result<(), Fail> {
    let schedule = parse_schedule(rt.alloc(), ELECTION)?;
    runs(&rt, rt.alloc(), schedule, Asked::Numbers)
}
