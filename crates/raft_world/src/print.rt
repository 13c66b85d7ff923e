//! The report of a world's events, as text.

ghost use Rattle.std.specs.Prelude.{◌≡◌, ◌++◌, IfOk, OnOk, None, codes, map};
ghost use Rattle.std.specs.Fmt.{decimal};
ghost use Rattle.std.specs.Io.KnownBytes.{Appends};
ghost use Rattle.std.specs.List.Sorted.{IsSorted};
ghost use Rattle.raft_world.specs.Printed.{reason_text, told_event, past_text, pasts_text, taken_of, Ordered, taken_cmp, payload_text, next_text};
ghost use Rattle.raft_world.specs.Printed.{lines_text, verdict_text, Prints};

use crate::agreement::{Agreement, check_agreement};
use crate::report::Report;
use raft_schedule::event::{AppliedEvent, Event, Outcome, SkipReason};
use raft_schedule::schedule::Language;
use raft_store::{Entry, Hex, Payload, Value};
use std::alloc::AllocError;
use std::io::{self, Write};
use std::marker::Model;

/// Why an event is skipped, as a report says it.
pub fn reason_text(reason: SkipReason) -> &'static str
    ensures { result.now ≡ reason_text reason }
{
    match reason {
        SkipReason::NoMessage => "no-message",
        SkipReason::NotRunning => "not-running",
        SkipReason::HasLeader => "has-leader",
        SkipReason::NotVoter => "not-voter",
        SkipReason::NotMember => "not-member",
        SkipReason::StaleSession => "stale-session",
        SkipReason::NotOwnVote => "not-own-vote",
        SkipReason::NothingInFlight => "nothing-in-flight",
        SkipReason::NothingBuilt => "nothing-built",
        SkipReason::MembershipPending => "membership-pending",
        SkipReason::BlankPending => "blank-pending",
        SkipReason::BadGroups => "bad-groups",
        SkipReason::NoSharedGroup => "no-shared-group",
        SkipReason::BadLearners => "bad-learners",
        SkipReason::NotLeader => "not-leader",
    }
}

/// Prints an event's number, and in the second language the event.
fn print_number<W: Write>(
    language: Language,
    number: u64,
    event: &Event,
    output: &mut W,
) -> io::Result<()>
    ensures { OnOk result (Appends (W.contents output.old) (W.contents output.new) (decimal number ++ codes " " ++ told_event language event.now)) }
{
    match language {
        Language::First => write!(output, "{number} "),
        Language::Second => write!(output, "{number} {event} "),
    }
}

fn print_past<W: Write>(
    language: Language,
    number: u64,
    past: &AppliedEvent,
    output: &mut W,
) -> io::Result<()>
    ensures { OnOk result (Appends (W.contents output.old) (W.contents output.new) (past_text language number past.now)) }
{
    print_number(language, number, &past.event, output)?;
    let sent = past.sent;
    match past.outcome {
        Outcome::Done => writeln!(output, "done sent {sent}"),
        Outcome::Refused(refusal) => writeln!(output, "refused {refusal} sent {sent}"),
        Outcome::Stopped => writeln!(output, "stopped sent {sent}"),
        Outcome::Skipped(reason) => {
            let reason = reason_text(reason);
            writeln!(output, "skipped {reason} sent {sent}")
        }
    }
}

/// A line for each event.
fn print_pasts<W: Write>(
    language: Language,
    pasts: &[AppliedEvent],
    output: &mut W,
) -> io::Result<()>
    ensures { OnOk result (Appends (W.contents output.old) (W.contents output.new) (pasts_text language 0 pasts.now)) }
{
    let mut number = 0u64;
    for past in pasts {
        number = number.saturating_add(1);
        print_past(language, number, past, output)?;
    }
    Ok(())
}

/// An entry that a node executed or installed.
#[derive(Drop)]
struct Line<'a> {
    node: u64,
    entry: &'a Entry,
}

impl<'a> Model for Line<'a> {
    ghost use Rattle.raft_world.specs.Printed.{Taken};

    ghost Value = { Taken };

    ghost view = { λ s. record { node = s.node; entry = s.entry.now } };
}

/// Appends a line for each of these entries.
fn push_lines<'a>(
    node: u64,
    entries: &'a [Entry],
    lines: &mut Vec<Line<'a>>,
) -> Result<(), AllocError>
    ensures { OnOk result (lines.new.items ≡ lines.old.items ++ map (λ e. record { node = node; entry = e }) entries.now) }
{
    for entry in entries {
        lines.push(Line { node, entry })?;
    }
    Ok(())
}

/// A line for each entry that a node executed or installed, in the order of the records.
fn all_lines<'a>(report: &'a Report) -> Result<Vec<Line<'a>>, AllocError>
    ensures { IfOk result (λ lines. lines.items ≡ taken_of report.now) }
{
    let mut lines = Vec::new(report.alloc);
    for executed in report.executed() {
        lines.push(Line {
            node: executed.node,
            entry: &executed.entry,
        })?;
    }
    for installed in report.installed() {
        push_lines(installed.node, installed.entries.as_slice(), &mut lines)?;
    }
    Ok(lines)
}

/// The same by index and node; of the same index and node the first comes first.
fn lines<'a>(report: &'a Report) -> Result<Vec<Line<'a>>, AllocError>
    ensures { IfOk result (λ lines. Ordered (taken_of report.now) lines.items) }
{
    let mut lines = all_lines(report)?;
    lines.sort_by_key(|line| (line.entry.log_id.index, line.node))?;
    Ok(lines)
}

/// Prints the payload of an entry.
pub fn print_payload<W: Write>(payload: &Payload, output: &mut W) -> io::Result<()>
    ensures { OnOk result (Appends (W.contents output.old) (W.contents output.new) (payload_text payload.now)) }
{
    match payload {
        Payload::Blank => write!(output, "blank"),
        Payload::Value(Value::Number(value)) => write!(output, "value {value}"),
        Payload::Value(Value::Bytes(bytes)) => {
            let hex = Hex(bytes.as_slice());
            write!(output, "bytes {hex}")
        }
        Payload::Membership(_) => write!(output, "membership"),
    }
}

/// Prints a line up to its first node.
fn print_first<W: Write>(line: &Line, output: &mut W) -> io::Result<()>
    ensures { OnOk result (Appends (W.contents output.old) (W.contents output.new) (next_text None line.now)) }
{
    let index = line.entry.log_id.index;
    let log_id = line.entry.log_id;
    let node = line.node;
    write!(output, "entry {index} {log_id} ")?;
    print_payload(&line.entry.payload, output)?;
    write!(output, " nodes {node}")
}

/// Prints what comes after the line before, of this index and node, if any.
fn print_next<W: Write>(before: Option<(u64, u64)>, line: &Line, output: &mut W) -> io::Result<()>
    ensures { OnOk result (Appends (W.contents output.old) (W.contents output.new) (next_text before line.now)) }
{
    let Some((index, last)) = before else {
        return print_first(line, output);
    };
    if line.entry.log_id.index != index {
        writeln!(output, "")?;
        return print_first(line, output);
    }
    let node = line.node;
    if node == last {
        return Ok(());
    }
    write!(output, " {node}")
}

/// Prints one line for each index, with the least node's entry and the nodes, each once.
fn print_lines<W: Write>(lines: &[Line], output: &mut W) -> io::Result<()>
    requires { IsSorted taken_cmp lines.now }
    ensures { OnOk result (Appends (W.contents output.old) (W.contents output.new) (lines_text lines.now)) }
{
    let mut before = None;
    for line in lines {
        print_next(before, line, output)?;
        before = Some((line.entry.log_id.index, line.node));
    }
    if before.is_some() {
        writeln!(output, "")?;
    }
    Ok(())
}

fn print_agreement<W: Write>(agreement: Agreement, output: &mut W) -> io::Result<()>
    ensures { OnOk result (Appends (W.contents output.old) (W.contents output.new) (verdict_text agreement)) }
{
    match agreement {
        Agreement::Agree => writeln!(output, "agree"),
        Agreement::Differ(index) => writeln!(output, "differ {index}"),
    }
}

/// Writes a line for each event, one for each index that a node executed or installed, and whether the nodes agree. In
/// the second language the event stands in its line.
pub fn print_report<W: Write>(language: Language, report: &Report, output: &mut W) -> io::Result<()>
    ensures { OnOk result (Prints language report.now (W.contents output.old) (W.contents output.new)) }
{
    let lines = lines(report)?;
    print_pasts(language, report.past(), output)?;
    print_lines(&lines, output)?;
    print_agreement(check_agreement(report), output)
}
