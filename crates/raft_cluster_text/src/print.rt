//! What comes of a text, as a text that plays the same way: each action, what comes of it as a comment behind it, and
//! what leaves then as comments below it.

use crate::entries::Entries;
use crate::judge::Verdict;
use raft_answers::{Answer, Token};
use raft_cluster::{Action, Answered, Cluster, Comes, Installed, Machine, Sent, Told};
use raft_node::record::Executed;
use raft_state::Membership;
use raft_store::Payload;
use raft_world::{Agreement, print_payload};
use std::io::{self, Write};

/// How much has left servers.
#[derive(Clone, Copy, PartialEq, Eq, Debug)]
pub struct Counts {
    sent: usize,
    executed: usize,
    installed: usize,
    answered: usize,
}

/// How much has left a cluster's servers.
pub fn count(cluster: &Cluster<Entries>) -> Counts {
    let told = cluster.told();
    Counts {
        sent: cluster.network().sent().len(),
        executed: told.executed.len(),
        installed: told.installed.len(),
        answered: told.answered.len(),
    }
}

/// The items behind the first ones.
fn behind<T>(items: &[T], count: usize) -> &[T] {
    items.get(count..).unwrap_or(items)
}

/// Prints the lines of a text's head: those before this one, counted from 1, without comments.
pub fn print_head<W: Write>(text: &str, body: u64, out: &mut W) -> io::Result<()> {
    let mut number = 0u64;
    for line in text.split('\n') {
        number = number.saturating_add(1);
        if number < body && !line.is_empty() && !line.starts_with('#') {
            writeln!(out, "{line}")?;
        }
    }
    Ok(())
}

fn print_sent<W: Write>(
    cluster: &Cluster<Entries>,
    number: usize,
    sent: &Sent,
    out: &mut W,
) -> io::Result<()> {
    let from = sent.from;
    let to = sent.to;
    let kind = sent.kind::<Entries>(cluster.allocator());
    writeln!(out, "# frame {number}: {from}>{to} {kind}")
}

fn print_members<W: Write>(members: &Membership<u64, ()>, out: &mut W) -> io::Result<()> {
    write!(out, "members")?;
    for group in members.groups() {
        write!(out, " {:?}", group.as_slice())?;
    }
    match members.learner_ids() {
        Ok(learners) if !learners.is_empty() => write!(out, " learners {:?}", learners.as_slice()),
        _ => Ok(()),
    }
}

fn print_executed<W: Write>(executed: &Executed, out: &mut W) -> io::Result<()> {
    let node = executed.node;
    let log_id = executed.entry.log_id;
    write!(out, "# {node} executes {log_id}: ")?;
    match &executed.entry.payload {
        Payload::Membership(members) => print_members(members, out)?,
        payload => print_payload(payload, out)?,
    }
    writeln!(out, "")
}

fn print_installed<W: Write>(installed: &Installed<Entries>, out: &mut W) -> io::Result<()> {
    let node = installed.node;
    let count = installed.snapshot.end();
    writeln!(out, "# {node} installs {count} entries")
}

fn print_answered<W: Write>(answered: &Answered, out: &mut W) -> io::Result<()> {
    let node = answered.node;
    let Token(token) = answered.reply.token;
    write!(out, "# {node} answers {token}: ")?;
    match answered.reply.answer {
        Answer::Ok { index } => writeln!(out, "ok at {index}"),
        Answer::Failed => writeln!(out, "failed"),
        Answer::NotLeader {
            leader: Some(leader),
        } => writeln!(out, "{leader} leads"),
        Answer::NotLeader { leader: None } => writeln!(out, "no leader"),
        Answer::Unknown => writeln!(out, "unknown"),
    }
}

fn print_all_sent<W: Write>(
    cluster: &Cluster<Entries>,
    before: usize,
    out: &mut W,
) -> io::Result<()> {
    let mut number = before;
    for sent in behind(cluster.network().sent(), before) {
        number = number.saturating_add(1);
        print_sent(cluster, number, sent, out)?;
    }
    Ok(())
}

/// What clients are told.
#[derive(Clone, Copy)]
enum News<'a> {
    Executed(&'a Executed),
    Installed(&'a Installed<Entries>),
    Answered(&'a Answered),
}

/// What clients were told next, behind so much of it.
fn next_news(told: &Told<Entries>, counts: Counts) -> Option<News<'_>> {
    if let Some(installed) = told.installed.get(counts.installed)
        && installed.executed <= counts.executed
        && installed.answered <= counts.answered
    {
        return Some(News::Installed(installed));
    }
    if let Some(answered) = told.answered.get(counts.answered)
        && answered.after <= counts.executed
    {
        return Some(News::Answered(answered));
    }
    let executed = told.executed.get(counts.executed)?;
    Some(News::Executed(executed))
}

/// How much it is with the next.
fn count_next(news: News<'_>, counts: Counts) -> Counts {
    match news {
        News::Executed(_) => Counts {
            executed: counts.executed.saturating_add(1),
            ..counts
        },
        News::Installed(_) => Counts {
            installed: counts.installed.saturating_add(1),
            ..counts
        },
        News::Answered(_) => Counts {
            answered: counts.answered.saturating_add(1),
            ..counts
        },
    }
}

fn print_news<W: Write>(news: News<'_>, out: &mut W) -> io::Result<()> {
    match news {
        News::Executed(executed) => print_executed(executed, out),
        News::Installed(installed) => print_installed(installed, out),
        News::Answered(answered) => print_answered(answered, out),
    }
}

/// Prints what clients are told since then, in the order in which it happened.
fn print_all_told<W: Write>(told: &Told<Entries>, before: Counts, out: &mut W) -> io::Result<()> {
    let mut printed = before;
    for _ in 0..u64::MAX {
        let Some(news) = next_news(told, printed) else {
            break;
        };
        print_news(news, out)?;
        printed = count_next(news, printed);
    }
    Ok(())
}

/// Whether the frames of a line are printed: those of one that stands for many are not.
fn shows_frames(action: &Action) -> bool {
    match action {
        Action::Run(_) | Action::DeliverAll | Action::Load { .. } => false,
        _ => true,
    }
}

/// Prints an action, what came of it, and what has left since then.
pub fn print_action<W: Write>(
    action: &Action,
    comes: &Comes,
    cluster: &Cluster<Entries>,
    before: Counts,
    out: &mut W,
) -> io::Result<()> {
    match comes {
        Comes::Done => writeln!(out, "{action}")?,
        _ => writeln!(out, "{action} # {comes}")?,
    }
    if shows_frames(action) {
        print_all_sent(cluster, before.sent, out)?;
    }
    match action {
        Action::Load { .. } => Ok(()),
        _ => print_all_told(cluster.told(), before, out),
    }
}

fn print_machine<W: Write>(machine: &Machine<Entries>, out: &mut W) -> io::Result<()> {
    let id = machine.id();
    let len = machine.disk_len();
    if machine.is_open() {
        writeln!(out, "# server {id}: {len} bytes on disk")
    } else {
        writeln!(out, "# server {id}: {len} bytes on disk, not open")
    }
}

/// Prints whether what clients were told is true.
pub fn print_verdict<W: Write>(
    agreement: Agreement,
    verdict: Verdict,
    out: &mut W,
) -> io::Result<()> {
    match agreement {
        Agreement::Agree => writeln!(out, "{verdict}"),
        Agreement::Differ(index) => writeln!(out, "disagree {index}"),
    }
}

/// Prints each server's disk, and whether what clients were told is true.
pub fn print_end<W: Write>(
    cluster: &Cluster<Entries>,
    agreement: Agreement,
    verdict: Verdict,
    out: &mut W,
) -> io::Result<()> {
    for machine in cluster.machines() {
        print_machine(machine, out)?;
    }
    write!(out, "# ")?;
    print_verdict(agreement, verdict, out)
}
