//! Whole texts, from a reader to two writers.

ghost use Rattle.std.specs.Prelude.{◌≡◌, IfOk, OnOk};
ghost use Rattle.raft_node.specs.Safety.{entries_of};
ghost use Rattle.raft_world.specs.Agreed.{Checks};
ghost use Rattle.raft_cluster_text.specs.Entries.{HoldsAt, installed_told};
ghost use Rattle.raft_cluster_text.specs.Laws.{AgreesUndamaged};

use crate::entries::Entries;
use crate::error::TextError;
use crate::head::draw_head;
use crate::judge::{Verdict, verdict_of};
use crate::plan::{Plan, read_plan, split_words};
use crate::print::{count, print_action, print_end, print_head, print_verdict};
use crate::random::Drawer;
use raft_cluster::{Action, Cluster, Comes, Dice, Told, acknowledged};
use raft_node::record::Installed;
use raft_schedule::schedule::parse_number;
use raft_state::LeaderId;
use raft_store::Payload;
use raft_world::{Agreement, Tracked, check_entries, read_bytes, write_text};
use std::alloc::{AllocError, Global};
use std::io::{Read, Write};

/// What is shown of actions at random.
#[derive(Clone, Copy, PartialEq, Eq, Debug)]
enum Shown {
    /// What comes of each action.
    All,
    /// The seeds of which something is wrong.
    Wrong,
    /// These, and how much happened.
    Counts,
}

/// How many actions to draw, from which seeds.
#[derive(Clone, Copy, PartialEq, Eq, Debug)]
struct Draws {
    seed: u64,
    count: u64,
    seeds: u64,
    shown: Shown,
}

fn draws_from(seed: &str, count: &str, seeds: &str, shown: Shown) -> Option<Draws> {
    Some(Draws {
        seed: parse_number(seed)?,
        count: parse_number(count)?,
        seeds: parse_number(seeds)?,
        shown,
    })
}

/// The draws that a text asks for: it is one line then.
fn draws_of(alloc: Global, text: &str) -> Result<Option<Draws>, TextError> {
    let line = text.strip_suffix('\n').unwrap_or(text);
    let words = split_words(alloc, line)?;
    Ok(match words.as_slice() {
        ["random", seed, count] => draws_from(seed, count, "1", Shown::All),
        ["random", seed, count, seeds] => draws_from(seed, count, seeds, Shown::Wrong),
        ["count", seed, count, seeds] => draws_from(seed, count, seeds, Shown::Counts),
        _ => None,
    })
}

/// What came of a text.
#[derive(Clone, Copy, PartialEq, Eq, Debug)]
pub struct Played {
    /// Whether all entries agree that clients were told of.
    pub agreement: Agreement,
    /// What else is wrong in what clients were told.
    pub verdict: Verdict,
    /// Whether a byte on a disk was changed by hand, or a packet of a stranger was taken.
    pub damaged: bool,
}

/// Plays an action, and prints what comes of it.
fn play(
    cluster: &mut Cluster<Entries>,
    action: &Action,
    out: &mut Vec<u8>,
) -> Result<Comes, TextError>
    ensures { OnOk result (HoldsAt cluster.old → HoldsAt cluster.new) }
{
    let before = count(cluster);
    let comes = cluster.play(action)?;
    print_action(action, &comes, cluster, before, out)?;
    Ok(comes)
}

/// The snapshots that servers installed, as the entries that they are of.
fn installed_of(alloc: Global, told: &Told<Entries>) -> Result<Vec<Installed>, AllocError>
    ensures { IfOk result (λ installed. installed.items ≡ installed_told told.now) }
{
    let mut all = Vec::with_capacity(alloc, told.installed.len())?;
    for installed in &told.installed {
        let entries = installed.snapshot.state().copy_entries()?;
        all.push(Installed {
            node: installed.node,
            entries,
        })?;
    }
    Ok(all)
}

/// Whether all entries agree that clients were told of.
fn agreement_of(cluster: &Cluster<Entries>) -> Result<Agreement, TextError>
    ensures { IfOk result (λ agreement. Checks (entries_of cluster.now.told.executed.items (installed_told cluster.now.told)) agreement) }
{
    let told = cluster.told();
    let installed = installed_of(cluster.allocator(), told)?;
    Ok(check_entries(cluster.allocator(), &told.executed, &installed)?)
}

/// Whether what clients were told is true.
fn check(cluster: &Cluster<Entries>) -> Result<Played, TextError>
    ensures checks { IfOk result (λ played. Checks (entries_of cluster.now.told.executed.items (installed_told cluster.now.told)) played.agreement) }
    ensures agrees { IfOk result (λ played. HoldsAt cluster.now → AgreesUndamaged played) }
{
    let agreement = agreement_of(cluster)?;
    let verdict = verdict_of(cluster.allocator(), cluster.told())?;
    Ok(Played {
        agreement,
        verdict,
        damaged: cluster.is_damaged(),
    })
}

/// Prints what a cluster comes to, and whether what was told is true.
fn end(cluster: &Cluster<Entries>, out: &mut Vec<u8>) -> Result<Played, TextError>
    ensures { IfOk result (λ played. HoldsAt cluster.now → AgreesUndamaged played) }
{
    let played = check(cluster)?;
    print_end(cluster, played.agreement, played.verdict, out)?;
    Ok(played)
}

/// Plays actions.
fn play_all(
    cluster: &mut Cluster<Entries>,
    actions: &[Action],
    out: &mut Vec<u8>,
) -> Result<(), TextError>
    ensures { OnOk result (HoldsAt cluster.old → HoldsAt cluster.new) }
{
    'actions: for action in actions {
        play(cluster, action, out)?;
    }
    Ok(())
}

/// Plays a text's actions.
fn run_plan(alloc: Global, text: &str, plan: Plan, out: &mut Vec<u8>) -> Result<Played, TextError>
    ensures { IfOk result (λ played. AgreesUndamaged played) }
{
    print_head(text, plan.body, out)?;
    let mut cluster = Cluster::new(alloc, plan.given, plan.config)?;
    play_all(&mut cluster, &plan.actions, out)?;
    end(&cluster, out)
}

/// Draws so many actions, and plays each.
fn play_drawn(
    cluster: &mut Cluster<Entries>,
    drawer: &mut Drawer,
    count: u64,
    out: &mut Vec<u8>,
) -> Result<(), TextError>
    ensures { OnOk result (HoldsAt cluster.old → HoldsAt cluster.new) }
{
    'draws: for _ in 0..count {
        let action = drawer.draw(cluster)?;
        let comes = play(cluster, &action, out)?;
        drawer.learn(&comes);
    }
    Ok(())
}

/// Plays actions at random, which are printed.
fn run_draws(alloc: Global, seed: u64, count: u64, out: &mut Vec<u8>) -> Result<Played, TextError>
    ensures { IfOk result (λ played. AgreesUndamaged played) }
{
    let mut dice = Dice::new(seed);
    let head = draw_head(alloc, &mut dice)?;
    let plan = read_plan(alloc, head.as_str())?;
    print_head(head.as_str(), plan.body, out)?;
    let mut cluster = Cluster::new(alloc, plan.given, plan.config)?;
    let mut drawer = Drawer::new(alloc, dice)?;
    play_drawn(&mut cluster, &mut drawer, count, out)?;
    let last = drawer.last(&cluster)?;
    play_all(&mut cluster, &last, out)?;
    end(&cluster, out)
}

/// What came of runs at random.
#[derive(Clone, Copy, Default, Debug)]
struct Totals {
    elections: u64,
    acknowledged: u64,
    damaged: u64,
    /// The runs in which something is wrong, or no request was answered at the end.
    wrong: u64,
}

/// How many leaders were elected: each executes an entry of its own without a value.
fn count_elections(alloc: Global, told: &Told<Entries>) -> Result<u64, TextError> {
    let mut leaders: Vec<LeaderId<u64>> = Vec::new(alloc);
    for executed in &told.executed {
        if let Payload::Blank = executed.entry.payload {
            let leader = executed.entry.log_id.leader_id;
            if !leaders.contains(&leader) {
                leaders.push(leader)?;
            }
        }
    }
    Ok(leaders.len() as u64)
}

/// How many answers acknowledge a request, from this one on.
fn count_acknowledged(told: &Told<Entries>, first: usize) -> u64 {
    let mut count = 0u64;
    for answered in told.answered.get(first..).unwrap_or(&[]) {
        if acknowledged(&answered.reply.answer).is_some() {
            count = count.saturating_add(1);
        }
    }
    count
}

/// Plays actions at random, which aren't printed. How many answers clients had before the last ones.
fn play_quietly(
    cluster: &mut Cluster<Entries>,
    drawer: &mut Drawer,
    count: u64,
) -> Result<usize, TextError>
    ensures { OnOk result (HoldsAt cluster.old → HoldsAt cluster.new) }
{
    'draws: for _ in 0..count {
        let action = drawer.draw(cluster)?;
        let comes = cluster.play(&action)?;
        drawer.learn(&comes);
    }
    let before = cluster.told().answered.len();
    let last = drawer.last(cluster)?;
    'last: for action in &last {
        cluster.play(action)?;
    }
    Ok(before)
}

/// What a run adds to the totals.
fn add_to(alloc: Global, told: &Told<Entries>, totals: &mut Totals) -> Result<(), TextError> {
    let elections = count_elections(alloc, told)?;
    totals.elections = totals.elections.saturating_add(elections);
    totals.acknowledged = totals
        .acknowledged
        .saturating_add(count_acknowledged(told, 0));
    Ok(())
}

/// What came of a run at random, and whether a request was acknowledged at its end.
#[derive(Clone, Copy, Debug)]
struct Drawn {
    played: Played,
    is_answered: bool,
}

/// A run at random, which isn't printed.
fn count_draws(
    alloc: Global,
    seed: u64,
    count: u64,
    totals: &mut Totals,
) -> Result<Drawn, TextError> {
    let mut dice = Dice::new(seed);
    let head = draw_head(alloc, &mut dice)?;
    let plan = read_plan(alloc, head.as_str())?;
    let mut cluster = Cluster::new(alloc, plan.given, plan.config)?;
    let mut drawer = Drawer::new(alloc, dice)?;
    let before = play_quietly(&mut cluster, &mut drawer, count)?;
    add_to(alloc, cluster.told(), totals)?;
    Ok(Drawn {
        played: check(&cluster)?,
        is_answered: count_acknowledged(cluster.told(), before) > 0,
    })
}

/// What came of two runs: of what is wrong, the later one's.
fn both(one: Played, other: Played) -> Played {
    Played {
        agreement: match other.agreement {
            Agreement::Agree => one.agreement,
            differ => differ,
        },
        verdict: match other.verdict {
            Verdict::True => one.verdict,
            wrong => wrong,
        },
        damaged: one.damaged || other.damaged,
    }
}

/// Whether what clients were told is true.
fn is_true(played: Played) -> bool {
    played.agreement == Agreement::Agree && played.verdict == Verdict::True
}

/// Prints a run in which something is wrong, and counts it. One with a damaged disk may come to nothing.
fn print_wrong(
    seed: u64,
    drawn: Drawn,
    totals: &mut Totals,
    out: &mut Vec<u8>,
) -> Result<(), TextError> {
    let Drawn {
        played,
        is_answered,
    } = drawn;
    if played.damaged {
        totals.damaged = totals.damaged.saturating_add(1);
    }
    if is_true(played) && (is_answered || played.damaged) {
        return Ok(());
    }
    totals.wrong = totals.wrong.saturating_add(1);
    write!(out, "seed {seed}: ")?;
    if is_true(played) {
        writeln!(out, "no request was answered")?;
        return Ok(());
    }
    print_verdict(played.agreement, played.verdict, out)?;
    Ok(())
}

/// Prints of how many seeds something is wrong, and how much happened.
fn print_totals(draws: Draws, totals: Totals, out: &mut Vec<u8>) -> Result<(), TextError> {
    let Totals {
        elections,
        acknowledged,
        damaged,
        wrong,
    } = totals;
    let seeds = draws.seeds;
    writeln!(out, "{wrong} of {seeds} seeds are wrong")?;
    if draws.shown == Shown::Counts {
        writeln!(
            out,
            "{elections} elections, {acknowledged} acknowledged, {damaged} damaged"
        )?;
    }
    Ok(())
}

/// Runs of several seeds: prints those in which something is wrong, and how much happened in all of them.
fn run_seeds(alloc: Global, draws: Draws, out: &mut Vec<u8>) -> Result<Played, TextError> {
    let mut totals = Totals::default();
    let mut all = Played {
        agreement: Agreement::Agree,
        verdict: Verdict::True,
        damaged: false,
    };
    'seeds: for number in 0..draws.seeds {
        let seed = draws.seed.saturating_add(number);
        let drawn = count_draws(alloc, seed, draws.count, &mut totals)?;
        print_wrong(seed, drawn, &mut totals, out)?;
        all = both(all, drawn.played);
    }
    print_totals(draws, totals, out)?;
    Ok(all)
}

/// Plays a text, and prints what comes of it: a text that plays the same way. Whatever the text says, clients are told of nothing that
/// differs (state machine safety, Raft paper, section 5.4.3), unless a byte of a disk is changed by hand or a packet of a stranger is
/// taken.
pub fn run_text(alloc: Global, text: &str, out: &mut Vec<u8>) -> Result<Played, TextError>
    ensures { IfOk result (λ played. AgreesUndamaged played) }
{
    match draws_of(alloc, text)? {
        Some(draws) => run_draws(alloc, draws.seed, draws.count, out),
        None => {
            let plan = read_plan(alloc, text)?;
            run_plan(alloc, text, plan, out)
        }
    }
}

/// Plays a text, or runs of many seeds.
fn run_any(alloc: Global, text: &str, out: &mut Vec<u8>) -> Result<Played, TextError> {
    match draws_of(alloc, text)? {
        Some(draws) if draws.shown != Shown::All => run_seeds(alloc, draws, out),
        _ => run_text(alloc, text, out),
    }
}

/// The line of a text, counted from 1, that these bytes of it reach.
fn line_of(bytes: &[u8]) -> u64 {
    (bytes.iter().filter(|byte| **byte == b'\n').count() as u64).saturating_add(1)
}

fn run_bytes(alloc: Global, bytes: &[u8], out: &mut Vec<u8>) -> Result<Played, TextError> {
    match str::from_utf8(bytes) {
        Ok(text) => run_any(alloc, text, out),
        Err(error) => Err(TextError::BadLine(line_of(&bytes[..error.valid_up_to()]))),
    }
}

fn try_simulate<R: Read, W: Write>(
    alloc: Global,
    input: &mut Tracked<R>,
    output: &mut Tracked<W>,
) -> Result<Played, TextError> {
    let bytes = read_bytes(alloc, input)?;
    let mut out = Vec::new(alloc);
    let played = run_bytes(alloc, &bytes, &mut out)?;
    write_text(output, &out)?;
    Ok(played)
}

/// The exit status of a text that was played.
fn status_of(played: Played) -> u8 {
    if is_true(played) { 0 } else { 3 }
}

/// Reads a text, plays it and writes what comes of it; answers the exit status.
///
/// The status is 0; or 1 for a text that is refused, with nothing on the output; or 2 for a read or a write that
/// failed; or 3 if what clients were told isn't true. The text of a refusal or a failure goes to `errors`, if that can be
/// written.
pub fn simulate<R: Read + Drop, W: Write + Drop, E: Write + Drop>(
    alloc: Global,
    input: R,
    output: W,
    errors: E,
) -> u8 {
    let mut input = Tracked::new(input);
    let mut output = Tracked::new(output);
    let mut errors = errors;
    match try_simulate(alloc, &mut input, &mut output) {
        Ok(played) => status_of(played),
        Err(error) => {
            let _told = writeln!(errors, "{error}");
            error.status()
        }
    }
}
