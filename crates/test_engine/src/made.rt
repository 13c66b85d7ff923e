//! Candidates, leaders and purges that are made by hand, beside the case's engine.
//!
//! - `made-candidate GROUPS LEARNERS VOTE LAST TIME NODE..`: a candidate, what each node's grant gives, and the leader that it
//!   becomes
//! - `made-leader VOTE ID..`: a leader of the voters 1, 2 and 3 and the learner 4, of whose log these ids are the ends
//! - `assign VOTE LAST COUNT|ID..`: the ids that such a leader gives to so many entries, which have the id 1-1-1 before, or
//!   to one, which has this id before
//! - `clock VOTE NODE=TIME@NOW..`: when a quorum has answered it, asked at a moment once a node has answered at a time
//! - `purge-end KEEP BATCH PURGED SNAPSHOT ID..`: up to where a log of these ids is to be purged

use crate::members::joint;
use crate::questions::show_granters;
use crate::show::{Answer, show_id, tell};
use crate::texts::write_entries;
use crate::types::{Item, Small, id};
use crate::words::{is_below_end, kept, log_id_of, log_ids, node_ids, optional_id, vote};
use raft_command::{EngineConfig, EngineOutput};
use raft_engine::{Candidate, Leader, LogHandler};
use raft_progress::Joint;
use raft_state::{LogId, RaftEntry, RaftState, Vote};
use test_cases::Sheet;

fn candidate(set: Joint<u64>, sheet: &mut Sheet<'_>) -> Option<Candidate<Small, Joint<u64>>> {
    let learners = node_ids(sheet);
    let asked = vote(sheet);
    let last = optional_id(sheet);
    let time = sheet.number();
    let made = Candidate::new(sheet.alloc(), time, asked, last, set, &learners);
    kept(made, sheet)
}

/// Whether a copy of the candidate is equal to it.
fn is_copied(asking: &Candidate<Small, Joint<u64>>, sheet: &mut Sheet<'_>) -> bool {
    match kept(asking.copy(), sheet) {
        Some(copy) => copy == *asking,
        None => false,
    }
}

/// What the candidate was made of, who is asked, and whether a copy is equal.
fn show_candidate(asking: &Candidate<Small, Joint<u64>>, sheet: &mut Sheet<'_>) {
    let vote = asking.vote_ref();
    let own = asking.progress().get(&1).copied();
    let learner = asking.progress().get(&4).is_some();
    let equal = is_copied(asking, sheet);
    sheet.put_line(format_args!(
        "vote {vote}, own {own:?}, asks the learner {learner}, copied {equal}"
    ));
    show_id("last", asking.last_log_id(), sheet);
}

/// A node grants a candidate.
pub fn grant(asking: &mut Candidate<Small, Joint<u64>>, node: u64, sheet: &mut Sheet<'_>) {
    let answer = asking.grant_by(&node);
    sheet.put_line(format_args!("{node}: {answer:?}"));
}

/// Whether a copy of the leader is equal to it.
fn leads_equal_copy(leader: &Leader<Small, Joint<u64>>, sheet: &mut Sheet<'_>) -> bool {
    match kept(leader.copy(), sheet) {
        Some(copy) => copy == *leader,
        None => false,
    }
}

/// What a candidate has made its leader of, who is followed, and whether a copy is equal.
fn show_made_leader(leader: &Leader<Small, Joint<u64>>, sheet: &mut Sheet<'_>) {
    let vote = leader.vote_ref();
    let noop = leader.noop_log_id();
    let follows = leader.progress.get(&4).is_some();
    let equal = leads_equal_copy(leader, sheet);
    sheet.put_line(format_args!(
        "leads {vote}, no-op {noop}, the learner {follows}, copied {equal}"
    ));
}

/// The leader that the candidate becomes.
fn become_leader(asking: Candidate<Small, Joint<u64>>, sheet: &mut Sheet<'_>) {
    if !is_below_end(asking.last_log_id()) {
        return sheet.fail("there is no index after the greatest one");
    }
    if let Some(leader) = kept(asking.into_leader(sheet.alloc()), sheet) {
        show_made_leader(&leader, sheet);
    }
}

/// The candidate, what each node's grant gives, and the candidate then.
fn ask_nodes(asking: &mut Candidate<Small, Joint<u64>>, sheet: &mut Sheet<'_>) {
    show_candidate(asking, sheet);
    show_granters(asking, sheet);
    for node in &sheet.words() {
        let node = sheet.number_of(node);
        grant(asking, node, sheet);
    }
    show_granters(asking, sheet);
    sheet.put_line(&*asking);
}

/// What a candidate is made of, and the nodes that grant it.
fn tell_candidate(sheet: &mut Sheet<'_>) {
    let Some(set) = joint(sheet.word(), sheet) else {
        return;
    };
    if let Some(mut asking) = candidate(set, sheet) {
        ask_nodes(&mut asking, sheet);
        become_leader(asking, sheet);
    }
}

fn leader(
    led: Vote<u64>,
    ends: &[LogId<u64>],
    sheet: &mut Sheet<'_>,
) -> Option<Leader<Small, Joint<u64>>> {
    if !is_below_end(ends.last().copied()) {
        sheet.fail("there is no index after the greatest one");
        return None;
    }
    let set = joint("1,2,3", sheet)?;
    kept(Leader::new(sheet.alloc(), led, set, &[4], ends), sheet)
}

fn show_leader(leader: &Leader<Small, Joint<u64>>, sheet: &mut Sheet<'_>) {
    let vote = leader.vote_ref();
    let noop = leader.noop_log_id();
    sheet.put_line(format_args!("vote {vote}, no-op {noop}"));
    show_id("last", leader.last_log_id(), sheet);
}

/// A made leader that is shown.
fn tell_leader(sheet: &mut Sheet<'_>) {
    let led = vote(sheet);
    let ends = log_ids(sheet);
    if let Some(leader) = leader(led, &ends, sheet) {
        show_leader(&leader, sheet);
    }
}

/// So many entries with an id.
fn with_id(count: u64, id: LogId<u64>, sheet: &mut Sheet<'_>) -> Vec<Item> {
    let mut entries = Vec::new(sheet.alloc());
    for _ in 0..count {
        sheet.check(entries.push(Item::new_blank(id)));
    }
    entries
}

/// So many entries that have the id 1-1-1, or one that has the given id.
fn unassigned(word: &str, sheet: &mut Sheet<'_>) -> Vec<Item> {
    if word.contains('-') {
        return with_id(1, log_id_of(word, sheet), sheet);
    }
    with_id(sheet.number_of(word), id(1, 1, 1), sheet)
}

fn assign_to(leader: &mut Leader<Small, Joint<u64>>, entries: &mut [Item], sheet: &mut Sheet<'_>) {
    let answer: Answer = leader.assign_log_ids(entries);
    tell(answer, sheet);
    sheet.put("entries");
    write_entries(entries, sheet);
    sheet.put_line("");
    show_id("last", leader.last_log_id(), sheet);
}

fn assign_all(leader: &mut Leader<Small, Joint<u64>>, sheet: &mut Sheet<'_>) {
    for word in &sheet.words() {
        assign_to(leader, &mut unassigned(word, sheet), sheet);
    }
}

/// A made leader that gives ids to entries.
fn tell_assigned(sheet: &mut Sheet<'_>) {
    let led = vote(sheet);
    let made = match optional_id(sheet) {
        Some(last) => leader(led, &[last], sheet),
        None => leader(led, &[], sheet),
    };
    if let Some(mut leader) = made {
        assign_all(&mut leader, sheet);
    }
}

/// A node has answered at a time, as `2=100@150`, and the leader is asked at the moment after the `@`.
fn answered(leader: &mut Leader<Small, Joint<u64>>, word: &str, sheet: &mut Sheet<'_>) {
    let (node, times) = word.split_once('=').unwrap_or((word, ""));
    let (time, now) = times.split_once('@').unwrap_or((times, ""));
    let node = sheet.number_of(node);
    let time = Some(sheet.number_of(time));
    let _ = leader.clock_progress.increase_to(&node, time);
    let acknowledged = leader.last_quorum_acked_time(sheet.number_of(now));
    sheet.put_line(format_args!("at {now}: {acknowledged:?}"));
}

fn clock(leader: &mut Leader<Small, Joint<u64>>, sheet: &mut Sheet<'_>) {
    for word in &sheet.words() {
        answered(leader, word, sheet);
    }
}

/// A made leader that is answered.
fn tell_clock(sheet: &mut Sheet<'_>) {
    let led = vote(sheet);
    if let Some(mut leader) = leader(led, &[], sheet) {
        clock(&mut leader, sheet);
    }
}

/// A state that has purged up to an id, has a snapshot up to one, and holds ids.
fn state(sheet: &mut Sheet<'_>) -> RaftState<u64, u64> {
    let mut state = RaftState::empty(sheet.alloc());
    let purged = optional_id(sheet);
    state.snap.last_log_id = optional_id(sheet);
    let ids = log_ids(sheet);
    sheet.check(state.ids.extend(&ids));
    if let Some(id) = purged {
        sheet.check(state.purge_log(&id));
    }
    state
}

/// Up to where the log of a state is to be purged.
fn purge_end(
    config: &EngineConfig<u64>,
    state: &mut RaftState<u64, u64>,
    output: &mut EngineOutput<Small>,
    sheet: &mut Sheet<'_>,
) {
    let handler: LogHandler<'_, Small> = LogHandler {
        config,
        state,
        output,
    };
    show_id("purge end", handler.calc_purge_upto(), sheet);
}

/// What is kept and purged at once, the purged id, that of the snapshot, and those of the log.
fn tell_purge_end(sheet: &mut Sheet<'_>) {
    let config = EngineConfig {
        max_in_snapshot_log_to_keep: sheet.number(),
        purge_batch_size: sheet.number(),
        ..EngineConfig::default()
    };
    let mut state = state(sheet);
    if let Some(mut output) = kept(EngineOutput::new(sheet.alloc(), 1), sheet) {
        purge_end(&config, &mut state, &mut output, sheet);
    }
}

/// A line of these.
pub fn made_line(name: &str, sheet: &mut Sheet<'_>) {
    match name {
        "made-candidate" => tell_candidate(sheet),
        "made-leader" => tell_leader(sheet),
        "assign" => tell_assigned(sheet),
        "clock" => tell_clock(sheet),
        "purge-end" => tell_purge_end(sheet),
        _ => sheet.fail("no such call"),
    }
}
