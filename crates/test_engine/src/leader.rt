//! A leader's calls.
//!
//! - `stored INDEX`: its own log is on disk, up to what it has at an index
//! - `stored-nothing`: nothing of it is
//! - `propose ENTRY..`, `propose-members ID MEMBERS`; `may-change MEMBERS`: whether these may be proposed
//! - `heartbeat`, `read`
//! - `numbered TARGET NUMBER`: the last request to a node had this number
//! - `matched TARGET NUMBER ID`, `conflict TARGET NUMBER ID`, `failed TARGET NUMBER`: the reply to the append request
//!   of a number, which was sent at 9, or its failure; `installed TARGET NUMBER ID`: the reply to that of a snapshot

ghost use Rattle.std.specs.Prelude.{◌≡◌, ◌≤◌, ◌⊎◌, Bool, IsTrue, IfSome, None, Some, false, true, is_some, length};
ghost use Rattle.std.specs.List.{list_all, list_any};
ghost use Rattle.std.specs.Ordering.{nat_cmp, is_eq};
ghost use Rattle.raft_state.specs.Order.{vote_cmp};
ghost use Rattle.raft_engine.specs.Whole.{parts};
ghost use Rattle.raft_steps.specs.Conditions.{may_change_membership};
ghost use Rattle.raft_steps.specs.Invariants.{IsSoundUnlessSpent, StaysSoundLed};
ghost use Rattle.raft_steps.specs.Parts.{led_in, led_of, machine_of};
ghost use Rattle.test_engine.specs.Types.{members};
ghost use Rattle.test_engine.specs.Sound.{IsInOrder};

use crate::purges::purge_call;
use crate::show::{show_flag, show_id, tell, tell_refusal};
use crate::types::{Item, Small};
use crate::words::{entries, log_id, membership, membership_entry};
use raft_command::{EngineConfig, EngineOutput, ReplicationResult, RequestId};
use raft_engine::{Candidate, Engine, Leader};
use raft_handler_leader::replication_handler::acknowledge;
use raft_progress::Joint;
use raft_progress_entry::ProgressEntry;
use raft_state::{LogId, RaftEntry, RaftState};
use test_cases::Sheet;

/// What a node replies to a leader's request, or that the request failed.
type Reply = Result<ReplicationResult<u64>, String>;

/// The leader's own log is on disk, up to what it has at an index.
#[tactic(auto, using(crate::proofs::Sound::held_fits))]
fn stored(engine: &mut Engine<Small>, sheet: &mut Sheet<'_>)
    requires { IsInOrder engine.old }
    ensures { IsInOrder engine.new }
{
    let index = sheet.number();
    let Some(id) = engine.state.get_log_id(index) else {
        return sheet.fail("the log has nothing there");
    };
    if id.index != index {
        return sheet.fail("the log has nothing at the index");
    }
    tell(engine.update_local_progress(Some(id)), sheet);
}

/// Whether these members may be proposed.
fn may_change(engine: &Engine<Small>, sheet: &mut Sheet<'_>) {
    let may = engine.may_change_membership(&membership(sheet));
    show_flag("may change", may, sheet);
}

/// Whether one of the entries has a membership.
fn has_membership(entries: &[Item]) -> bool
    ensures { result ≡ list_any (λ e. is_some (members e.payload)) entries.now }
{
    entries.iter().any(|entry| entry.get_membership().is_some())
}

/// Whether there is one entry at most, or none of them has a membership.
fn has_one_at_most(entries: &Vec<Item>) -> bool
    ensures { IsTrue result → (length entries.now.items ≤ 1) ⊎ (list_any (λ e. is_some (members e.payload)) entries.now.items ≡ false) }
{
    entries.len() <= 1 || !has_membership(entries)
}

/// Whether an entry has no membership, or one that the leader may propose.
fn may_be_proposed(engine: &Engine<Small>, entry: &Item) -> bool
    ensures { result ≡ elim (members entry.now.payload) as (λ _. Bool) [ None ↦ true | Some m ↦ elim (led_in (parts engine.now)) as (λ _. Bool) [ None ↦ false | Some l ↦ may_change_membership nat_cmp l m ] ] }
{
    match entry.get_membership() {
        Some(membership) => engine.may_change_membership(membership),
        None => true,
    }
}

/// Whether the leader may propose each membership of the entries.
fn may_follow(engine: &Engine<Small>, entries: &Vec<Item>) -> bool
    ensures { result ≡ list_all (λ e. elim (members e.payload) as (λ _. Bool) [ None ↦ true | Some m ↦ elim (led_in (parts engine.now)) as (λ _. Bool) [ None ↦ false | Some l ↦ may_change_membership nat_cmp l m ] ]) entries.now.items }
{
    entries.iter().all(|entry| may_be_proposed(engine, entry))
}

/// Whether the leader, where there is one, has the state's vote.
fn has_own_vote(engine: &Engine<Small>) -> bool
    ensures { IsTrue result → IfSome (led_in (parts engine.now)) (λ l. is_eq (vote_cmp nat_cmp l.leader.vote l.core.state.vote) ≡ true) }
{
    match &engine.leader {
        Some(leader) => leader.vote.cmp(&engine.state.vote).is_eq(),
        None => true,
    }
}

fn propose(engine: &mut Engine<Small>, entries: Vec<Item>, sheet: &mut Sheet<'_>)
    requires { IsInOrder engine.old }
    ensures { IsInOrder engine.new }
{
    if !has_one_at_most(&entries) {
        return sheet.fail("more entries than one, and a membership");
    }
    if !has_own_vote(engine) {
        return sheet.fail("the leader's vote is not the state's");
    }
    if !may_follow(engine, &entries) {
        return sheet.fail("the membership may not be proposed");
    }
    tell(engine.propose(entries), sheet);
}

/// One entry, with a membership.
fn members_alone(sheet: &mut Sheet<'_>) -> Vec<Item> {
    let mut entries = Vec::new(sheet.alloc());
    let entry = membership_entry(sheet);
    sheet.check(entries.push(entry));
    entries
}

/// A leader's last request to a node had this number.
#[tactic(auto, using(raft_steps::proofs::Replied::same_rises))]
fn renumber(
    config: &EngineConfig<u64>,
    leader: &mut Leader<Small, Joint<u64>>,
    state: &RaftState<u64, u64>,
    output: &EngineOutput<Small>,
    target: u64,
    number: u64,
)
    ensures { StaysSoundLed nat_cmp config.now (led_of leader.old state.now output.now) (led_of leader.new state.now output.now) }
{
    if let Some(entry) = leader.progress.get(&target).copied() {
        let entry = ProgressEntry {
            last_inflight_id: number,
            ..entry
        };
        acknowledge(leader, &target, entry);
    }
}

/// The same of the leader, where there is one.
#[tactic(auto, using(crate::proofs::Sound::led_sound))]
fn renumber_where_led(
    config: &EngineConfig<u64>,
    leader: &mut Option<Box<Leader<Small, Joint<u64>>>>,
    candidate: &Option<Candidate<Small, Joint<u64>>>,
    state: &RaftState<u64, u64>,
    output: &EngineOutput<Small>,
    target: u64,
    number: u64,
)
    requires { IsSoundUnlessSpent nat_cmp config.now (machine_of state.now output.now leader.old candidate.now) }
    ensures { IsSoundUnlessSpent nat_cmp config.now (machine_of state.now output.now leader.new candidate.now) }
{
    if let Some(leader) = leader {
        renumber(config, &mut **leader, state, output, target, number);
    }
}

fn numbered(engine: &mut Engine<Small>, sheet: &mut Sheet<'_>)
    requires { IsInOrder engine.old }
    ensures { IsInOrder engine.new }
{
    let target = sheet.number();
    let number = sheet.number();
    renumber_where_led(
        &engine.config,
        &mut engine.leader,
        &engine.candidate,
        &engine.state,
        &engine.output,
        target,
        number,
    );
}

/// The id that a read has to wait for.
fn read(engine: &Engine<Small>, sheet: &mut Sheet<'_>) {
    match engine.get_read_log_id() {
        Ok(id) => show_id("read", id, sheet),
        Err(refusal) => tell_refusal(&refusal, sheet),
    }
}

/// The reply of a node whose log matches or conflicts.
fn outcome(matching: Result<Option<LogId<u64>>, LogId<u64>>) -> Reply {
    Ok(ReplicationResult::new(9, matching))
}

/// The reply that a line names.
fn reply_of(name: &str, sheet: &mut Sheet<'_>) -> Reply {
    match name {
        "failed" => Err(String::new(sheet.alloc())),
        "conflict" => outcome(Err(log_id(sheet))),
        _ => outcome(Ok(Some(log_id(sheet)))),
    }
}

/// The request of a number to which a line is the reply.
fn request_of(name: &str, number: u64) -> RequestId {
    match name {
        "installed" => RequestId::new_snapshot(number),
        _ => RequestId::new_append_entries(number),
    }
}

/// A reply to a leader's request.
fn replied(engine: &mut Engine<Small>, name: &str, sheet: &mut Sheet<'_>)
    requires { IsInOrder engine.old }
    ensures { IsInOrder engine.new }
{
    let target = sheet.number();
    let id = request_of(name, sheet.number());
    let reply = reply_of(name, sheet);
    tell(engine.update_progress(target, id, reply), sheet);
}

/// A line that is one of these calls, or a call about snapshots and purges.
pub fn leader_call(engine: &mut Engine<Small>, name: &str, sheet: &mut Sheet<'_>)
    requires { IsInOrder engine.old }
    ensures { IsInOrder engine.new }
{
    match name {
        "stored" => stored(engine, sheet),
        "stored-nothing" => tell(engine.update_local_progress(None), sheet),
        "propose" => propose(engine, entries(sheet), sheet),
        "propose-members" => propose(engine, members_alone(sheet), sheet),
        "heartbeat" => tell(engine.send_heartbeat(), sheet),
        "read" => read(engine, sheet),
        "may-change" => may_change(engine, sheet),
        "numbered" => numbered(engine, sheet),
        "matched" | "conflict" | "failed" | "installed" => replied(engine, name, sheet),
        _ => purge_call(engine, name, sheet),
    }
}
