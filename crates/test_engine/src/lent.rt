//! What stands after a line `lend`: calls of the handlers that the engine lends, after which no more is known of it.
//!
//! The first line may need an engine in order:
//!
//! - `update-vote VOTE`, `accept-vote VOTE TOKEN`: at 3
//! - `establish`: the vote of the leader that the candidate becomes
//! - `send-no-more`: a leader's table is built anew, nothing is sent while something is in flight, the streams begin anew;
//!   node 2 is heard at 50, and node 4 is no member
//! - `commit-nothing`: on a node that follows
//!
//! Each line may be:
//!
//! - `lead`: the state's role is that of a leader; `update-role`; `stop-asking`: the node follows, and its role is updated
//! - `see-greater`, `forget-greater`: the record of a greater log; `grant NODE`: to the lent candidate; `granters`: who has granted
//! - `ask-leader TOKEN`: whether the node leads, and the token that is given back
//! - `send-nothing TARGET`; `pop`: takes the first command; `begin`: a snapshot
//! - `purge-by-policy`: purges by the settings; `aim INDEX`: the purge target; `purge-log`: purges up to it
//! - `record-nothing`: a snapshot of nothing
//! - `show ..`: a question

ghost use Rattle.std.specs.Prelude.{◌≡◌};
ghost use Rattle.test_engine.specs.Sound.{IsInOrder};

use crate::made::grant;
use crate::purges::{is_within, tell_snapshot};
use crate::questions::{question, show_granters};
use crate::queue::pop;
use crate::show::{show_flag, show_id, tell, tell_refusal};
use crate::types::Small;
use crate::words::vote;
use raft_command::{Respond, Token, VoteResponse};
use raft_engine::{Engine, LogHandler, ReplicationHandler, SendNone};
use raft_progress_entry::Inflight;
use raft_state::{RaftState, RejectVoteRequest, ServerState, SnapshotMeta, StoredMembership, Text};
use test_cases::Sheet;

fn update_vote(engine: &mut Engine<Small>, sheet: &mut Sheet<'_>)
    requires { IsInOrder engine.old }
{
    let asked = vote(sheet);
    let answer = engine.vote_handler().update_vote(&asked, 3);
    match answer {
        Ok(Ok(())) => sheet.put_line("adopted"),
        Ok(Err(rejection)) => sheet.put_line(format_args!("rejected {rejection:?}")),
        Err(refusal) => tell_refusal(&refusal, sheet),
    }
}

/// The reply to a rejected vote, with the one that the node has.
fn held_vote(
    state: &RaftState<u64, u64>,
    _rejected: RejectVoteRequest<u64>,
    token: Token,
) -> Respond<Small> {
    let response = VoteResponse::new(state.vote_ref(), state.last_log_id(), false);
    Respond::new_vote(response, token)
}

fn accept_vote(engine: &mut Engine<Small>, sheet: &mut Sheet<'_>)
    requires { IsInOrder engine.old }
{
    let asked = vote(sheet);
    let token = Token(sheet.number());
    let mut handler = engine.vote_handler();
    let answer = handler.accept_vote(&asked, token, held_vote, 3);
    match answer {
        Ok(token) => sheet.put_line(format_args!("left {token:?}")),
        Err(refusal) => tell_refusal(&refusal, sheet),
    }
}

/// The vote of the leader that the candidate becomes, where it does.
#[tactic(auto, using(crate::proofs::Sound::taken_sound))]
fn establish(engine: &mut Engine<Small>, sheet: &mut Sheet<'_>)
    requires { IsInOrder engine.old }
{
    let Some(candidate) = engine.candidate.take() else {
        return sheet.fail("there is no candidate");
    };
    let Ok(led) = engine.establish_handler().establish(candidate) else {
        return sheet.fail("refused");
    };
    match led {
        Some(led) => {
            let vote = led.vote;
            sheet.put_line(format_args!("established {vote}"));
        }
        None => sheet.put_line("established None"),
    }
}

/// The streams begin anew.
fn begin_anew(replication: &mut ReplicationHandler<'_, Small>, sheet: &mut Sheet<'_>) {
    tell(replication.rebuild_replication_streams(), sheet);
    tell(replication.update_leader_clock(2, 50), sheet);
    tell(replication.update_leader_clock(4, 50), sheet);
    let heard = replication.leader.clock_progress.get(&2).copied();
    sheet.put_line(format_args!("heard {heard:?}"));
    show_id(
        "purge end",
        replication.log_handler().calc_purge_upto(),
        sheet,
    );
}

fn send_no_more(engine: &mut Engine<Small>, sheet: &mut Sheet<'_>)
    requires { IsInOrder engine.old }
{
    let Ok(mut handler) = engine.leader_handler() else {
        return sheet.fail("there is no leader");
    };
    let mut replication = handler.replication_handler();
    tell(replication.rebuild_progresses(), sheet);
    tell(replication.initiate_replication(SendNone::True), sheet);
    begin_anew(&mut replication, sheet);
}

/// No id is committed on a node that follows.
fn commit_nothing(engine: &mut Engine<Small>, sheet: &mut Sheet<'_>)
    requires { IsInOrder engine.old }
{
    if engine.leader.is_some() || engine.candidate.is_some() {
        return sheet.fail("only a node that follows takes a committed id");
    }
    tell(engine.following_handler().commit_entries(None), sheet);
}

fn update_role(engine: &mut Engine<Small>, sheet: &mut Sheet<'_>) {
    let answer = engine
        .server_state_handler()
        .update_server_state_if_changed();
    tell(answer, sheet);
}

fn stop_asking(engine: &mut Engine<Small>, sheet: &mut Sheet<'_>) {
    let mut handler = engine.vote_handler();
    tell(handler.become_following(), sheet);
    let answer = handler
        .server_state_handler()
        .update_server_state_if_changed();
    tell(answer, sheet);
}

/// A node grants the lent candidate; the state stays.
fn grant_lent(engine: &mut Engine<Small>, sheet: &mut Sheet<'_>)
    ensures { engine.new.state ≡ engine.old.state }
{
    match engine.candidate_mut() {
        Some(asking) => grant(asking, sheet.number(), sheet),
        None => sheet.fail("there is no candidate"),
    }
}

/// Who has granted the candidate.
fn granters(engine: &Engine<Small>, sheet: &mut Sheet<'_>) {
    match engine.candidate_ref() {
        Some(asking) => show_granters(asking, sheet),
        None => sheet.fail("there is no candidate"),
    }
}

fn ask_leader(engine: &mut Engine<Small>, sheet: &mut Sheet<'_>) {
    match engine.get_leader_handler_or_reject(Some(Token(sheet.number()))) {
        Ok((_, token)) => sheet.put_line(format_args!("leads, {token:?}")),
        Err((refusal, token)) => {
            sheet.put_line(format_args!("rejected, {token:?}"));
            tell_refusal(&refusal, sheet);
        }
    }
}

fn send_nothing(engine: &mut Engine<Small>, sheet: &mut Sheet<'_>) {
    let target = sheet.number();
    let answer = ReplicationHandler::send_to_target(&mut engine.output, &target, &Inflight::None);
    tell(answer, sheet);
}

fn purge_by_policy(engine: &mut Engine<Small>, sheet: &mut Sheet<'_>) {
    let mut handler = engine.log_handler();
    tell(handler.schedule_policy_based_purge(), sheet);
    show_id("purge end", handler.calc_purge_upto(), sheet);
}

/// The purge target is set to what the node has at an index.
#[tactic(auto, using(crate::proofs::Sound::held_fits))]
fn aim(engine: &mut Engine<Small>, sheet: &mut Sheet<'_>) {
    let index = sheet.number();
    let Some(id) = engine.state.get_log_id(index) else {
        return sheet.fail("the log has nothing there");
    };
    if id.index != index {
        return sheet.fail("the log has nothing at the index");
    }
    if !is_within(&engine.state.purge_to, &Some(id)) {
        return sheet.fail("the target would fall");
    }
    if !is_within(&Some(id), &engine.state.snap.last_log_id) {
        return sheet.fail("the id is past the snapshot");
    }
    let mut handler = LogHandler {
        config: &engine.config,
        state: &mut engine.state,
        output: &mut engine.output,
    };
    tell(handler.update_purge_upto(id), sheet);
}

/// A snapshot of nothing is not above none.
fn record_nothing(engine: &mut Engine<Small>, sheet: &mut Sheet<'_>) {
    let meta = SnapshotMeta {
        last_log_id: None,
        last_membership: StoredMembership::empty(sheet.alloc()),
        snapshot_id: Text::new(sheet.alloc()),
    };
    let recorded = engine.snapshot_handler().update_snapshot(meta);
    show_flag("recorded", recorded, sheet);
}

/// A line about snapshots and purges.
fn purge_line(engine: &mut Engine<Small>, name: &str, sheet: &mut Sheet<'_>) {
    match name {
        "begin" => tell_snapshot("begun", engine.snapshot_handler().trigger_snapshot(), sheet),
        "purge-by-policy" => purge_by_policy(engine, sheet),
        "aim" => aim(engine, sheet),
        "purge-log" => tell(engine.log_handler().purge_log(), sheet),
        "record-nothing" => record_nothing(engine, sheet),
        _ => sheet.fail("no such call"),
    }
}

/// A line about roles, candidates and commands.
fn role_line(engine: &mut Engine<Small>, name: &str, sheet: &mut Sheet<'_>) {
    match name {
        "update-role" => update_role(engine, sheet),
        "stop-asking" => stop_asking(engine, sheet),
        "grant" => grant_lent(engine, sheet),
        "granters" => granters(engine, sheet),
        "ask-leader" => ask_leader(engine, sheet),
        "send-nothing" => send_nothing(engine, sheet),
        "pop" => pop(&mut engine.output, sheet),
        _ => purge_line(engine, name, sheet),
    }
}

/// A line that may be any.
pub fn any_line(engine: &mut Engine<Small>, name: &str, sheet: &mut Sheet<'_>) {
    match name {
        "show" => question(engine, sheet),
        "lead" => engine.state.role = ServerState::Leader,
        "see-greater" => engine.set_greater_log(),
        "forget-greater" => engine.reset_greater_log(),
        _ => role_line(engine, name, sheet),
    }
}

/// The first line.
pub fn first_line(engine: &mut Engine<Small>, name: &str, sheet: &mut Sheet<'_>)
    requires { IsInOrder engine.old }
{
    match name {
        "update-vote" => update_vote(engine, sheet),
        "accept-vote" => accept_vote(engine, sheet),
        "establish" => establish(engine, sheet),
        "send-no-more" => send_no_more(engine, sheet),
        "commit-nothing" => commit_nothing(engine, sheet),
        _ => any_line(engine, name, sheet),
    }
}
