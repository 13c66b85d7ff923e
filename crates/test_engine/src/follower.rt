//! The calls of requests that candidates and leaders send.
//!
//! - `request VOTE LAST NOW`: for a vote
//! - `append VOTE PREV TOKEN ENTRY..`: with a token, at 6
//! - `follow VOTE PREV NOW ENTRY..`: without one
//! - `commit ID`: a leader's committed id, on a node that follows
//! - `install VOTE LAST MEMBERS`: a snapshot up to an id, whose membership is that of 0-0-0, under token 4, at 8
//! - `receive`: a snapshot is to come, under token 3

ghost use Rattle.test_engine.specs.Sound.{IsInOrder};

use crate::leader::leader_call;
use crate::show::{tell, tell_refusal};
use crate::types::Small;
use crate::words::{entries, log_id, optional_id, snapshot_upto, vote};
use raft_command::{Snapshot, Token, VoteRequest, VoteResponse};
use raft_engine::Engine;
use test_cases::Sheet;

fn show_response(resp: &VoteResponse<u64>, sheet: &mut Sheet<'_>) {
    let how = if resp.vote_granted {
        "granted"
    } else {
        "denied"
    };
    sheet.put_line(format_args!("{how} {resp}"));
}

fn request(engine: &mut Engine<Small>, sheet: &mut Sheet<'_>)
    requires { IsInOrder engine.old }
    ensures { IsInOrder engine.new }
{
    let asked = vote(sheet);
    let req = VoteRequest::new(asked, optional_id(sheet));
    match engine.handle_vote_req(req, sheet.number()) {
        Ok(resp) => show_response(&resp, sheet),
        Err(refusal) => tell_refusal(&refusal, sheet),
    }
}

fn append(engine: &mut Engine<Small>, sheet: &mut Sheet<'_>)
    requires { IsInOrder engine.old }
    ensures { IsInOrder engine.new }
{
    let sent = vote(sheet);
    let prev = optional_id(sheet);
    let token = Token(sheet.number());
    let entries = entries(sheet);
    match engine.handle_append_entries(&sent, prev, entries, Some(token), 6) {
        Ok(appended) => sheet.put_line(format_args!("appended {appended}")),
        Err(refusal) => tell_refusal(&refusal, sheet),
    }
}

fn follow(engine: &mut Engine<Small>, sheet: &mut Sheet<'_>)
    requires { IsInOrder engine.old }
    ensures { IsInOrder engine.new }
{
    let sent = vote(sheet);
    let prev = optional_id(sheet);
    let now = sheet.number();
    let entries = entries(sheet);
    match engine.append_entries(&sent, prev, entries, now) {
        Ok(Ok(())) => sheet.put_line("ok"),
        Ok(Err(rejection)) => sheet.put_line(format_args!("rejected {rejection:?}")),
        Err(refusal) => tell_refusal(&refusal, sheet),
    }
}

fn commit(engine: &mut Engine<Small>, sheet: &mut Sheet<'_>)
    requires { IsInOrder engine.old }
    ensures { IsInOrder engine.new }
{
    if engine.leader.is_some() || engine.candidate.is_some() {
        return sheet.fail("only a node that follows takes a committed id");
    }
    let id = log_id(sheet);
    tell(engine.handle_commit_entries(Some(id)), sheet);
}

fn install(engine: &mut Engine<Small>, sheet: &mut Sheet<'_>)
    requires { IsInOrder engine.old }
    ensures { IsInOrder engine.new }
{
    let sent = vote(sheet);
    let meta = snapshot_upto(log_id(sheet), sheet);
    let snapshot = Snapshot { meta, snapshot: 5 };
    tell(
        engine.handle_install_full_snapshot(sent, snapshot, Token(4), 8),
        sheet,
    );
}

fn receive(engine: &mut Engine<Small>, sheet: &mut Sheet<'_>)
    requires { IsInOrder engine.old }
    ensures { IsInOrder engine.new }
{
    tell(engine.handle_begin_receiving_snapshot(Token(3)), sheet);
}

/// A line that is one of these calls, or a call of a leader.
pub fn follower_call(engine: &mut Engine<Small>, name: &str, sheet: &mut Sheet<'_>)
    requires { IsInOrder engine.old }
    ensures { IsInOrder engine.new }
{
    match name {
        "request" => request(engine, sheet),
        "append" => append(engine, sheet),
        "follow" => follow(engine, sheet),
        "commit" => commit(engine, sheet),
        "install" => install(engine, sheet),
        "receive" => receive(engine, sheet),
        _ => leader_call(engine, name, sheet),
    }
}
