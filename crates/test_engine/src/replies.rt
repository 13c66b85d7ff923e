//! Lines `reply ..`, of what callers are answered.
//!
//! - `all TOKEN VOTE`: the token and the value that each reply hands out: to a request for a vote, to an append, to a
//!   snapshot's chunk, its last part and the whole, and to a first entry, which is refused
//! - `write ID VALUE`: the answer to a write

use crate::types::Small;
use crate::words::{log_id, vote};
use raft_command::{
    AppendEntriesResponse, ClientWriteResponse, InstallSnapshotResponse, Respond, SnapshotResponse,
    Token, VoteResponse,
};
use raft_error::EngineError;
use raft_state::Vote;
use test_cases::Sheet;

/// Writes what a reply hands out.
fn send(reply: Respond<Small>, sheet: &mut Sheet<'_>) {
    let (token, value) = reply.send();
    sheet.put_line(format_args!("{token:?} {value:?}"))
}

fn tell_snapshots(token: Token, vote: Vote<u64>, sheet: &mut Sheet<'_>) {
    send(Respond::new_receive_snapshot_chunk(Ok(()), token), sheet);
    let part = InstallSnapshotResponse { vote };
    send(Respond::new_install_snapshot(Ok(part), token), sheet);
    let whole = SnapshotResponse::new(vote);
    send(Respond::new_install_full_snapshot(whole, token), sheet)
}

fn tell_replies(sheet: &mut Sheet<'_>) {
    let token = Token(sheet.number());
    let vote = vote(sheet);
    let granted = VoteResponse::new(&vote, None, true);
    send(Respond::new_vote(granted, token), sheet);
    let conflict = AppendEntriesResponse::Conflict;
    send(Respond::new_append_entries(conflict, token), sheet);
    tell_snapshots(token, vote, sheet);
    let refused = Err(EngineError::NoMembership);
    send(Respond::new_initialize(refused, token), sheet);
}

fn tell_write(sheet: &mut Sheet<'_>) {
    let id = log_id(sheet);
    let written: ClientWriteResponse<Small> = ClientWriteResponse::new_app_response(
        id,
        sheet.number(),
    );
    let id = written.log_id();
    let value = written.response();
    let membership = written.membership().is_some();
    sheet.put_line(format_args!("written {id}, answer {value}, membership {membership}"));
}

/// A line of these.
pub fn reply_line(sheet: &mut Sheet<'_>) {
    match sheet.word() {
        "all" => tell_replies(sheet),
        "write" => tell_write(sheet),
        _ => sheet.fail("no such line"),
    }
}
