//! Lines `message ..`, of messages between nodes.
//!
//! - `append-responses ID|None VOTE`: all responses to an append, with the id of a partial success and a greater vote
//! - `appended VOTE LOCAL EXPECTED`: the responses to what came of an append: done, rejected by a vote, by a vote request's
//!   rejection, and by the log
//! - `snapshot-response VOTE`: that to a whole snapshot, and that to a part of it
//! - `install VOTE LAST NAME OFFSET BYTES`: the last chunk of a snapshot, and whether a copy of it is equal

use crate::ids::text;
use crate::words::{kept, log_id, optional_id, vote};
use raft_command::{
    AppendEntriesResponse, InstallSnapshotRequest, InstallSnapshotResponse, SnapshotResponse,
};
use raft_state::{
    Items, LogId, RejectAppendEntries, RejectVoteRequest, SnapshotMeta, StoredMembership,
};
use test_cases::Sheet;

/// What came of an append.
type Appended = Result<(), RejectAppendEntries<u64>>;

/// A snapshot of this name, without members.
pub fn meta(last: Option<LogId<u64>>, name: &str, sheet: &mut Sheet<'_>) -> SnapshotMeta<u64, u64> {
    SnapshotMeta {
        last_log_id: last,
        last_membership: StoredMembership::empty(sheet.alloc()),
        snapshot_id: text(name, sheet),
    }
}

/// A snapshot up to an id, of a name, as words.
pub fn next_meta(sheet: &mut Sheet<'_>) -> SnapshotMeta<u64, u64> {
    let last = optional_id(sheet);
    meta(last, sheet.word(), sheet)
}

/// The last chunk of a snapshot.
fn install(sheet: &mut Sheet<'_>) -> InstallSnapshotRequest<u64, u64> {
    let vote = vote(sheet);
    let meta = next_meta(sheet);
    let offset = sheet.number();
    let bytes = sheet.word().as_bytes();
    InstallSnapshotRequest {
        vote,
        meta,
        offset,
        payload: Items::from_vec(sheet.copy_of(bytes)),
        done: true,
    }
}

fn tell_install(sheet: &mut Sheet<'_>) {
    let request = install(sheet);
    let equal = match kept(request.copy(), sheet) {
        Some(copy) => copy == request,
        None => false,
    };
    sheet.put_line(format_args!("{request}, copied {equal}"));
}

/// Writes a response, and what it says of the append.
fn show_response(response: AppendEntriesResponse<u64>, sheet: &mut Sheet<'_>) {
    let success = response.is_success();
    let conflict = response.is_conflict();
    sheet.put_line(format_args!("{response}, success {success}, conflict {conflict}"))
}

fn tell_responses(sheet: &mut Sheet<'_>) {
    let id = optional_id(sheet);
    let held = vote(sheet);
    show_response(AppendEntriesResponse::Success, sheet);
    show_response(AppendEntriesResponse::PartialSuccess(id), sheet);
    show_response(AppendEntriesResponse::Conflict, sheet);
    show_response(AppendEntriesResponse::HigherVote(held), sheet);
}

/// Writes the response to what came of an append.
fn answer(appended: Appended, sheet: &mut Sheet<'_>) {
    show_response(AppendEntriesResponse::from(appended), sheet);
}

fn tell_appended(sheet: &mut Sheet<'_>) {
    let held = vote(sheet);
    let local = optional_id(sheet);
    let expect = log_id(sheet);
    answer(Ok(()), sheet);
    answer(Err(RejectAppendEntries::ByVote(held)), sheet);
    answer(Err(RejectVoteRequest::ByVote(held).into()), sheet);
    let conflict = RejectAppendEntries::ByConflictingLogId { local, expect };
    answer(Err(conflict), sheet);
}

fn snapshot_response(sheet: &mut Sheet<'_>) {
    let response = SnapshotResponse::new(vote(sheet));
    let part = InstallSnapshotResponse::from(response);
    sheet.put_line(format_args!("{response} {part}"));
}

/// A line of these.
pub fn message_line(sheet: &mut Sheet<'_>) {
    match sheet.word() {
        "append-responses" => tell_responses(sheet),
        "appended" => tell_appended(sheet),
        "snapshot-response" => snapshot_response(sheet),
        "install" => tell_install(sheet),
        _ => sheet.fail("no such line"),
    }
}
