//! Lines `replication ..`, of what a leader's streams send, and what comes back.
//!
//! - `requests NUMBER`: the ids of a heartbeat, an append and a snapshot, each with its number
//! - `data NUMBER PREV LAST`: a heartbeat, logs and a snapshot, each with the id of its request, and whether it has a
//!   payload; `callback NUMBER TIME LAST NAME VOTE`: what came of a snapshot, with the same
//! - `sends NUMBER PREV LAST`: logs, a snapshot, data, a committed id, a heartbeat
//! - `results TIME ID`: those of a request that was sent at a time: a match, that of nothing, and a conflict
//! - `session VOTE ID`: of a leader and of a membership's entry
//! - `with-id NUMBER VALUE`: a value under a request's id

use crate::messages::next_meta;
use crate::types::Small;
use crate::words::{log_id, optional_id, vote};
use raft_command::{
    Data, DataWithId, Replicate, ReplicationResult, ReplicationSessionId, RequestId,
    SnapshotResponse,
};
use raft_progress_entry::LogIdRange;
use raft_state::LogId;
use test_cases::Sheet;

fn show_request(id: RequestId, sheet: &mut Sheet<'_>) {
    let number = id.request_id();
    sheet.put_line(format_args!("{id}, number {number:?}"))
}

fn tell_requests(sheet: &mut Sheet<'_>) {
    let number = sheet.number();
    show_request(RequestId::new_heartbeat(), sheet);
    show_request(RequestId::new_append_entries(number), sheet);
    show_request(RequestId::new_snapshot(number), sheet);
}

fn range(sheet: &mut Sheet<'_>) -> LogIdRange<u64> {
    LogIdRange::new(optional_id(sheet), optional_id(sheet))
}

fn show_data(sent: &Data<Small>, sheet: &mut Sheet<'_>) {
    let id = sent.request_id();
    let carries = sent.has_payload();
    sheet.put_line(format_args!("{sent}, id {id}, payload {carries}"))
}

fn tell_data(sheet: &mut Sheet<'_>) {
    let number = sheet.number();
    let range = range(sheet);
    let logs = RequestId::new_append_entries(number);
    let snapshot = RequestId::new_snapshot(number);
    show_data(&Data::new_heartbeat(), sheet);
    show_data(&Data::new_logs(logs, range), sheet);
    show_data(&Data::new_snapshot(snapshot, range.last), sheet);
}

/// What came of a snapshot that was sent.
fn tell_callback(sheet: &mut Sheet<'_>) {
    let id = RequestId::new_snapshot(sheet.number());
    let time = sheet.number();
    let meta = next_meta(sheet);
    let answer = Ok(SnapshotResponse::new(vote(sheet)));
    show_data(&Data::new_snapshot_callback(id, time, meta, answer), sheet);
}

fn show_sent(sent: Replicate<Small>, sheet: &mut Sheet<'_>) {
    sheet.put_line(sent);
}

fn tell_sends(sheet: &mut Sheet<'_>) {
    let number = sheet.number();
    let range = range(sheet);
    let logs = RequestId::new_append_entries(number);
    let snapshot = RequestId::new_snapshot(number);
    show_sent(Replicate::logs(logs, range), sheet);
    show_sent(Replicate::snapshot(snapshot, range.last), sheet);
    show_sent(Replicate::new_data(Data::new_heartbeat()), sheet);
    show_sent(Replicate::Committed(range.last), sheet);
    show_sent(Replicate::Heartbeat, sheet)
}

/// What came of a request: up to where the logs match, or where they differ.
type Matched = Result<Option<LogId<u64>>, LogId<u64>>;

fn show_result(time: u64, matched: Matched, sheet: &mut Sheet<'_>) {
    sheet.put_line(ReplicationResult::new(time, matched));
}

fn tell_results(sheet: &mut Sheet<'_>) {
    let time = sheet.number();
    let id = log_id(sheet);
    show_result(time, Ok(Some(id)), sheet);
    show_result(time, Ok(None), sheet);
    show_result(time, Err(id), sheet);
}

fn tell_session(sheet: &mut Sheet<'_>) {
    let session = ReplicationSessionId::new(vote(sheet), optional_id(sheet));
    let vote = session.vote_ref();
    sheet.put_line(format_args!("{session}, vote {vote}"));
}

fn tell_with_id(sheet: &mut Sheet<'_>) {
    let id = RequestId::new_append_entries(sheet.number());
    let under = DataWithId::new(id, sheet.number());
    let id = under.request_id();
    let carried = *under.data();
    let value = under.into_data();
    sheet.put_line(format_args!("{id} {carried} {value}"));
}

/// A line of these.
pub fn replication_line(sheet: &mut Sheet<'_>) {
    match sheet.word() {
        "requests" => tell_requests(sheet),
        "data" => tell_data(sheet),
        "callback" => tell_callback(sheet),
        "sends" => tell_sends(sheet),
        "results" => tell_results(sheet),
        "session" => tell_session(sheet),
        "with-id" => tell_with_id(sheet),
        _ => sheet.fail("no such line"),
    }
}
