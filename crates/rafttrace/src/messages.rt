//! Messages as text.

use raft_command::{AppendEntriesResponse, RequestId, VoteRequest, VoteResponse};
use raft_state::{DisplayOption, LogId, Vote};
use raft_world::{Body, Entry, Message, Origin};
use std::io::{self, Write};

/// Writes who sends what to whom.
pub fn print_message<W: Write>(message: &Message, output: &mut W) -> io::Result<()> {
    let from = message.from;
    let to = message.to;
    write!(output, "{from} -> {to} ")?;
    print_body(&message.body, output)
}

fn print_body<W: Write>(body: &Body, output: &mut W) -> io::Result<()> {
    match body {
        Body::VoteRequest(request) => print_vote_request(request, output),
        Body::VoteReply(reply) => print_vote_reply(reply, output),
        Body::AppendRequest {
            origin,
            prev_log_id,
            entries,
            leader_commit,
        } => {
            print_entries(origin, prev_log_id, entries.as_slice(), output)?;
            let committed = DisplayOption(*leader_commit);
            write!(output, ", committed {committed}")
        }
        Body::AppendReply {
            reply,
            prev_log_id,
            upto,
            ..
        } => print_append_reply(reply, prev_log_id, upto, output),
        Body::SnapshotRequest { origin, snapshot } => {
            let vote = origin.session_id.vote;
            let last = DisplayOption(snapshot.meta.last_log_id);
            write!(output, "snapshot {vote}, last {last}")
        }
        Body::SnapshotReply { reply, upto, .. } => {
            let vote = reply.vote;
            let upto = DisplayOption(*upto);
            write!(output, "snapshot reply {vote}, up to {upto}")
        }
    }
}

fn print_vote_request<W: Write>(request: &VoteRequest<u64>, output: &mut W) -> io::Result<()> {
    let vote = request.vote;
    let last = DisplayOption(request.last_log_id);
    write!(output, "vote request {vote}, last {last}")
}

fn print_vote_reply<W: Write>(reply: &VoteResponse<u64>, output: &mut W) -> io::Result<()> {
    let answer = if reply.vote_granted {
        "granted"
    } else {
        "denied"
    };
    let vote = reply.vote;
    let last = DisplayOption(reply.last_log_id);
    write!(output, "vote {answer} {vote}, last {last}")
}

/// The entries of an append request by their ids, or a heartbeat.
fn print_entries<W: Write>(
    origin: &Origin,
    prev_log_id: &Option<LogId<u64>>,
    entries: &[Entry],
    output: &mut W,
) -> io::Result<()> {
    let vote = origin.session_id.vote;
    if origin.request_id == RequestId::HeartBeat {
        return write!(output, "heartbeat {vote}");
    }
    let prev = DisplayOption(*prev_log_id);
    write!(output, "append {vote}, previous {prev}, entries")?;
    if entries.is_empty() {
        return write!(output, " none");
    }
    for entry in entries {
        let log_id = entry.log_id;
        write!(output, " {log_id}")?;
    }
    Ok(())
}

fn print_append_reply<W: Write>(
    reply: &AppendEntriesResponse<u64>,
    prev_log_id: &Option<LogId<u64>>,
    upto: &Option<LogId<u64>>,
    output: &mut W,
) -> io::Result<()> {
    match reply {
        AppendEntriesResponse::Success => {
            let upto = DisplayOption(*upto);
            write!(output, "append reply: success up to {upto}")
        }
        AppendEntriesResponse::PartialSuccess(last) => {
            let last = DisplayOption(*last);
            write!(output, "append reply: success up to {last}")
        }
        AppendEntriesResponse::Conflict => {
            let prev = DisplayOption(*prev_log_id);
            write!(output, "append reply: conflict at {prev}")
        }
        AppendEntriesResponse::HigherVote(vote) => write!(
            output,
            "append reply: higher vote {vote}"
        ),
    }
}
