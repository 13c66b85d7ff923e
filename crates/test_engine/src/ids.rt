//! Lines `id ..`, of ids, votes, texts, settings and refusals.
//!
//! - `log ID`: the id, and that of the leader that wrote its entry
//! - `vote-of LEADER OTHER`: what a vote says of this leader and of another one, before and after a quorum grants it
//! - `sorted IDS MORE ID`: ids in order, then with more of them, and whether an id is among them
//! - `text WORD`: a text that is made of a word, and given back
//! - `settings`: their defaults; `timeout TIME`: the times that follow from the greatest election timeout
//! - `refusals`: the numbers of the first and of the last one, and what they say

use crate::texts::write_ids;
use crate::words::{kept, leader_id, log_id, node_ids};
use raft_command::EngineConfig;
use raft_error::EngineError;
use raft_state::{DisplayOption, Items, LeaderId, SnapshotPolicy, Text, Vote, sorted_ids};
use test_cases::Sheet;

/// Whether a vote is a leader's, whether a quorum has granted it, and whose it then is.
fn tell_vote(vote: &Vote<u64>, leader: &LeaderId<u64>, sheet: &mut Sheet<'_>) {
    let same = vote.is_same_leader(leader);
    let committed = vote.is_committed();
    let led = DisplayOption(vote.committed_leader_id());
    sheet.put_line(format_args!("{vote} of {leader} {same}, committed {committed}, led by {led}"))
}

fn tell_votes(sheet: &mut Sheet<'_>) {
    let leader = leader_id(sheet);
    let other = leader_id(sheet);
    let mut vote = Vote::new(leader.term, leader.node_id);
    tell_vote(&vote, &leader, sheet);
    tell_vote(&vote, &other, sheet);
    vote.commit();
    tell_vote(&vote, &leader, sheet);
    let id = vote.leader_id();
    let candidate = leader.voted_for();
    sheet.put_line(format_args!("leader id {id}, voted for {candidate:?}"));
}

fn show_sorted(ids: &Items<u64>, sheet: &mut Sheet<'_>) {
    let id = sheet.number();
    let held = ids.has(&id);
    sheet.put("ids ");
    write_ids(ids.as_slice(), sheet);
    sheet.put_line(format_args!(", {id} {held}"));
}

/// Ids in order, then with more of them.
fn tell_sorted(sheet: &mut Sheet<'_>) {
    let ids = node_ids(sheet);
    if let Some(mut sorted) = kept(sorted_ids(sheet.alloc(), ids), sheet) {
        let more = node_ids(sheet);
        sheet.check(sorted.extend(&more));
        show_sorted(&sorted, sheet);
    }
}

/// A text that is made of a word.
pub fn text(word: &str, sheet: &mut Sheet<'_>) -> Text {
    let mut text = String::new(sheet.alloc());
    sheet.check(text.push_str(word));
    Text::from_string(text)
}

fn tell_text(sheet: &mut Sheet<'_>) {
    let text = text(sheet.word(), sheet);
    sheet.put_line(text.into_string());
}

fn settings(sheet: &mut Sheet<'_>) {
    let settings: EngineConfig<u64> = EngineConfig::default();
    sheet.put_line(format_args!("{settings:?}"))
}

fn timeout(sheet: &mut Sheet<'_>) {
    let max = sheet.number();
    let settings = EngineConfig::new(3_u64, SnapshotPolicy::Never, 1, 2, 4, 150, max);
    let times = settings.timer_config;
    sheet.put_line(format_args!("{times:?}"));
}

fn tell_refusal(refusal: &EngineError<u64, u64>, sheet: &mut Sheet<'_>) {
    let number = refusal.number();
    sheet.put_line(format_args!("{number}: {refusal}"))
}

fn tell_refusals(sheet: &mut Sheet<'_>) {
    let first = EngineError::NotAllowed {
        last_log_id: None,
        vote: Vote::new(0, 0),
    };
    tell_refusal(&first, sheet);
    tell_refusal(&EngineError::Spent, sheet)
}

fn print_log_id(sheet: &mut Sheet<'_>) {
    let id = log_id(sheet);
    let leader = id.committed_leader_id();
    sheet.put_line(format_args!("{id} of {leader}"));
}

/// A line of these.
pub fn id_line(sheet: &mut Sheet<'_>) {
    match sheet.word() {
        "log" => print_log_id(sheet),
        "vote-of" => tell_votes(sheet),
        "sorted" => tell_sorted(sheet),
        "text" => tell_text(sheet),
        "settings" => settings(sheet),
        "timeout" => timeout(sheet),
        "refusals" => tell_refusals(sheet),
        _ => sheet.fail("no such line"),
    }
}
