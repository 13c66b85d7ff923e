//! Answers and states as text.

use crate::texts::write_membership;
use raft_error::EngineError;
use raft_state::{DisplayOption, LogId, RaftState, StoredMembership};
use test_cases::Sheet;

/// What a call answers.
pub type Answer = Result<(), EngineError<u64, u64>>;

/// Writes a refusal, by its number and its name with what it holds.
pub fn tell_refusal(refusal: &EngineError<u64, u64>, sheet: &mut Sheet<'_>) {
    let number = refusal.number();
    sheet.put_line(format_args!("refused {number} {refusal:?}"))
}

/// Writes what a call answers.
pub fn tell(answer: Answer, sheet: &mut Sheet<'_>) {
    match answer {
        Ok(()) => sheet.put_line("ok"),
        Err(refusal) => tell_refusal(&refusal, sheet),
    }
}

/// Writes a log id after a word.
pub fn show_id(word: &str, id: Option<LogId<u64>>, sheet: &mut Sheet<'_>) {
    let id = DisplayOption(id);
    sheet.put_line(format_args!("{word} {id}"))
}

/// Writes that something holds, or that it doesn't.
pub fn show_flag(word: &str, holds: bool, sheet: &mut Sheet<'_>) {
    sheet.put_line(format_args!("{word} {holds}"))
}

fn show_members(word: &str, stored: &StoredMembership<u64, u64>, sheet: &mut Sheet<'_>) {
    let id = DisplayOption(stored.log_id);
    sheet.put(format_args!("{word} {id} "));
    write_membership(&stored.membership, sheet);
    sheet.put_line("")
}

/// An id of the log, by its word.
fn log_id_of(state: &RaftState<u64, u64>, word: &str) -> Option<Option<LogId<u64>>> {
    match word {
        "first" => Some(state.ids.iter().next().copied()),
        "last" => Some(state.last_log_id()),
        "committed" => Some(state.committed()),
        "accepted" => Some(state.accepted()),
        "purged" => Some(state.last_purged_log_id()),
        "target" => Some(state.purge_upto()),
        "snapshot" => Some(state.snapshot_last_log_id()),
        _ => None,
    }
}

/// What the state says of its log.
fn show_log(state: &RaftState<u64, u64>, word: &str, sheet: &mut Sheet<'_>) {
    match log_id_of(state, word) {
        Some(id) => show_id(word, id, sheet),
        None => show_memberships(state, word, sheet),
    }
}

/// What the state says of its memberships.
fn show_memberships(state: &RaftState<u64, u64>, word: &str, sheet: &mut Sheet<'_>) {
    match word {
        "members" => show_members(word, &state.em, sheet),
        "committed-members" => show_members(word, &state.cm, sheet),
        "snapshot-members" => show_members(word, &state.snap.last_membership, sheet),
        _ => sheet.fail("no such question"),
    }
}

/// Writes a part of a state, after its word.
///
/// - `vote`, and `modified`, when it was last modified; `role`; `building`, whether a snapshot is being built
/// - `first`, `last`, `committed`, `accepted`, `purged`, `target` (of purges), `snapshot`: log ids
/// - `members`, `committed-members`, `snapshot-members`: a membership, after the id of its entry
pub fn show_state(state: &RaftState<u64, u64>, word: &str, sheet: &mut Sheet<'_>) {
    match word {
        "vote" => {
            let vote = state.vote_ref();
            sheet.put_line(format_args!("vote {vote}"))
        }
        "modified" => {
            let time = state.vote_last_modified();
            sheet.put_line(format_args!("modified {time:?}"))
        }
        "role" => {
            let role = state.role;
            sheet.put_line(format_args!("role {role:?}"))
        }
        "building" => show_flag(word, state.building, sheet),
        _ => show_log(state, word, sheet),
    }
}
