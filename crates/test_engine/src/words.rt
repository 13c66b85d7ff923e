//! The words of a line: how values are written.
//!
//! A vote is written `term-node`, with `:Q` once a quorum has granted it, a log id `term-node-index`, an entry as its log
//! id, with `=` and a value where it has one, a membership `1,2/2,3+4`.

ghost use Rattle.std.specs.Prelude.{◌≡◌, ◌<◌, ◌^◌, ◌↔◌, IsTrue, Some};
ghost use Rattle.raft_state.specs.Order.{next};

use crate::types::{Item, Payload, id};
use raft_command::VoteResponse;
use raft_state::{
    LeaderId, LogId, Membership, RaftEntry, SnapshotMeta, StoredMembership, Text, Vote,
};
use test_cases::Sheet;

/// What a call gave, unless memory was refused.
pub fn kept<T: Drop, E: Drop>(given: Result<T, E>, sheet: &mut Sheet<'_>) -> Option<T> {
    match given {
        Ok(given) => Some(given),
        Err(_) => {
            sheet.fail("out of memory");
            None
        }
    }
}

fn leader_of(word: &str, sheet: &mut Sheet<'_>) -> LeaderId<u64> {
    let (term, node) = word.split_once('-').unwrap_or((word, ""));
    LeaderId::new(sheet.number_of(term), sheet.number_of(node))
}

/// A leader id, as `1-2` for term 1 and node 2.
pub fn leader_id(sheet: &mut Sheet<'_>) -> LeaderId<u64> {
    leader_of(sheet.word(), sheet)
}

/// A vote, as `1-2`, or `1-2:Q` once a quorum has granted it.
pub fn vote(sheet: &mut Sheet<'_>) -> Vote<u64> {
    let word = sheet.word();
    let leader = word.strip_suffix(":Q");
    Vote {
        leader_id: leader_of(leader.unwrap_or(word), sheet),
        committed: leader.is_some(),
    }
}

/// The log id that a word is.
pub fn log_id_of(word: &str, sheet: &mut Sheet<'_>) -> LogId<u64> {
    let (leader, index) = word.rsplit_once('-').unwrap_or((word, ""));
    LogId::new(leader_of(leader, sheet), sheet.number_of(index))
}

/// A log id, as `1-2-3` for term 1, node 2 and index 3.
pub fn log_id(sheet: &mut Sheet<'_>) -> LogId<u64> {
    log_id_of(sheet.word(), sheet)
}

/// A log id, or `None`.
pub fn optional_id(sheet: &mut Sheet<'_>) -> Option<LogId<u64>> {
    match sheet.word() {
        "None" => None,
        word => Some(log_id_of(word, sheet)),
    }
}

/// Whether there is an index after an id's.
pub fn is_below_end(id: Option<LogId<u64>>) -> bool
    ensures { IsTrue result ↔ (next id < 2 ^ 64) }
{
    match id {
        Some(id) => id.index < u64::MAX,
        None => true,
    }
}

/// Log ids, up to the line's end.
pub fn log_ids(sheet: &mut Sheet<'_>) -> Vec<LogId<u64>> {
    let mut ids = Vec::new(sheet.alloc());
    for word in &sheet.words() {
        let id = log_id_of(word, sheet);
        sheet.check(ids.push(id));
    }
    ids
}

/// An entry: its log id for a no-op, or with `=` and a value.
pub fn entry_of(word: &str, sheet: &mut Sheet<'_>) -> Item {
    match word.split_once('=') {
        Some((id, value)) => Item {
            log_id: log_id_of(id, sheet),
            payload: Payload::Value(sheet.number_of(value)),
        },
        None => Item::new_blank(log_id_of(word, sheet)),
    }
}

/// Entries, up to the line's end.
pub fn entries(sheet: &mut Sheet<'_>) -> Vec<Item> {
    let mut entries = Vec::new(sheet.alloc());
    for word in &sheet.words() {
        let entry = entry_of(word, sheet);
        sheet.check(entries.push(entry));
    }
    entries
}

/// Numbers with commas between them; `-` is none.
fn numbers_of(word: &str, sheet: &mut Sheet<'_>) -> Vec<u64> {
    let mut ids = Vec::new(sheet.alloc());
    if word != "-" {
        for id in word.split(',') {
            let id = sheet.number_of(id);
            sheet.check(ids.push(id));
        }
    }
    ids
}

/// Ids of nodes, as `1,2,3`; `-` is none.
pub fn node_ids(sheet: &mut Sheet<'_>) -> Vec<u64> {
    numbers_of(sheet.word(), sheet)
}

/// Groups of nodes, as `1,2/2,3`; `none` is none.
pub fn groups_of(word: &str, sheet: &mut Sheet<'_>) -> Vec<Vec<u64>> {
    let mut groups = Vec::new(sheet.alloc());
    if word != "none" {
        for group in word.split('/') {
            let group = numbers_of(group, sheet);
            sheet.check(groups.push(group));
        }
    }
    groups
}

/// A node and its data, as `1=10`, or `1` where the data is 0.
fn node_of(word: &str, sheet: &mut Sheet<'_>) -> (u64, u64) {
    let (id, carried) = word.split_once('=').unwrap_or((word, "0"));
    (sheet.number_of(id), sheet.number_of(carried))
}

/// Nodes, with commas between them; `-` is none.
fn nodes_of(word: &str, sheet: &mut Sheet<'_>) -> Vec<(u64, u64)> {
    let mut nodes = Vec::new(sheet.alloc());
    if word != "-" {
        for written in word.split(',') {
            let node = node_of(written, sheet);
            sheet.check(nodes.push(node));
        }
    }
    nodes
}

/// A membership, as `1,2/2,3+4`: groups of voters with `/` between them, and after a `+` learners, or nodes with their
/// data.
pub fn membership(sheet: &mut Sheet<'_>) -> Membership<u64, u64> {
    let word = sheet.word();
    let (voters, learners) = word.split_once('+').unwrap_or((word, "-"));
    let groups = groups_of(voters, sheet);
    let nodes = nodes_of(learners, sheet);
    match Membership::new(sheet.alloc(), groups, nodes) {
        Ok(membership) => membership,
        Err(_) => {
            sheet.fail("out of memory");
            Membership::empty(sheet.alloc())
        }
    }
}

/// An entry with a membership, as its log id and the membership.
pub fn membership_entry(sheet: &mut Sheet<'_>) -> Item {
    Item {
        log_id: log_id(sheet),
        payload: Payload::Membership(membership(sheet)),
    }
}

/// A snapshot up to an id, with a membership, which is that of 0-0-0.
pub fn snapshot_upto(upto: LogId<u64>, sheet: &mut Sheet<'_>) -> SnapshotMeta<u64, u64>
    ensures { result.last_log_id ≡ Some upto }
{
    SnapshotMeta {
        last_log_id: Some(upto),
        last_membership: StoredMembership {
            log_id: Some(id(0, 0, 0)),
            membership: membership(sheet),
        },
        snapshot_id: Text::new(sheet.alloc()),
    }
}

/// A response to a request for a vote: the vote, `granted` or `denied`, and the last log id.
pub fn vote_response(sheet: &mut Sheet<'_>) -> VoteResponse<u64> {
    let vote = vote(sheet);
    let how = sheet.word();
    if how != "granted" && how != "denied" {
        sheet.fail("neither granted nor denied");
    }
    VoteResponse::new(&vote, optional_id(sheet), how == "granted")
}
