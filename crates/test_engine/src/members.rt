//! Lines `members ..`, of memberships and of quorums.
//!
//! - `of MEMBERS`: how many groups there are, the groups and the learners, and all voters
//! - `quorum GROUPS IDS`: all ids of the groups, and whether these ids are a quorum
//! - `same GROUPS GROUPS`: whether two sets are equal

use crate::show::show_flag;
use crate::texts::{write_ids, write_membership};
use crate::words::{groups_of, kept, membership, node_ids};
use raft_progress::{Joint, QuorumSet};
use test_cases::Sheet;

fn tell_members(sheet: &mut Sheet<'_>) {
    let members = membership(sheet);
    let count = members.groups().len();
    sheet.put(format_args!("{count} groups "));
    write_membership(&members, sheet);
    sheet.put(", voters ");
    if let Some(ids) = kept(members.voter_ids(), sheet) {
        write_ids(&ids, sheet);
    }
    sheet.put_line("");
}

/// The quorum set of some groups.
pub fn joint(word: &str, sheet: &mut Sheet<'_>) -> Option<Joint<u64>> {
    let groups = groups_of(word, sheet);
    kept(Joint::new(groups), sheet)
}

fn show_quorum(set: &Joint<u64>, sheet: &mut Sheet<'_>) {
    let count = set.groups().len();
    sheet.put(format_args!("{count} groups of "));
    if let Some(ids) = kept(set.ids(sheet.alloc()), sheet) {
        write_ids(&ids, sheet);
    }
    let holds = set.is_quorum(&node_ids(sheet));
    sheet.put_line(format_args!(", quorum {holds}"));
}

fn tell_quorum(sheet: &mut Sheet<'_>) {
    if let Some(set) = joint(sheet.word(), sheet) {
        show_quorum(&set, sheet);
    }
}

fn tell_same(sheet: &mut Sheet<'_>) {
    let one = joint(sheet.word(), sheet);
    let other = joint(sheet.word(), sheet);
    show_flag("same", one == other, sheet);
}

/// A line of these.
pub fn members_line(sheet: &mut Sheet<'_>) {
    match sheet.word() {
        "of" => tell_members(sheet),
        "quorum" => tell_quorum(sheet),
        "same" => tell_same(sheet),
        _ => sheet.fail("no such line"),
    }
}
