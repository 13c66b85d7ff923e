//! Lines `table ..`, of what nodes hold of a leader's log.
//!
//! - `GROUPS STEP..`: what a quorum of these groups has after each step; at first the nodes hold nothing. `NODE=ID`: a node
//!   holds the log up to an id; what a quorum has still, if the groups have no such node. `GROUPS`: the groups become
//!   these, whose new nodes hold nothing

use crate::members::joint;
use crate::show::show_id;
use crate::words::{kept, log_id_of};
use raft_progress::{Joint, VecProgress};
use raft_progress_entry::ProgressEntry;
use raft_state::LogId;
use test_cases::Sheet;

/// What nodes hold of a leader's log.
type Table = VecProgress<u64, ProgressEntry<u64>, Option<LogId<u64>>, Joint<u64>>;

fn hold(table: &mut Table, node: &str, id: &str, sheet: &mut Sheet<'_>) {
    let node = sheet.number_of(node);
    let held = ProgressEntry {
        matching: Some(log_id_of(id, sheet)),
        ..ProgressEntry::empty(0)
    };
    match table.increase_to(&node, held) {
        Ok(granted) => show_id("granted", *granted, sheet),
        Err(granted) => show_id("still granted", *granted, sheet),
    }
}

fn upgrade(table: &mut Table, groups: &str, sheet: &mut Sheet<'_>) {
    if let Some(set) = joint(groups, sheet) {
        sheet.check(table.upgrade_quorum_set(set, &[], ProgressEntry::empty(0)));
        show_id("granted", *table.granted(), sheet);
    }
}

/// Each step in turn.
fn take(table: &mut Table, sheet: &mut Sheet<'_>) {
    for word in &sheet.words() {
        match word.split_once('=') {
            Some((node, id)) => hold(table, node, id, sheet),
            None => upgrade(table, word, sheet),
        }
    }
}

/// A line of these.
pub fn table_line(sheet: &mut Sheet<'_>) {
    let Some(set) = joint(sheet.word(), sheet) else {
        return;
    };
    let made = VecProgress::new(sheet.alloc(), set, &[], ProgressEntry::empty(0));
    if let Some(mut table) = kept(made, sheet) {
        take(&mut table, sheet);
    }
}
