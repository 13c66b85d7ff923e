//! Steps through keys, of which none holds a place from one to the next.

ghost use Rattle.std.specs.Prelude.{◌≡◌, ◌++◌, IfOk, OnOk, max};
ghost use Rattle.std.specs.Map.{keys_of};
ghost use Rattle.raft_machine.specs.Scans.{is_asked, asked, ends, walk};

use crate::command::{Page, ScanOptions};
use crate::cursors::cursor_of;
use crate::key::Key;
use crate::stored::Stored;
use raft_patterns::matches;
use raft_state::Items;
use std::alloc::{AllocError, Global};
use std::collections::btree_map::Range;

/// Whether a key is answered, if a step takes it.
fn is_asked(options: &ScanOptions, key: &[u8]) -> bool
    ensures { result ≡ is_asked options.now key.now }
{
    options.of_strings
        && match &options.pattern {
            Some(pattern) => matches(pattern.as_slice(), key),
            None => true,
        }
}

/// Adds a copy of a key if it is answered.
fn push_asked(
    alloc: Global,
    keys: &mut Vec<Items<u8>>,
    options: &ScanOptions,
    key: &[u8],
) -> Result<(), AllocError>
    ensures { OnOk result (keys.new.items ≡ keys.old.items ++ asked options.now key.now) }
{
    if is_asked(options, key) {
        keys.push(Items::from_vec(Vec::from_slice(alloc, key)?))?;
    }
    Ok(())
}

/// Whether no key is left to be taken, and the one before has another cursor.
fn ends(left: u64, last: u64, cursor: u64) -> bool
    ensures { result ≡ ends left last cursor }
{
    left == 0 && cursor != last
}

/// A step through keys in order, from the first of them on.
#[tactic(auto, using(crate::proofs::Scanning::walk_more, crate::proofs::Scanning::walk_stops, crate::proofs::Scanning::walk_ends))]
pub(crate) fn page(
    alloc: Global,
    options: &ScanOptions,
    entries: Range<'_, Key, Stored>,
) -> Result<Page, AllocError>
    ensures { IfOk result (λ page. page ≡ walk options.now (max options.now.count 1) 0 (keys_of entries.entry)) }
{
    let mut keys = Vec::new(alloc);
    let mut left = options.count.max(1);
    let mut last = 0;
    for (key, _) in entries {
        let cursor = cursor_of(key.as_slice());
        if ends(left, last, cursor) {
            return Ok(Page {
                cursor,
                keys: Items::from_vec(keys),
            });
        }
        push_asked(alloc, &mut keys, options, key.as_slice())?;
        left = left.saturating_sub(1);
        last = cursor;
    }
    Ok(Page {
        cursor: 0,
        keys: Items::from_vec(keys),
    })
}
