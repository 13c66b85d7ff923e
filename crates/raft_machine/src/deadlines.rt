//! When keys expire, the next one first.

ghost use Rattle.std.specs.Prelude.{◌≡◌, ◌<◌, ℕ, List, true, OnOk};
ghost use Rattle.std.specs.Bool.{OnTrue, OnFalse};
ghost use Rattle.std.specs.BTreeSet.{btree_set_len};
ghost use Rattle.raft_machine.specs.Deadlines.{has, KeepsAll, KeepsAllBut, IsDue, IsNoted};

use crate::key::Key;
use std::alloc::AllocError;
use std::collections::BTreeSet;

/// Moments, in milliseconds, with the keys that expire then. It may have more than the deadlines that count.
pub(crate) type Deadlines = BTreeSet<(u64, Vec<u8>)>;

/// Notes that a key expires at a moment. Out of memory, it isn't noted.
fn note_at(deadlines: &mut Deadlines, at: u64, key: Vec<u8>) -> Result<(), AllocError>
    ensures noted { OnOk result (has deadlines.new at key.items ≡ true) }
    ensures keeps { KeepsAll deadlines.old deadlines.new }
{
    deadlines.insert((at, key))?;
    Ok(())
}

/// Notes when a key expires, if it does. Out of memory, it isn't noted.
pub(crate) fn note(
    deadlines: &mut Deadlines,
    expires: Option<u64>,
    key: &Key,
) -> Result<(), AllocError>
    ensures noted { OnOk result (IsNoted deadlines.new expires key.now) }
    ensures keeps { KeepsAll deadlines.old deadlines.new }
{
    match expires {
        Some(at) => note_at(deadlines, at, key.copy_bytes()?),
        None => Ok(()),
    }
}

/// Forgets that a key expires at a moment.
pub(crate) fn forget(deadlines: &mut Deadlines, at: u64, key: Vec<u8>)
    ensures { KeepsAllBut deadlines.old deadlines.new at key.items }
{
    let pair = (at, key);
    deadlines.remove(&pair);
}

/// Whether a deadline isn't after a moment.
pub(crate) fn is_due(deadlines: &Deadlines, now: u64) -> bool
    ensures due { OnTrue result (IsDue deadlines.now.keys now) }
    ensures some { OnTrue result (0 < btree_set_len deadlines.now) }
    ensures later { OnFalse result ((t : ℕ) (k : List ℕ) → has deadlines.now t k ≡ true → now < t) }
{
    match deadlines.first() {
        Some(first) => first.0 <= now,
        None => false,
    }
}
