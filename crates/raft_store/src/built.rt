//! What the snapshot of a list of entries says of itself.

ghost use Rattle.std.specs.Prelude.{◌≡◌, IfOk, map};
ghost use Rattle.raft_state.specs.Log.{last};
ghost use Rattle.raft_store.specs.Built.{last_membership, meta_of};
ghost use Rattle.raft_store.specs.Entries.{entry_meaning};

use crate::entry::{Entry, Payload};
use raft_state::{LogId, SnapshotMeta, StoredMembership, Text};
use std::alloc::{AllocError, Global};

/// The id of the last entry.
fn last_id(entries: &[Entry]) -> Option<LogId<u64>>
    ensures { result ≡ last (map entry_meaning.id_of entries.now) }
{
    entries.last().map(|entry| entry.log_id)
}

/// The membership of the last entry that has one, with that entry's id.
fn last_membership(
    alloc: Global,
    entries: &[Entry],
) -> Result<StoredMembership<u64, ()>, AllocError>
    ensures { IfOk result (λ m. m ≡ last_membership entry_meaning entries.now) }
{
    let mut last = None;
    for entry in entries {
        if let Payload::Membership(membership) = &entry.payload {
            last = Some((entry.log_id, membership));
        }
    }
    match last {
        Some((log_id, membership)) => Ok(StoredMembership {
            log_id: Some(log_id),
            membership: membership.copy()?,
        }),
        None => Ok(StoredMembership::empty(alloc)),
    }
}

/// The meta of a snapshot of these entries: their last id and their last membership (Raft paper, section 7). Its own id
/// is empty.
pub fn meta_of(alloc: Global, entries: &[Entry]) -> Result<SnapshotMeta<u64, ()>, AllocError>
    ensures { IfOk result (λ meta. meta ≡ meta_of entry_meaning entries.now) }
{
    Ok(SnapshotMeta {
        last_log_id: last_id(entries),
        last_membership: last_membership(alloc, entries)?,
        snapshot_id: Text::new(alloc),
    })
}
