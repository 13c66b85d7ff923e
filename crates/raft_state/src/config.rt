//! The types that an application chooses.

ghost use Rattle.std.specs.Prelude.{◌≡◌, IfOk, map};
ghost use Rattle.std.specs.Option.{option_copied};

use crate::ids::LogId;
use crate::membership::Membership;
use crate::node::{Node, NodeId};
use std::alloc::{AllocError, Global};

/// An entry of the log: a no-op, data of the application, or a membership (openraft's `RaftEntry` with `RaftPayload`
/// and `RaftLogId`).
pub trait RaftEntry<NID: NodeId, N: Node>: Drop {
    ghost use Rattle.std.specs.Prelude.{Option, None};
    ghost use Rattle.raft_state.specs.declared.ids.LogId.{LogId};
    ghost use Rattle.raft_state.specs.declared.membership.Members.{Members};

    /// The entry's log id.
    ghost id_of: { Self → LogId NID };

    /// The membership that the entry holds, if any.
    ghost membership_of: { Self → Option (Members NID N) };

    /// The no-op entry with an id.
    ghost blank: { LogId NID → Self };

    /// The entry with another id.
    ghost with_id: { Self → LogId NID → Self };

    /// A no-op entry: it has this id and no membership.
    fn new_blank(log_id: LogId<NID>) -> Self
        ensures { result ≡ blank log_id };

    /// The entry's log id.
    fn get_log_id(&self) -> &LogId<NID>
        ensures { result.now ≡ id_of self.now };

    /// Gives the entry another id. Its membership stays.
    fn set_log_id(&mut self, id: &LogId<NID>)
        ensures { self.new ≡ with_id self.old id.now };

    /// The membership that the entry holds, if any.
    fn get_membership(&self) -> Option<&Membership<NID, N>>
        ensures { option_copied result ≡ membership_of self.now };

    /// A no-op entry has its id and no membership.
    ghost blank_has: { (id : LogId NID) → (id_of (blank id) ≡ id) × (membership_of (blank id) ≡ None) };

    /// An entry with another id has that id and the same membership.
    ghost with_id_has: { (entry : Self) (id : LogId NID) → (id_of (with_id entry id) ≡ id) × (membership_of (with_id entry id) ≡ membership_of entry) };
}

/// The types of an application (openraft's `RaftTypeConfig`).
pub trait RaftTypeConfig {
    /// The ids of nodes.
    type NodeId: NodeId;

    /// The data of a node besides its id.
    type Node: Node;

    /// The entries of the log.
    type Entry: RaftEntry<Self::NodeId, Self::Node>;

    /// The data of a write.
    type D: Drop;

    /// The application's response to a write.
    type R: Drop;

    /// The data of a snapshot.
    type SnapshotData: Drop;
}

/// The log ids of entries, in their order.
pub fn log_ids<NID: NodeId, N: Node, E: RaftEntry<NID, N>>(
    alloc: Global,
    entries: &[E],
) -> Result<Vec<LogId<NID>>, AllocError>
    ensures { IfOk result (λ ids. ids.items ≡ map E.id_of entries.now) }
{
    let mut ids = Vec::with_capacity(alloc, entries.len())?;
    for entry in entries {
        ids.push(*entry.get_log_id())?;
    }
    Ok(ids)
}
