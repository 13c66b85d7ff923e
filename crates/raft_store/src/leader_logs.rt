//! Logs by leader.

ghost use Rattle.std.specs.Prelude.{◌≡◌, [], IfOk, OnOk, OnErr};
ghost use Rattle.raft_store.specs.LeaderLogs.{Adds, log_of};

use crate::entry::{Entry, copy_entries};
use raft_state::LeaderId;
use std::alloc::{AllocError, Global};
use std::collections::BTreeMap;
use std::marker::Model;

/// The entries of one leader's log.
#[derive(Debug, Drop)]
struct LeaderLog {
    entries: Vec<Entry>,
}

impl Model for LeaderLog {
    ghost use Rattle.std.specs.Prelude.{List};
    ghost use Rattle.raft_store.specs.declared.entry.Entry.{Entry};

    ghost Value = { List Entry };

    ghost view = { λ s. s.entries.items };
}

impl Clone for LeaderLog {
    ghost is_clone = { λ s r. r ≡ s };

    fn clone(&self) -> Result<Self, AllocError> {
        Ok(LeaderLog {
            entries: copy_entries(*self.entries.allocator(), &self.entries)?,
        })
    }
}

/// A list of entries for each leader id.
#[derive(Debug, Drop)]
pub struct LeaderLogs {
    map: BTreeMap<LeaderId<u64>, LeaderLog>,
}

impl Model for LeaderLogs {
    ghost use Rattle.std.specs.Prelude.{List, ℕ};
    ghost use Rattle.raft_state.specs.declared.ids.LeaderId.{LeaderId};
    ghost use Rattle.raft_store.specs.declared.entry.Entry.{Entry};

    ghost Value = { List (LeaderId ℕ × List Entry) };

    ghost view = { λ s. s.map.entries };
}

impl LeaderLogs {
    /// No log.
    pub fn new(alloc: Global) -> Self
        ensures { result ≡ [] }
    {
        LeaderLogs {
            map: BTreeMap::new(alloc),
        }
    }

    /// The log of a leader; where there is none, it is empty.
    pub fn of(&self, leader_id: &LeaderId<u64>) -> &[Entry]
        ensures { result.now ≡ log_of self.now leader_id.now }
    {
        match self.map.get(leader_id) {
            Some(log) => &log.entries,
            None => &[],
        }
    }

    /// Appends entries to the log of a leader. Out of memory, it stays as it was.
    pub fn append(&mut self, leader_id: LeaderId<u64>, more: Vec<Entry>) -> Result<(), AllocError>
        ensures ok { OnOk result (Adds leader_id more.items self.old self.new) }
        ensures err { OnErr result (Adds leader_id [] self.old self.new) }
    {
        let mut more = more;
        match self.map.get_mut(&leader_id) {
            Some(log) => log.entries.append(&mut more),
            None => {
                self.map.insert(leader_id, LeaderLog { entries: more })?;
                Ok(())
            }
        }
    }

    /// A copy of all logs.
    pub fn copy(&self) -> Result<Self, AllocError>
        ensures { IfOk result (λ copied. copied ≡ self.now) }
    {
        Ok(LeaderLogs {
            map: self.map.clone()?,
        })
    }
}
