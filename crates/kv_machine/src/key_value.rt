//! Keys with what is stored at them, and events.

ghost use Rattle.std.specs.Prelude.{◌≡◌, IfOk};

use raft_state::Items;
use std::alloc::AllocError;

/// What is stored at a key: etcd's `KeyValue` without its key.
#[derive(Debug, Drop)]
pub struct Stored {
    /// The revision of the first put since the key last didn't exist.
    pub create_revision: u64,

    /// The revision of the last put.
    pub mod_revision: u64,

    /// How many puts there were since the key last didn't exist.
    pub version: u64,

    /// The lease that the key is attached to, or 0.
    pub lease: u64,

    /// The value.
    pub value: Items<u8>,
}

impl Stored {
    /// A copy.
    pub(crate) fn copy(&self) -> Result<Self, AllocError>
        ensures { IfOk result (λ copied. copied ≡ self.now) }
    {
        Ok(Stored {
            create_revision: self.create_revision,
            mod_revision: self.mod_revision,
            version: self.version,
            lease: self.lease,
            value: self.value.copy()?,
        })
    }
}

/// A key, and what is stored there.
#[derive(Debug, Drop)]
pub struct KeyValue {
    /// The key.
    pub key: Items<u8>,

    /// What is stored there.
    pub stored: Stored,
}

/// What happens to a key in a revision.
#[derive(Debug, Drop)]
pub enum Event {
    /// PUT: this is stored at the key from now on.
    Put(Items<u8>, Stored),

    /// DELETE: the key doesn't exist from now on.
    Delete(Items<u8>),
}

/// A lease that was granted.
#[derive(Clone, Copy, Debug, Drop, PartialEq, Eq)]
pub struct Lease {
    /// The seconds that were granted.
    pub ttl: u64,

    /// From which moment on it has expired, in milliseconds since the Unix epoch.
    pub deadline: u64,
}
