//! What requests are answered.

use crate::error::StoreError;
use crate::key_value::KeyValue;
use raft_state::Items;

/// RangeResponse.
#[derive(Drop)]
pub struct RangeResponse {
    /// Its header's revision.
    pub revision: u64,

    /// The keys.
    pub kvs: Items<KeyValue>,

    /// Whether there are more of them than the limit.
    pub more: bool,

    /// How many keys there are in the range.
    pub count: u64,
}

/// DeleteRangeResponse.
#[derive(Drop)]
pub struct DeleteRangeResponse {
    /// Its header's revision.
    pub revision: u64,

    /// How many keys were deleted.
    pub deleted: u64,

    /// What was stored there, if that was asked for.
    pub prev_kvs: Items<KeyValue>,
}

/// What is known of a lease.
#[derive(Drop)]
pub struct LeaseStatus {
    /// The whole seconds that are left.
    pub ttl: u64,

    /// The seconds that were granted.
    pub granted_ttl: u64,

    /// Its keys in order, if they were asked for.
    pub keys: Items<Items<u8>>,
}

/// What a request is answered that isn't refused.
#[derive(Drop)]
pub enum Response {
    /// Range.
    Range(RangeResponse),

    /// Put: its header's revision, and what was stored at the key, if that was asked for and there was such a key.
    Put(u64, Option<KeyValue>),

    /// DeleteRange.
    DeleteRange(DeleteRangeResponse),

    /// Txn: whether all comparisons held. How many of the responses behind it are those of its operations, one after the other.
    Txn { succeeded: bool, responses: u64 },

    /// Compact.
    Compacted,

    /// LeaseGrant: the seconds that were granted.
    Granted(u64),

    /// LeaseRevoke.
    Revoked,

    /// LeaseKeepAlive: the seconds until it expires, or 0 if there is no such lease.
    KeptAlive(u64),

    /// LeaseTimeToLive, or nothing if there is no such lease.
    TimeToLive(Option<LeaseStatus>),

    /// LeaseLeases: the ids, ascending.
    Leases(Items<u64>),
}

/// What a request is answered.
#[derive(Drop)]
pub struct Answer {
    /// The current revision once it was done.
    pub revision: u64,

    /// The response, behind which those of a transaction's operations stand; or why the request was refused, so that nothing changed.
    pub result: Result<Items<Response>, StoreError>,
}
