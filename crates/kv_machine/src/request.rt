//! Requests, with the names and fields of etcd's API. What etcd has as a signed number is 0 here if it is negative.

use raft_state::Items;

/// How the keys of a range are ordered.
#[derive(Clone, Copy, Debug, PartialEq, Eq)]
pub enum SortOrder {
    /// As they come: ascending by what they are sorted by.
    None,

    /// Ascending.
    Ascend,

    /// Descending.
    Descend,
}

/// By what the keys of a range are sorted.
#[derive(Clone, Copy, Debug, PartialEq, Eq)]
pub enum SortTarget {
    /// Their bytes.
    Key,

    /// How many puts they have.
    Version,

    /// The revision of their first put.
    Create,

    /// The revision of their last put.
    Mod,

    /// Their values' bytes.
    Value,
}

/// RangeRequest.
#[derive(Drop)]
pub struct RangeRequest {
    /// The first key.
    pub key: Items<u8>,

    /// The key behind the last. None: the first key alone; one zero byte: all keys from the first on.
    pub range_end: Items<u8>,

    /// How many keys are answered at most. 0: any number.
    pub limit: u64,

    /// At which revision. 0: the current one.
    pub revision: u64,

    /// In which order.
    pub sort_order: SortOrder,

    /// By what they are sorted.
    pub sort_target: SortTarget,

    /// Whether values are left out.
    pub keys_only: bool,

    /// Whether all is left out but the count.
    pub count_only: bool,

    /// Keys last put before are left out. 0: none are.
    pub min_mod_revision: u64,

    /// Keys last put behind it are left out. 0: none are.
    pub max_mod_revision: u64,

    /// Keys first put before are left out. 0: none are.
    pub min_create_revision: u64,

    /// Keys first put behind it are left out. 0: none are.
    pub max_create_revision: u64,
}

/// PutRequest.
#[derive(Drop)]
pub struct PutRequest {
    /// The key.
    pub key: Items<u8>,

    /// Its value.
    pub value: Items<u8>,

    /// The lease that it is attached to, or 0.
    pub lease: u64,

    /// Whether what was stored there before is answered.
    pub prev_kv: bool,

    /// Whether the key's value stays.
    pub ignore_value: bool,

    /// Whether the key's lease stays.
    pub ignore_lease: bool,
}

/// DeleteRangeRequest.
#[derive(Drop)]
pub struct DeleteRangeRequest {
    /// The first key.
    pub key: Items<u8>,

    /// The key behind the last, as in [`RangeRequest`].
    pub range_end: Items<u8>,

    /// Whether what was stored at the keys is answered.
    pub prev_kv: bool,
}

/// What a comparison's two sides are to be.
#[derive(Clone, Copy, Debug, PartialEq, Eq)]
pub enum CompareResult {
    /// EQUAL.
    Equal,

    /// GREATER.
    Greater,

    /// LESS.
    Less,

    /// NOT_EQUAL.
    NotEqual,
}

/// What of a key is compared, and with what.
#[derive(Drop)]
pub enum CompareTarget {
    /// VERSION.
    Version(u64),

    /// CREATE.
    Create(u64),

    /// MOD.
    Mod(u64),

    /// VALUE.
    Value(Items<u8>),

    /// LEASE.
    Lease(u64),
}

/// Compare.
#[derive(Drop)]
pub struct Compare {
    /// What the comparison is to come to.
    pub result: CompareResult,

    /// What of each key is compared, and with what.
    pub target: CompareTarget,

    /// The first key.
    pub key: Items<u8>,

    /// The key behind the last, as in [`RangeRequest`].
    pub range_end: Items<u8>,
}

/// RequestOp.
#[derive(Drop)]
#[cycle(txn)]
pub enum RequestOp {
    /// A range.
    Range(RangeRequest),

    /// A put.
    Put(PutRequest),

    /// Keys are deleted.
    DeleteRange(DeleteRangeRequest),

    /// A transaction within.
    Txn(TxnRequest),
}

/// TxnRequest.
#[derive(Drop)]
#[cycle(txn)]
pub struct TxnRequest {
    /// What is compared.
    pub compare: Items<Compare>,

    /// What is done if all comparisons hold.
    pub success: Vec<RequestOp>,

    /// What is done else.
    pub failure: Vec<RequestOp>,
}

/// What a request asks for.
#[derive(Drop)]
pub enum Operation {
    /// Range.
    Range(RangeRequest),

    /// Put.
    Put(PutRequest),

    /// DeleteRange.
    DeleteRange(DeleteRangeRequest),

    /// Txn.
    Txn(TxnRequest),

    /// Compact, up to a revision.
    Compact(u64),

    /// LeaseGrant: an id, which isn't 0, and the seconds that are asked for.
    LeaseGrant { id: u64, ttl: u64 },

    /// LeaseRevoke.
    LeaseRevoke(u64),

    /// LeaseKeepAlive.
    LeaseKeepAlive(u64),

    /// LeaseTimeToLive, and whether the lease's keys are answered.
    LeaseTimeToLive { id: u64, keys: bool },

    /// LeaseLeases.
    LeaseLeases,
}

/// A request, as it stands in an entry of the log.
#[derive(Drop)]
pub struct Request {
    /// When the leader took it, in milliseconds since the Unix epoch.
    pub moment: u64,

    /// What it asks for.
    pub operation: Operation,
}
