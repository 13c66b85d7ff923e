//! Why a request is refused.

/// Why a request is refused, by etcd's names.
#[derive(Clone, Copy, Debug, PartialEq, Eq)]
pub enum StoreError {
    /// ErrEmptyKey: a key isn't given.
    EmptyKey,

    /// ErrValueProvided: a value is given beside `ignore_value`.
    ValueProvided,

    /// ErrLeaseProvided: a lease is given beside `ignore_lease`.
    LeaseProvided,

    /// ErrTooManyOps: a transaction has more operations than it may have.
    TooManyOps,

    /// ErrDuplicateKey: a transaction puts a key twice, or puts and deletes it.
    DuplicateKey,

    /// ErrKeyNotFound: what a key has is to stay, and there is no such key.
    KeyNotFound,

    /// ErrCompacted: the revision has been compacted.
    Compacted,

    /// ErrFutureRev: there is no such revision yet.
    FutureRevision,

    /// ErrLeaseNotFound: there is no such lease.
    LeaseNotFound,

    /// ErrLeaseExist: there is such a lease already.
    LeaseExists,

    /// ErrLeaseTTLTooLarge: more seconds are asked for than can be granted.
    LeaseTtlTooLarge,
}
