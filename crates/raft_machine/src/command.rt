//! Commands, as they stand in an entry of the log, and what they answer.

ghost use Rattle.std.specs.Prelude.{◌≡◌};

use raft_state::Items;

/// A step through the keys.
#[derive(Debug, Drop)]
pub struct ScanOptions {
    /// Where it begins: 0, or what the step before answered.
    pub cursor: u64,

    /// How many keys it takes at least, if there are so many. None counts as one.
    pub count: u64,

    /// MATCH: which keys are answered of those that it takes, or none for each of them.
    pub pattern: Option<Items<u8>>,

    /// TYPE: whether keys of strings are answered, which all keys are.
    pub of_strings: bool,
}

/// What reads keys, and changes nothing.
#[derive(Debug, Drop)]
pub enum Query {
    /// GET: a key's value.
    Get(Items<u8>),

    /// MGET: the value of each key.
    GetMany(Items<Items<u8>>),

    /// EXISTS: how many of the keys there are, each as often as it is named.
    Exists(Items<Items<u8>>),

    /// STRLEN: how many bytes a key's value has.
    Length(Items<u8>),

    /// DBSIZE: how many keys there are.
    Size,

    /// PTTL: in how many milliseconds a key expires.
    Remaining(Items<u8>),

    /// TTL: in how many seconds a key expires, rounded to the nearest.
    RemainingSeconds(Items<u8>),

    /// PEXPIRETIME: when a key expires, in milliseconds since the Unix epoch.
    Deadline(Items<u8>),

    /// EXPIRETIME: when a key expires, in seconds since the Unix epoch, rounded to the nearest.
    DeadlineSeconds(Items<u8>),

    /// SCAN: a step through the keys.
    Scan(ScanOptions),
}

/// Whether a value is to be set.
#[derive(Clone, Copy, Debug, PartialEq, Eq)]
pub enum Condition {
    /// In each case.
    Always,

    /// NX: if there is no such key.
    IfAbsent,

    /// XX: if there is such a key.
    IfPresent,
}

/// When a value that is set expires.
#[derive(Clone, Copy, Debug, PartialEq, Eq)]
pub enum Expiry {
    /// It doesn't.
    Never,

    /// KEEPTTL: when the value before would have.
    Keep,

    /// At a moment, in milliseconds since the Unix epoch. A leader counts it from its clock, once, before the entry is in the log.
    At(u64),
}

/// What setting a value answers.
#[derive(Clone, Copy, Debug, PartialEq, Eq)]
pub enum SetReply {
    /// SET: that it is done, or null if it isn't.
    Status,

    /// SET with GET, GETSET: the value before.
    Old,

    /// SETNX: 1 if it is done, or 0 if it isn't.
    Flag,
}

/// How a value is set.
#[derive(Clone, Copy, Debug, PartialEq, Eq)]
pub struct SetOptions {
    /// Whether it is.
    pub condition: Condition,

    /// When it expires.
    pub expiry: Expiry,

    /// What is answered.
    pub reply: SetReply,
}

/// Whether a key is to expire then.
#[derive(Clone, Copy, Debug, PartialEq, Eq)]
pub enum ExpireCondition {
    /// In each case.
    Always,

    /// NX: if it doesn't expire yet.
    IfPersistent,

    /// XX: if it expires.
    IfVolatile,

    /// GT, also with XX: if it expires, and earlier.
    IfLater,

    /// LT: if it doesn't expire yet, or later.
    IfEarlier,

    /// XX and LT: if it expires, and later.
    IfVolatileAndEarlier,
}

/// A command. None of them asks a clock or chooses at random, so each server answers it alike.
#[derive(Debug, Drop)]
pub enum Command {
    /// Reads keys.
    Read(Query),

    /// SET, SETNX, GETSET: sets a key's value.
    Set {
        /// The key.
        key: Items<u8>,

        /// Its value.
        value: Items<u8>,

        /// How it is set.
        options: SetOptions,
    },

    /// MSET: sets keys, from the first pair to the last. None of them expires.
    SetMany(Items<(Items<u8>, Items<u8>)>),

    /// Sets a key's value if the one before is as expected. It doesn't expire. Answers 1 if it is set, or 0.
    CompareAndSet {
        /// The key.
        key: Items<u8>,

        /// The value before, or none if there is to be no such key.
        expected: Option<Items<u8>>,

        /// Its value.
        value: Items<u8>,
    },

    /// APPEND: adds bytes at the end of a key's value.
    Append(Items<u8>, Items<u8>),

    /// INCR, DECR, INCRBY, DECRBY: adds to a key's number.
    Increment(Items<u8>, i64),

    /// DEL: removes keys.
    Delete(Items<Items<u8>>),

    /// GETDEL: removes a key, and answers its value.
    Take(Items<u8>),

    /// PEXPIREAT, to which EXPIRE, PEXPIRE and EXPIREAT lead: lets a key expire at a moment, in milliseconds since the Unix epoch.
    Expire {
        /// The key.
        key: Items<u8>,

        /// The moment.
        at: u64,

        /// Whether it is to.
        condition: ExpireCondition,
    },

    /// PERSIST: lets a key not expire.
    Persist(Items<u8>),
}

/// Why a command did nothing.
#[derive(Clone, Copy, Debug, PartialEq, Eq)]
pub enum Failure {
    /// The value is no number of 64 bits with a sign.
    NotAnInteger,

    /// The sum is no number of 64 bits with a sign.
    Overflow,

    /// The value would be longer than 512 MB.
    TooLong,
}

impl Failure {
    ghost use Rattle.raft_machine.specs.Failure.{text_of};

    /// The text of the error, as Redis writes it.
    pub fn text(self) -> &'static str
        ensures { result.now ≡ text_of self }
    {
        match self {
            Failure::NotAnInteger => "ERR value is not an integer or out of range",
            Failure::Overflow => "ERR increment or decrement would overflow",
            Failure::TooLong => "ERR string exceeds maximum allowed size (proto-max-bulk-len)",
        }
    }
}

/// What a step through the keys answers.
#[derive(Debug, Drop)]
pub struct Page {
    /// Where the next step begins, or 0 if no key is left.
    pub cursor: u64,

    /// The keys.
    pub keys: Items<Items<u8>>,
}

/// What a command answers.
#[derive(Debug, Drop)]
pub enum Reply {
    /// It is done.
    Done,

    /// There is nothing.
    Null,

    /// A number.
    Integer(i64),

    /// How many there are.
    Count(u64),

    /// Bytes.
    Bulk(Items<u8>),

    /// A value for each key, or none.
    Values(Items<Option<Items<u8>>>),

    /// It did nothing.
    Failed(Failure),

    /// Keys, and where the next step begins.
    Scanned(Page),
}
