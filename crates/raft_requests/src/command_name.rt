//! The names of commands.

ghost use Rattle.std.specs.Prelude.{◌≡◌, find};
ghost use Rattle.raft_requests.specs.Names.{text_of, named, is_named};

use crate::words::is_same_word;

/// The name of a command.
#[derive(Clone, Copy, Debug, PartialEq, Eq)]
pub enum CommandName {
    /// APPEND
    Append,

    /// CAS: no command of Redis. Sets a key's value if the one before is as expected.
    CompareAndSet,

    /// DBSIZE
    DbSize,

    /// DECR
    Decr,

    /// DECRBY
    DecrBy,

    /// DEL
    Del,

    /// EXISTS
    Exists,

    /// EXPIRE
    Expire,

    /// EXPIREAT
    ExpireAt,

    /// EXPIRETIME
    ExpireTime,

    /// GET
    Get,

    /// GETDEL
    GetDel,

    /// GETSET
    GetSet,

    /// INCR
    Incr,

    /// INCRBY
    IncrBy,

    /// MGET
    MGet,

    /// MSET
    MSet,

    /// PERSIST
    Persist,

    /// PEXPIRE
    PExpire,

    /// PEXPIREAT
    PExpireAt,

    /// PEXPIRETIME
    PExpireTime,

    /// PTTL
    PTtl,

    /// SCAN
    Scan,

    /// SET
    Set,

    /// SETNX
    SetNx,

    /// STRLEN
    StrLen,

    /// TTL
    Ttl,
}

/// Each name.
const NAMES: [CommandName; 27] = [
    CommandName::Append,
    CommandName::CompareAndSet,
    CommandName::DbSize,
    CommandName::Decr,
    CommandName::DecrBy,
    CommandName::Del,
    CommandName::Exists,
    CommandName::Expire,
    CommandName::ExpireAt,
    CommandName::ExpireTime,
    CommandName::Get,
    CommandName::GetDel,
    CommandName::GetSet,
    CommandName::Incr,
    CommandName::IncrBy,
    CommandName::MGet,
    CommandName::MSet,
    CommandName::Persist,
    CommandName::PExpire,
    CommandName::PExpireAt,
    CommandName::PExpireTime,
    CommandName::PTtl,
    CommandName::Scan,
    CommandName::Set,
    CommandName::SetNx,
    CommandName::StrLen,
    CommandName::Ttl,
];

/// The first of these names that a word is, in any case.
fn find_named(names: &[CommandName], word: &[u8]) -> Option<CommandName>
    ensures { result ≡ find (is_named word.now) names.now }
{
    for name in names {
        if is_same_word(name.text().as_bytes(), word) {
            return Some(*name);
        }
    }
    None
}

impl CommandName {
    /// The name as errors write it, in lower case.
    pub fn text(self) -> &'static str
        ensures { result.now ≡ text_of self }
    {
        match self {
            CommandName::Append => "append",
            CommandName::CompareAndSet => "cas",
            CommandName::DbSize => "dbsize",
            CommandName::Decr => "decr",
            CommandName::DecrBy => "decrby",
            CommandName::Del => "del",
            CommandName::Exists => "exists",
            CommandName::Expire => "expire",
            CommandName::ExpireAt => "expireat",
            CommandName::ExpireTime => "expiretime",
            CommandName::Get => "get",
            CommandName::GetDel => "getdel",
            CommandName::GetSet => "getset",
            CommandName::Incr => "incr",
            CommandName::IncrBy => "incrby",
            CommandName::MGet => "mget",
            CommandName::MSet => "mset",
            CommandName::Persist => "persist",
            CommandName::PExpire => "pexpire",
            CommandName::PExpireAt => "pexpireat",
            CommandName::PExpireTime => "pexpiretime",
            CommandName::PTtl => "pttl",
            CommandName::Scan => "scan",
            CommandName::Set => "set",
            CommandName::SetNx => "setnx",
            CommandName::StrLen => "strlen",
            CommandName::Ttl => "ttl",
        }
    }

    /// The name that a word is, in any case.
    #[tactic(auto, unfolding(crate::specs::Names::named))]
    pub fn of(word: &[u8]) -> Option<Self>
        ensures { result ≡ named word.now }
    {
        find_named(&NAMES, word)
    }
}
