//! What a connection refuses, in Redis' words.

ghost use Rattle.std.specs.Prelude.{◌≡◌, ◌++◌, IfOk};
ghost use Rattle.raft_connection.specs.Refusals.{refusal_text, fault_text, help, byte_of};

use crate::own_command::OwnCommand;
use raft_state::Items;
use std::alloc::{AllocError, AllocFailed, Global};

/// Why a request is refused.
#[derive(Debug, Drop)]
pub(crate) enum Refusal {
    /// What the client sent is no request.
    Protocol(raft_resp::Fault),
    /// What the words spell is no command of the state machine.
    Command(raft_requests::Refusal),
    /// The client has to authenticate itself first.
    NotAuthenticated,
    /// The same, of HELLO.
    NotAuthenticatedHello,
    /// AUTH with a word alone, and no secret is set.
    NoSecret,
    WrongSecret,
    WrongNumberOfArguments(OwnCommand),
    Syntax,
    /// A subcommand that the command doesn't have. What is told of it.
    UnknownSubcommand(OwnCommand, Items<u8>),
    /// HELLO with what is no number.
    NoVersion,
    /// HELLO with a version other than 2 and 3.
    UnsupportedVersion,
    /// An option that HELLO doesn't have. What is told of it.
    HelloOption(Items<u8>),
    /// What is to be a client's name has spaces, ends of lines or other bytes without a sign.
    ClientName,
    NotAnInteger,
    /// SELECT of a database other than the first.
    NoSuchDatabase,
    NestedMulti,
    ExecWithoutMulti,
    DiscardWithoutMulti,
    /// EXEC after a command that was refused.
    ExecAborted,
    /// EXEC with arguments.
    ExecArguments,
    /// A transaction has too many commands.
    LongTransaction,
    /// A command of the connection's own, within a transaction.
    NotInTransaction,
    /// ONCE of a command of the connection's own other than EXEC.
    NotInOnce,
    WatchInMulti,
    /// WATCH: the state machine doesn't watch keys.
    NoWatching,
}

/// Why a function stops.
#[derive(Debug, Drop)]
pub(crate) enum Stop {
    OutOfMemory,
    Refused(Refusal),
}

impl From<AllocError> for Stop {
    ghost use Rattle.raft_connection.specs.declared.refusal.Stop.TheVariants.{OutOfMemory};

    ghost from_gives = { λ _ e. e ≡ OutOfMemory };

    fn from(_: AllocError) -> Self {
        Stop::OutOfMemory
    }
}

impl<T: Drop> From<AllocFailed<T>> for Stop {
    ghost use Rattle.raft_connection.specs.declared.refusal.Stop.TheVariants.{OutOfMemory};

    ghost from_gives = { λ _ e. e ≡ OutOfMemory };

    fn from(_: AllocFailed<T>) -> Self {
        Stop::OutOfMemory
    }
}

/// A text.
fn plain(alloc: Global, text: &str) -> Result<Items<u8>, AllocError>
    ensures { IfOk result (λ copied. copied ≡ text.now) }
{
    Ok(Items::from_vec(Vec::from_slice(alloc, text.as_bytes())?))
}

/// A text around bytes.
fn around(alloc: Global, front: &str, middle: &[u8], back: &str) -> Result<Items<u8>, AllocError>
    ensures { IfOk result (λ text. text ≡ front.now ++ middle.now ++ back.now) }
{
    let mut text = Vec::from_slice(alloc, front.as_bytes())?;
    text.extend_from_slice(middle)?;
    text.extend_from_slice(back.as_bytes())?;
    Ok(Items::from_vec(text))
}

/// Where to look for a command's subcommands.
fn help(command: OwnCommand) -> &'static str
    ensures { result.now ≡ help command }
{
    match command {
        OwnCommand::Client => "'. Try CLIENT HELP.",
        OwnCommand::Config => "'. Try CONFIG HELP.",
        _ => "'. Try COMMAND HELP.",
    }
}

/// A character's byte. There are no others, as it comes from a byte.
fn byte_of(mark: char) -> u8
    ensures { result ≡ byte_of mark }
{
    u8::try_from(u32::from(mark)).unwrap_or(b'?')
}

/// What is wrong with a client's bytes.
fn protocol_error(alloc: Global, fault: raft_resp::Fault) -> Result<Items<u8>, AllocError>
    ensures { IfOk result (λ text. text ≡ fault_text fault) }
{
    match fault {
        raft_resp::Fault::Count => plain(alloc, "ERR Protocol error: invalid multibulk length"),
        raft_resp::Fault::Length => plain(alloc, "ERR Protocol error: invalid bulk length"),
        raft_resp::Fault::Mark(mark) => around(
            alloc,
            "ERR Protocol error: expected '$', got '",
            &[byte_of(mark)],
            "'",
        ),
        raft_resp::Fault::LongCount => {
            plain(alloc, "ERR Protocol error: too big mbulk count string")
        }
        raft_resp::Fault::LongLength => {
            plain(alloc, "ERR Protocol error: too big bulk count string")
        }
        raft_resp::Fault::LongLine => { plain(alloc, "ERR Protocol error: too big inline request") }
        raft_resp::Fault::Quotes => {
            plain(alloc, "ERR Protocol error: unbalanced quotes in request")
        }
        raft_resp::Fault::End => plain(alloc, "ERR Protocol error: expected CRLF"),
    }
}

impl Refusal {
    /// The text of the error.
    pub(crate) fn text(&self, alloc: Global) -> Result<Items<u8>, AllocError>
        ensures { IfOk result (λ text. text ≡ refusal_text self.now) }
    {
        match self {
            Refusal::Protocol(fault) => protocol_error(alloc, *fault),
            Refusal::Command(refusal) => refusal.text(alloc),
            Refusal::NotAuthenticated => plain(alloc, "NOAUTH Authentication required."),
            Refusal::NotAuthenticatedHello => plain(
                alloc,
                "NOAUTH HELLO must be called with the client already authenticated, otherwise the HELLO AUTH <user> <pass> option can be used to authenticate the client and select the RESP protocol version at the same time",
            ),
            Refusal::NoSecret => plain(
                alloc,
                "ERR AUTH <password> called without any password configured for the default user. Are you sure your configuration is correct?",
            ),
            Refusal::WrongSecret => plain(
                alloc,
                "WRONGPASS invalid username-password pair or user is disabled.",
            ),
            Refusal::WrongNumberOfArguments(command) => around(
                alloc,
                "ERR wrong number of arguments for '",
                command.text().as_bytes(),
                "' command",
            ),
            Refusal::Syntax => plain(alloc, "ERR syntax error"),
            Refusal::UnknownSubcommand(command, told) => around(
                alloc,
                "ERR unknown subcommand '",
                told.as_slice(),
                help(*command),
            ),
            Refusal::NoVersion => plain(
                alloc,
                "ERR Protocol version is not an integer or out of range",
            ),
            Refusal::UnsupportedVersion => plain(alloc, "NOPROTO unsupported protocol version"),
            Refusal::HelloOption(told) => {
                around(
                    alloc,
                    "ERR Syntax error in HELLO option '",
                    told.as_slice(),
                    "'",
                )
            }
            Refusal::ClientName => plain(
                alloc,
                "ERR Client names cannot contain spaces, newlines or special characters.",
            ),
            Refusal::NotAnInteger => plain(alloc, "ERR value is not an integer or out of range"),
            Refusal::NoSuchDatabase => plain(alloc, "ERR DB index is out of range"),
            Refusal::NestedMulti => plain(alloc, "ERR MULTI calls can not be nested"),
            Refusal::ExecWithoutMulti => plain(alloc, "ERR EXEC without MULTI"),
            Refusal::DiscardWithoutMulti => plain(alloc, "ERR DISCARD without MULTI"),
            Refusal::ExecAborted => plain(
                alloc,
                "EXECABORT Transaction discarded because of previous errors.",
            ),
            Refusal::ExecArguments => plain(
                alloc,
                "EXECABORT Transaction discarded because of: wrong number of arguments for 'exec' command",
            ),
            Refusal::LongTransaction => plain(alloc, "ERR too many commands in the transaction"),
            Refusal::NotInTransaction => {
                plain(alloc, "ERR Command not allowed inside a transaction")
            }
            Refusal::NotInOnce => plain(alloc, "ERR Command not allowed inside ONCE"),
            Refusal::WatchInMulti => plain(alloc, "ERR WATCH inside MULTI is not allowed"),
            Refusal::NoWatching => plain(alloc, "ERR watching keys is not supported"),
        }
    }
}
