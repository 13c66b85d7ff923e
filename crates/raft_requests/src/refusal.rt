//! Why words ask for nothing.

ghost use Rattle.std.specs.Prelude.{◌≡◌, ◌++◌, IfOk};
ghost use Rattle.raft_requests.specs.Refusals.{refusal_text};

use crate::command_name::CommandName;
use raft_state::Items;
use std::alloc::{AllocError, AllocFailed, Global};

/// Why a command is refused before it is run.
#[derive(Debug, Drop)]
pub enum Refusal {
    /// No command has this name. What is told of the name and of its arguments.
    UnknownCommand(Items<u8>),

    /// Too few or too many arguments.
    WrongNumberOfArguments(CommandName),

    /// SET's or SCAN's options contradict each other, or one isn't an option.
    Syntax,

    /// An option that EXPIRE doesn't have. What is told of it.
    UnsupportedOption(Items<u8>),

    /// NX beside XX, GT or LT.
    IncompatibleNx,

    /// GT beside LT.
    IncompatibleGtLt,

    /// What is to be a number isn't one of 64 bits with a sign.
    NotAnInteger,

    /// What is to be a cursor isn't a number of 64 bits.
    InvalidCursor,

    /// A time that doesn't fit, or isn't positive.
    InvalidExpireTime(CommandName),

    /// DECRBY can't take off the least number.
    DecrementOverflow,
}

/// Why words were not read.
#[derive(Debug, Drop)]
pub enum ParseError {
    /// Memory ran out.
    Memory,

    /// The command is refused.
    Refused(Refusal),
}

impl From<AllocError> for ParseError {
    ghost use Rattle.raft_requests.specs.declared.refusal.ParseError.TheVariants.{Memory};

    ghost from_gives = { λ _ e. e ≡ Memory };

    fn from(_: AllocError) -> ParseError {
        ParseError::Memory
    }
}

impl<T: Drop> From<AllocFailed<T>> for ParseError {
    ghost use Rattle.raft_requests.specs.declared.refusal.ParseError.TheVariants.{Memory};

    ghost from_gives = { λ _ e. e ≡ Memory };

    fn from(_: AllocFailed<T>) -> ParseError {
        ParseError::Memory
    }
}

/// A text around bytes.
fn around(alloc: Global, front: &str, middle: &[u8], back: &str) -> Result<Items<u8>, AllocError>
    ensures { IfOk result (λ text. text ≡ front.now ++ middle.now ++ back.now) }
{
    let mut text = Vec::from_slice(alloc, front.as_bytes())?;
    text.extend_from_slice(middle)?;
    text.extend_from_slice(back.as_bytes())?;
    Ok(Items::from_vec(text))
}

/// A text.
fn plain(alloc: Global, text: &str) -> Result<Items<u8>, AllocError>
    ensures { IfOk result (λ copied. copied ≡ text.now) }
{
    Ok(Items::from_vec(Vec::from_slice(alloc, text.as_bytes())?))
}

impl Refusal {
    /// The text of the error, as Redis writes it.
    pub fn text(&self, alloc: Global) -> Result<Items<u8>, AllocError>
        ensures { IfOk result (λ text. text ≡ refusal_text self.now) }
    {
        match self {
            Refusal::UnknownCommand(told) => {
                around(alloc, "ERR unknown command ", told.as_slice(), "")
            }
            Refusal::WrongNumberOfArguments(name) => around(
                alloc,
                "ERR wrong number of arguments for '",
                name.text().as_bytes(),
                "' command",
            ),
            Refusal::Syntax => plain(alloc, "ERR syntax error"),
            Refusal::UnsupportedOption(told) => {
                around(alloc, "ERR Unsupported option ", told.as_slice(), "")
            }
            Refusal::IncompatibleNx => plain(
                alloc,
                "ERR NX and XX, GT or LT options at the same time are not compatible",
            ),
            Refusal::IncompatibleGtLt => plain(
                alloc,
                "ERR GT and LT options at the same time are not compatible",
            ),
            Refusal::NotAnInteger => plain(alloc, "ERR value is not an integer or out of range"),
            Refusal::InvalidCursor => plain(alloc, "ERR invalid cursor"),
            Refusal::InvalidExpireTime(name) => around(
                alloc,
                "ERR invalid expire time in '",
                name.text().as_bytes(),
                "' command",
            ),
            Refusal::DecrementOverflow => plain(alloc, "ERR decrement would overflow"),
        }
    }
}
