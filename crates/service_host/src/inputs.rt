//! Inputs.

ghost use Rattle.std.specs.Prelude.{IfOk};
ghost use Rattle.service_host.specs.Inputs.{IsInput};

use crate::bytes::{Cursor, Unread};
use crate::error::HostError;
use std::alloc::Global;

/// What a caller hands in.
#[derive(Debug, Drop)]
pub enum Input<'a> {
    /// The service's settings.
    Settings(&'a [u8]),
    /// The log's bytes: the service opens.
    Open(&'a [u8]),
    /// A frame of a peer.
    Peer(&'a [u8]),
    /// How many moments went by, as long as those of the settings; a random number; and the time in milliseconds since the Unix epoch.
    Tick {
        elapsed: u64,
        random: u64,
        now: u64,
    },
    /// A client connects.
    Connect(u64),
    /// What a client sent.
    Client {
        client: u64,
        bytes: &'a [u8],
    },
    /// A client is gone.
    Disconnect(u64),
    /// The disk is free.
    Write,
    /// The disk is free, and a new log may begin.
    BeginLog,
    /// The new log is on disk, and may take the old one's place.
    TakeOver,
    /// The new log can't be written.
    GiveUpLog,
    /// The next bytes of the new log are wanted.
    LogPiece,
    /// The log is on disk up to this position.
    Flushed(u64),
    /// The server gets the first entry of a new cluster.
    Initialize,
    /// These members are wanted.
    Members {
        voters: Vec<u64>,
        learners: Vec<u64>,
    },
    /// What the service tells of itself is wanted.
    Status,
    /// Nothing else is to be done.
    Idle,
}

/// The time, as its bytes.
fn read_time(alloc: Global, bytes: &[u8]) -> Result<u64, Unread> {
    let mut cursor = Cursor::new(alloc, bytes);
    let now = cursor.number()?;
    cursor.end()?;
    Ok(now)
}

/// Voters and learners, as their bytes.
fn read_members(alloc: Global, bytes: &[u8]) -> Result<(Vec<u64>, Vec<u64>), Unread> {
    let mut cursor = Cursor::new(alloc, bytes);
    let voters = cursor.numbers()?;
    let learners = cursor.numbers()?;
    cursor.end()?;
    Ok((voters, learners))
}

fn refusal_of(unread: Unread) -> HostError {
    match unread {
        Unread::OutOfMemory => HostError::OutOfMemory,
        Unread::Malformed => HostError::BadInput,
    }
}

/// The input of this number, with these numbers and bytes:
///
/// | Number | Input | First | Second | Bytes |
/// |--|--|--|--|--|
/// | 1 | settings | | | [`read_settings`](crate::read_settings) |
/// | 2 | open | | | the log's |
/// | 3 | peer | | | a frame |
/// | 4 | tick | moments that went by | a random number | the time in milliseconds since the Unix epoch |
/// | 5 | connect | client | | |
/// | 6 | client | client | | what it sent |
/// | 7 | disconnect | client | | |
/// | 8 | write | | | |
/// | 9 | flushed | the log's end on disk, or 0 | | |
/// | 10 | initialize | | | |
/// | 11 | members | | | voters and learners, each behind how many there are |
/// | 12 | status | | | |
/// | 13 | begin a log | | | |
/// | 14 | idle | | | |
/// | 15 | take over | | | |
/// | 16 | give up a log | | | |
/// | 17 | a piece of the new log | | | |
pub fn input_of(
    alloc: Global,
    number: u32,
    first: u64,
    second: u64,
    bytes: &[u8],
) -> Result<Input<'_>, HostError>
    ensures { IfOk result (λ input. IsInput number first second bytes.now input) }
{
    match number {
        1 => Ok(Input::Settings(bytes)),
        2 => Ok(Input::Open(bytes)),
        3 => Ok(Input::Peer(bytes)),
        4 => Ok(Input::Tick {
            elapsed: first,
            random: second,
            now: read_time(alloc, bytes).map_err(refusal_of)?,
        }),
        5 => Ok(Input::Connect(first)),
        6 => Ok(Input::Client {
            client: first,
            bytes,
        }),
        7 => Ok(Input::Disconnect(first)),
        8 => Ok(Input::Write),
        9 => Ok(Input::Flushed(first)),
        10 => Ok(Input::Initialize),
        11 => {
            let (voters, learners) = read_members(alloc, bytes).map_err(refusal_of)?;
            Ok(Input::Members { voters, learners })
        }
        12 => Ok(Input::Status),
        13 => Ok(Input::BeginLog),
        14 => Ok(Input::Idle),
        15 => Ok(Input::TakeOver),
        16 => Ok(Input::GiveUpLog),
        17 => Ok(Input::LogPiece),
        _ => Err(HostError::BadInput),
    }
}
