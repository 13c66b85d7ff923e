//! What comes of an action.

use proof_requests::raft_core::{CoreError, FrameError, RequestError};
use proof_requests::raft_packed_server::OpenError;
use std::fmt;

/// What comes of an action.
#[derive(Debug, Drop)]
pub enum Comes {
    /// There is no server with this id.
    NoServer,
    /// The server isn't open.
    NotOpen,
    /// The server is open already.
    AlreadyOpen,
    /// No such frame has left a server.
    NoFrame,
    /// The server opened: so many bytes of the disk are kept, of so many.
    Opened { end: usize, len: usize },
    /// The server didn't open.
    NotOpened(OpenError),
    /// It was done.
    Done,
    /// So many requests were answered.
    Answered(usize),
    /// The server has stopped by itself, and what it handed out is lost.
    Failed(CoreError),
    /// The client's request wasn't taken.
    Refused(RequestError),
    /// The frame wasn't taken.
    NotTaken(FrameError),
    /// So many bytes were handed out for the log's end, which they make this position.
    Written { len: usize, end: u64 },
    /// No record waits, or others are on their way to the disk.
    NothingWritten,
    /// What was handed out is on disk, which has so many bytes now.
    Flushed { len: usize },
    /// Nothing was handed out.
    NothingFlushed,
    /// A new log has begun beside the old one, and has so many bytes.
    Begun { len: usize },
    /// A new log has taken the old one's place on disk, which has so many bytes now.
    Replaced { len: usize },
    /// No new log begins, or takes the old one's place.
    NoNewLog,
    /// The server stopped, and its disk has so many bytes now.
    Crashed { len: usize },
    /// The disk has no such byte.
    NoByte,
}

/// Why a client's request wasn't taken, with the leader if one is known.
fn print_refusal<W: fmt::Write>(error: &RequestError, f: &mut fmt::Formatter<W>) -> fmt::Result {
    match error {
        RequestError::NotLeader {
            leader: Some(leader),
        } => write!(f, "refused: {leader} leads"),
        _ => write!(f, "refused: {error}"),
    }
}

impl fmt::Display for Comes {
    fn fmt<W: fmt::Write>(&self, f: &mut fmt::Formatter<W>) -> fmt::Result {
        match self {
            Comes::NoServer => f.write_str("no server"),
            Comes::NotOpen => f.write_str("not open"),
            Comes::AlreadyOpen => f.write_str("already open"),
            Comes::NoFrame => f.write_str("no frame"),
            Comes::Opened { end, len } => write!(f, "open on {end} of {len} bytes"),
            Comes::NotOpened(error) => write!(f, "not opened: {error}"),
            Comes::Done => f.write_str("done"),
            Comes::Answered(count) => write!(f, "{count} answers"),
            Comes::Failed(error) => write!(f, "failed: {error}"),
            Comes::Refused(error) => print_refusal(error, f),
            Comes::NotTaken(error) => write!(f, "refused: {error}"),
            Comes::Written { len, end } => write!(f, "{len} bytes, up to {end}"),
            Comes::NothingWritten => f.write_str("nothing to write"),
            Comes::Flushed { len } => write!(f, "{len} bytes on disk"),
            Comes::NothingFlushed => f.write_str("nothing to flush"),
            Comes::Begun { len } => write!(f, "a new log of {len} bytes"),
            Comes::Replaced { len } => write!(f, "{len} bytes on disk"),
            Comes::NoNewLog => f.write_str("no new log"),
            Comes::Crashed { len } => write!(f, "{len} bytes on disk"),
            Comes::NoByte => f.write_str("no such byte"),
        }
    }
}
