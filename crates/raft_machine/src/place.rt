//! Where a state's bytes go on that are written in pieces.

use crate::key::Key;

/// A place within a state's bytes.
#[derive(Debug, Drop)]
pub enum Place {
    /// At the first byte.
    Front,

    /// At this key, or the first one behind it.
    From(Key),

    /// At the client that this many were answered after, the latest first.
    Sessions(usize),

    /// Behind the last byte.
    End,
}
