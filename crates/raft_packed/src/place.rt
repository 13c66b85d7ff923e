//! Where the bytes of a state go on.

use raft_state::Items;

/// A place within a state's bytes: which, its machine says.
#[derive(Debug, Drop)]
pub enum Place {
    /// At the first byte.
    Front,

    /// At something that has these bytes for its name.
    Item(Items<u8>),

    /// Behind so many.
    Count(usize),

    /// Behind the last byte.
    End,
}
