//! What happened to a key, with what was there before.

ghost use Rattle.std.specs.Prelude.{◌≡◌};

use crate::shared::Shared;
use raft_state::Items;

/// What happened to a key.
#[derive(Drop)]
pub struct Touch {
    /// The key.
    pub(crate) key: Items<u8>,

    /// What was stored there before, if anything was.
    pub(crate) before: Option<Shared>,

    /// What is stored there since, if anything is.
    pub(crate) after: Option<Shared>,
}
