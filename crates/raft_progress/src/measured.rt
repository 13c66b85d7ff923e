//! The order of a table's values.

ghost use Rattle.std.specs.Prelude.{◌≡◌};

use raft_progress_entry::ProgressEntry;
use raft_state::{LogId, NodeId};

/// Gives a table's values their order.
///
/// Source: openraft uses a `Borrow` of the value instead.
pub trait Measured<P> {
    /// What the value is measured by.
    ghost measured: { Self → P };

    /// What the value is measured by.
    fn measure(&self) -> &P
        ensures { result.now ≡ measured self.now };
}

/// A moment is measured by itself.
impl Measured<Option<u64>> for Option<u64> {
    ghost measured = { λ moment. moment };

    fn measure(&self) -> &Option<u64> {
        self
    }
}

/// A grant is measured by itself.
impl Measured<bool> for bool {
    ghost measured = { λ granted. granted };

    fn measure(&self) -> &bool {
        self
    }
}

/// A target's progress is measured by its matching log id.
impl<NID: NodeId> Measured<Option<LogId<NID>>> for ProgressEntry<NID> {
    ghost measured = { λ entry. entry.matching };

    fn measure(&self) -> &Option<LogId<NID>> {
        &self.matching
    }
}
