//! What is promised of executing entries.

ghost use Rattle.raft_executor.specs.Laws.{ExecutingGoesOn, SnapshotsAreWhatWasExecuted};

/// Entries that are executed after others make what both make, one list behind the other.
pub fn executing_goes_on()
    ensures { ExecutingGoesOn }
{}

/// A snapshot of entries is what executing them, from the first on, makes: but for what the last request came to, which no snapshot keeps.
pub fn snapshots_are_what_was_executed()
    ensures { SnapshotsAreWhatWasExecuted }
{}
