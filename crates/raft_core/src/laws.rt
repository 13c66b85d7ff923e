//! What holds of all answers.

ghost use Rattle.raft_core.specs.Laws.{ClientsAreAnsweredOnce, OnlyReleasesTellOk, OnlyRoundsTellOk, ReadsAreAnsweredOnce};

use raft_peers::raft_packed_server::raft_packed::Machine;

/// Each request that was taken is answered at most once, by a call after it came; in the order in which they came.
pub fn clients_are_answered_once<M: Machine>()
    ensures { ClientsAreAnsweredOnce M.application M.codec }
{}

/// `Ok` leaves when the log is on disk, and at no other call: behind the entry for which the request waited.
pub fn only_releases_tell_ok<M: Machine>()
    ensures { OnlyReleasesTellOk M.application M.codec }
{}

/// Each read that was taken is answered at most once, by a call after it came; in the order in which they came.
pub fn reads_are_answered_once<M: Machine>()
    ensures { ReadsAreAnsweredOnce M.application M.codec }
{}

/// Reads are told `Ok` when a message comes, or when the log is on disk, and at no other call.
pub fn only_rounds_tell_ok<M: Machine>()
    ensures { OnlyRoundsTellOk M.application M.codec }
{}
