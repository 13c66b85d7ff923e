//! A theorem about schedules as text, on a function that does nothing.

ghost use Rattle.raft_schedule.specs.Written.{ReadsWritten, ReadsSchedules};

/// Statements in order, written one to a line, are read as what they say; so each schedule that can be written is read
/// again.
pub fn written_schedules_are_read()
    ensures statements { ReadsWritten }
    ensures schedules { ReadsSchedules }
{}
