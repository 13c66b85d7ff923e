//! How long a server's log is.

use raft_frames::{LogId, MAX_FRAME};

/// Up to where a log ends whose builds end.
const MOST_BUILT: u64 = (MAX_FRAME / 8 * 7) as u64;

/// Where a log ends, when it is long, and when it may have another snapshot, in bytes.
#[derive(Clone, Copy)]
pub struct LogLength {
    end: u64,
    /// Where its checkpoint ends; 0 if that isn't known, or there is none.
    begun: u64,
    /// A log of fewer bytes isn't long, whatever its checkpoint has.
    least: u64,
    /// How many the last build's frame has; 0 if that isn't known.
    built: u64,
    /// How many came since, in this log or those before.
    grown: u64,
    /// Whether a build has ended since the log's end was noted.
    has_built: bool,
    /// The name of a new log that is prepared, if one is.
    preparing: Option<LogId>,
    /// Where the checkpoint ends of a new log, if one is on its way.
    next: Option<u64>,
}

impl LogLength {
    /// Of a log that was opened, which ends there; it may be long from so many bytes on.
    pub fn new(end: u64, least: u64) -> Self {
        LogLength {
            end,
            begun: 0,
            least,
            built: 0,
            grown: 0,
            has_built: false,
            preparing: None,
            next: None,
        }
    }

    /// From where on the log is long: behind its checkpoint came as many bytes as that has.
    fn long_end(&self) -> u64 {
        self.least.max(self.begun.saturating_mul(2))
    }

    /// Whether a new log is worth its bytes: the old one is long, and none is on its way.
    pub fn is_long(&self) -> bool {
        self.next.is_none() && self.end >= self.long_end()
    }

    /// Whether a build is to end now, which is noted: behind the snapshot before came as many bytes as that has, and a frame can hold
    /// the state that the log gives, which has about as many bytes as the log at most. A record that no frame can hold would end the
    /// server.
    pub fn ends_build(&mut self) -> bool {
        let ends = self.grown >= self.built && self.end <= MOST_BUILT;
        self.has_built |= ends;
        ends
    }

    /// Whether the end of a build may wait, while the log grows: it isn't long, and builds may still end for as many bytes more.
    pub fn lets_builds_wait(&self) -> bool {
        !self.is_long() && self.end <= MOST_BUILT / 2
    }

    /// Whether it may wait for what is made of the snapshot: the log isn't twice as long as a long one, and builds may still end for many bytes.
    pub fn lets_snapshots_stay(&self) -> bool {
        self.end < self.long_end().saturating_mul(2) && self.end <= MOST_BUILT / 4 * 3
    }

    /// For how many bytes of a snapshot there is room from the start: as many as the log has, but not for all of a long one.
    pub fn room(&self) -> usize {
        self.end.min((MAX_FRAME / 4) as u64) as usize
    }

    /// The log ends there.
    pub fn note_end(&mut self, end: u64) {
        let came = end.saturating_sub(self.end);
        self.grown = self.grown.saturating_add(came);
        if self.has_built {
            self.built = came;
            self.grown = 0;
        }
        self.has_built = false;
        self.end = end;
    }

    /// A new log of this name is prepared.
    pub fn note_preparing(&mut self, name: LogId) {
        self.preparing = Some(name);
    }

    /// The name of the new log that is prepared, if one is.
    pub fn preparing(&self) -> Option<LogId> {
        self.preparing
    }

    /// A new log is on its way, whose checkpoint ends there.
    pub fn note_begun(&mut self, end: u64) {
        self.preparing = None;
        self.next = Some(end);
    }

    /// It has the old one's place, and ends there.
    pub fn note_taken_over(&mut self, end: u64) {
        self.begun = self.next.unwrap_or(end);
        self.next = None;
        self.end = end;
    }

    /// A new log can't be made, or written. The old one counts as a checkpoint: it is tried again once that is twice as long.
    pub fn note_failed(&mut self) {
        self.begun = self.end;
        self.preparing = None;
        self.next = None;
    }
}
