//! A server's clock.

ghost use Rattle.std.specs.Prelude.{◌≡◌, ◌≤◌};

/// A clock in milliseconds, which never goes back: it is told how much time went by.
#[derive(Clone, Copy)]
pub struct Clock {
    pub moment: u64,
}

impl Clock {
    /// Time went by, in milliseconds. The clock stops at the greatest moment.
    pub fn advance(&mut self, elapsed: u64)
        ensures { self.old.moment ≤ self.new.moment }
    {
        self.moment = self.moment.saturating_add(elapsed);
    }

    /// The moment so long ago, in milliseconds.
    pub fn before(&self, span: u64) -> u64 {
        self.moment.saturating_sub(span)
    }

    /// How long ago this was, in milliseconds.
    pub fn since(&self, moment: u64) -> u64 {
        self.moment.saturating_sub(moment)
    }
}
