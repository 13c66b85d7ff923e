//! Moments from numbers.

ghost use Rattle.std.specs.Prelude.{◌≡◌};
ghost use Rattle.raft_requests.specs.Times.{unit, start, moment_of};

/// How a number tells a moment.
#[derive(Clone, Copy, Debug, PartialEq, Eq)]
pub(crate) enum TimeForm {
    /// EX, EXPIRE: in seconds from now.
    Seconds,

    /// PX, PEXPIRE: in milliseconds from now.
    Milliseconds,

    /// EXAT, EXPIREAT: in seconds since the Unix epoch.
    UnixSeconds,

    /// PXAT, PEXPIREAT: in milliseconds since the Unix epoch.
    UnixMilliseconds,
}

impl TimeForm {
    /// How many milliseconds a number of 1 is.
    fn unit(self) -> i64
        ensures { result ≡ unit self }
    {
        match self {
            TimeForm::Seconds | TimeForm::UnixSeconds => 1000,
            TimeForm::Milliseconds | TimeForm::UnixMilliseconds => 1,
        }
    }

    /// The moment that a number of 0 is.
    fn start(self, now: u64) -> u64
        ensures { result ≡ start self now }
    {
        match self {
            TimeForm::Seconds | TimeForm::Milliseconds => now,
            TimeForm::UnixSeconds | TimeForm::UnixMilliseconds => 0,
        }
    }

    /// The moment that a number tells, in milliseconds since the Unix epoch, if it fits 63 bits. One before the epoch is the epoch.
    #[tactic(auto, using(crate::proofs::Fitting::fitting_is), unfolding(crate::specs::Times::moment_of))]
    pub(crate) fn moment(self, now: u64, number: i64) -> Option<u64>
        ensures { result ≡ moment_of self now number }
    {
        let milliseconds = number.checked_mul(self.unit())?;
        let at = milliseconds.checked_add_unsigned(self.start(now))?;
        Some(u64::try_from(at).unwrap_or(0))
    }
}
