//! Numbers and bytes from the front of bytes, the lowest byte of a number first.

ghost use Rattle.std.specs.Prelude.{◌≡◌, ◌+◌, [], IfOk, OnOk, take};
ghost use Rattle.service_host.specs.Settings.{behind_bytes, behind_numbers, number_at, numbers_at};

use raft_state::Items;
use std::alloc::{AllocError, AllocFailed, Global};
use std::marker::Model;

/// Why nothing was read.
#[derive(Clone, Copy, PartialEq, Eq, Debug)]
pub(crate) enum Unread {
    OutOfMemory,
    /// The bytes end early, more follow, or a number is out of range.
    Malformed,
}

impl From<AllocError> for Unread {
    ghost use Rattle.std.specs.Prelude.{◌≡◌};
    ghost use Rattle.service_host.specs.declared.bytes.Unread.TheVariants.{OutOfMemory};

    ghost from_gives = { λ _ e. e ≡ OutOfMemory };

    fn from(_: AllocError) -> Self {
        Unread::OutOfMemory
    }
}

impl<T: Drop> From<AllocFailed<T>> for Unread {
    ghost use Rattle.std.specs.Prelude.{◌≡◌};
    ghost use Rattle.service_host.specs.declared.bytes.Unread.TheVariants.{OutOfMemory};

    ghost from_gives = { λ _ e. e ≡ OutOfMemory };

    fn from(_: AllocFailed<T>) -> Self {
        Unread::OutOfMemory
    }
}

/// What is left of bytes: contracts see the list of them.
#[derive(Drop)]
pub(crate) struct Cursor<'a> {
    alloc: Global,
    rest: &'a [u8],
}

impl<'a> Model for Cursor<'a> {
    ghost use Rattle.std.specs.Prelude.{List, ℕ};

    ghost Value = { List ℕ };

    ghost view = { λ cursor. cursor.rest.now };
}

impl<'a> Cursor<'a> {
    pub(crate) fn new(alloc: Global, bytes: &'a [u8]) -> Self
        ensures { result ≡ bytes.now }
    {
        Cursor { alloc, rest: bytes }
    }

    /// The number at the front: eight bytes.
    pub(crate) fn number(&mut self) -> Result<u64, Unread>
        ensures number { IfOk result (λ n. n ≡ number_at self.old) }
        ensures rest { OnOk result (self.new ≡ behind_numbers 1 self.old) }
    {
        match self.rest {
            [a, b, c, d, e, f, g, h, rest @ ..] => {
                let number = u64::from_le_bytes([*a, *b, *c, *d, *e, *f, *g, *h]);
                self.rest = rest;
                Ok(number)
            }
            _ => Err(Unread::Malformed),
        }
    }

    /// A number of things.
    pub(crate) fn size(&mut self) -> Result<usize, Unread>
        ensures number { IfOk result (λ n. n ≡ number_at self.old) }
        ensures rest { OnOk result (self.new ≡ behind_numbers 1 self.old) }
    {
        Ok(self.number()? as usize)
    }

    /// A port.
    pub(crate) fn port(&mut self) -> Result<u16, Unread>
        ensures number { IfOk result (λ n. n ≡ number_at self.old) }
        ensures rest { OnOk result (self.new ≡ behind_numbers 1 self.old) }
    {
        let number = self.number()?;
        if number <= 0xffff {
            Ok(number as u16)
        } else {
            Err(Unread::Malformed)
        }
    }

    /// A flag: 0 or 1.
    pub(crate) fn flag(&mut self) -> Result<bool, Unread> {
        match self.number()? {
            0 => Ok(false),
            1 => Ok(true),
            _ => Err(Unread::Malformed),
        }
    }

    /// Bytes behind their number.
    pub(crate) fn bytes(&mut self) -> Result<Items<u8>, Unread>
        ensures bytes { IfOk result (λ bytes. bytes ≡ take (number_at self.old) (behind_numbers 1 self.old)) }
        ensures rest { OnOk result (self.new ≡ behind_bytes self.old) }
    {
        let len = self.size()?;
        if len > self.rest.len() {
            return Err(Unread::Malformed);
        }
        let (bytes, rest) = self.rest.split_at(len);
        let copied = Vec::from_slice(self.alloc, bytes)?;
        self.rest = rest;
        Ok(Items::from_vec(copied))
    }

    /// Numbers behind how many there are.
    pub(crate) fn numbers(&mut self) -> Result<Vec<u64>, Unread>
        ensures numbers { IfOk result (λ ns. ns.items ≡ numbers_at (number_at self.old) (behind_numbers 1 self.old)) }
        ensures rest { OnOk result (self.new ≡ behind_numbers (number_at self.old + 1) self.old) }
    {
        let count = self.size()?;
        if count > self.rest.len() / 8 {
            return Err(Unread::Malformed);
        }
        let mut numbers = Vec::new(self.alloc);
        for _ in 0..count {
            let number = self.number()?;
            numbers.push(number)?;
        }
        Ok(numbers)
    }

    /// No bytes are left.
    pub(crate) fn end(&self) -> Result<(), Unread>
        ensures { OnOk result (self.now ≡ []) }
    {
        if self.rest.is_empty() {
            Ok(())
        } else {
            Err(Unread::Malformed)
        }
    }
}
