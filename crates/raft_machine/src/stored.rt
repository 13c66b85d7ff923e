//! What is stored at a key.

ghost use Rattle.std.specs.Prelude.{◌≡◌, IfOk, OnErr};
ghost use Rattle.raft_machine.specs.Numbers.{integer_of};
ghost use Rattle.raft_machine.specs.Commands.{sum_of, added};

use crate::command::Failure;
use crate::numbers;
use raft_state::Items;
use std::alloc::{AllocError, Global};

/// The sum of a number and another one.
pub(crate) fn sum(number: Option<i64>, by: i64) -> Result<i64, Failure>
    ensures { result ≡ sum_of number by }
{
    match number {
        Some(number) => match number.checked_add(by) {
            Some(sum) => Ok(sum),
            None => Err(Failure::Overflow),
        },
        None => Err(Failure::NotAnInteger),
    }
}

/// A value, and when it expires.
#[derive(Debug, Drop)]
pub struct Stored {
    /// The value.
    pub bytes: Items<u8>,

    /// From which moment on it is gone, in milliseconds since the Unix epoch, if it expires.
    pub expires: Option<u64>,
}

impl Stored {
    /// A copy.
    pub(crate) fn copy(&self) -> Result<Stored, AllocError>
        ensures { IfOk result (λ copied. copied ≡ self.now) }
    {
        Ok(Stored {
            bytes: self.bytes.copy()?,
            expires: self.expires,
        })
    }

    /// Adds to the number that the value is, and answers the sum. The value stays as it was if there is none, or out of memory.
    pub(crate) fn add(&mut self, alloc: Global, by: i64) -> Result<Result<i64, Failure>, AllocError>
        ensures sum { IfOk result (λ s. s ≡ sum_of (integer_of self.old.bytes) by) }
        ensures added { IfOk result (λ s. self.new ≡ added self.old s) }
        ensures err { OnErr result (self.new ≡ self.old) }
    {
        match sum(numbers::integer(self.bytes.as_slice()), by) {
            Ok(sum) => {
                self.bytes = numbers::text(alloc, sum)?;
                Ok(Ok(sum))
            }
            Err(failure) => Ok(Err(failure)),
        }
    }
}
