//! Bytes that were received, and wait to be read.

ghost use Rattle.std.specs.Prelude.{◌≡◌, ◌≤◌, ◌-◌, [], ◌++◌, drop, length, OnOk, OnErr};

use std::alloc::{AllocError, Global};
use std::marker::Model;

/// Bytes that wait to be read. What was read leaves only once it is as long as what is left: so a byte is copied twice at most,
/// however many requests stand before it.
#[derive(Debug, Drop)]
pub(crate) struct Received {
    bytes: Vec<u8>,
    /// How many of them were read.
    read: usize,
}

impl Model for Received {
    ghost use Rattle.std.specs.Prelude.{ℕ, ◌≤◌, List, drop, length};
    ghost use Rattle.std.specs.Coded.{coded_list, coded_ℕ};

    ghost Value = { List ℕ };

    ghost coded = { coded_list coded_ℕ };

    ghost view = { λ r. drop r.read r.bytes.items };

    ghost invariant = { λ r. r.read ≤ length r.bytes.items };
}

impl Received {
    /// None. Allocates nothing.
    pub(crate) fn new(alloc: Global) -> Self
        ensures { result ≡ [] }
    {
        Received {
            bytes: Vec::new(alloc),
            read: 0,
        }
    }

    /// The bytes.
    pub(crate) fn as_slice(&self) -> &[u8]
        ensures { result.now ≡ self.now }
    {
        &self.bytes[self.read..]
    }

    /// How many there are.
    pub(crate) fn len(&self) -> usize
        ensures { result ≡ length self.now }
    {
        self.bytes.len() - self.read
    }

    /// Gives room back that is taken by what was read.
    fn let_go(&mut self) -> Result<(), AllocError>
        ensures { self.new ≡ self.old }
    {
        if self.read > 0 && self.read >= self.len() {
            self.bytes = Vec::from_slice(*self.bytes.allocator(), self.as_slice())?;
            self.read = 0;
        }
        Ok(())
    }

    /// Appends bytes. Out of memory, there are as many as before.
    pub(crate) fn extend(&mut self, more: &[u8]) -> Result<(), AllocError>
        ensures ok { OnOk result (self.new ≡ self.old ++ more.now) }
        ensures err { OnErr result (self.new ≡ self.old) }
    {
        self.let_go()?;
        self.bytes.extend_from_slice(more)
    }

    /// All but the last ones, so many, were read.
    pub(crate) fn keep_last(&mut self, left: usize)
        requires { left ≤ length self.old }
        ensures { self.new ≡ drop (length self.old - left) self.old }
    {
        self.read = self.bytes.len() - left;
    }
}
