//! Reads values from the front of bytes.

ghost use Rattle.std.specs.Prelude.{◌≡◌, ◌<◌, ◌≤◌, ◌+◌, ◌/◌, [], ◌∷◌, IfOk, MatchResult, Ok, Err, length, min};
ghost use Rattle.raft_codec.specs.Codec.{Reads, Finds, Ends, leb128_at, number, tag_at, length_at, raw};
ghost use Rattle.raft_codec.specs.declared.error.DecodeError.TheVariants.{Malformed};
ghost use Rattle.raft_codec.specs.declared.error.Fault.TheVariants.{TooShort, UnknownTag};

use crate::error::{DecodeError, Fault};
use std::alloc::Global;
use std::marker::Model;

/// What is left of bytes: contracts see the list of them.
#[derive(Drop)]
pub struct Reader<'a> {
    alloc: Global,
    rest: &'a [u8],
}

impl<'a> Model for Reader<'a> {
    ghost use Rattle.std.specs.Prelude.{List, ℕ};

    ghost Value = { List ℕ };

    ghost view = { λ reader. reader.rest.now };
}

impl<'a> Reader<'a> {
    /// All of the bytes, and the allocator of what is read.
    pub fn new(alloc: Global, bytes: &'a [u8]) -> Self
        ensures { result ≡ bytes.now }
    {
        Reader { alloc, rest: bytes }
    }

    /// The allocator of what is read.
    pub fn allocator(&self) -> Global {
        self.alloc
    }

    /// The number of bytes that are left.
    pub fn left(&self) -> usize
        ensures { result ≡ length self.now }
    {
        self.rest.len()
    }

    /// Succeeds if no bytes are left.
    pub fn end(&self) -> Result<(), DecodeError>
        ensures { Ends result self.now }
    {
        if self.rest.is_empty() {
            Ok(())
        } else {
            Err(DecodeError::Malformed {
                fault: Fault::TooLong,
                left: self.rest.len(),
            })
        }
    }

    /// The byte at the front.
    fn byte(&mut self) -> Result<u64, Fault>
        ensures read { MatchResult result (λ b. self.old ≡ b ∷ self.new) (λ fault. (fault ≡ TooShort) × (self.old ≡ [])) }
        ensures fits { IfOk result (λ b. b < 256) }
    {
        let Some((byte, rest)) = self.rest.split_first() else {
            return Err(Fault::TooShort);
        };
        self.rest = rest;
        Ok(u64::from(*byte))
    }

    /// The number at the front.
    fn leb128(&mut self) -> Result<u64, Fault>
        ensures { MatchResult result (λ n. leb128_at 9 self.old ≡ Ok (n, self.new)) (λ fault. leb128_at 9 self.old ≡ Err fault) }
    {
        let first = self.byte()?;
        if first < 128 {
            return Ok(first);
        }
        let mut number = first - 128;
        let mut unit = 128;
        for _ in 0..8u32 {
            let byte = self.byte()?;
            if byte == 0 {
                return Err(Fault::NotShortest);
            }
            if byte < 128 {
                return Ok(number + byte * unit);
            }
            number += (byte - 128) * unit;
            unit *= 128;
        }
        match self.byte()? {
            0 => Err(Fault::NotShortest),
            1 => Ok(number + unit),
            _ => Err(Fault::TooLarge),
        }
    }

    /// A number: LEB128, in its shortest form.
    #[tactic(auto, unfolding(crate::specs::Codec::number))]
    pub fn number(&mut self) -> Result<u64, DecodeError>
        ensures { Reads number result self.old self.new }
    {
        let left = self.rest.len();
        match self.leb128() {
            Ok(number) => Ok(number),
            Err(fault) => Err(DecodeError::Malformed { fault, left }),
        }
    }

    /// The byte at the front, which tells values apart.
    #[tactic(auto, unfolding(crate::specs::Codec::tag_at))]
    pub fn tag(&mut self) -> Result<u8, DecodeError>
        ensures { Finds (λ tag. tag) result (tag_at self.old) self.new }
    {
        match self.rest.split_first() {
            Some((tag, rest)) => {
                self.rest = rest;
                Ok(*tag)
            }
            None => Err(DecodeError::Malformed {
                fault: Fault::TooShort,
                left: 0,
            }),
        }
    }

    /// No value begins with the byte that was taken last.
    pub fn unknown_tag(&self) -> DecodeError
        ensures { result ≡ Malformed UnknownTag (length self.now + 1) }
    {
        DecodeError::Malformed {
            fault: Fault::UnknownTag,
            left: self.rest.len() + 1,
        }
    }

    /// A length: at most the number of bytes that are left behind it.
    #[tactic(auto, unfolding(crate::specs::Codec::length_at))]
    pub fn length(&mut self) -> Result<usize, DecodeError>
        ensures found { Finds (λ n. n) result (length_at self.old) self.new }
        ensures bounded { IfOk result (λ n. n ≤ length self.new) }
    {
        let left = self.rest.len();
        let length = self.number()? as usize;
        if self.rest.len() < length {
            return Err(DecodeError::Malformed {
                fault: Fault::TooShort,
                left,
            });
        }
        Ok(length)
    }

    /// For how many of `count` items room is made at once: no more than one for four bytes that are left, so that a false count takes
    /// no more memory than a small multiple of the bytes.
    pub fn room(&self, count: usize) -> usize
        ensures { result ≡ min count (length self.now / 4) }
    {
        count.min(self.rest.len() / 4)
    }

    /// Bytes as they are, behind their length.
    #[tactic(auto, unfolding(crate::specs::Codec::raw))]
    pub fn raw(&mut self) -> Result<&'a [u8], DecodeError>
        ensures { Finds (λ bytes. bytes.now) result (raw.read self.old) self.new }
    {
        let length = self.length()?;
        let (bytes, rest) = self.rest.split_at(length);
        self.rest = rest;
        Ok(bytes)
    }

    /// A copy of bytes behind their number.
    pub fn bytes(&mut self) -> Result<Vec<u8>, DecodeError>
        ensures { Finds (λ bytes. bytes.items) result (raw.read self.old) self.new }
    {
        let bytes = self.raw()?;
        Ok(Vec::from_slice(self.alloc, bytes)?)
    }
}
