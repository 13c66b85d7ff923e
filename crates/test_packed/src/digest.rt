//! A small state machine: a number that tells which values were applied, and in which order.

ghost use Rattle.std.specs.Prelude.{◌≡◌, IfOk, OnOk};
ghost use Rattle.raft_codec.specs.Codec.{Reads, Writes};

use raft_codec::{DecodeError, Reader, write_number};
use raft_packed::{Machine, Place};
use raft_store::{Entry, Payload, Value};
use std::alloc::{AllocError, Global};
use std::num::NonZeroUsize;

/// 1 at first; a number makes 10 times as much and the number of it, both of their last eight digits.
#[derive(Clone, Copy, Debug)]
pub struct Digest {
    pub number: u64,
}

impl Machine for Digest {
    ghost use Rattle.std.specs.Prelude.{refl};
    ghost use Rattle.test_packed.specs.Digest.{application, digest, digest_is};
    ghost use Rattle.raft_packed.specs.Whole.{fits_whole, whole_left};

    ghost application = { application };

    ghost codec = { digest };

    ghost is_codec = { digest_is };

    ghost left = { whole_left digest };

    ghost fits_left = { fits_whole digest };

    ghost begins = { λ state. (refl, λ fits. fits) };

    ghost ends = { λ state. (refl, tt) };

    fn new(_alloc: Global) -> Digest {
        Digest { number: 1 }
    }

    fn apply(&mut self, entry: &Entry) -> Result<(), AllocError> {
        if let Payload::Value(Value::Number(value)) = &entry.payload {
            self.number = self.number % 100_000_000 * 10 + *value % 100_000_000;
        }
        Ok(())
    }

    fn copy(&self) -> Result<Digest, AllocError> {
        Ok(*self)
    }

    #[tactic(auto, unfolding(crate::specs::Digest::digest))]
    fn encode(&self, out: &mut Vec<u8>) -> Result<(), AllocError> {
        write_number(out, self.number)
    }

    fn encode_some(
        &self,
        at: Place,
        _most: NonZeroUsize,
        out: &mut Vec<u8>,
    ) -> Result<Place, AllocError> {
        match at {
            Place::Front => self.encode(out)?,
            _ => {}
        }
        Ok(Place::End)
    }

    #[tactic(auto, unfolding(crate::specs::Digest::digest))]
    fn decode(reader: &mut Reader<'_>) -> Result<Digest, DecodeError> {
        let number = reader.number()?;
        Ok(Digest { number })
    }
}
