//! The application's state machine.

ghost use Rattle.std.specs.Prelude.{◌≡◌, ◌++◌, IfOk, OnOk};
ghost use Rattle.raft_codec.specs.Codec.{Reads, Writes};

use crate::place::Place;
use raft_codec::{DecodeError, Reader};
use raft_store::Entry;
use std::alloc::{AllocError, Global};
use std::num::NonZeroUsize;

/// A deterministic state machine (Raft paper, section 2): its state is a function of the entries that were applied, in their order.
pub trait Machine: Drop {
    ghost use Rattle.std.specs.Prelude.{◌≡◌, ℕ, List, []};
    ghost use Rattle.raft_codec.specs.Codec.{Codec, IsCodec};
    ghost use Rattle.proof_packed_stores.specs.Stores.{Application};
    ghost use Rattle.raft_packed.specs.declared.place.Place.{Place};
    ghost use Rattle.raft_packed.specs.declared.place.Place.TheVariants.{End, Front};

    // Its first state, and what an entry makes of a state.
    ghost application: { Application Self };

    // How each state stands in bytes.
    ghost codec: { Codec Self };

    // What of a state's bytes is left at a place, and whether that can be written.
    ghost left: { Self → Place → List ℕ };

    ghost fits_left: { Self → Place → Type 0 };

    /// The state of no entries.
    fn new(alloc: Global) -> Self
        ensures { result ≡ application.first };

    /// Applies the next entry, also one that holds no value of the application. Out of memory, nothing is promised of it.
    fn apply(&mut self, entry: &Entry) -> Result<(), AllocError>
        ensures { OnOk result (self.new ≡ application.apply self.old entry.now) };

    /// A copy of the state. It is made between two inputs of a server, so one of a large state shares what it can.
    fn copy(&self) -> Result<Self, AllocError>
        ensures { IfOk result (λ copied. copied ≡ self.now) };

    /// Appends the state's bytes.
    fn encode(&self, out: &mut Vec<u8>) -> Result<(), AllocError>
        ensures { Writes codec self.now result out.old.items out.new.items };

    /// Appends the next bytes of the state, some `most` of them: where they go on.
    fn encode_some(
        &self,
        at: Place,
        most: NonZeroUsize,
        out: &mut Vec<u8>,
    ) -> Result<Place, AllocError>
        ensures { IfOk result (λ next. (fits_left self.now next → fits_left self.now at)
            × (out.new.items ++ left self.now next ≡ out.old.items ++ left self.now at)) };

    /// The state at the front of bytes.
    fn decode(reader: &mut Reader<'_>) -> Result<Self, DecodeError>
        ensures { Reads codec result reader.old reader.new };

    // Reading is the inverse of writing.
    ghost is_codec: { IsCodec codec };

    // At the front all is left, and at the end nothing.
    ghost begins: { (state : Self) → (left state Front ≡ codec.bytes state) × (fits_left state Front → codec.fits state) };

    ghost ends: { (state : Self) → (left state End ≡ []) × fits_left state End };
}
