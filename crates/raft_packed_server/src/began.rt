//! What the calls of a step make of the store, as bytes.

ghost use Rattle.std.specs.Prelude.{◌≡◌, IfOk};
ghost use Rattle.raft_codec.specs.Codec.{Writes};
ghost use Rattle.raft_packed_wire.specs.Records.{named_began};
ghost use Rattle.raft_packed_wire.specs.Values.{kept};
ghost use Rattle.raft_packed_wire.specs.declared.named.Named.TheVariants as names;
ghost use Rattle.raft_packed_wire.specs.declared.record.PackedBegan.TheVariants as made;
ghost use Rattle.raft_packed_server.specs.Began.{is_unchanged};

use raft_packed_wire::raft_packed::{Machine, Packed};
use raft_packed_wire::{Named, PackedBegan, write_built};
use std::alloc::{AllocError, Global};
use std::marker::{Model, PhantomData};

/// What the calls of a step make of the store before its first command, as its bytes: a contract sees what it is, and how the log names a snapshot
/// that was built. None is copied for it.
#[derive(Drop)]
pub struct Began<M: Machine> {
    is_unchanged: bool,
    bytes: Vec<u8>,
    machine: PhantomData<M>,
}

impl<M: Machine> Model for Began<M> {
    ghost use Rattle.raft_packed_wire.specs.declared.named.Named.{Named};
    ghost use Rattle.raft_packed_wire.specs.declared.record.PackedBegan.{PackedBegan};
    ghost use Rattle.raft_packed_server.specs.Began.{AreBytesOfBegan, began_in};

    ghost Value = { PackedBegan (Named M) };

    ghost view = { λ s. began_in M.codec s.bytes.items };

    ghost invariant = { λ s. AreBytesOfBegan M.codec s.is_unchanged s.bytes.items };
}

/// Whether calls make nothing of the store.
fn is_nothing<M: Machine>(began: &PackedBegan<Named<M>>) -> bool
    ensures { result ≡ is_unchanged began.now }
{
    matches!(began, PackedBegan::Unchanged)
}

impl<M: Machine> Began<M> {
    /// This.
    pub fn new(alloc: Global, began: &PackedBegan<Named<M>>) -> Result<Self, AllocError>
        ensures { IfOk result (λ written. written ≡ began.now) }
    {
        let mut bytes = Vec::new(alloc);
        began.write(&mut bytes)?;
        Ok(Began {
            is_unchanged: is_nothing(began),
            bytes,
            machine: PhantomData,
        })
    }

    /// This snapshot was built, and the log has all of it.
    pub fn built(alloc: Global, snapshot: &Packed<M>) -> Result<Self, AllocError>
        ensures { IfOk result (λ written. written ≡ made.Built (names.Whole snapshot.now)) }
    {
        let mut bytes = Vec::new(alloc);
        write_built(&mut bytes, snapshot)?;
        Ok(Began {
            is_unchanged: false,
            bytes,
            machine: PhantomData,
        })
    }

    /// Whether they make nothing of it.
    pub fn is_unchanged(&self) -> bool
        ensures { result ≡ is_unchanged self.now }
    {
        self.is_unchanged
    }

    /// Appends it.
    pub fn write(&self, out: &mut Vec<u8>) -> Result<(), AllocError>
        ensures { Writes (named_began (kept M.codec)) self.now result out.old.items out.new.items }
    {
        out.extend_from_slice(&self.bytes)
    }
}
