//! What is kept of entries, as bytes.

ghost use Rattle.std.specs.Prelude.{◌≡◌, ◌↔◌, IfOk, IsTrue, OnOk};
ghost use Rattle.raft_codec.specs.Codec.{Reads, Writes};
ghost use Rattle.raft_packed_node.specs.raft_packed.declared.place.Place.TheVariants.{End};
ghost use Rattle.raft_packed_wire.specs.declared.packed.PackedPlace.TheVariants.{State};
ghost use Rattle.raft_packed_wire.specs.Pieces.{PackedGoesOn, WritesPackedFront, WritesSummary};
ghost use Rattle.raft_packed_wire.specs.Values.{kept};

use raft_codec::{DecodeError, Reader};
use raft_packed_node::raft_packed::{Machine, Packed, Place, Summary};
use raft_state::{LogId, StoredMembership};
use raft_wire::Wire;
use std::alloc::AllocError;
use std::num::NonZeroUsize;

/// A place within the bytes of what is kept of entries.
#[derive(Debug, Drop)]
pub enum PackedPlace {
    /// At the first byte.
    Front,

    /// Within the state's bytes, which are the last.
    State(Place),
}

impl PackedPlace {
    /// Whether it stands behind the last byte.
    pub fn is_end(&self) -> bool
        ensures { IsTrue result ↔ (self.now ≡ State End) }
    {
        match self {
            PackedPlace::State(Place::End) => true,
            _ => false,
        }
    }
}

/// Appends how many the entries are, their last id, the membership before the last, and the last one.
#[tactic(auto, unfolding(crate::specs::Values::kept))]
pub(crate) fn write_summary<M: Machine>(
    out: &mut Vec<u8>,
    summary: &Summary,
) -> Result<(), AllocError>
    ensures { OnOk result (WritesSummary M.codec summary.now out.old.items out.new.items) }
{
    summary.end().write(out)?;
    summary.last_id().write(out)?;
    summary.before().write(out)?;
    summary.effective().write(out)
}

/// Appends what stands before the state.
fn write_front<M: Machine>(out: &mut Vec<u8>, packed: &Packed<M>) -> Result<(), AllocError>
    ensures { OnOk result (WritesPackedFront M.codec packed.now out.old.items out.new.items) }
{
    write_summary::<M>(out, packed.summary())
}

/// Appends how many the entries are, their last id, the membership before the last, the last one, and the state.
pub fn write_packed<M: Machine>(out: &mut Vec<u8>, packed: &Packed<M>) -> Result<(), AllocError>
    ensures { Writes (kept M.codec) packed.now result out.old.items out.new.items }
{
    write_front(out, packed)?;
    packed.state().encode(out)
}

/// Appends the next bytes, of the state some `most` of them: where they go on.
pub fn write_packed_some<M: Machine>(
    out: &mut Vec<u8>,
    packed: &Packed<M>,
    at: PackedPlace,
    most: NonZeroUsize,
) -> Result<PackedPlace, AllocError>
    ensures { IfOk result (λ next. PackedGoesOn M.codec M.left M.fits_left packed.now at next out.old.items out.new.items) }
{
    match at {
        PackedPlace::Front => {
            write_front(out, packed)?;
            Ok(PackedPlace::State(Place::Front))
        }
        PackedPlace::State(at) => {
            let next = packed.state().encode_some(at, most, out)?;
            Ok(PackedPlace::State(next))
        }
    }
}

/// What is kept of entries, at the front of bytes. That some entries give it is up to who wrote them.
#[tactic(auto, unfolding(crate::specs::Values::kept))]
pub fn read_packed<M: Machine>(reader: &mut Reader<'_>) -> Result<Packed<M>, DecodeError>
    ensures { Reads (kept M.codec) result reader.old reader.new }
{
    let end = reader.number()?;
    let last_id = Option::<LogId<u64>>::read(reader)?;
    let before = StoredMembership::<u64, ()>::read(reader)?;
    let effective = StoredMembership::<u64, ()>::read(reader)?;
    let state = M::decode(reader)?;
    Ok(Packed::from_parts(end, last_id, before, effective, state))
}
