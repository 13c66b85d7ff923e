//! The state machine of the servers of a text: it keeps each entry, so that what is installed can be compared with what was executed.

ghost use Rattle.std.specs.Prelude.{◌≡◌, IfOk, OnOk};
ghost use Rattle.raft_codec.specs.Codec.{Reads, Writes};

use raft_codec::{DecodeError, Reader};
use raft_packed::{Machine, Place};
use raft_state::Items;
use raft_store::{Entry, copy_entries};
use raft_wire::Wire;
use std::alloc::{AllocError, Global};
use std::marker::Model;
use std::num::NonZeroUsize;

/// The entries that were applied, in their order.
#[derive(Drop)]
pub struct Entries {
    alloc: Global,
    entries: Items<Entry>,
}

impl Model for Entries {
    ghost use Rattle.std.specs.Prelude.{List};
    ghost use Rattle.raft_store.specs.declared.entry.Entry.{Entry};

    ghost Value = { List Entry };

    ghost view = { λ s. s.entries };
}

impl Machine for Entries {
    ghost use Rattle.std.specs.Prelude.{refl};
    ghost use Rattle.raft_codec.specs.Codec.{list};
    ghost use Rattle.raft_packed.specs.Whole.{fits_whole, whole_left};
    ghost use Rattle.raft_wire.specs.Entries.{entry};
    ghost use Rattle.raft_wire.specs.EntryLaws.{entries_is};
    ghost use Rattle.raft_cluster_text.specs.Entries.{application};

    ghost application = { application };

    ghost codec = { list entry };

    ghost is_codec = { entries_is };

    ghost left = { whole_left (list entry) };

    ghost fits_left = { fits_whole (list entry) };

    ghost begins = { λ state. (refl, λ fits. fits) };

    ghost ends = { λ state. (refl, tt) };

    fn new(alloc: Global) -> Entries {
        Entries {
            alloc,
            entries: Items::new(alloc),
        }
    }

    fn apply(&mut self, entry: &Entry) -> Result<(), AllocError> {
        self.entries.push(entry.copy(self.alloc)?)
    }

    fn copy(&self) -> Result<Entries, AllocError> {
        Ok(Entries {
            alloc: self.alloc,
            entries: self.copy_entries()?,
        })
    }

    fn encode(&self, out: &mut Vec<u8>) -> Result<(), AllocError> {
        self.entries.write(out)
    }

    fn encode_some(
        &self,
        at: Place,
        _most: NonZeroUsize,
        out: &mut Vec<u8>,
    ) -> Result<Place, AllocError> {
        match at {
            Place::Front => self.encode(out)?,
            _ => {}
        }
        Ok(Place::End)
    }

    fn decode(reader: &mut Reader<'_>) -> Result<Entries, DecodeError> {
        let entries = Items::<Entry>::read(reader)?;
        Ok(Entries {
            alloc: reader.allocator(),
            entries,
        })
    }
}

impl Entries {
    /// A copy of the entries.
    pub fn copy_entries(&self) -> Result<Items<Entry>, AllocError>
        ensures { IfOk result (λ copied. copied ≡ self.now) }
    {
        let copied = copy_entries(self.alloc, self.entries.as_slice())?;
        Ok(Items::from_vec(copied))
    }
}
