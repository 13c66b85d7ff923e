//! What the commands of a step change on disk, as bytes.

ghost use Rattle.std.specs.Prelude.{◌≡◌, ◌↔◌, [], IsTrue};
ghost use Rattle.raft_codec.specs.Codec.{Writes, list};
ghost use Rattle.raft_packed_wire.specs.Records.{packed_change};
ghost use Rattle.raft_packed_wire.specs.Values.{kept};

use raft_command::Command;
use raft_engine::Engine;
use raft_node::watch::Watch;
use raft_packed_wire::raft_packed::{Machine, Packed};
use raft_packed_wire::write_change;
use raft_store::WorldConfig;
use raft_wire::{Wire, is_change};
use std::alloc::{AllocError, Global};
use std::marker::Model;

/// Changes, as their bytes one behind the other, and the snapshot that the step's message brought: one that a command installs is
/// that. A contract sees the list of the changes.
#[derive(Drop)]
pub struct Changes<M: Machine> {
    brought: Packed<M>,
    count: u64,
    bytes: Vec<u8>,
}

impl<M: Machine> Model for Changes<M> {
    ghost use Rattle.raft_packed_wire.specs.Records.{packed_change};
    ghost use Rattle.raft_packed_wire.specs.Values.{kept};
    ghost use Rattle.raft_packed_server.specs.Encoded.{AreBytesOf, values_in};
    ghost use Rattle.raft_packed_server.specs.Views.{ChangesView};

    ghost Value = { ChangesView M };

    ghost view = { λ s. record { brought = s.brought; changes = values_in (packed_change (kept M.codec)) s.count s.bytes.items } };

    ghost invariant = { λ s. AreBytesOf (packed_change (kept M.codec)) (values_in (packed_change (kept M.codec)) s.count s.bytes.items)
        s.count s.bytes.items };
}

impl<M: Machine> Changes<M> {
    /// No changes, of a step whose message brought this snapshot: that of no entries, if it brought none.
    pub fn new(alloc: Global, brought: Packed<M>) -> Self
        ensures { result ≡ record { brought = brought; changes = [] } }
    {
        Changes {
            brought,
            count: 0,
            bytes: Vec::new(alloc),
        }
    }

    /// Whether there are none.
    pub fn is_empty(&self) -> bool
        ensures { IsTrue result ↔ (self.now.changes ≡ []) }
    {
        self.count == 0
    }

    /// Appends how many changes there are, and each.
    pub fn write(&self, out: &mut Vec<u8>) -> Result<(), AllocError>
        ensures { Writes (list (packed_change (kept M.codec))) self.now.changes result out.old.items out.new.items }
    {
        self.count.write(out)?;
        out.extend_from_slice(&self.bytes)
    }
}

impl<R, M: Machine> Watch<R> for Changes<M> {
    ghost use Rattle.std.specs.Prelude.{◌++◌};
    ghost use Rattle.std.specs.Option.{option_to_list};
    ghost use Rattle.raft_packed_wire.specs.Records.{packed_change_of};
    ghost use Rattle.raft_packed_server.specs.Views.{ChangesView};

    ghost Seen = { ChangesView M };

    ghost seen = { λ changes. changes };

    ghost sees = { λ seen command. record seen { changes = seen.changes ++ option_to_list (packed_change_of seen.brought command) } };

    /// Out of memory, nothing is kept.
    fn see(
        &mut self,
        _engine: &Engine<WorldConfig>,
        command: &Command<WorldConfig>,
        _records: &R,
    ) -> Result<(), AllocError> {
        if let Err(error) = write_change(&mut self.bytes, command, &self.brought) {
            self.count = 0;
            self.bytes.clear();
            return Err(error);
        }
        if is_change(command) {
            self.count += 1;
        }
        Ok(())
    }
}
