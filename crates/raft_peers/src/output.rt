//! What leaves a server.

ghost use Rattle.std.specs.Prelude.{◌≡◌, ◌++◌, ◌∷◌, [], OnOk};

use raft_answers::Reply;
use raft_packed_server::raft_packed::{Machine, Packed};
use raft_state::Items;
use raft_store::Entry;
use std::alloc::AllocError;

/// What the caller is to do.
#[derive(Drop)]
pub enum Output<M: Machine> {
    /// Send these bytes to a peer, as one frame of a stream.
    Send {
        to: u64,
        bytes: Items<u8>,
    },
    /// Append these bytes to the log and sync them; then `flushed` is called with their end. If a new log is on its way, `next` are its
    /// bytes, to be appended to its file.
    Append {
        bytes: Items<u8>,
        end: u64,
        next: Option<Items<u8>>,
    },
    /// Put a snapshot's state in place of the state machine's.
    Install(Packed<M>),
    /// Execute an entry at the state machine.
    Execute(Entry),
    /// Answer a client, by the token of its request.
    Reply(Reply),
    /// Answer a read that has no entry, by its token. `Ok` is answered with what the state machine says after all entries that
    /// it was to execute so far, of which the last has this index.
    Read(Reply),
}

/// One more output.
pub fn push<M: Machine>(output: Output<M>, outputs: &mut Vec<Output<M>>) -> Result<(), AllocError>
    ensures { OnOk result (outputs.new.items ≡ outputs.old.items ++ output ∷ []) }
{
    Ok(outputs.push(output)?)
}
