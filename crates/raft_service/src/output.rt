//! What leaves a service.

ghost use Rattle.std.specs.Prelude.{◌≡◌, ◌++◌, ◌∷◌, [], OnOk};

use raft_state::Items;
use std::alloc::AllocError;

/// What the caller is to do.
#[derive(PartialEq, Eq, Debug, Drop)]
pub enum Output {
    /// Send these bytes to a peer, as one frame of a stream.
    Send {
        to: u64,
        bytes: Items<u8>,
    },
    /// Append these bytes to the log and sync them; then `flushed` is called with their end. If a new log is on its way, `next` are its
    /// bytes, to be appended to its file.
    Append {
        bytes: Items<u8>,
        end: u64,
        next: Option<Items<u8>>,
    },
    /// Send these bytes to a client.
    ToClient {
        client: u64,
        bytes: Items<u8>,
    },
    /// Close a client's connection once all that was to be sent to it is sent. It is disconnected already.
    Close {
        client: u64,
    },
}

/// One more output.
pub(crate) fn push(output: Output, outputs: &mut Vec<Output>) -> Result<(), AllocError>
    ensures { OnOk result (outputs.new.items ≡ outputs.old.items ++ output ∷ []) }
{
    Ok(outputs.push(output)?)
}
