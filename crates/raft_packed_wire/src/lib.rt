//! What servers whose snapshots are states leave on their disks, and send one another, as bytes.
//!
//! A snapshot is a `raft_packed::Packed`: its state stands in bytes as its machine writes it. A log names one that was built by its end, if it can.
//! Everything else stands as in `raft_wire`.
#![tactic(auto)]

pub use raft_packed_node;
pub use raft_packed_node::raft_packed;

mod checkpoint;
mod laws;
mod named;
mod packed;
mod packet;
mod record;
mod replay;
mod step;

pub use checkpoint::{write_rest, write_snapshot, write_snapshot_front};
pub use laws::{checkpoints_restore, packs_replays, pieces_are_whole, records_are_read_back};
pub use named::Named;
pub use packed::{PackedPlace, read_packed, write_packed, write_packed_some};
pub use packet::{PackedContent, PackedPacket, SentMessage, SentPart};
pub use record::{NamedRecord, PackedBegan, PackedChange, PackedRecord, write_built};
pub use step::write_change;
