//! Steps whose records come on disk together.

use raft_packed_wire::raft_packed::Machine;
use raft_packed_wire::raft_packed_node::Outbox;
use std::marker::Model;

/// Bytes for the end of the log: to be appended, and synced.
#[derive(Debug, Drop)]
pub struct Written {
    pub bytes: Vec<u8>,
    /// Where they end in the log, in bytes: the position for [`Server::flushed`](crate::Server::flushed).
    pub end: u64,
    /// The same records for the end of the log that is on its way, if one is: to be appended to its file.
    pub next: Option<Vec<u8>>,
}

/// The bytes of a new log: three pieces, of which each stands behind the one before. The second may be large.
#[derive(Debug, Drop)]
pub struct NewLog {
    pub front: Vec<u8>,
    pub snapshot: Vec<u8>,
    pub rest: Vec<u8>,
    /// Where they end, in bytes.
    pub end: u64,
}

/// Steps whose records were handed out as one frame. Those of them that leave none wait for the others.
#[derive(Drop)]
pub struct Batch<M: Machine> {
    /// Where the frame ends in the log, in bytes.
    pub end: u64,
    /// How many steps they are.
    pub steps: u64,
    /// What they say, once the frame is on disk.
    pub outputs: Outbox<M>,
}

/// What steps say: first those of the batch that is on disk, and then those behind it. A contract sees it as what they all
/// say.
#[derive(Drop)]
pub struct Said<M: Machine> {
    pub batch: Outbox<M>,
    pub rest: Outbox<M>,
}

impl<M: Machine> Model for Said<M> {
    ghost use Rattle.proof_packed.specs.Nodes.{PackedRecords};
    ghost use Rattle.proof_packed_servers.specs.Servers.{packed_joined};

    ghost Value = { PackedRecords M };

    ghost view = { λ s. packed_joined s.batch s.rest };
}
