//! What holds of records, whatever the state machine.

ghost use Rattle.raft_packed_wire.specs.Checkpoints.{CheckpointsRestore};
ghost use Rattle.raft_packed_wire.specs.Laws.{AreReadBackOf, PacksReplays};
ghost use Rattle.raft_packed_wire.specs.Pieces.{PiecesAreWholeOf};

use raft_packed_node::raft_packed::Machine;

/// What is written of snapshots, records and packets is read back, and nothing else is read, since a machine's states are.
pub fn records_are_read_back<M: Machine>()
    ensures { AreReadBackOf M.codec }
{}

/// What is appended of a snapshot from its first byte to behind its last, in whatever steps, is all that
/// [`write_packed`](crate::write_packed) appends of it.
pub fn pieces_are_whole<M: Machine>()
    ensures { PiecesAreWholeOf M.codec M.left M.fits_left }
{}

/// For each state machine with states `S`: a step's record, packed, is the packed step's; and to pack a store after a record is to replay the
/// packed record after packing. On disk a packed record makes of each packed store what its step made of one that was the same there.
pub fn packs_replays<S>()
    ensures { PacksReplays S }
{}

/// For each state machine with states `S`: a checkpoint of a store whose entries stand at their indexes, as each of a run's do, is two records,
/// which make of a new store, one after the other, one that is the same on disk.
pub fn checkpoints_restore<S>()
    ensures { CheckpointsRestore S }
{}
