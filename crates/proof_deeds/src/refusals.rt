//! What messages meet in a world of engines, on a function that does nothing.

ghost use Rattle.proof_deeds.specs.Unrefused.{CutsFit, MessagesFit, SnapshotsFit, SnapshotsTold};

/// Whatever happens in a world, no leader's request is refused because it doesn't fit what its node has (refusals 11 to
/// 16); nor would a snapshot be that was sent, and each tells of its entries. No append request makes its receiver
/// truncate its committed membership.
pub fn messages_fit()
    ensures messages { MessagesFit }
    ensures snapshots { SnapshotsFit }
    ensures told { SnapshotsTold }
    ensures cuts { CutsFit }
{}
