//! Nodes whose snapshots are states (Raft paper, section 7). The nodes of `raft_node` keep a snapshot, and what was applied, as a list
//! of all entries from index 0 on; these keep of such a list its end, its last id, its last two memberships, and the state that a state
//! machine has after it. They do the same: so what is promised of worlds holds of nodes that no log outgrows. Definitions and proofs,
//! on functions that do nothing.
#![tactic(auto)]

ghost use Rattle.proof_packed.specs.Data.{InstallsByMeta};
ghost use Rattle.proof_packed.specs.Laws.{PacksEvents};
ghost use Rattle.proof_packed.specs.Records.{PacksRecords};

/// An engine whose queue is empty takes a snapshot by its meta alone: with other data only the command that hands them on differs. So an engine
/// may be given snapshots without data.
pub fn installs_by_meta()
    ensures { InstallsByMeta }
{}

/// An event at a packed node, with its stop, gives the same outcome, the node packed and the records packed, if the node's engine has an empty
/// queue and its store is shaped and in order, as between any two events of a run. Packed records have no whole logs of leaders.
pub fn packs_events<S, L>()
    ensures { PacksEvents S L }
{}

/// Under the same conditions the commands of an event at a packed node are the node's without snapshots' data; a snapshot that one installs is
/// what the event's message brought; and replayed on any packed store, with that, they do what the node's commands do on the store.
pub fn packs_records<S, L>()
    ensures { PacksRecords S L }
{}
