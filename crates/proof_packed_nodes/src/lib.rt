//! The nodes of a run whose snapshots are states: between any two events each is at rest, so what `raft_packed_node` promises of such a
//! node holds of each of them. Definitions and proofs, on a function that does nothing.
#![tactic(auto)]

ghost use Rattle.proof_packed_nodes.specs.Laws.{PackedNodesRest};

/// After any events, in each world that can be made, each packed node is at rest: its engine is, what it has noted ends with a committed
/// id of its engine's log, and its store gives each start a sound state. So a step of it fails for memory or for numbers alone.
pub fn packed_nodes_rest<S>()
    ensures { PackedNodesRest S }
{}
