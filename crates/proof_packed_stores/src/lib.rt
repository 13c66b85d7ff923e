//! Stores whose snapshot is a state (Raft paper, section 7). The stores of `raft_store` keep a snapshot, and what was applied, as a list of
//! all entries from index 0 on; these keep of such a list its end, its last id, its last two memberships, and the state that a state machine
//! has after it. Definitions and proofs, on a function that does nothing.
#![tactic(auto)]

ghost use Rattle.proof_packed_stores.specs.Laws.{PacksStores};

/// For each state machine with states `S`: to pack a store after a command, after a build's end or after a start is the packed command,
/// build's end or start after packing. Commands and ends of builds on every store; a start on a store that is shaped and in order, as each
/// store of a run is. And a start doesn't read what was applied, so a disk need not keep it.
///
/// That each entry is applied by a function of the state says that a state machine is deterministic, and never fails.
pub fn packs_stores<S>()
    ensures { PacksStores S }
{}
