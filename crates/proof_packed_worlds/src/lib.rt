//! Runs of nodes whose snapshots are states: what `proof_packed` promises of an event holds of each event of a run, since between any two
//! each node is as an event wants it. Definitions and proofs, on a function that does nothing.
#![tactic(auto)]

ghost use Rattle.proof_packed_worlds.specs.Worlds.{PacksWorlds};

/// After any events, in each world that can be made, the run of packed nodes is the run of the world, packed: nodes, messages and records.
pub fn packs_worlds<S>()
    ensures { PacksWorlds S }
{}
