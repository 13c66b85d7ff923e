//! Servers with disks whose snapshots are states (Raft paper, section 7): exactly those of `proof_servers`, packed, in each run of a whole
//! cluster. So what is promised of those holds of servers that no log outgrows. Definitions and proofs, on functions that do nothing.
#![tactic(auto)]

ghost use Rattle.proof_packed_servers.specs.Checkpoints.{GoOnFromCheckpoints, StayAlike};
ghost use Rattle.proof_packed_servers.specs.Laws.{PackedServersRest, PacksClusters, PacksMayAct, PacksServers, UnpacksClusters};

/// Whatever servers do, and whenever they crash, in each world that can be made: the packed servers after the packed actions are the servers
/// after the actions, packed: their nodes, what waits, their disks, and all that ever left one.
pub fn packs_clusters<S>()
    ensures { PacksClusters S }
{}

/// After any actions each server does packed what it does: it takes a step, what some of its waiting steps leave comes on disk, or it crashes.
pub fn packs_servers<S>()
    ensures { PacksServers S }
{}

/// What servers may do, packed servers may do: they take what has left its sender, with what it brings.
pub fn packs_may_act<S>()
    ensures { PacksMayAct S }
{}

/// Whatever packed servers may do, servers may do, and the packed servers are those servers, packed. So what is promised of servers holds of
/// packed ones, as far as packing keeps it.
pub fn unpacks_clusters<S>()
    ensures { UnpacksClusters S }
{}

/// After any actions each packed server's node is at rest. So a step of it fails for memory or for numbers alone.
pub fn packed_servers_rest<S>()
    ensures { PackedServersRest S }
{}

/// Clusters whose disks differ in nothing that a start reads do the same, and stay so: what leaves is the same, and so is each node.
pub fn clusters_stay_alike<S>()
    ensures { StayAlike S }
{}

/// After any actions a server whose waiting steps leave nothing on disk goes on with a new log, which begins with a checkpoint of its node's
/// store: its cluster is alike.
pub fn servers_go_on_from_checkpoints<S>()
    ensures { GoOnFromCheckpoints S }
{}
