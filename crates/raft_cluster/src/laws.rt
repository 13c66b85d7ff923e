//! What holds of clusters.

ghost use Rattle.proof_clients.specs.Objects.{Object};
ghost use Rattle.raft_cluster.specs.Laws.{ClustersAgree, ClustersFollowWorlds, ClustersSeeOne};

use raft_packed::Machine as StateMachine;

/// Servers of a cluster that follows the model's (`Follows`), as each does until a byte on a disk is changed by hand, follow
/// a world: some of its events make what is on their disks and all that has left them (`follow`). What clients were told
/// of as executed or installed agrees: each snapshot is what the state machine makes of some entries, and of these and of
/// those that were executed, those of one index are the same entry (state machine safety, Raft paper, section 5.4.3).
pub fn clusters_follow<M: StateMachine>()
    ensures follow { ClustersFollowWorlds M.application M.codec }
    ensures agree { ClustersAgree M.application M.codec }
{}

/// What clients of such a cluster asked and were told is linearizable (Herlihy and Wing), whatever the object. Each acknowledged write
/// is an update, and each acknowledged read a query, that was invoked once its request had come and returned before its answer left;
/// what was told before a request came had left by then. Nothing else is an update but writes of requests that were noted and not
/// refused, each at most once, and markers.
///
/// Not said: that any request is answered, or what became of one whose answer is unknown.
pub fn clusters_see_one_object<M: StateMachine, S, R>()
    ensures { (object : Object S R) → ClustersSeeOne M.application M.codec object }
{}
