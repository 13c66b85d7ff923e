//! What a way on is beside what is proved to be possible.

ghost use Rattle.raft_recovery.specs.Recoveries.{RecoveriesGoOn};
ghost use Rattle.raft_recovery.specs.Ways.{WaysRecover};

/// Where no event of the past proposed other voter groups, nodes that recover have gone on as `can_commit` of `proof_progress`
/// proves it to be possible.
pub fn recoveries_go_on()
    ensures { RecoveriesGoOn }
{}

/// From each reached world from which nodes can go on by the greatest log, as `can_commit` of `proof_progress` says, they recover by the
/// way on of one of them, unless one is a quorum alone and has other members among them: so `recover` finds one.
pub fn ways_recover()
    ensures { WaysRecover }
{}
