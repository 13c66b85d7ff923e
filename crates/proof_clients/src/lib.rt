//! Clients of the replicated log: what is decided is one log, what leaders append is new, and histories of clients'
//! operations are linearizable. Definitions and proofs, on functions that do nothing.
#![tactic(auto)]

ghost use Rattle.std.specs.Prelude.{List};
ghost use Rattle.std.specs.Ordering.{nat_cmp};
ghost use Rattle.proof_deeds.specs.raft_state.Sorted.{IsSound};
ghost use Rattle.proof_deeds.specs.raft_schedule.declared.event.Event.{Event};
ghost use Rattle.proof_deeds.specs.raft_node.declared.given.Given.{Given};
ghost use Rattle.proof_deeds.specs.raft_node.WellFormed.{IsWellFormed};
ghost use Rattle.proof_deeds.specs.WorldLaws.{OfEachWorld};
ghost use Rattle.proof_clients.specs.OneLog.{AppliedAreOne, DecidedAreOne, DecidedStay};
ghost use Rattle.proof_clients.specs.Appends.{AppendsNew, AppendsOnce, AppliedBefore, ProposalsAppend};
ghost use Rattle.proof_clients.specs.Histories.{ClientsSeeOne};
ghost use Rattle.proof_clients.specs.Learners.{LearnersKeepGroups};
ghost use Rattle.proof_clients.specs.Objects.{Object};
ghost use Rattle.proof_clients.specs.Reads.{ReadsSeeAll, RepliesTell, TakersAreUnder};
ghost use Rattle.proof_clients.specs.Validity.{OnlyProposed};

/// What is decided at any moments of a run is one log, and what state machines have taken is how it begins: so what is
/// acknowledged stays, whoever stops (durability).
pub fn logs_are_one()
    ensures decided { OfEachWorld DecidedAreOne }
    ensures stay { OfEachWorld DecidedStay }
    ensures applied { OfEachWorld AppliedAreOne }
{}

/// After any events each entry with a value that is decided or applied was proposed in one of them (validity).
pub fn only_proposals_are_applied()
    ensures { OfEachWorld OnlyProposed }
{}

/// What leaders append has new ids, and stands above all that was applied before. A proposal that is neither skipped nor
/// refused is appended.
pub fn appends_are_new()
    ensures proposals { OfEachWorld ProposalsAppend }
    ensures new { OfEachWorld AppendsNew }
    ensures once { OfEachWorld AppendsOnce }
    ensures order { OfEachWorld AppliedBefore }
{}

/// A change of the learners alone is never skipped because of the voter groups, which it keeps: these are one to four, and
/// shared. The groups of the first membership have to ascend, as those of each `Membership` do.
pub fn learners_keep_groups()
    ensures { (given : Given) → IsWellFormed given → IsSound nat_cmp given.membership.groups given.membership.nodes → (es : List Event)
        → LearnersKeepGroups given es }
{}

/// Each history of clients' operations on a replicated object is linearizable (Herlihy and Wing), whatever the object.
pub fn clients_see_one_object<S, R>()
    ensures { (object : Object S R) → OfEachWorld (ClientsSeeOne object) }
{}

/// A read that a leader answers while it leads on has all that was applied before the read came, at any node. Whoever takes a
/// request of the leader's after the read came, entries or a snapshot, counts for that; and so does whoever replies to one after
/// it, unless it tells a higher vote.
pub fn reads_see_all_applied()
    ensures sees { OfEachWorld ReadsSeeAll }
    ensures takers { OfEachWorld TakersAreUnder }
    ensures replies { OfEachWorld RepliesTell }
{}
