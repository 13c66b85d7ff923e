//! No dead ends: from each reached world events elect a leader, and have it commit what it proposes, and leave that applied at the nodes
//! that it serves. Definitions and proofs, on functions that do nothing.
#![tactic(auto)]

ghost use Rattle.proof_progress.specs.Changes.{CandidatesVote, ChangedCommit, GreatestLogsExist, LeadersVote, MembershipsHaveLeaders};
ghost use Rattle.proof_progress.specs.Changes.{ProposersCommit, StartsFindStored};
ghost use Rattle.proof_progress.specs.CatchUps.{WorldsAllMatch, WorldsMatch};
ghost use Rattle.proof_progress.specs.Commits.{WorldsCommit, WorldsCommitAlone, WorldsExecute, WorldsPropose};
ghost use Rattle.proof_progress.specs.Choices.{ChoicesExist, KeptWorldsLead, WorldsChoose, WorldsElect};
ghost use Rattle.proof_progress.specs.Elections.{ElectableLead};
ghost use Rattle.proof_progress.specs.Exchanges.{WorldsExchange, WorldsSendAgain};
ghost use Rattle.proof_progress.specs.GoesOn.{CanCommit, CanCommitAlone};
ghost use Rattle.proof_progress.specs.Majorities.{MajoritiesCommit};
ghost use Rattle.proof_progress.specs.Followers.{RequestsAnswered, SuccessesCommit};
ghost use Rattle.proof_progress.specs.GoneByPlan.{PlansGoOn};
ghost use Rattle.proof_progress.specs.Proposals.{ProposalsCommit};
ghost use Rattle.proof_progress.specs.Replication.{AnswersEnd, QuorumsCommit};

use raft_state::{NodeId, RaftEntry, RaftTypeConfig};

/// If a node can be elected, finitely many events elect it, in whatever world: its timeout, and for one voter after another the
/// deliveries of its request and of its reply (Raft paper, section 5.2).
pub fn electable_nodes_are_elected()
    ensures { ElectableLead }
{}

/// From each reached world, whatever its votes, leases, messages and stopped nodes, finitely many events elect a choice: a voter
/// whose log isn't behind those of voters that are with it a quorum (Raft paper, section 5.4.1). There is one if the nodes that
/// have a log have the same voter groups: so in each world in which no event proposed other ones.
pub fn choices_are_elected()
    ensures elected { WorldsElect }
    ensures exist { ChoicesExist }
    ensures kept { WorldsChoose }
    ensures lead { KeptWorldsLead }
{}

/// At a leader's engine replication ends, whatever a node answers to what it is sent: matches and conflicts, in any order, bring
/// the node's log to match after at most twice as many answers as the leader's log has entries, and one. With the answer by which
/// a quorum matches, the leader's last entry is committed, if it is of its own leader id (Raft paper, sections 5.3 and 5.4.2). So a
/// proposal is committed once voters that are with the leader a quorum of each group match. A node that lacks what is to be purged
/// is sent the snapshot (section 7).
pub fn answers_bring_commits<C: RaftTypeConfig>()
    ensures end { AnswersEnd C C.Node C.Entry C.D C.R C.SnapshotData C.NodeId.cmp }
    ensures commit { QuorumsCommit C C.Node C.Entry C.D C.R C.SnapshotData C.NodeId.cmp }
    ensures propose { ProposalsCommit C C.Node C.Entry C.D C.R C.SnapshotData C.NodeId.cmp C.Entry.RaftEntry.own }
{}

/// A node whose vote isn't above its leader's answers a request for entries with success, or with a conflict at the id before
/// them; after success, what the leader says is committed is, as far as the request went (Raft paper, figure 2: AppendEntries).
pub fn followers_answer<C: RaftTypeConfig>()
    ensures answered { RequestsAnswered C C.Node C.Entry C.D C.R C.SnapshotData C.NodeId.cmp C.Entry.RaftEntry.own }
    ensures commit { SuccessesCommit C C.Node C.Entry C.D C.R C.SnapshotData C.NodeId.cmp C.Entry.RaftEntry.own }
{}

/// In each reached world the delivery of a leader's request for entries, and of the node's answer to it, is such an answer: the
/// leader handles it, the node follows the leader, and what the leader sends next is on its way (Raft paper, section 5.3). So it
/// is after a failure of what was in flight, wherever that is: with a failure an exchange begins.
pub fn exchanges_are_events()
    ensures exchange { WorldsExchange }
    ensures again { WorldsSendAgain }
{}

/// From each reached world in which a node leads, a failure, and then at most four deliveries for each entry of its log, bring another
/// node's log to match it, however they differed (Raft paper, section 5.3). *Premises*: the node's vote isn't above the leader's, and
/// it needs no snapshot; numbers for commands and requests are left.
pub fn followers_catch_up()
    ensures one { WorldsMatch }
    ensures all { WorldsAllMatch }
{}

/// From each reached world in which a node leads, its proposal, and then for each of the voters that are with it a quorum a failure
/// and deliveries, commit the proposed values; with as many for each other node, and a delivery that tells what is committed, they are
/// committed and applied at all of these nodes (Raft paper, sections 5.3 and 5.4.2). A leader that is a quorum alone commits with its
/// proposal. *Premises*: as above, of each node; indexes are left, and the leader's streams go to these nodes.
pub fn leaders_commit()
    ensures propose { WorldsPropose }
    ensures commit { WorldsCommit }
    ensures execute { WorldsExecute }
    ensures alone { WorldsCommitAlone }
{}

/// From each reached world the cluster can go on, whatever its votes, leases, messages and stopped nodes: nodes make bare starts, as
/// servers do; timeouts and deliveries elect one of them; and it commits the values that it proposes: it and the others execute them.
/// It takes at most as many events as `most` says. *Premises*: the node is a voter whose log isn't behind those of voters that are with
/// it a quorum; no node needs a snapshot; there are terms, indexes and numbers left, and entries may be sent. A quorum alone commits by
/// three events, without the others. If no event proposed other voter groups, any majority of each group goes on by itself, if one of its
/// voters has a log: the voter with the greatest last id is such a node. Whatever groups events proposed, joint ones too, so do any
/// nodes of which one is a voter of its own membership, with the greatest log of that membership's voters among them, if these are a
/// majority of each of its groups. There is such a node in each world in which no learner stood, and each event that changed the voters left
/// its node one, once a log has an entry of an elected leader, or any node is a voter of its own membership: with a majority of each of its
/// groups it goes on. What these nodes do is a plan, computed from the world, if a quorum alone has no other members among them.
pub fn can_commit()
    ensures others { CanCommit }
    ensures alone { CanCommitAlone }
    ensures kept { MajoritiesCommit }
    ensures changed { ChangedCommit }
    ensures proposers { ProposersCommit }
    ensures planned { PlansGoOn }
{}

/// In each reached world in which no learner stood, a node that is a candidate under its vote is a voter of its own effective
/// membership, so the log by which it asks for votes is a voter's (Raft paper, section 6).
pub fn candidates_are_voters()
    ensures { CandidatesVote }
{}

/// In each reached world in which no learner stood, and each event that changed the voters left its node one, a node whose stored vote is
/// its own, and committed, is a voter of its stored membership, wherever it was stopped: so each leader is a voter (Raft paper, section 6).
/// And each membership in a whole log, but the first, has the leader that proposed it as a voter.
pub fn leaders_are_voters()
    ensures lead { LeadersVote }
    ensures propose { MembershipsHaveLeaders }
{}

/// At each node of each reached world, wherever it was stopped, the engine of a bare start has the membership and the last id of the
/// whole log that is stored there.
pub fn starts_find_what_is_stored()
    ensures { StartsFindStored }
{}

/// In each reached world in which no learner stood, and each event that changed the voters left its node one, there is a node to go on by:
/// a voter of its own membership whose log none is above, once a log has an entry of an elected leader, or any node is a voter of its own
/// membership (Raft paper, sections 5.4.1 and 6).
pub fn greatest_logs_exist()
    ensures { GreatestLogsExist }
{}
