//! What a server's policy chooses.

ghost use Rattle.std.specs.Prelude.{◌≡◌};
ghost use Rattle.raft_core.specs.Steps.{act_of};

use raft_calls::elections::Candidates;
use raft_node::act::Act;
use raft_state::Items;
use std::alloc::AllocError;

/// A step that a server takes of its own. Each may be taken at any time, whatever other servers do.
#[derive(Drop)]
pub enum Move {
    /// It starts an election: a learner may, too (Ongaro's thesis, section 4.2.2).
    Stand,
    /// As leader it sends heartbeats.
    Beat,
    /// As leader it takes the request in flight to this target as failed.
    Fail(u64),
    /// As leader it steps down, if it is no member any more.
    StepDown,
    /// The build of the noted snapshot ends.
    FinishSnapshot,
    /// As leader it proposes these learners.
    ChangeLearners(Items<u64>),
    /// As leader it proposes these voter groups and learners.
    ChangeVoters {
        groups: Items<Items<u64>>,
        learners: Items<u64>,
    },
}

/// The act of a move.
pub fn act_of(chosen: Move) -> Act
    ensures { result ≡ act_of chosen }
{
    match chosen {
        Move::Stand => Act::Elect(Candidates::AllMembers),
        Move::Beat => Act::SendHeartbeat,
        Move::Fail(target) => Act::Fail(target),
        Move::StepDown => Act::StepDown,
        Move::FinishSnapshot => Act::FinishSnapshot,
        Move::ChangeLearners(learners) => Act::ChangeLearners(learners),
        Move::ChangeVoters { groups, learners } => Act::ChangeMembership { groups, learners },
    }
}

/// One more move.
pub fn push_move(chosen: Move, moves: &mut Vec<Move>) -> Result<(), AllocError> {
    Ok(moves.push(chosen)?)
}
