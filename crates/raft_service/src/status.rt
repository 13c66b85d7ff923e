//! What a service tells of itself.

use raft_executor::Executor;
use raft_state::LogId;
use std::alloc::{AllocError, Global};

/// What a server is, as far as the entries tell that it has executed.
#[derive(Clone, Copy, PartialEq, Eq, Debug)]
pub enum Role {
    /// It isn't a voter.
    Learner,
    /// Another server led last, or none.
    Follower,
    /// It led last.
    Leader,
}

/// What a service tells of itself. It knows the leader and the members by the entries that it has executed.
#[derive(Debug, Drop)]
pub struct Status {
    pub id: u64,
    pub role: Role,
    /// The last entry that was executed: its leader is the one that led last.
    pub applied: Option<LogId<u64>>,
    pub voters: Vec<u64>,
    pub learners: Vec<u64>,
    /// How many clients are connected.
    pub clients: usize,
    /// How many requests wait for their answers.
    pub requests: usize,
}

/// What a server is, by the last entry that was executed and the voters.
fn role_of(id: u64, applied: &Option<LogId<u64>>, voters: &[u64]) -> Role {
    if !voters.contains(&id) {
        return Role::Learner;
    }
    match applied {
        Some(applied) if applied.leader_id.node_id == id => Role::Leader,
        _ => Role::Follower,
    }
}

/// The voters and the learners.
fn members_of(alloc: Global, executor: &Executor) -> Result<(Vec<u64>, Vec<u64>), AllocError> {
    match executor.members() {
        Some(members) => Ok((members.voter_ids()?, members.learner_ids()?)),
        None => Ok((Vec::new(alloc), Vec::new(alloc))),
    }
}

impl Status {
    /// What the entries tell.
    pub(crate) fn of(
        alloc: Global,
        id: u64,
        executor: &Executor,
        clients: usize,
        requests: usize,
    ) -> Result<Self, AllocError> {
        let applied = executor.applied();
        let (voters, learners) = members_of(alloc, executor)?;
        Ok(Status {
            id,
            role: role_of(id, &applied, &voters),
            applied,
            voters,
            learners,
            clients,
            requests,
        })
    }
}
