//! What a world is made of.

use raft_command::EngineConfig;
use raft_state::{Items, Membership};

/// What a world is made of: its nodes' ids, the first membership, and the settings, in which each node puts its own id.
#[derive(Debug, Drop)]
pub struct Given {
    pub ids: Items<u64>,
    pub membership: Membership<u64, ()>,
    pub settings: EngineConfig<u64>,
}
