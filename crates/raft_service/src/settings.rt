//! What a service is set up with.

use raft_core::Config;
use raft_frames::LogId;
use raft_node::given::Given;
use raft_state::Items;
use std::collections::BTreeMap;

/// Where clients reach a server.
#[derive(PartialEq, Eq, Debug, Drop)]
pub struct Address {
    /// Its host's name, or its address.
    pub host: Items<u8>,
    pub port: u16,
}

/// What a service is set up with.
#[derive(Drop)]
pub struct Settings {
    /// Whose log it is: the cluster, and the server.
    pub id: LogId,
    /// The servers of the cluster, its first members, and the engine's settings.
    pub given: Given,
    /// The timers and limits of the server.
    pub config: Config,
    /// What is set for each connection.
    pub connections: raft_connection::Settings,
    /// Where clients reach each server.
    pub addresses: BTreeMap<u64, Address>,
    /// The most clients that are connected.
    pub clients: usize,
}
