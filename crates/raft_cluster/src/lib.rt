//! Clusters of servers: their disks as bytes, their clients, and the network between them. A cluster runs the servers' own code
//! ([`raft_core::RaftCore`]), and models none of it; what their state machine is, the caller chooses. (`raft_cluster_text` plays texts of it.)
//!
//! # What is proved
//!
//! Until a byte on a disk is changed by hand (`Corrupt`), or a packet that no server sent is taken (`Receive`), the cluster follows the
//! model's servers after each action (`Follows`, [`Cluster::play`]): each server that serves, with the bytes on its disk, stands for one
//! that took the same steps, packed, and what left it is what that one said; so it does once a new log, which was made in a file beside
//! the disk, takes its place. So some events of a world make what is on the disks and all that has left, and what clients were told
//! agrees ([`clusters_follow`]). What clients asked and were told is linearizable, whatever the object that the servers replicate
//! ([`clusters_see_one_object`]); and no acknowledged write is lost: clients were told of an entry with its bytes as executed, at the
//! index that its answer names (`KeepsWrites`).
//!
//! Whatever the actions are, an answer that says `ok` names the index of an entry that clients were told of as executed
//! (`KeepsAcknowledged`).
#![tactic(auto)]

pub use proof_requests::raft_core;
pub use raft_packed_wire::raft_packed_node;

mod action;
mod cluster;
mod comes;
mod dice;
mod error;
mod laws;
mod machine;
mod network;
mod told;

pub use action::{Action, value_of};
pub use cluster::{Cluster, FIRST_LOAD_TOKEN};
pub use comes::Comes;
pub use dice::Dice;
pub use error::ClusterError;
pub use laws::{clusters_follow, clusters_see_one_object};
pub use machine::{Done, Machine};
pub use network::{Network, Sent};
pub use told::{Answered, Asked, Installed, Told, acknowledged};
