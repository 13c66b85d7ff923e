//! The settings of a server's policy, and its limits.

use raft_answers::Limits;

/// Spans of time in milliseconds, and limits.
#[derive(Clone, Copy, Debug)]
pub struct Config {
    /// The greatest jitter that is added to an election timeout.
    pub election_spread: u64,
    /// How often a leader sends heartbeats.
    pub heartbeat_interval: u64,
    /// How long a leader waits for the answer to a request, before it counts as failed; 20 times as long if that brings a snapshot.
    pub patience: u64,
    /// How long a client's request waits for its answer.
    pub request_timeout: u64,
    /// How many entries a new voter's log may lack when it becomes one.
    pub catch_up: u64,
    /// After how many bytes a log is replaced by a new one.
    pub log_bytes: u64,
    /// What is taken of clients.
    pub limits: Limits,
    /// What is taken of peers.
    pub peers: PeerLimits,
}

/// The usual number of bytes of a snapshot that leave in a frame: 1 MiB.
pub const PART_BYTES: usize = 1 << 20;

/// The usual limit of a snapshot's bytes: 1 TiB.
pub const SNAPSHOT_BYTES: u64 = 1 << 40;

/// What is taken of peers, and no more.
#[derive(Clone, Copy, Debug)]
pub struct PeerLimits {
    /// The most bytes of a frame.
    pub frame_bytes: usize,
    /// The most bytes of a snapshot that leave in a frame: a larger one leaves in parts.
    pub part_bytes: usize,
    /// The most bytes of a snapshot.
    pub snapshot_bytes: u64,
    /// After how many bytes, of frames taken and of values proposed since no record waited last, frames are refused.
    pub unwritten_bytes: usize,
    /// By how much a term may be above this server's.
    pub term_jump: u64,
}

impl Config {
    /// Settings for servers that are a millisecond apart.
    pub fn usual() -> Self {
        Config {
            election_spread: 150,
            heartbeat_interval: 50,
            patience: 500,
            request_timeout: 5000,
            catch_up: 100,
            log_bytes: 64 << 20,
            limits: Limits {
                value_bytes: 1 << 20,
                waiting_bytes: 16 << 20,
                requests: 1 << 16,
                batch_bytes: 1 << 20,
            },
            peers: PeerLimits {
                frame_bytes: 512 << 20,
                part_bytes: PART_BYTES,
                snapshot_bytes: SNAPSHOT_BYTES,
                unwritten_bytes: 64 << 20,
                term_jump: 1 << 32,
            },
        }
    }
}
