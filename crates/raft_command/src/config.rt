//! Settings of an engine.

ghost use Rattle.std.specs.Prelude.{◌≡◌};
ghost use Rattle.raft_command.specs.Config.{new_config, default_config};

use raft_progress_entry::raft_state::{NodeId, SnapshotPolicy};

/// Spans of time, in milliseconds.
pub mod time_state {
    /// Spans of time, in milliseconds (openraft's `time_state::Config`).
    #[derive(Clone, Copy, PartialEq, Eq, Debug)]
    pub struct Config {
        /// How long a node without a leader waits before it starts an election.
        pub election_timeout: u64,
        /// How long it waits if it has seen a greater log than its own.
        pub smaller_log_timeout: u64,
        /// How long a node grants no vote after it heard from a leader.
        pub leader_lease: u64,
    }

    impl Default for Config {
        ghost use Rattle.std.specs.Prelude.{◌≡◌};
        ghost use Rattle.raft_command.specs.Config.{default_times};

        ghost is_default = { λ config. config ≡ default_times };

        fn default() -> Config {
            Config {
                election_timeout: 150,
                smaller_log_timeout: 200,
                leader_lease: 150,
            }
        }
    }
}

/// The settings of an engine (openraft's `EngineConfig`).
#[derive(Clone, Copy, PartialEq, Eq, Debug)]
pub struct EngineConfig<NID> {
    /// The id of this node.
    pub id: NID,
    /// When a snapshot is built.
    pub snapshot_policy: SnapshotPolicy,
    /// How many entries that the snapshot covers stay in the log.
    pub max_in_snapshot_log_to_keep: u64,
    /// The least number of entries purged at once.
    pub purge_batch_size: u64,
    /// The greatest number of entries sent at once.
    pub max_payload_entries: u64,
    /// The election timeout and the lease, in milliseconds.
    pub timer_config: time_state::Config,
}

impl<NID: NodeId> EngineConfig<NID> {
    /// The settings with these values. The times are in milliseconds: a node that has seen a greater log waits twice
    /// `election_timeout_max`, at most the greatest u64, and the lease is `election_timeout_max`.
    pub fn new(
        id: NID,
        snapshot_policy: SnapshotPolicy,
        max_in_snapshot_log_to_keep: u64,
        purge_batch_size: u64,
        max_payload_entries: u64,
        election_timeout: u64,
        election_timeout_max: u64,
    ) -> Self
        ensures { result ≡ new_config id snapshot_policy max_in_snapshot_log_to_keep purge_batch_size max_payload_entries election_timeout election_timeout_max }
    {
        EngineConfig {
            id,
            snapshot_policy,
            max_in_snapshot_log_to_keep,
            purge_batch_size,
            max_payload_entries,
            timer_config: time_state::Config {
                election_timeout,
                smaller_log_timeout: election_timeout_max.saturating_mul(2),
                leader_lease: election_timeout_max,
            },
        }
    }
}

impl<NID: NodeId> Default for EngineConfig<NID> {
    ghost use Rattle.std.specs.Prelude.{◌≡◌};
    ghost use Rattle.raft_command.specs.Config.{default_config};

    ghost is_default = { λ config. config ≡ default_config NID.default_id };

    fn default() -> Self {
        EngineConfig {
            id: NID::default(),
            snapshot_policy: SnapshotPolicy::LogsSinceLast(5000),
            max_in_snapshot_log_to_keep: 1000,
            purge_batch_size: 256,
            max_payload_entries: 300,
            timer_config: time_state::Config::default(),
        }
    }
}
