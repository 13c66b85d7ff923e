//! Commands for the runtime.

ghost use Rattle.std.specs.Prelude.{◌≡◌};
ghost use Rattle.std.specs.Option.{option_copied};
ghost use Rattle.raft_command.specs.Kind.{kind_of, condition_of};

use crate::message::VoteRequest;
use crate::respond::Respond;
use crate::sm;
use raft_progress_entry::raft_state::{Items, LeaderId, LogId, RaftTypeConfig, Vote};
use raft_progress_entry::{Inflight, ProgressEntry};

/// What a command waits for (openraft's `Condition`).
#[derive(Clone, Copy, PartialEq, Eq, Debug)]
pub enum Condition<NID> {
    /// The entries up to this log id, written under this leader's vote, are on disk. The engine never queues this condition.
    LogFlushed {
        leader: LeaderId<NID>,
        log_id: Option<LogId<NID>>,
    },
    /// The entries up to this log id are applied. The engine never queues this condition.
    Applied {
        log_id: Option<LogId<NID>>,
    },
    /// The state machine has executed the command with this number.
    StateMachineCommand {
        command_seq: u64,
    },
}

/// Who executes a command (openraft's `CommandKind`).
#[derive(Clone, Copy, PartialEq, Eq, Debug)]
pub enum CommandKind {
    /// The log store.
    Log,
    /// The network.
    Network,
    /// The state machine.
    StateMachine,
    /// The runtime itself.
    Main,
}

/// What the runtime has to do, in order (openraft's `Command`).
#[derive(Drop)]
#[derive_where(PartialEq, Eq; C::Entry)]
#[derive_where(Debug; C::Entry, C::SnapshotData)]
pub enum Command<C: RaftTypeConfig> {
    /// This node has become leader.
    BecomeLeader,
    /// This node is no longer leader.
    QuitLeader,
    /// Store these entries. The vote is that of the leader that proposes or replicates them (older leaders may have written
    /// some), or, of a cluster's first entry, the node's.
    AppendInputEntries {
        vote: Vote<C::NodeId>,
        entries: Items<C::Entry>,
    },
    /// Send the committed log id to the targets.
    ReplicateCommitted {
        committed: Option<LogId<C::NodeId>>,
    },
    /// Record that the stored entries up to and with `upto` are committed, and apply those above `already_committed`.
    Commit {
        seq: u64,
        already_committed: Option<LogId<C::NodeId>>,
        upto: LogId<C::NodeId>,
    },
    /// Send entries or a snapshot to a target.
    Replicate {
        target: C::NodeId,
        req: Inflight<C::NodeId>,
    },
    /// Close all streams of replication and open one to each of these targets.
    RebuildReplicationStreams {
        targets: Items<(C::NodeId, ProgressEntry<C::NodeId>)>,
    },
    /// Store the vote.
    SaveVote {
        vote: Vote<C::NodeId>,
    },
    /// Send the vote request to all other nodes of the effective membership: voters and learners.
    SendVote {
        vote_req: VoteRequest<C::NodeId>,
    },
    /// Remove the stored entries up to and with `upto`.
    PurgeLog {
        upto: LogId<C::NodeId>,
    },
    /// Remove the stored entries from `since` on.
    DeleteConflictLog {
        since: LogId<C::NodeId>,
    },
    /// Hand a command to the state machine.
    StateMachine {
        command: sm::Command<C>,
    },
    /// Reply to a caller; with a condition, once it is met.
    Respond {
        when: Option<Condition<C::NodeId>>,
        resp: Respond<C>,
    },
}

impl<C: RaftTypeConfig> Command<C> {
    /// Who executes the command.
    pub fn kind(&self) -> CommandKind
        ensures { result ≡ kind_of self.now }
    {
        match self {
            Command::BecomeLeader
            | Command::QuitLeader
            | Command::Commit { .. }
            | Command::RebuildReplicationStreams { .. }
            | Command::Respond { .. } => CommandKind::Main,
            Command::AppendInputEntries { .. }
            | Command::SaveVote { .. }
            | Command::PurgeLog { .. }
            | Command::DeleteConflictLog { .. } => CommandKind::Log,
            Command::ReplicateCommitted { .. }
            | Command::Replicate { .. }
            | Command::SendVote { .. } => CommandKind::Network,
            Command::StateMachine { .. } => CommandKind::StateMachine,
        }
    }

    /// What the command waits for; only a reply may wait.
    pub fn condition(&self) -> Option<&Condition<C::NodeId>>
        ensures { option_copied result ≡ condition_of self.now }
    {
        match self {
            Command::Respond { when, .. } => when.as_ref(),
            _ => None,
        }
    }
}

impl<C: RaftTypeConfig> From<sm::Command<C>> for Command<C> {
    ghost use Rattle.std.specs.Prelude.{◌≡◌};
    ghost use Rattle.raft_command.specs.declared.command.Command.TheVariants.{StateMachine};

    ghost from_gives = { λ command outcome. outcome ≡ StateMachine command };

    fn from(command: sm::Command<C>) -> Self {
        Command::StateMachine { command }
    }
}
