//! Commands to the state machine.

ghost use Rattle.std.specs.Prelude.{◌≡◌};
ghost use Rattle.std.specs.List.{list_all, zip};
ghost use Rattle.raft_progress_entry.specs.raft_state.IdEquality.{log_id_eq};
ghost use Rattle.raft_command.specs.Equality.{ids_eq};
ghost use Rattle.raft_command.specs.declared.sm.CommandPayload.TheVariants.{BuildSnapshot, GetSnapshot, BeginReceivingSnapshot};
ghost use Rattle.raft_command.specs.declared.sm.CommandPayload.TheVariants.{InstallFullSnapshot, Apply};

use crate::message::{Snapshot, Token};
use raft_progress_entry::raft_state::{Items, RaftEntry, RaftTypeConfig};

/// What the state machine has to do (openraft's `sm::CommandPayload`).
#[derive(Drop)]
#[derive_where(Debug; C::Entry, C::SnapshotData)]
pub enum CommandPayload<C: RaftTypeConfig> {
    /// Build a snapshot of what is applied.
    BuildSnapshot,
    /// Give the caller the last snapshot.
    GetSnapshot { tx: Token },
    /// Prepare for a snapshot to be received, for the caller.
    BeginReceivingSnapshot { tx: Token },
    /// Replace what is applied by this snapshot.
    InstallFullSnapshot { snapshot: Snapshot<C> },
    /// Apply these entries.
    Apply { entries: Items<C::Entry> },
}

/// A command to the state machine, numbered in the order of pushing (openraft's `sm::Command`).
#[derive(Drop)]
#[derive_where(PartialEq, Eq)]
#[derive_where(Debug; C::Entry, C::SnapshotData)]
pub struct Command<C: RaftTypeConfig> {
    pub seq: u64,
    pub payload: CommandPayload<C>,
}

impl<C: RaftTypeConfig> PartialEq for CommandPayload<C> {
    ghost use Rattle.raft_command.specs.Equality.{payload_eq};
    ghost use Rattle.raft_command.specs.EqualityLaws.{payload_per};

    ghost eq = { payload_eq C.NodeId.eq C.Node.eq C.Entry.id_of };

    ghost laws = { payload_per _ _ _ C.NodeId.Eq.laws C.Node.Eq.laws };

    fn eq(&self, other: &Self) -> bool {
        match (self, other) {
            (CommandPayload::BuildSnapshot, CommandPayload::BuildSnapshot) => true,
            (CommandPayload::GetSnapshot { .. }, CommandPayload::GetSnapshot { .. }) => true,
            (
                CommandPayload::BeginReceivingSnapshot { .. },
                CommandPayload::BeginReceivingSnapshot { .. },
            ) => true,
            (
                CommandPayload::InstallFullSnapshot { snapshot: a },
                CommandPayload::InstallFullSnapshot { snapshot: b },
            ) => a.meta == b.meta,
            (CommandPayload::Apply { entries: a }, CommandPayload::Apply { entries: b }) => {
                have_same_ids::<C>(a.as_slice(), b.as_slice())
            }
            _ => false,
        }
    }
}

impl<C: RaftTypeConfig> Eq for CommandPayload<C> {
    ghost use Rattle.raft_command.specs.EqualityLaws.{payload_equiv};

    ghost laws = { payload_equiv _ _ _ C.NodeId.Eq.laws C.Node.Eq.laws };
}

/// Whether entries have the same log ids in the same order.
fn have_same_ids<C: RaftTypeConfig>(a: &[C::Entry], b: &[C::Entry]) -> bool
    ensures { result ≡ ids_eq C.NodeId.eq C.Entry.id_of a.now b.now }
{
    a.len() == b.len() && have_equal_ids::<C>(a, b)
}

/// Whether the entries at the same places, as far as both lists go, have the same log ids.
fn have_equal_ids<C: RaftTypeConfig>(a: &[C::Entry], b: &[C::Entry]) -> bool
    ensures { result ≡ list_all (λ pair. log_id_eq C.NodeId.eq (C.Entry.id_of pair.0) (C.Entry.id_of pair.1)) (zip a.now b.now) }
{
    a.iter()
        .zip(b.iter())
        .all(|(x, y)| x.get_log_id() == y.get_log_id())
}

impl<C: RaftTypeConfig> Command<C> {
    /// A command without a number yet, which is 0.
    pub fn new(payload: CommandPayload<C>) -> Self
        ensures { result ≡ record { seq = 0; payload = payload } }
    {
        Command { seq: 0, payload }
    }

    /// The command's number.
    pub fn seq(&self) -> u64
        ensures { result ≡ self.now.seq }
    {
        self.seq
    }

    /// The command with this number.
    pub fn with_seq(self, seq: u64) -> Self
        ensures { result ≡ record self { seq = seq } }
    {
        Command {
            seq,
            payload: self.payload,
        }
    }

    /// Gives the command this number.
    pub fn set_seq(&mut self, seq: u64)
        ensures { self.new ≡ record self.old { seq = seq } }
    {
        self.seq = seq;
    }

    /// The command to build a snapshot.
    pub fn build_snapshot() -> Self
        ensures { result ≡ record { seq = 0; payload = BuildSnapshot } }
    {
        Command::new(CommandPayload::BuildSnapshot)
    }

    /// The command to give a caller the last snapshot.
    pub fn get_snapshot(tx: Token) -> Self
        ensures { result ≡ record { seq = 0; payload = GetSnapshot tx } }
    {
        Command::new(CommandPayload::GetSnapshot { tx })
    }

    /// The command to prepare for a snapshot to be received.
    pub fn begin_receiving_snapshot(tx: Token) -> Self
        ensures { result ≡ record { seq = 0; payload = BeginReceivingSnapshot tx } }
    {
        Command::new(CommandPayload::BeginReceivingSnapshot { tx })
    }

    /// The command to replace what is applied by a snapshot.
    pub fn install_full_snapshot(snapshot: Snapshot<C>) -> Self
        ensures { result ≡ record { seq = 0; payload = InstallFullSnapshot snapshot } }
    {
        Command::new(CommandPayload::InstallFullSnapshot { snapshot })
    }

    /// The command to apply these entries.
    pub fn apply(entries: Vec<C::Entry>) -> Self
        ensures { result ≡ record { seq = 0; payload = Apply entries.items } }
    {
        Command::new(CommandPayload::Apply {
            entries: Items::from_vec(entries),
        })
    }
}
